//! The version lock over a book that keeps its history in a list.

ghost use Rattle.std.specs.Prelude.{◌≡◌, ◌<◌, ℕ, length, IfOk};
ghost use Rattle.version_lock.specs.Callers.{IsSeatOf, IsNoteOf, IsSameSeat, HasNumber, first_seat};

use crate::plain_book::{PlainBook, entry, plain_book};
use crate::same::same;
use dn_model::{Entry, OutOfMemory};
use std::alloc::Global;
use std::process::Abort;
use std::sync::Wait;
use std::test::Fail;
use std::thread::{Threads, join};
use version_lock::{Note, PostRefused, Seat, VersionLock};

/// A lock over an empty book.
fn lock_of(
    rt: &impl Abort,
    alloc: Global,
    limit: u32,
    seats: u32,
) -> Result<(VersionLock<PlainBook>, Seat), OutOfMemory>
    requires { 0 < seats }
    ensures router { IfOk result (λ made. 0 < length made.0.setup.basis.topology.routers) }
    ensures seats { IfOk result (λ made. made.0.setup.seats ≡ seats) }
    ensures first { IfOk result (λ made. made.1 ≡ first_seat made.0) }
{
    VersionLock::new(alloc, plain_book(rt, alloc, limit)?, seats)
}

/// What two threads share, and what goes from one to the other.
fn crosses<T: Send + Sync>(_value: &T) {}

fn moves<T: Send>(_value: &T) {}

#[test]
fn one_seat_applies_and_pins(rt: HostRuntime) -> Result<(), Fail> {
    let (lock, mut seat) = lock_of(&rt, rt.alloc(), 10, 1)?;
    crosses(&lock);
    moves(&seat);
    let before = lock.pin(&rt, &mut seat)?.snap.number();
    let position = lock.apply(&rt, &mut seat, &entry(7));
    let after = lock.pin(&rt, &mut seat)?.snap.number();
    same(&rt, &(before, position, after), &(0, Ok(1), 1));
    let number = seat.number();
    let book = lock.close(seat);
    let posted = book.posted.as_slice();
    assert_eq!(rt; posted.len(), 1);
    same(&rt, &(posted[0].seat, posted[0].entry), &(number, entry(7)));
    Ok(())
}

#[test]
fn a_full_book_refuses(rt: HostRuntime) -> Result<(), Fail> {
    let (lock, mut seat) = lock_of(&rt, rt.alloc(), 2, 1)?;
    let first = lock.apply(&rt, &mut seat, &entry(1));
    let second = lock.apply(&rt, &mut seat, &entry(2));
    let third = lock.apply(&rt, &mut seat, &entry(3));
    same(&rt, &(first, second), &(Ok(1), Ok(2)));
    same(&rt, &third, &Err(PostRefused::Full { length: 2 }));
    let book = lock.close(seat);
    same(&rt, &book.posted.len(), &2);
    Ok(())
}

#[test]
fn one_thread_sees_what_it_was_not_told(rt: HostRuntime) -> Result<(), Fail> {
    let (lock, mut a) = lock_of(&rt, rt.alloc(), 10, 2)?;
    let mut b = lock.split(&mut a, 1);
    same(
        &rt,
        &(a.number(), a.span(), b.number(), b.span()),
        &(0, 1, 1, 1),
    );
    let position = lock.apply(&rt, &mut a, &entry(1));
    let pinned = lock.pin(&rt, &mut b)?.snap.number();
    same(&rt, &(position, pinned), &(Ok(1), 1));
    Ok(())
}

/// Applies entries one after another, until one is refused.
fn apply_many<R: Wait>(rt: &R, lock: &VersionLock<PlainBook>, seat: Seat, count: u32) -> Seat
    requires lock { IsSeatOf lock.now seat }
    requires router { 0 < length lock.now.setup.basis.topology.routers }
    ensures { IsSameSeat seat result }
{
    let mut seat = seat;
    for feed_no in 0..count {
        if lock.apply(rt, &mut seat, &entry(feed_no)).is_err() {
            break;
        }
    }
    seat
}

/// Two halves of a seat apply entries side by side.
fn in_two<R: Threads + Wait + Sync>(
    rt: &R,
    lock: &VersionLock<PlainBook>,
    seat: Seat,
    count: u32,
) -> Seat
    requires lock { IsSeatOf lock.now seat }
    requires router { 0 < length lock.now.setup.basis.topology.routers }
    requires span { 1 < seat.span }
    ensures lock { IsSeatOf lock.now result }
    ensures numbers { (n : ℕ) → HasNumber seat n → HasNumber result n }
{
    let mut mine = seat;
    let half = mine.span() / 2;
    let theirs = lock.split(&mut mine, half);
    let (one, two) = join(
        rt,
        move || apply_many(rt, lock, mine, count),
        move || apply_many(rt, lock, theirs, count),
    );
    let mut whole = one;
    lock.join(&mut whole, two);
    whole
}

/// Applies an entry, and says so.
fn apply_and_tell<R: Wait>(rt: &R, lock: &VersionLock<PlainBook>, seat: Seat) -> (Option<u32>, Note)
    requires lock { IsSeatOf lock.now seat }
    requires router { 0 < length lock.now.setup.basis.topology.routers }
    ensures { IsNoteOf lock.now result.1 }
{
    let mut seat = seat;
    let position = lock.apply(rt, &mut seat, &entry(1)).ok();
    (position, lock.note(&mut seat))
}

/// Reads a note, and pins.
fn meet_and_pin<R: Wait>(
    rt: &R,
    lock: &VersionLock<PlainBook>,
    seat: Seat,
    note: Note,
) -> Option<usize>
    requires lock { IsSeatOf lock.now seat }
    requires note { IsNoteOf lock.now note }
{
    let mut seat = seat;
    lock.meet(&mut seat, note);
    let pinned = lock.pin(rt, &mut seat).ok()?;
    Some(pinned.snap.number())
}

/// One thread applies and hands over a note, and another, which got it, pins.
fn tell<R: Threads + Wait + Sync>(
    rt: &R,
    lock: &VersionLock<PlainBook>,
    a: Seat,
    b: Seat,
) -> (Option<u32>, Option<usize>)
    requires a { IsSeatOf lock.now a }
    requires b { IsSeatOf lock.now b }
    requires router { 0 < length lock.now.setup.basis.topology.routers }
{
    let (told, ()) = join(rt, move || apply_and_tell(rt, lock, a), || ());
    let (position, note) = told;
    let (pinned, ()) = join(rt, move || meet_and_pin(rt, lock, b, note), || ());
    (position, pinned)
}

#[test]
fn a_note_goes_to_another_thread(rt: HostRuntime) -> Result<(), Fail> {
    let (lock, mut a) = lock_of(&rt, rt.alloc(), 10, 2)?;
    let b = lock.split(&mut a, 1);
    same(&rt, &tell(&rt, &lock, a, b), &(Some(1), Some(1)));
    Ok(())
}

/// The number of the feed that a router's update came from.
fn feed_of(entry: &Entry) -> Option<u32> {
    match entry {
        Entry::Route { feed_no, .. } => Some(*feed_no),
        Entry::Link { .. } => None,
    }
}

#[test]
fn two_threads_contend(rt: HostRuntime) -> Result<(), Fail> {
    let (lock, seat) = lock_of(&rt, rt.alloc(), 10000, 2)?;
    let seat = in_two(&rt, &lock, seat, 2000);
    let book = lock.close(seat);
    same(&rt, &book.posted.len(), &4000);
    for number in 0..2u32 {
        let mut next = 0u32;
        for posted in book.posted.as_slice() {
            if posted.seat == number {
                same(&rt, &feed_of(&posted.entry), &Some(next));
                next = next.wrapping_add(1);
            }
        }
        same(&rt, &next, &2000);
    }
    Ok(())
}
