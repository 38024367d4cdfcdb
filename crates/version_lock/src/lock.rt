//! The lock.

ghost use Rattle.std.specs.Prelude.{◌≡◌, ◌-◌, ◌<◌, ◌++◌, ℕ, [], All, Contains, IfOk, IfErr, OnErr};
ghost use mathlib.Core.List.{IsPrefix};
ghost use Rattle.version_lock.specs.Callers.{IsSeatOf, IsNoteOf, HasNumber, IsSameSeat, KeepsOwn, Applied, first_seat, note_by, upper_seat, numbers};
ghost use Rattle.version_lock.specs.History.{IsRefusedAt, HasSameOf, posted_by};
ghost use Rattle.version_lock.specs.Rule.{longer};

use crate::book::{Book, Pinned, PostRefused};
use crate::parts::{give, take_in};
use crate::plays::Notes;
use crate::seat::{Note, Seat};
use crate::shelved::Shelved;
use crate::turn::{BOOK, post_in, snap_in, take_book};
use crate::view::{Desk, Opening, Token};
use atomic_table::{Badge, Table};
use dn_model::{Entry, OutOfMemory};
use std::alloc::Global;
use std::marker::{Brand, Model};
use std::mem;
use std::snapshot::Snapshot;
use std::sync::Wait;

/// A lock over a book: one history, which all seats see beginnings of. A call works with the book while it has the turn,
/// which one seat has at a time; others sleep until it is free.
#[derive(Drop)]
pub struct VersionLock<B: Book> {
    desk: Desk<B>,
}

impl<B: Book> Model for VersionLock<B> {
    ghost use Rattle.std.specs.Prelude.{◌≡◌};
    ghost use Rattle.version_lock.specs.Callers.{Lock};

    ghost Value = { Lock };

    ghost use Rattle.version_lock.specs.Rule.{setup_of};

    ghost view = { λ l. record { table = l.desk.shared.table_id; setup = setup_of B.basis l.desk.shared.key } };

    ghost invariant = { λ l. (l.desk.shared.table_id.words ≡ 2) × (l.desk.shared.table_id.slots ≡ 1) };
}

impl<B: Book> VersionLock<B> {
    /// A lock over an empty book, and its first seat, which has all the numbers, those below `seats`. After `OutOfMemory`,
    /// for which alone it fails, the book is dropped.
    pub fn new(alloc: Global, book: B, seats: u32) -> Result<(VersionLock<B>, Seat), OutOfMemory>
        requires empty { B.history book ≡ [] }
        requires some_seat { 0 < seats }
        ensures setup { IfOk result (λ made. made.0.setup ≡ record { basis = B.basis book; seats = seats }) }
        ensures seat { IfOk result (λ made. made.1 ≡ first_seat made.0) }
    {
        let opening = Opening {
            book: Snapshot::of(&book),
            seats,
        };
        let shelved = Shelved::new(alloc, book)?;
        let mut slots = Vec::new(alloc);
        slots.push(Some(shelved))?;
        let Ok((desk, token)) = Table::new(alloc, &[0, 0], slots, &opening) else {
            return Err(OutOfMemory);
        };
        let seat = Seat {
            badge: token.into_badge(),
            number: 0,
            span: seats,
        };
        Ok((VersionLock { desk }, seat))
    }

    /// Adds an entry under the seat's number to the history, and answers its position there, from 1. The seat has then seen
    /// all up to it. `Full` comes exactly where the history has as many entries as the book takes, and what the seat has
    /// seen is then that history. After a refusal the seat has seen at least what it had.
    pub fn apply<R: Wait>(&self, rt: &R, seat: &mut Seat, entry: &Entry) -> Result<u32, PostRefused>
        requires lock { IsSeatOf self.now seat.old }
        requires entry { B.takes self.now.setup.basis entry.now }
        ensures same { IsSameSeat seat.old seat.new }
        ensures seen { IsPrefix seat.old.seen seat.new.seen }
        ensures ok { IfOk result (Applied entry.now self.now.setup.basis.limit seat.old seat.new) }
        ensures refused { OnErr result (KeepsOwn seat.old seat.new) }
        ensures full { IfErr result (IsRefusedAt self.now.setup.basis.limit seat.new.seen) }
    {
        let board = &self.desk.shared;
        let number = seat.number;
        let mut token: Token<B> = mem::replace(&mut seat.badge, Badge::blank()).into_seat();
        let book = take_book(rt, board, &mut token);
        let answer = post_in(board, &mut token, book, number, entry);
        seat.badge = token.into_badge();
        answer
    }

    /// A snapshot of the history, which the seat has then seen. After `OutOfMemory`, for which alone it fails, the seat has
    /// seen at least what it had.
    pub fn pin<R: Wait>(&self, rt: &R, seat: &mut Seat) -> Result<Pinned<B>, OutOfMemory>
        requires lock { IsSeatOf self.now seat.old }
        ensures same { IsSameSeat seat.old seat.new }
        ensures seen { IsPrefix seat.old.seen seat.new.seen }
        ensures own { KeepsOwn seat.old seat.new }
        ensures shown { IfOk result (λ pinned. B.shown pinned.snap ≡ seat.new.seen) }
        ensures topology { IfOk result (λ pinned. B.shown_topology pinned.snap ≡ self.now.setup.basis.topology) }
    {
        let board = &self.desk.shared;
        let mut token: Token<B> = mem::replace(&mut seat.badge, Badge::blank()).into_seat();
        let book = take_book(rt, board, &mut token);
        let snap = snap_in(board, &mut token, book);
        seat.badge = token.into_badge();
        Ok(Pinned { snap: snap? })
    }

    /// A note of what the seat has seen, which stays as it is.
    pub fn note(&self, seat: &mut Seat) -> Note
        requires lock { IsSeatOf self.now seat.old }
        ensures note { result ≡ note_by seat.old }
        ensures same { seat.new ≡ seat.old }
    {
        let mut token: Token<B> = mem::replace(&mut seat.badge, Badge::blank()).into_seat();
        let told = self.desk.shared.split_seat::<Notes>(&mut token);
        seat.badge = token.into_badge();
        Note {
            badge: told.into_badge(),
        }
    }

    /// The seat has from now on seen what the note's had.
    pub fn meet(&self, seat: &mut Seat, note: Note)
        requires lock { IsSeatOf self.now seat.old }
        requires note { IsNoteOf self.now note }
        ensures same { IsSameSeat seat.old seat.new }
        ensures seen { seat.new.seen ≡ longer seat.old.seen note.seen }
        ensures mine { IsPrefix seat.old.seen seat.new.seen }
        ensures told { IsPrefix note.seen seat.new.seen }
        ensures own { KeepsOwn seat.old seat.new }
    {
        let mut token: Token<B> = mem::replace(&mut seat.badge, Badge::blank()).into_seat();
        let Note { badge } = note;
        let told: Token<B> = badge.into_seat();
        take_in(&self.desk.shared, &mut token, told);
        seat.badge = token.into_badge();
    }

    /// Gives the upper `count` numbers of the seat's span to a new seat, which has seen as much and has no entry yet.
    pub fn split(&self, seat: &mut Seat, count: u32) -> Seat
        requires lock { IsSeatOf self.now seat.old }
        requires some_number { 0 < count }
        requires fewer { count < seat.old.span }
        ensures left { seat.new ≡ record seat.old { span = seat.old.span - count } }
        ensures given { result ≡ upper_seat count seat.old }
        ensures own { posted_by result.number result.seen ≡ [] }
    {
        let mut token: Token<B> = mem::replace(&mut seat.badge, Badge::blank()).into_seat();
        let given = give::<B, Brand>(&self.desk.shared, &mut token, count);
        seat.badge = token.into_badge();
        seat.span -= count;
        Seat {
            badge: given.into_badge(),
            number: seat.number + seat.span,
            span: count,
        }
    }

    /// Takes another seat in: all its numbers, and what it has seen. A number of it that no entry bears yet stays so.
    pub fn join(&self, seat: &mut Seat, other: Seat)
        requires lock { IsSeatOf self.now seat.old }
        requires other { IsSeatOf self.now other }
        ensures both { seat.new ≡ record seat.old { used = seat.old.used ++ numbers other; seen = longer seat.old.seen other.seen } }
        ensures mine { IsPrefix seat.old.seen seat.new.seen }
        ensures theirs { IsPrefix other.seen seat.new.seen }
        ensures own { KeepsOwn seat.old seat.new }
        ensures brought { HasSameOf (numbers other) other.seen seat.new.seen }
    {
        let mut token: Token<B> = mem::replace(&mut seat.badge, Badge::blank()).into_seat();
        let Seat {
            badge,
            number: _,
            span: _,
        } = other;
        let brought: Token<B> = badge.into_seat();
        take_in(&self.desk.shared, &mut token, brought);
        seat.badge = token.into_badge();
    }

    /// Gives the book back, to a seat that has every number. All of its history was seen by that seat, and each entry
    /// bears a number that the seat uses.
    pub fn close(self, seat: Seat) -> B
        requires lock { IsSeatOf self seat }
        requires whole { (n : ℕ) → n < self.setup.seats → HasNumber seat n }
        ensures basis { B.basis result ≡ self.setup.basis }
        ensures history { B.history result ≡ seat.seen }
        ensures own { All (λ posted. Contains seat.used posted.seat) (B.history result) }
    {
        let VersionLock { desk } = self;
        let Seat {
            badge,
            number: _,
            span: _,
        } = seat;
        let token: Token<B> = badge.into_seat();
        let mut closed = desk.close_with(token);
        let slot = closed.take(BOOK);
        closed.free();
        match slot {
            Some(book) => book.into_book(),
            None => unreachable!(),
        }
    }
}
