//! Lists whose elements were worked out by hand, or are compared with a plain `Vec`.

ghost use Rattle.std.specs.Prelude.{◌≡◌, IfOk};

use crate::crossing::crosses;
use crate::draw::next_draw;
use crate::plain_list::{
    are_found, cloned, compare, copied, hold, insert, plain_numbers, push, rising, split, write,
};
use crate::same::{holds, same};
use dn_model::OutOfMemory;
use std::alloc::{AllocError, Global};
use std::marker::Model;
use std::process::Abort;
use std::sync::Arc;
use version_pages::{Keyed, Pages};

/// A number behind a pointer that is shared. A contract sees the number alone, so that a clone equals its source.
#[derive(Drop)]
struct Shared {
    number: Arc<u64, Global>,
}

impl Model for Shared {
    ghost use Rattle.std.specs.Prelude.{ℕ};
    ghost use Rattle.std.specs.Arc.{arc_value};

    ghost Value = { ℕ };

    ghost view = { λ s. arc_value s.number };
}

impl Shared {
    fn new(alloc: Global, number: u64) -> Result<Shared, OutOfMemory>
        ensures { IfOk result (λ shared. shared ≡ number) }
    {
        let number = Arc::new(alloc, number)?;
        Ok(Shared { number })
    }

    fn number(&self) -> u64
        ensures { result ≡ self.now }
    {
        *self.number
    }
}

impl Keyed for Shared {
    ghost use Rattle.std.proofs.Common.{rules};

    ghost key_of = { λ shared. shared };

    ghost clones = { Prim.search rules };

    fn key(&self) -> u64 {
        self.number()
    }
}

impl Clone for Shared {
    ghost is_clone = { λ shared copy. copy ≡ shared };

    fn clone(&self) -> Result<Shared, AllocError> {
        let number = Arc::try_clone(&self.number)?;
        Ok(Shared { number })
    }
}

#[test]
fn a_new_list_is_empty(rt: HostRuntime) {
    let pages: Pages<u64> = Pages::new();
    crosses(&pages);
    same(&rt, &pages.len(), &0);
    same(&rt, &pages.height(), &0);
    same(&rt, &pages.get(0), &None);
    same(&rt, &pages.run_from(0).len(), &0);
    same(&rt, &copied(&rt, &pages).len(), &0);
}

/// One element is changed, and the change answers what was there.
fn change(rt: &impl Abort, alloc: Global, pages: &mut Pages<u64>, k: u64, value: u64, before: u64) {
    assert!(rt; k < pages.len());
    let old = pages
        .change(alloc, k, |element| {
            let old = *element;
            *element = value;
            old
        })
        .expect(rt, "memory");
    same(rt, &old, &before);
}

/// The list has this element at a place.
fn has(rt: &impl Abort, pages: &Pages<u64>, k: u64, value: u64) {
    same(rt, &pages.get(k).copied(), &Some(value));
}

#[test]
fn the_copy_reads_as_before(rt: HostRuntime) {
    let alloc = rt.alloc();
    let old = plain_numbers(&rt, alloc, 0, 100);
    let mut plain = cloned(&rt, &old);
    let mut pages = Pages::from_vec(alloc, cloned(&rt, &old)).expect(&rt, "memory");
    let copy = copied(&rt, &pages);
    write(&rt, alloc, &mut pages, &mut plain, 70, 7);
    insert(&rt, alloc, &mut pages, &mut plain, 70, 8);
    split(&rt, alloc, &mut pages, &mut plain, 0, 1000);
    compare(&rt, &pages, &plain);
    change(&rt, alloc, &mut pages, 2, 5, 1);
    compare(&rt, &copy, &old);
    same(&rt, &pages.len(), &102);
    has(&rt, &pages, 0, 1000);
    has(&rt, &pages, 1, 1001);
    has(&rt, &pages, 2, 5);
    has(&rt, &pages, 71, 8);
    has(&rt, &pages, 72, 7);
    has(&rt, &pages, 73, 71);
}

/// A search finds each multiple of three at its place, and the number behind it one place on.
fn compare_multiples(rt: &impl Abort, pages: &Pages<u64>) {
    for k in 0..5000u64 {
        same(rt, &pages.count_below(3 * k), &k);
        same(rt, &pages.count_below(3 * k + 1), &(k + 1));
    }
}

#[test]
fn a_search_ends_where_keys_are_no_more_below(rt: HostRuntime) {
    let alloc = rt.alloc();
    let mut pages: Pages<u64> = Pages::new();
    same(&rt, &pages.count_below(5), &0);
    for k in 0..5000u64 {
        push(&rt, alloc, &mut pages, 3 * k);
    }
    compare_multiples(&rt, &pages);
    same(&rt, &pages.count_below(1_000_000), &5000);
}

/// Puts numbers, each less than the one before by three, at the front: those after so many others, up to so many.
fn put_at_front(rt: &impl Abort, alloc: Global, pages: &mut Pages<u64>, first: u64, past: u64) {
    for k in first..past {
        let number = 1_000_000u64.saturating_sub(3u64.saturating_mul(k));
        pages.insert_at(alloc, 0, number).expect(rt, "memory");
    }
}

/// Elements go in at the front, where each changes the key of a page's first element on every level, through all that
/// is split on the way; a copy that was held on the way is searched as it was.
#[test]
fn a_search_after_insertions_at_the_front(rt: HostRuntime) {
    let alloc = rt.alloc();
    let mut pages: Pages<u64> = Pages::new();
    put_at_front(&rt, alloc, &mut pages, 0, 3333);
    let held = copied(&rt, &pages);
    put_at_front(&rt, alloc, &mut pages, 3333, 10_000);
    are_found(&rt, &pages, 10_000);
    are_found(&rt, &held, 3333);
}

/// Puts a number in the place of each of the first 5,000.
fn put_each(rt: &impl Abort, alloc: Global, pages: &mut Pages<u64>) {
    for k in 0..5000u64 {
        assert!(rt; k < pages.len());
        pages.put(alloc, k, 10 * k + 2).expect(rt, "memory");
    }
}

/// Puts two numbers in the place of each of the first 5,000.
fn part_each(rt: &impl Abort, alloc: Global, pages: &mut Pages<u64>) {
    for k in 0..5000u64 {
        assert!(rt; 2 * k < pages.len());
        pages
            .replace_by_two(alloc, 2 * k, 10 * k + 1, 10 * k + 7)
            .expect(rt, "memory");
    }
}

/// First elements of pages are put, changed and parted, with a copy held: both are searched by the keys that they have.
#[test]
fn a_search_after_changes_of_first_elements(rt: HostRuntime) {
    let alloc = rt.alloc();
    let mut pages: Pages<u64> = Pages::new();
    for k in 0..5000u64 {
        push(&rt, alloc, &mut pages, 10 * k + 5);
    }
    let held = copied(&rt, &pages);
    put_each(&rt, alloc, &mut pages);
    are_found(&rt, &pages, 5000);
    part_each(&rt, alloc, &mut pages);
    are_found(&rt, &pages, 10_000);
    are_found(&rt, &held, 5000);
}

/// A number behind a pointer goes in at the front.
fn put_shared(rt: &impl Abort, alloc: Global, pages: &mut Pages<Shared>, number: u64) {
    let shared = Shared::new(alloc, number).expect(rt, "memory");
    pages.insert_at(alloc, 0, shared).expect(rt, "memory");
}

/// The list has this number behind the pointer at a place.
fn has_shared(rt: &impl Abort, pages: &Pages<Shared>, k: u64, number: u64) {
    same(
        rt,
        &pages.get(k).map(|shared| shared.number()),
        &Some(number),
    );
}

#[test]
fn pointers_are_elements(rt: HostRuntime) {
    let alloc = rt.alloc();
    let mut pages = Pages::new();
    let first = Shared::new(alloc, 11).expect(&rt, "memory");
    pages.push(alloc, first).expect(&rt, "memory");
    crosses(&pages);
    let one = pages.copy().expect(&rt, "memory");
    put_shared(&rt, alloc, &mut pages, 22);
    has_shared(&rt, &pages, 0, 22);
    has_shared(&rt, &pages, 1, 11);
    has_shared(&rt, &one, 0, 11);
}

/// Puts the numbers below a hundred thousand in the middle.
fn put_in_middle(rt: &impl Abort, alloc: Global, pages: &mut Pages<u64>) {
    for k in 0..100_000u64 {
        let middle = pages.len() / 2;
        pages.insert_at(alloc, middle, k).expect(rt, "memory");
    }
}

/// A hundred thousand elements stand under 2 forks at least, since 64 * 64 are fewer, and, where pages and forks are at
/// least half full, under 3 at most, since 2 * 32^3 * 32 are more. Pages that grow at the end alone are full but the
/// last.
#[test]
fn pages_stand_low(rt: HostRuntime) {
    let alloc = rt.alloc();
    let at_end = rising(&rt, alloc, 100_000);
    let mut at_front = Pages::new();
    let mut in_middle = Pages::new();
    put_at_front(&rt, alloc, &mut at_front, 0, 100_000);
    put_in_middle(&rt, alloc, &mut in_middle);
    same(&rt, &at_end.len(), &100_000);
    same(&rt, &at_end.height(), &2);
    same(&rt, &at_front.len(), &100_000);
    holds(&rt, at_front.height() <= 3);
    holds(&rt, in_middle.height() <= 3);
    has(&rt, &in_middle, 0, 1);
}

/// Writes at each of a hundred thousand places the place's number with some bits turned.
fn write_each(
    rt: &impl Abort,
    alloc: Global,
    pages: &mut Pages<u64>,
    plain: &mut Vec<u64>,
    bits: u64,
) {
    for k in 0..100_000u64 {
        write(rt, alloc, pages, plain, k, k ^ bits);
    }
}

/// A write at every place of a hundred thousand elements, first while a copy holds all of them, and then once more,
/// when nobody else holds what was copied.
#[test]
fn writes_at_every_place(rt: HostRuntime) {
    let alloc = rt.alloc();
    let mut pages = rising(&rt, alloc, 100_000);
    let mut plain = plain_numbers(&rt, alloc, 0, 100_000);
    let held = copied(&rt, &pages);
    let old = cloned(&rt, &plain);
    write_each(&rt, alloc, &mut pages, &mut plain, 0x5555);
    compare(&rt, &pages, &plain);
    compare(&rt, &held, &old);
    write_each(&rt, alloc, &mut pages, &mut plain, 0x1234);
    compare(&rt, &pages, &plain);
    compare(&rt, &held, &old);
}

/// Puts one more element into both at a place that looks drawn, or two in the place of one.
fn grow(
    rt: &impl Abort,
    alloc: Global,
    pages: &mut Pages<u64>,
    plain: &mut Vec<u64>,
    k: u64,
    draw: u64,
) {
    let at = (draw >> 33) % k.saturating_add(1);
    if k % 2 == 0 {
        insert(rt, alloc, pages, plain, at, k);
    } else {
        split(rt, alloc, pages, plain, at, k);
    }
}

/// Elements go in at places all over, with a copy taken now and then that keeps what it has.
#[test]
fn insertions_all_over(rt: HostRuntime) {
    let alloc = rt.alloc();
    let mut pages = rising(&rt, alloc, 1);
    let mut plain = plain_numbers(&rt, alloc, 0, 1);
    let mut held = copied(&rt, &pages);
    let mut old = cloned(&rt, &plain);
    let mut draw = 1u64;
    for k in 0..20_000u64 {
        draw = next_draw(draw);
        grow(&rt, alloc, &mut pages, &mut plain, k, draw);
        if k % 1999 == 0 {
            hold(&rt, &pages, &plain, &mut held, &mut old);
        }
    }
    same(&rt, &pages.len(), &20_001);
    compare(&rt, &pages, &plain);
    compare(&rt, &held, &old);
}
