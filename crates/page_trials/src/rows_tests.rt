//! Lists into which many elements go at once, or in which neighbours are changed by one call, beside a plain `Vec`.

use crate::draw::next_draw;
use crate::plain_list::{
    are_found, cloned, compare, copied, extend, hold, plain_numbers, push, put_row, raise,
    raise_from, rising,
};
use crate::same::{holds, same};
use std::alloc::Global;
use std::process::Abort;
use version_pages::Pages;

/// Puts the numbers from one on below another at the end of a list.
fn extend_by(rt: &impl Abort, alloc: Global, pages: &mut Pages<u64>, first: u64, past: u64) {
    let numbers = plain_numbers(rt, alloc, first, past);
    pages.extend(alloc, numbers.as_slice()).expect(rt, "memory");
}

/// The list has the numbers below a count, in order.
fn compare_rising(rt: &impl Abort, pages: &Pages<u64>, len: u64) {
    same(rt, &pages.len(), &len);
    for k in 0..len {
        same(rt, &pages.get(k).copied(), &Some(k));
    }
}

/// Numbers in order go in at the end, some at once: none, fewer than a page has room for, and many pages of them, also
/// where a copy holds the last page. A search finds each of them at its place, and the copy has what it had.
#[test]
fn some_elements_at_the_end(rt: HostRuntime) {
    let alloc = rt.alloc();
    let mut pages: Pages<u64> = Pages::new();
    extend_by(&rt, alloc, &mut pages, 0, 0);
    extend_by(&rt, alloc, &mut pages, 0, 50);
    extend_by(&rt, alloc, &mut pages, 50, 60);
    let copy = copied(&rt, &pages);
    extend_by(&rt, alloc, &mut pages, 60, 1_000);
    extend_by(&rt, alloc, &mut pages, 1_000, 1_001);
    extend_by(&rt, alloc, &mut pages, 1_001, 10_000);
    are_found(&rt, &pages, 10_000);
    are_found(&rt, &copy, 60);
    compare_rising(&rt, &pages, 10_000);
}

/// Puts one more number at the end of both.
fn push_both(rt: &impl Abort, alloc: Global, pages: &mut Pages<u64>, plain: &mut Vec<u64>, k: u64) {
    push(rt, alloc, pages, k);
    plain.push(k).expect(rt, "memory");
}

/// Numbers go in at the end, mostly more than a page of them each time, and then one alone. Every third time a copy
/// holds all pages from then on, the last of them full or not. The list has what a plain `Vec` has, and each copy what
/// it had.
#[test]
fn pages_at_the_end_of_held_pages(rt: HostRuntime) {
    let alloc = rt.alloc();
    let mut pages = rising(&rt, alloc, 63);
    let mut plain = plain_numbers(&rt, alloc, 0, 63);
    let mut held = copied(&rt, &pages);
    let mut old = cloned(&rt, &plain);
    for k in 0..60u64 {
        extend(&rt, alloc, &mut pages, &mut plain, 64 * (k % 7) + k % 2);
        push_both(&rt, alloc, &mut pages, &mut plain, k);
        if k % 3 == 0 {
            hold(&rt, &pages, &plain, &mut held, &mut old);
        }
    }
    compare(&rt, &pages, &plain);
    compare(&rt, &held, &old);
}

/// Puts up to 200 numbers into both, at a place that looks drawn.
fn put_drawn_row(
    rt: &impl Abort,
    alloc: Global,
    pages: &mut Pages<u64>,
    plain: &mut Vec<u64>,
    k: u64,
    draw: u64,
) {
    let most = 120u64.saturating_mul(k).saturating_add(1);
    let at = ((draw >> 33) % most).min(pages.len());
    let first = 1000u64.saturating_mul(k);
    let past = first.saturating_add((draw >> 20) % 201);
    put_row(rt, alloc, pages, plain, at, first, past);
}

/// Rows of up to 200 numbers go in at places all over, at the front and at the end. Every seventh time a copy holds all
/// pages from then on. The list has what a plain `Vec` has, and each copy what it had.
#[test]
fn rows_all_over(rt: HostRuntime) {
    let alloc = rt.alloc();
    let mut pages: Pages<u64> = Pages::new();
    let mut plain = plain_numbers(&rt, alloc, 0, 0);
    let mut held = copied(&rt, &pages);
    let mut old = cloned(&rt, &plain);
    let mut draw = 1u64;
    for k in 0..400u64 {
        draw = next_draw(draw);
        put_drawn_row(&rt, alloc, &mut pages, &mut plain, k, draw);
        if k % 7 == 0 {
            hold(&rt, &pages, &plain, &mut held, &mut old);
        }
    }
    compare(&rt, &pages, &plain);
    compare(&rt, &held, &old);
    holds(&rt, pages.height() <= 2);
}

/// A full page begins at a place.
fn is_full(rt: &impl Abort, pages: &Pages<u64>, at: u64) {
    same(rt, &pages.run_from(at).len(), &64);
}

/// Rows of full pages go in where a page begins: between two, in front of all, and, while a copy holds all pages, more
/// of them than a fork has room for. They stay full. Then come a row that fills no page, and one within a page. A
/// search finds each number at its place, and the copy has what it had.
#[test]
fn a_search_after_rows(rt: HostRuntime) {
    let alloc = rt.alloc();
    let mut pages: Pages<u64> = Pages::new();
    let mut plain = plain_numbers(&rt, alloc, 0, 0);
    put_row(&rt, alloc, &mut pages, &mut plain, 0, 10_000, 10_640);
    put_row(&rt, alloc, &mut pages, &mut plain, 640, 20_000, 20_640);
    put_row(&rt, alloc, &mut pages, &mut plain, 640, 15_000, 15_128);
    put_row(&rt, alloc, &mut pages, &mut plain, 0, 1_000, 1_128);
    are_found(&rt, &pages, 1_536);
    let held = copied(&rt, &pages);
    let old = cloned(&rt, &plain);
    put_row(&rt, alloc, &mut pages, &mut plain, 896, 16_000, 19_200);
    put_row(&rt, alloc, &mut pages, &mut plain, 0, 0, 64);
    is_full(&rt, &pages, 0);
    is_full(&rt, &pages, 128);
    is_full(&rt, &pages, 896);
    is_full(&rt, &pages, 960);
    is_full(&rt, &pages, 4_096);
    is_full(&rt, &pages, 4_160);
    put_row(&rt, alloc, &mut pages, &mut plain, 960, 15_500, 15_600);
    put_row(&rt, alloc, &mut pages, &mut plain, 1_060, 15_700, 15_900);
    are_found(&rt, &pages, 5_100);
    compare(&rt, &pages, &plain);
    compare(&rt, &held, &old);
}

/// All elements from a place on are changed, page by page: first while a copy holds all of them, and then once more,
/// when nobody else holds what was copied. A search finds each at its place, and the copy has what it had.
#[test]
fn pages_are_changed_in_their_places(rt: HostRuntime) {
    let alloc = rt.alloc();
    let mut pages = rising(&rt, alloc, 5_000);
    let mut plain = plain_numbers(&rt, alloc, 0, 5_000);
    let held = copied(&rt, &pages);
    let old = cloned(&rt, &plain);
    raise_from(&rt, alloc, &mut pages, &mut plain, 70);
    compare(&rt, &pages, &plain);
    raise_from(&rt, alloc, &mut pages, &mut plain, 0);
    compare(&rt, &pages, &plain);
    are_found(&rt, &pages, 5_000);
    compare(&rt, &held, &old);
}

/// Up to 80 neighbours are changed at places all over. Every seventh time a copy holds all pages from then on. The list
/// has what a plain `Vec` has, and each copy what it had.
#[test]
fn neighbours_all_over(rt: HostRuntime) {
    let alloc = rt.alloc();
    let mut pages = rising(&rt, alloc, 3_000);
    let mut plain = plain_numbers(&rt, alloc, 0, 3_000);
    let mut held = copied(&rt, &pages);
    let mut old = cloned(&rt, &plain);
    let mut draw = 1u64;
    for k in 0..300u64 {
        draw = next_draw(draw);
        let from = (draw >> 33) % 3_000;
        let _count = raise(&rt, alloc, &mut pages, &mut plain, from, (draw >> 20) % 81);
        if k % 7 == 0 {
            compare(&rt, &pages, &plain);
            hold(&rt, &pages, &plain, &mut held, &mut old);
        }
    }
    compare(&rt, &pages, &plain);
    compare(&rt, &held, &old);
}
