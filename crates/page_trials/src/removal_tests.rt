//! Elements taken out of lists in pages, beside a plain `Vec`.

use crate::draw::next_draw;
use crate::plain_list::{cloned, compare, copied, hold, plain_numbers, rising};
use crate::same::{holds, same};
use std::alloc::Global;
use std::process::Abort;
use version_pages::Pages;

/// Takes elements out of a `Vec` from a place on, so many.
fn cut_plain(rt: &impl Abort, plain: &mut Vec<u64>, at: usize, count: usize) {
    if at <= plain.len() && count <= plain.len() - at {
        let mut behind = plain.split_off(at).expect(rt, "memory");
        let left = behind.split_off(count).expect(rt, "memory");
        plain
            .extend_from_slice(left.as_slice())
            .expect(rt, "memory");
    }
}

/// Takes elements out of both from a place on, so many, where there are so many.
fn cut(
    rt: &impl Abort,
    alloc: Global,
    pages: &mut Pages<u64>,
    plain: &mut Vec<u64>,
    at: u64,
    count: u64,
) {
    if at <= pages.len() && count <= pages.len() - at {
        pages.remove_run(alloc, at, count).expect(rt, "memory");
        cut_plain(rt, plain, at as usize, count as usize);
    }
}

/// Takes out a run over many pages in the middle, one in a page, one at each end, and none, with a copy held that reads
/// as before; and then all.
#[test]
fn a_run_over_many_pages(rt: HostRuntime) {
    let alloc = rt.alloc();
    let mut pages = rising(&rt, alloc, 10_000);
    let mut plain = plain_numbers(&rt, alloc, 0, 10_000);
    let held = copied(&rt, &pages);
    let old = cloned(&rt, &plain);
    cut(&rt, alloc, &mut pages, &mut plain, 100, 5_000);
    compare(&rt, &pages, &plain);
    cut(&rt, alloc, &mut pages, &mut plain, 130, 7);
    cut(&rt, alloc, &mut pages, &mut plain, 0, 70);
    cut(&rt, alloc, &mut pages, &mut plain, 4_000, 923);
    cut(&rt, alloc, &mut pages, &mut plain, 1_234, 0);
    same(&rt, &pages.len(), &4_000);
    compare(&rt, &pages, &plain);
    compare(&rt, &held, &old);
    cut(&rt, alloc, &mut pages, &mut plain, 0, 4_000);
    same(&rt, &pages.len(), &0);
    compare(&rt, &pages, &plain);
}

/// Takes out some elements at places all over, with a copy taken now and then that keeps what it has.
fn cut_all_over(rt: &impl Abort, alloc: Global, pages: &mut Pages<u64>, plain: &mut Vec<u64>) {
    let mut held = copied(rt, pages);
    let mut old = cloned(rt, plain);
    let mut draw = 1u64;
    for k in 0..2_500u64 {
        draw = next_draw(draw);
        let at = (draw >> 33) % pages.len().saturating_add(1);
        cut(rt, alloc, pages, plain, at, k % 5);
        if k % 499 == 0 {
            hold(rt, pages, plain, &mut held, &mut old);
        }
    }
    compare(rt, pages, plain);
    compare(rt, &held, &old);
}

/// Where few of many elements are left, they stand in few pages again.
#[test]
fn few_are_left_of_many(rt: HostRuntime) {
    let alloc = rt.alloc();
    let mut pages = rising(&rt, alloc, 5_000);
    let mut plain = plain_numbers(&rt, alloc, 0, 5_000);
    cut_all_over(&rt, alloc, &mut pages, &mut plain);
    holds(&rt, pages.len() < 100);
    holds(&rt, pages.height() <= 1);
}
