//! A list in pages beside a plain `Vec`: the same is done to both, and then they are compared.

use crate::same::{holds, same};
use dn_model::OutOfMemory;
use std::alloc::Global;
use std::process::Abort;
use version_pages::Pages;

/// The list has the elements of the `Vec`, in order.
pub fn compare(rt: &impl Abort, pages: &Pages<u64>, plain: &Vec<u64>) {
    same(rt, &pages.len(), &(plain.len() as u64));
    let mut from = 0;
    for k in 0..plain.len() {
        if k as u64 == from {
            let run = pages.run_from(from);
            holds(rt, run.len() > 0 && run.len() <= 64);
            from = from.saturating_add(run.len() as u64);
        }
        same(rt, &pages.get(k as u64).copied(), &plain.get(k).copied());
    }
    same(rt, &from, &pages.len());
    same(rt, &pages.get(pages.len()), &None);
}

/// The list has so many elements, and a search finds each of them at its place.
pub fn are_found(rt: &impl Abort, pages: &Pages<u64>, len: u64) {
    same(rt, &pages.len(), &len);
    for k in 0..pages.len() {
        match pages.get(k) {
            Some(number) => {
                same(rt, &pages.count_below(*number), &k);
                same(rt, &pages.count_below(number.saturating_add(1)), &(k + 1));
            }
            None => holds(rt, false),
        }
    }
}

/// The same list again.
pub fn copied(rt: &impl Abort, pages: &Pages<u64>) -> Pages<u64> {
    pages.copy().expect(rt, "memory")
}

/// The same `Vec` again.
pub fn cloned(rt: &impl Abort, plain: &Vec<u64>) -> Vec<u64> {
    plain.clone().expect(rt, "memory")
}

/// A copy that was held has what it had, and then another is held from now on.
pub fn hold(
    rt: &impl Abort,
    pages: &Pages<u64>,
    plain: &Vec<u64>,
    held: &mut Pages<u64>,
    old: &mut Vec<u64>,
) {
    compare(rt, held, old);
    *held = copied(rt, pages);
    *old = cloned(rt, plain);
}

/// The numbers from one on below another, as a `Vec`.
fn numbers(alloc: Global, first: u64, past: u64) -> Result<Vec<u64>, OutOfMemory> {
    let mut numbers = Vec::new(alloc);
    for k in first..past {
        numbers.push(k)?;
    }
    Ok(numbers)
}

/// The numbers from one on below another.
pub fn plain_numbers(rt: &impl Abort, alloc: Global, first: u64, past: u64) -> Vec<u64> {
    numbers(alloc, first, past).expect(rt, "memory")
}

/// Puts one more number at the end of a list.
pub fn push(rt: &impl Abort, alloc: Global, pages: &mut Pages<u64>, value: u64) {
    pages.push(alloc, value).expect(rt, "memory");
}

/// The numbers below a count, in order, as a list.
pub fn rising(rt: &impl Abort, alloc: Global, len: u64) -> Pages<u64> {
    let mut pages = Pages::new();
    for k in 0..len {
        push(rt, alloc, &mut pages, k);
    }
    pages
}

/// Writes at one place of both.
pub fn write(
    rt: &impl Abort,
    alloc: Global,
    pages: &mut Pages<u64>,
    plain: &mut Vec<u64>,
    k: u64,
    value: u64,
) {
    if k < pages.len() && k < plain.len() as u64 {
        pages.put(alloc, k, value).expect(rt, "memory");
        plain[k as usize] = value;
    }
}

/// Puts one more element into both, before the one at a place.
pub fn insert(
    rt: &impl Abort,
    alloc: Global,
    pages: &mut Pages<u64>,
    plain: &mut Vec<u64>,
    k: u64,
    value: u64,
) {
    if k <= pages.len() && k <= plain.len() as u64 {
        pages.insert_at(alloc, k, value).expect(rt, "memory");
        plain.insert(k as usize, value).expect(rt, "memory");
    }
}

/// Puts two elements in the place of one of both.
pub fn split(
    rt: &impl Abort,
    alloc: Global,
    pages: &mut Pages<u64>,
    plain: &mut Vec<u64>,
    k: u64,
    value: u64,
) {
    if k < pages.len() && k < plain.len() as u64 {
        pages
            .replace_by_two(alloc, k, value, value ^ 1)
            .expect(rt, "memory");
        plain[k as usize] = value ^ 1;
        plain.insert(k as usize, value).expect(rt, "memory");
    }
}

/// Puts so many more numbers at the end of both.
pub fn extend(
    rt: &impl Abort,
    alloc: Global,
    pages: &mut Pages<u64>,
    plain: &mut Vec<u64>,
    count: u64,
) {
    let first = pages.len();
    let more = plain_numbers(rt, alloc, first, first.saturating_add(count));
    pages.extend(alloc, more.as_slice()).expect(rt, "memory");
    plain
        .extend_from_slice(more.as_slice())
        .expect(rt, "memory");
}

/// Puts the numbers from one on below another before the one at a place of both, or at the end.
pub fn put_row(
    rt: &impl Abort,
    alloc: Global,
    pages: &mut Pages<u64>,
    plain: &mut Vec<u64>,
    at: u64,
    first: u64,
    past: u64,
) {
    if at <= pages.len() && at <= plain.len() as u64 {
        let row = plain_numbers(rt, alloc, first, past);
        pages
            .insert_all(alloc, at, row.as_slice())
            .expect(rt, "memory");
        let behind = plain.split_off(at as usize).expect(rt, "memory");
        plain.extend_from_slice(row.as_slice()).expect(rt, "memory");
        plain
            .extend_from_slice(behind.as_slice())
            .expect(rt, "memory");
    }
}

/// Makes the first of some numbers one more each, so many at most. It answers how many.
fn raise_run(run: &mut [u64], most: u64) -> u64 {
    let mut count = 0;
    for number in run.iter_mut() {
        if count < most {
            *number = number.saturating_add(1);
            count += 1;
        }
    }
    count
}

/// Makes numbers of both from a place on one more each, so many at most, where the list has them in one page. It
/// answers how many.
pub fn raise(
    rt: &impl Abort,
    alloc: Global,
    pages: &mut Pages<u64>,
    plain: &mut Vec<u64>,
    from: u64,
    most: u64,
) -> u64 {
    if from >= pages.len() {
        return 0;
    }
    let shown = pages.run_from(from).len() as u64;
    let count = pages
        .change_run(alloc, from, |run| raise_run(run, most))
        .expect(rt, "memory");
    same(rt, &count, &shown.min(most));
    for k in 0..plain.len() {
        let at = k as u64;
        if from <= at && at - from < count {
            plain[k] = plain[k].saturating_add(1);
        }
    }
    count
}

/// Makes all numbers of both from a place on one more each, those of the list page by page.
pub fn raise_from(
    rt: &impl Abort,
    alloc: Global,
    pages: &mut Pages<u64>,
    plain: &mut Vec<u64>,
    from: u64,
) {
    let mut at = from;
    for _ in 0..1_000u64 {
        let count = raise(rt, alloc, pages, plain, at, u64::MAX);
        at = at.saturating_add(count);
    }
}
