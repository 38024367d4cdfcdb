//! A whole page hung in before a child of a fork right over pages, so that no page is parted where a row of elements
//! begins where a page begins. All memory is taken before anything changes.

ghost use Rattle.std.specs.Prelude.{◌≡◌, ◌+◌, ◌<◌, ◌≤◌, ◌^◌, ◌++◌, IfOk, IfSome, OnErr, length, take, drop, insert, vec_len, vec_capacity};
ghost use Rattle.version_pages.specs.Shape.{AreEnds, AreKids, IsAt, joined};

use super::grow::lengthen;
use super::parts::page_kid;
use super::split::{put_end, put_kid};
use super::{FULL, Kid, WIDE, find};
use crate::page::page_of_copies;
use base::{Keyed, OutOfMemory};
use std::alloc::Global;

/// The child before which a whole page may be hung for the elements that go in at a place: the fork stands right over
/// pages, there are as many elements as a page has, and the child begins at the place.
pub fn hangs_at<T: Keyed>(
    kids: &Vec<Kid<T>>,
    ends: &Vec<u64>,
    density: u64,
    height: u64,
    i: u64,
    count: usize,
) -> Option<usize>
    requires some { 0 < length kids.now.items }
    requires ends { AreEnds ends.now.items kids.now.items }
    ensures level { IfSome result (λ k. height ≡ 1) }
    ensures page { IfSome result (λ k. FULL ≤ count) }
    ensures child { IfSome result (λ k. IsAt kids.now.items i k 0) }
{
    if height != 1 || count < FULL {
        return None;
    }
    let (k, j) = find(kids, ends, density, i);
    if j > 0 {
        return None;
    }
    Some(k)
}

/// Hangs a page of the first of some elements in before the child that begins at a place. It answers how many they are.
/// After `OutOfMemory` the elements are as before.
pub fn hang<T: Keyed + Copy>(
    alloc: Global,
    kids: &mut Vec<Kid<T>>,
    ends: &mut Vec<u64>,
    k: usize,
    i: u64,
    items: &[T],
) -> Result<usize, OutOfMemory>
    requires page { FULL ≤ length items.now }
    requires child { IsAt kids.old.items i k 0 }
    requires kids { AreKids 1 kids.old.items }
    requires room { length kids.old.items < WIDE }
    requires ends { AreEnds ends.old.items kids.old.items }
    requires few { length (joined kids.old.items) + 64 < 2 ^ 62 }
    ensures count { IfOk result (λ count. count ≡ FULL) }
    ensures items { IfOk result (λ count. joined kids.new.items ≡ take i (joined kids.old.items) ++ take count items.now ++ drop i (joined kids.old.items)) }
    ensures same { OnErr result (joined kids.new.items ≡ joined kids.old.items) }
    ensures kids { AreKids 1 kids.new.items }
    ensures ends { AreEnds ends.new.items kids.new.items }
{
    let page = page_kid(alloc, page_of_copies(alloc, FULL, &items[..FULL])?)?;
    ends.reserve(1)?;
    kids.reserve(1)?;
    put_kid(kids, k, page);
    put_end(ends, k, i + FULL as u64);
    lengthen(ends, k + 1, FULL as u64);
    Ok(FULL)
}
