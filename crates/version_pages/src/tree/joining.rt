//! Two trees in one, the second behind the first. Nothing changes in them: the new tree shares their nodes, but for those
//! on the way to the place where they meet.

ghost use Rattle.std.specs.Prelude.{◌≡◌, ◌+◌, ◌*◌, ◌<◌, ◌≤◌, ◌^◌, ◌++◌, ℕ, IfOk, length, All};
ghost use Rattle.version_pages.specs.Shape.{IsDeep, IsUnder, joined};

use super::parts::{fork_kid, page_kid};
use super::{FULL, Kid, Node, WIDE};
use crate::page::{add_copies, page_of, page_of_one};
use base::{Keyed, OutOfMemory};
use std::alloc::Global;

impl<T: Keyed> Kid<T> {
    /// How many forks stand above each page.
    fn height(&self) -> u64
        ensures value { result ≡ self.now.height }
        ensures deep { IsDeep self.now }
    {
        self.tree.height()
    }
}

/// Two trees of a height as a row.
fn both_of<T: Keyed>(
    alloc: Global,
    lower: Kid<T>,
    upper: Kid<T>,
) -> Result<Vec<Kid<T>>, OutOfMemory>
    ensures items { IfOk result (λ row. joined row.items ≡ lower.items ++ upper.items) }
    ensures under { IfOk result (λ row. (h : ℕ) → IsUnder h lower → IsUnder h upper → All (IsUnder h) row.items) }
    ensures count { IfOk result (λ row. length row.items ≡ 2) }
{
    let mut row = page_of_one(alloc, 2, lower)?;
    row.push(upper)?;
    Ok(row)
}

/// The trees of three rows in one.
fn row_of<T: Keyed>(
    alloc: Global,
    first: &[Kid<T>],
    second: &[Kid<T>],
    third: &[Kid<T>],
) -> Result<Vec<Kid<T>>, OutOfMemory>
    ensures items { IfOk result (λ row. joined row.items ≡ joined first.now ++ joined second.now ++ joined third.now) }
    ensures under { IfOk result (λ row. (h : ℕ) → All (IsUnder h) first.now → All (IsUnder h) second.now → All (IsUnder h) third.now → All (IsUnder h) row.items) }
    ensures count { IfOk result (λ row. length row.items ≡ length first.now + length second.now + length third.now) }
{
    let mut row = page_of(alloc, WIDE, first)?;
    add_copies(&mut row, second)?;
    add_copies(&mut row, third)?;
    Ok(row)
}

/// The only tree of a row, or a fork of this height over its trees.
pub fn group<T: Keyed>(alloc: Global, row: &[Kid<T>], height: u64) -> Result<Kid<T>, OutOfMemory>
    requires some { 0 < length row.now }
    requires most { length row.now ≤ WIDE }
    requires under { All (IsUnder height) row.now }
    requires few { length (joined row.now) < 2 ^ 62 }
    ensures { IfOk result (λ kid. kid.items ≡ joined row.now) }
{
    if row.len() == 1 {
        return Ok(row[0].clone()?);
    }
    return fork_kid(alloc, page_of(alloc, WIDE, row)?, height);
}

/// One fork of this height over the trees of a row, or two where they are too many for one.
fn forks_of<T: Keyed>(
    alloc: Global,
    row: &[Kid<T>],
    height: u64,
) -> Result<Vec<Kid<T>>, OutOfMemory>
    requires two { 2 ≤ length row.now }
    requires most { length row.now ≤ 2 * WIDE }
    requires under { All (IsUnder height) row.now }
    requires few { length (joined row.now) < 2 ^ 62 }
    ensures items { IfOk result (λ forks. joined forks.items ≡ joined row.now) }
    ensures under { IfOk result (λ forks. All (IsUnder (height + 1)) forks.items) }
    ensures some { IfOk result (λ forks. 0 < length forks.items) }
    ensures most { IfOk result (λ forks. length forks.items ≤ 2) }
{
    if row.len() <= WIDE {
        let fork = fork_kid(alloc, page_of(alloc, WIDE, row)?, height)?;
        return page_of_one(alloc, 1, fork);
    }
    let (lower, upper) = row.split_at(row.len() / 2);
    let lower = fork_kid(alloc, page_of(alloc, WIDE, lower)?, height)?;
    let upper = fork_kid(alloc, page_of(alloc, WIDE, upper)?, height)?;
    return both_of(alloc, lower, upper);
}

/// One page of the elements of two.
fn page_of_both<T: Keyed>(alloc: Global, first: &[T], second: &[T]) -> Result<Kid<T>, OutOfMemory>
    requires some { 0 < length first.now }
    requires few { length first.now + length second.now ≤ FULL }
    ensures items { IfOk result (λ kid. kid.items ≡ first.now ++ second.now) }
    ensures under { IfOk result (IsUnder 1) }
{
    let mut page = page_of(alloc, FULL, first)?;
    add_copies(&mut page, second)?;
    return page_kid(alloc, page);
}

/// Two pages in one where they fit, or as they are.
fn join_pages<T: Keyed>(
    alloc: Global,
    first: &Kid<T>,
    second: &Kid<T>,
) -> Result<Vec<Kid<T>>, OutOfMemory>
    requires first { first.now.height ≡ 0 }
    requires second { second.now.height ≡ 0 }
    ensures items { IfOk result (λ row. joined row.items ≡ first.now.items ++ second.now.items) }
    ensures under { IfOk result (λ row. All (IsUnder 1) row.items) }
    ensures some { IfOk result (λ row. 0 < length row.items) }
    ensures most { IfOk result (λ row. length row.items ≤ 2) }
{
    let _first = first.height();
    let _second = second.height();
    if let Node::Page(items) = &first.tree.node {
        if let Node::Page(more) = &second.tree.node {
            if items.len() + more.len() <= FULL {
                let page = page_of_both(alloc, items, more)?;
                return page_of_one(alloc, 1, page);
            }
        }
    }
    return both_of(alloc, first.clone()?, second.clone()?);
}

/// The first child of a fork of this height, and the others; or a lower tree itself, and none.
fn opened<T: Keyed>(kid: &Kid<T>, height: u64) -> (&Kid<T>, &[Kid<T>])
    requires fork { 0 < height }
    requires level { kid.now.height ≤ height }
    ensures items { result.0.now.items ++ joined result.1.now ≡ kid.now.items }
    ensures level { result.0.now.height < height }
    ensures under { All (IsUnder height) result.1.now }
    ensures most { length result.1.now < WIDE }
{
    let Node::Fork {
        kids,
        height: own,
        ..
    } = &kid.tree.node
    else {
        return (kid, &[]);
    };
    if *own < height {
        return (kid, &[]);
    }
    (&kids[0], &kids[1..])
}

/// A tree with one behind it that is no higher, as one tree of its height or two.
fn append<T: Keyed>(
    alloc: Global,
    first: &Kid<T>,
    second: &Kid<T>,
) -> Result<Vec<Kid<T>>, OutOfMemory>
    requires level { second.now.height ≤ first.now.height }
    requires few { length first.now.items + length second.now.items < 2 ^ 62 }
    ensures items { IfOk result (λ row. joined row.items ≡ first.now.items ++ second.now.items) }
    ensures under { IfOk result (λ row. All (IsUnder (first.now.height + 1)) row.items) }
    ensures some { IfOk result (λ row. 0 < length row.items) }
    ensures most { IfOk result (λ row. length row.items ≤ 2) }
{
    let Node::Fork { kids, height, .. } = &first.tree.node else {
        return join_pages(alloc, first, second);
    };
    let (next, rest) = opened(second, *height);
    let last = kids.len() - 1;
    let seam = append(alloc, &kids[last], next)?;
    let row = row_of(alloc, &kids[..last], &seam, rest)?;
    return forks_of(alloc, &row, *height);
}

/// A tree with one before it that is no higher, as one tree of its height or two.
fn prepend<T: Keyed>(
    alloc: Global,
    first: &Kid<T>,
    second: &Kid<T>,
) -> Result<Vec<Kid<T>>, OutOfMemory>
    requires level { first.now.height ≤ second.now.height }
    requires few { length first.now.items + length second.now.items < 2 ^ 62 }
    ensures items { IfOk result (λ row. joined row.items ≡ first.now.items ++ second.now.items) }
    ensures under { IfOk result (λ row. All (IsUnder (second.now.height + 1)) row.items) }
    ensures some { IfOk result (λ row. 0 < length row.items) }
    ensures most { IfOk result (λ row. length row.items ≤ 2) }
{
    if second.height() <= first.height() {
        return append(alloc, first, second);
    }
    let Node::Fork { kids, height, .. } = &second.tree.node else {
        return Err(OutOfMemory);
    };
    let seam = prepend(alloc, first, &kids[0])?;
    let row = row_of(alloc, &kids[..0], &seam, &kids[1..])?;
    return forks_of(alloc, &row, *height);
}

/// A tree with another behind it.
pub fn join<T: Keyed>(alloc: Global, first: &Kid<T>, second: &Kid<T>) -> Result<Kid<T>, OutOfMemory>
    requires few { length first.now.items + length second.now.items < 2 ^ 62 }
    ensures { IfOk result (λ kid. kid.items ≡ first.now.items ++ second.now.items) }
{
    let low = first.height();
    let high = second.height();
    if high <= low {
        let row = append(alloc, first, second)?;
        return group(alloc, &row, low + 1);
    }
    let row = prepend(alloc, first, second)?;
    return group(alloc, &row, high + 1);
}
