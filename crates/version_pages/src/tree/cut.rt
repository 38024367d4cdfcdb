//! A tree without some elements that follow one another: what stands before them, with what stands behind them. It shares
//! the nodes that have none of them; the tree itself stays.

ghost use Rattle.std.specs.Prelude.{◌≡◌, ◌+◌, ◌<◌, ◌≤◌, ◌++◌, IfOk, length, take, drop};

use super::joining::{group, join};
use super::parts::page_kid;
use super::{FULL, Kid, LONG, Node, find};
use crate::page::page_of;
use base::{Keyed, OutOfMemory};
use std::alloc::Global;

/// A page of these elements, with room for as many again.
fn small_page<T: Keyed>(alloc: Global, items: &[T]) -> Result<Kid<T>, OutOfMemory>
    requires some { 0 < length items.now }
    requires few { length items.now ≤ FULL }
    ensures { IfOk result (λ kid. kid.items ≡ items.now) }
{
    let room = (2 * items.len()).min(FULL);
    return page_kid(alloc, page_of(alloc, room, items)?);
}

impl<T: Keyed> Kid<T> {
    /// The elements before a place, at least one.
    fn front(&self, alloc: Global, i: u64) -> Result<Kid<T>, OutOfMemory>
        requires some { 0 < i }
        requires inside { i < length self.now.items }
        ensures { IfOk result (λ kid. kid.items ≡ take i self.now.items) }
    {
        let len = self.len;
        prove!(len < LONG);
        match &self.tree.node {
            Node::Page(items) => small_page(alloc, &items[..i as usize]),
            Node::Fork {
                kids,
                height,
                ends,
                density,
            } => {
                let (k, j) = find(kids, ends, *density, i);
                if j == 0 {
                    return group(alloc, &kids[..k], *height);
                }
                let part = kids[k].front(alloc, j)?;
                if k == 0 {
                    return Ok(part);
                }
                let before = group(alloc, &kids[..k], *height)?;
                return join(alloc, &before, &part);
            }
        }
    }

    /// The elements from a place on, at least one.
    fn back(&self, alloc: Global, i: u64) -> Result<Kid<T>, OutOfMemory>
        requires inside { i < length self.now.items }
        ensures { IfOk result (λ kid. kid.items ≡ drop i self.now.items) }
    {
        let len = self.len;
        prove!(len < LONG);
        match &self.tree.node {
            Node::Page(items) => small_page(alloc, &items[i as usize..]),
            Node::Fork {
                kids,
                height,
                ends,
                density,
            } => {
                let (k, j) = find(kids, ends, *density, i);
                if j == 0 {
                    return group(alloc, &kids[k..], *height);
                }
                let part = kids[k].back(alloc, j)?;
                if k + 1 == kids.len() {
                    return Ok(part);
                }
                let behind = group(alloc, &kids[k + 1..], *height)?;
                return join(alloc, &part, &behind);
            }
        }
    }

    /// A tree of all elements but those from a place on, so many, of which some are left.
    pub fn without(&self, alloc: Global, i: u64, count: u64) -> Result<Kid<T>, OutOfMemory>
        requires place { i < length self.now.items }
        requires inside { i + count ≤ length self.now.items }
        requires left { count < length self.now.items }
        ensures { IfOk result (λ kid. kid.items ≡ take i self.now.items ++ drop (i + count) self.now.items) }
    {
        let len = self.len;
        prove!(len < LONG);
        if i == 0 {
            return self.back(alloc, count);
        }
        let front = self.front(alloc, i)?;
        if i + count == len {
            return Ok(front);
        }
        let back = self.back(alloc, i + count)?;
        return join(alloc, &front, &back);
    }
}
