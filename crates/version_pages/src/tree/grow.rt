//! A tree that grows by one element. Each full node on the way is parted before anything grows, so that all memory is
//! taken first, and no node is filled beyond its most.

ghost use Rattle.std.specs.Prelude.{◌≡◌, ◌+◌, ◌<◌, ◌≤◌, ◌^◌, ℕ, IfOk, OnOk, OnErr, is_ok, if◌then◌else◌, length, take, slice_index_or, All};
ghost use Rattle.version_pages.specs.Shape.{Shape, AreEnds, AreHalves, AreLonger, IsAt, IsDeep, IsParted, IsUnder, joined};
ghost use Rattle.version_pages.specs.Growth.{grown, CanGrow};

use super::own::unshare;
use super::split::part;
use super::{Kid, LONG, Node, Tree, density_of, find, key_after};
use crate::growth::{Growth, grow_page};
use base::{Keyed, OutOfMemory};
use std::alloc::Global;
use std::sync::Arc;

/// So many more elements are in a child.
pub fn lengthen(ends: &mut [u64], k: usize, count: u64)
    requires child { k ≤ length ends.old }
    requires few { (n d : ℕ) → n < length ends.old → slice_index_or ends.old n d + count < 2 ^ 64 }
    ensures { AreLonger ends.old ends.new k (length ends.old) count }
{
    let mut n = k;
    'ends: while n < ends.len() {
        ends[n] += count;
        n += 1;
    }
}

/// The child that has the element at a place, with the element's place in it. It has room for one more: a full one is
/// parted before.
pub fn ready<T: Keyed>(
    alloc: Global,
    kids: &mut Vec<Kid<T>>,
    ends: &mut Vec<u64>,
    density: u64,
    i: u64,
) -> Result<(usize, u64), OutOfMemory>
    requires some { 0 < length kids.old.items }
    requires ends { AreEnds ends.old.items kids.old.items }
    requires few { length (joined kids.old.items) < 2 ^ 62 }
    ensures same { joined kids.new.items ≡ joined kids.old.items }
    ensures under { (h : ℕ) → All (IsUnder h) kids.old.items → All (IsUnder h) kids.new.items }
    ensures ends { AreEnds ends.new.items kids.new.items }
    ensures least { length kids.old.items ≤ length kids.new.items }
    ensures most { length kids.new.items ≤ length kids.old.items + 1 }
    ensures child { IfOk result (λ p. IsAt kids.new.items i p.0 p.1) }
    ensures room { IfOk result (λ p. (d : Shape T) → 0 < (slice_index_or kids.new.items p.0 d).room) }
{
    let (k, j) = find(kids, ends, density, i);
    let kid = &kids[k];
    if kid.tree.has_room() {
        return Ok((k, j));
    }
    let at_end = j == kid.len;
    let len = part(alloc, kids, ends, k, i - j, at_end)?;
    if j < len {
        return Ok((k, j));
    }
    Ok((k + 1, j - len))
}

impl<T: Keyed> Kid<T> {
    /// Grows by one element at a place. After `OutOfMemory` the list is as before.
    #[cycle(grow)]
    fn grow(&mut self, alloc: Global, i: u64, growth: Growth<T>) -> Result<(), OutOfMemory>
        requires inside { CanGrow growth self.old.items i }
        requires room { 0 < self.old.room }
        requires few { length self.old.items + 1 < 2 ^ 62 }
        ensures items { self.new.items ≡ (if is_ok result then grown growth self.old.items i else self.old.items) }
        ensures level { self.new.height ≡ self.old.height }
        ensures deep { IsDeep self.old → IsDeep self.new }
    {
        unshare(alloc, &mut self.tree)?;
        let Some(tree) = Arc::get_mut(&mut self.tree) else {
            return Err(OutOfMemory);
        };
        tree.grow(alloc, i, growth)?;
        let _height = tree.height();
        self.len += 1;
        self.key = key_after(tree, i, self.key);
        Ok(())
    }

    /// Grows by one element at a place, one level higher where it is full. After `OutOfMemory` the list is as before.
    pub fn grow_whole(
        &mut self,
        alloc: Global,
        i: u64,
        growth: Growth<T>,
    ) -> Result<(), OutOfMemory>
        requires inside { CanGrow growth self.old.items i }
        ensures { self.new.items ≡ (if is_ok result then grown growth self.old.items i else self.old.items) }
    {
        let len = self.len;
        if len >= LONG - 1 {
            return Err(OutOfMemory);
        }
        if self.tree.has_room() {
            return self.grow(alloc, i, growth);
        }
        self.raise(alloc, i == len)?;
        return self.grow(alloc, i, growth);
    }
}

impl<T: Keyed> Tree<T> {
    /// Grows by one element at a place. After `OutOfMemory` the list is as before.
    #[cycle(grow)]
    fn grow(&mut self, alloc: Global, i: u64, growth: Growth<T>) -> Result<(), OutOfMemory>
        requires inside { CanGrow growth self.old.items i }
        requires room { 0 < self.old.room }
        requires few { length self.old.items + 1 < 2 ^ 62 }
        ensures items { self.new.items ≡ (if is_ok result then grown growth self.old.items i else self.old.items) }
        ensures level { self.new.height ≡ self.old.height }
    {
        match &mut self.node {
            Node::Page(items) => grow_page(items, i as usize, growth),
            Node::Fork {
                kids,
                ends,
                density,
                ..
            } => {
                let (k, j) = ready(alloc, kids, ends, *density, i)?;
                let kid = &mut kids[k];
                kid.grow(alloc, j, growth)?;
                lengthen(ends, k, 1);
                *density = density_of(ends);
                return Ok(());
            }
        }
    }
}
