//! Some elements put in at a place: in one descent as many as the page there has room for. Each full node on the way is
//! parted before anything grows.

ghost use Rattle.std.specs.Prelude.{◌≡◌, ◌+◌, ◌<◌, ◌≤◌, ◌^◌, ◌++◌, IfOk, OnErr, length, take, drop};
ghost use Rattle.version_pages.specs.Shape.{IsDeep};

use super::grow::{lengthen, ready};
use super::hang::{hang, hangs_at};
use super::own::unshare;
use super::{FULL, Kid, LONG, Node, Tree, density_of, key_after};
use base::{Keyed, OutOfMemory};
use std::alloc::Global;
use std::sync::Arc;

/// Puts the first of some elements into a page at a place, as many as it has room for. It answers how many. After
/// `OutOfMemory` the page is as before.
fn insert_on<T: Copy>(page: &mut Vec<T>, at: usize, items: &[T]) -> Result<usize, OutOfMemory>
    requires some { 0 < length items.now }
    requires inside { at ≤ length page.old.items }
    requires room { length page.old.items < FULL }
    ensures some { IfOk result (λ count. 0 < count) }
    ensures most { IfOk result (λ count. length page.old.items + count ≤ FULL) }
    ensures within { IfOk result (λ count. count ≤ length items.now) }
    ensures items { IfOk result (λ count. page.new.items ≡ take at page.old.items ++ take count items.now ++ drop at page.old.items) }
    ensures same { OnErr result (page.new.items ≡ page.old.items) }
{
    if let [only] = items {
        page.insert(at, *only)?;
        return Ok(1);
    }
    let count = items.len().min(FULL - page.len());
    let end = page.len();
    page.extend_from_slice(&items[..count])?;
    page.copy_within(at..end, at + count);
    page[at..at + count].copy_from_slice(&items[..count]);
    Ok(count)
}

impl<T: Keyed + Copy> Tree<T> {
    /// Puts the first of some elements in at a place, as many as the page there has room for. It answers how many, one at
    /// least. After `OutOfMemory` the list is as before.
    #[cycle(insert)]
    fn insert_some(&mut self, alloc: Global, i: u64, items: &[T]) -> Result<usize, OutOfMemory>
        requires some { 0 < length items.now }
        requires inside { i ≤ length self.old.items }
        requires room { 0 < self.old.room }
        requires few { length self.old.items + 64 < 2 ^ 62 }
        ensures some { IfOk result (λ count. 0 < count) }
        ensures most { IfOk result (λ count. count ≤ FULL) }
        ensures within { IfOk result (λ count. count ≤ length items.now) }
        ensures items { IfOk result (λ count. self.new.items ≡ take i self.old.items ++ take count items.now ++ drop i self.old.items) }
        ensures same { OnErr result (self.new.items ≡ self.old.items) }
        ensures level { self.new.height ≡ self.old.height }
    {
        match &mut self.node {
            Node::Page(page) => insert_on(page, i as usize, items),
            Node::Fork {
                kids,
                height,
                ends,
                density,
            } => {
                if let Some(k) = hangs_at(kids, ends, *density, *height, i, items.len()) {
                    let hung = hang(alloc, kids, ends, k, i, items);
                    *density = density_of(ends);
                    return hung;
                }
                let (k, j) = ready(alloc, kids, ends, *density, i)?;
                let kid = &mut kids[k];
                let count = kid.insert_some(alloc, j, items)?;
                lengthen(ends, k, count as u64);
                *density = density_of(ends);
                return Ok(count);
            }
        }
    }
}

impl<T: Keyed + Copy> Kid<T> {
    /// Puts the first of some elements in at a place, as many as the page there has room for. It answers how many, one at
    /// least. After `OutOfMemory` the list is as before.
    #[cycle(insert)]
    fn insert_some(&mut self, alloc: Global, i: u64, items: &[T]) -> Result<usize, OutOfMemory>
        requires some { 0 < length items.now }
        requires inside { i ≤ length self.old.items }
        requires room { 0 < self.old.room }
        requires few { length self.old.items + 64 < 2 ^ 62 }
        ensures some { IfOk result (λ count. 0 < count) }
        ensures most { IfOk result (λ count. count ≤ FULL) }
        ensures within { IfOk result (λ count. count ≤ length items.now) }
        ensures items { IfOk result (λ count. self.new.items ≡ take i self.old.items ++ take count items.now ++ drop i self.old.items) }
        ensures same { OnErr result (self.new.items ≡ self.old.items) }
        ensures level { self.new.height ≡ self.old.height }
        ensures deep { IsDeep self.old → IsDeep self.new }
    {
        unshare(alloc, &mut self.tree)?;
        let Some(tree) = Arc::get_mut(&mut self.tree) else {
            return Err(OutOfMemory);
        };
        let count = tree.insert_some(alloc, i, items)?;
        let _height = tree.height();
        self.len += count as u64;
        self.key = key_after(tree, i, self.key);
        Ok(count)
    }

    /// Puts the first of some elements in at a place, as many as the page there has room for, one level higher where the
    /// tree is full. It answers how many, one at least. After `OutOfMemory` the list is as before.
    pub fn insert_whole(&mut self, alloc: Global, i: u64, items: &[T]) -> Result<usize, OutOfMemory>
        requires some { 0 < length items.now }
        requires inside { i ≤ length self.old.items }
        ensures some { IfOk result (λ count. 0 < count) }
        ensures within { IfOk result (λ count. count ≤ length items.now) }
        ensures items { IfOk result (λ count. self.new.items ≡ take i self.old.items ++ take count items.now ++ drop i self.old.items) }
        ensures same { OnErr result (self.new.items ≡ self.old.items) }
    {
        let len = self.len;
        if len >= LONG - 64 {
            return Err(OutOfMemory);
        }
        if self.tree.has_room() {
            return self.insert_some(alloc, i, items);
        }
        self.raise(alloc, i == len)?;
        return self.insert_some(alloc, i, items);
    }
}
