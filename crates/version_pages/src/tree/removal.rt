//! Some elements of one page taken out in their place.

ghost use Rattle.std.specs.Prelude.{◌≡◌, ◌+◌, ◌<◌, ◌≤◌, ◌^◌, ◌++◌, IfOk, OnErr, IsTrue, length, take, drop};
ghost use Rattle.version_pages.specs.Shape.{AreEnds, IsDeep, joined};

use super::own::unshare;
use super::{Kid, LONG, Node, Tree, density_of, find, key_after};
use base::{Keyed, OutOfMemory};
use std::alloc::Global;
use std::sync::Arc;

/// Takes some elements out of a page, of which some are left. It answers how many are left, or 0 where none would be, and
/// then the page is as before.
fn remove_on<T: Drop>(page: &mut Vec<T>, at: usize, count: usize) -> u64
    requires inside { at + count ≤ length page.old.items }
    ensures gone { 0 < result → page.new.items ≡ take at page.old.items ++ drop (at + count) page.old.items }
    ensures none { result ≡ 0 → page.new.items ≡ page.old.items }
    ensures some { 0 < length page.old.items → 0 < length page.new.items }
    ensures few { length page.new.items ≤ length page.old.items }
{
    let left = page.len() - count;
    if left == 0 {
        return 0;
    }
    page[at..].rotate_left(count);
    page.truncate(left);
    left as u64
}

/// Notes where each child ends.
fn note_ends<T: Keyed>(ends: &mut [u64], kids: &Vec<Kid<T>>)
    requires count { length ends.old ≡ length kids.now.items }
    requires few { length (joined kids.now.items) < 2 ^ 64 }
    ensures { AreEnds ends.new kids.now.items }
{
    let mut end = 0;
    let mut n = 0;
    'kids: while n < kids.len() {
        end += kids[n].len();
        ends[n] = end;
        n += 1;
    }
}

/// How many elements a list has after some were taken out, where a page has some left, or else none were.
fn len_after(len: u64, count: u64, left: u64) -> u64
    requires { count ≤ len }
    ensures gone { 0 < left → result + count ≡ len }
    ensures none { left ≡ 0 → result ≡ len }
{
    if left == 0 { len } else { len - count }
}

impl<T: Keyed> Tree<T> {
    /// Takes some elements out from a place on, where one page has them all, and others beside them. It answers how many
    /// the page has left, or 0 where there is no such page, and then the list is as before; so it is after `OutOfMemory`.
    #[cycle(remove)]
    fn remove_inside(&mut self, alloc: Global, i: u64, count: u64) -> Result<u64, OutOfMemory>
        requires some { 0 < count }
        requires inside { i + count ≤ length self.old.items }
        requires few { length self.old.items < 2 ^ 62 }
        ensures gone { IfOk result (λ left. 0 < left → self.new.items ≡ take i self.old.items ++ drop (i + count) self.old.items) }
        ensures none { IfOk result (λ left. left ≡ 0 → self.new.items ≡ self.old.items) }
        ensures same { OnErr result (self.new.items ≡ self.old.items) }
        ensures level { self.new.height ≡ self.old.height }
    {
        match &mut self.node {
            Node::Page(items) => Ok(remove_on(items, i as usize, count as usize)),
            Node::Fork {
                kids,
                height,
                ends,
                density,
            } => {
                let (k, j) = find(kids, ends, *density, i);
                let kid = &mut kids[k];
                if !kid.has_inside(*height, j, count) {
                    return Ok(0);
                }
                let left = kid.remove_inside(alloc, j, count);
                note_ends(ends, kids);
                *density = density_of(ends);
                return left;
            }
        }
    }
}

impl<T: Keyed> Kid<T> {
    /// Whether a child of a fork of this height has these elements, and is no page that has no others.
    fn has_inside(&self, height: u64, i: u64, count: u64) -> bool
        requires { i ≤ length self.now.items }
        ensures { IsTrue result → i + count ≤ length self.now.items }
    {
        if height == 1 && count >= self.len {
            return false;
        }
        count <= self.len - i
    }

    /// Takes some elements out from a place on, where one page has them all, and others beside them. It answers how many
    /// the page has left, or 0 where there is no such page, and then the list is as before; so it is after `OutOfMemory`.
    #[cycle(remove)]
    pub fn remove_inside(&mut self, alloc: Global, i: u64, count: u64) -> Result<u64, OutOfMemory>
        requires some { 0 < count }
        requires inside { i + count ≤ length self.old.items }
        ensures gone { IfOk result (λ left. 0 < left → self.new.items ≡ take i self.old.items ++ drop (i + count) self.old.items) }
        ensures none { IfOk result (λ left. left ≡ 0 → self.new.items ≡ self.old.items) }
        ensures same { OnErr result (self.new.items ≡ self.old.items) }
        ensures level { self.new.height ≡ self.old.height }
        ensures deep { IsDeep self.old → IsDeep self.new }
    {
        let len = self.len;
        prove!(len < LONG);
        unshare(alloc, &mut self.tree)?;
        let Some(tree) = Arc::get_mut(&mut self.tree) else {
            return Err(OutOfMemory);
        };
        let left = tree.remove_inside(alloc, i, count)?;
        let _height = tree.height();
        self.key = key_after(tree, i, self.key);
        self.len = len_after(len, count, left);
        Ok(left)
    }
}
