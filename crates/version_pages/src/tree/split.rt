//! A full node parted in its place: the upper part goes to a new node, and the lower one stays. All memory is taken
//! before anything moves, or what was moved goes back.

ghost use Rattle.std.specs.Prelude.{◌≡◌, ◌+◌, ◌-◌, ◌<◌, ◌≤◌, ◌^◌, ◌++◌, ℕ, IfOk, IfErr, OnOk, OnErr, length, take, slice_index_or, insert, vec_len, vec_capacity};
ghost use Rattle.version_pages.specs.Shape.{Shape, AreEnds, AreHalves, AreKids, IsDeep, IsPartedAt, joined};

use super::own::unshare;
use super::parts::fork_kid;
use super::{FULL, Kid, LONG, Node, Tree, WIDE};
use crate::page::page_of;
use base::{Keyed, OutOfMemory};
use std::alloc::Global;
use std::sync::Arc;

impl<T: Keyed> Tree<T> {
    /// The elements of a page.
    fn into_page(self) -> Vec<T>
        requires { self.height ≡ 0 }
        ensures { result.items ≡ self.items }
    {
        match self.node {
            Node::Page(items) => items,
            Node::Fork { .. } => unreachable!(),
        }
    }
}

/// A page, to be shared, or its elements where there is no memory.
fn page_or_items<T: Keyed>(alloc: Global, items: Vec<T>) -> Result<Kid<T>, Vec<T>>
    requires some { 0 < length items.items }
    requires few { length items.items ≤ FULL }
    ensures items { IfOk result (λ kid. kid.items ≡ items.items) }
    ensures level { IfOk result (λ kid. kid.height ≡ 0) }
    ensures room { IfOk result (λ kid. kid.room ≡ FULL - length items.items) }
    ensures deep { IfOk result IsDeep }
    ensures back { IfErr result (λ back. back.items ≡ items.items) }
{
    let len = items.len() as u64;
    let tree = Tree {
        node: Node::Page(items),
    };
    let _height = tree.height();
    let key = tree.key();
    match Arc::new(alloc, tree) {
        Ok(tree) => Ok(Kid { tree, len, key }),
        Err(refused) => Err(refused.value.into_page()),
    }
}

/// Puts elements back at the end of a page that has memory for them.
fn put_back<T: Drop>(page: &mut Vec<T>, mut items: Vec<T>)
    requires { vec_len page.old + vec_len items ≤ vec_capacity page.old }
    ensures { page.new.items ≡ page.old.items ++ items.items }
{
    let Ok(()) = page.append(&mut items) else {
        unreachable!();
    };
}

/// Takes the elements of a page from a place on off, as a page of their own. After `OutOfMemory` it is as before.
fn split_page<T: Keyed>(alloc: Global, page: &mut Vec<T>, at: usize) -> Result<Kid<T>, OutOfMemory>
    requires some { 0 < at }
    requires inside { at < length page.old.items }
    requires few { length page.old.items ≤ FULL }
    ensures items { IfOk result (λ upper. page.new.items ++ upper.items ≡ page.old.items) }
    ensures level { IfOk result (λ upper. upper.height ≡ 0) }
    ensures room { IfOk result (λ upper. 0 < upper.room) }
    ensures deep { IfOk result IsDeep }
    ensures lower { OnOk result (length page.new.items ≡ at) }
    ensures same { OnErr result (page.new.items ≡ page.old.items) }
{
    let upper = page.split_off(at)?;
    match page_or_items(alloc, upper) {
        Ok(upper) => Ok(upper),
        Err(upper) => {
            put_back(page, upper);
            return Err(OutOfMemory);
        }
    }
}

/// Takes the children of a fork from a place on off, as a fork of their own. After `OutOfMemory` it is as before.
fn split_fork<T: Keyed>(
    alloc: Global,
    kids: &mut Vec<Kid<T>>,
    ends: &mut Vec<u64>,
    height: u64,
    at: usize,
) -> Result<Kid<T>, OutOfMemory>
    requires two { 2 ≤ at }
    requires inside { at + 2 ≤ length kids.old.items }
    requires kids { AreKids height kids.old.items }
    requires ends { AreEnds ends.old.items kids.old.items }
    requires few { length (joined kids.old.items) < 2 ^ 62 }
    ensures items { IfOk result (λ upper. joined kids.new.items ++ upper.items ≡ joined kids.old.items) }
    ensures level { IfOk result (λ upper. upper.height ≡ height) }
    ensures room { IfOk result (λ upper. 0 < upper.room) }
    ensures deep { IfOk result IsDeep }
    ensures lower { OnOk result (length kids.new.items ≡ at) }
    ensures same { OnErr result (kids.new.items ≡ kids.old.items) }
    ensures kids { AreKids height kids.new.items }
    ensures ends { AreEnds ends.new.items kids.new.items }
{
    let (_, upper) = kids.split_at(at);
    let upper = fork_kid(alloc, page_of(alloc, WIDE, upper)?, height)?;
    kids.truncate(at);
    ends.truncate(at);
    Ok(upper)
}

impl<T: Keyed> Tree<T> {
    /// Takes the upper part of a full tree off: the last of it alone where it grows at its end. After `OutOfMemory` it is
    /// as before.
    fn split_off(&mut self, alloc: Global, at_end: bool) -> Result<Kid<T>, OutOfMemory>
        requires full { self.old.room ≡ 0 }
        requires few { length self.old.items < 2 ^ 62 }
        ensures items { IfOk result (λ upper. self.new.items ++ upper.items ≡ self.old.items) }
        ensures upper_level { IfOk result (λ upper. upper.height ≡ self.old.height) }
        ensures upper_room { IfOk result (λ upper. 0 < upper.room) }
        ensures upper_deep { IfOk result IsDeep }
        ensures level { self.new.height ≡ self.old.height }
        ensures room { OnOk result (0 < self.new.room) }
        ensures same { OnErr result (self.new ≡ self.old) }
    {
        match &mut self.node {
            Node::Page(items) => {
                let at = if at_end { FULL - 1 } else { FULL / 2 };
                return split_page(alloc, items, at);
            }
            Node::Fork {
                kids,
                height,
                ends,
                ..
            } => {
                let at = if at_end { WIDE - 2 } else { WIDE / 2 };
                return split_fork(alloc, kids, ends, *height, at);
            }
        }
    }
}

impl<T: Keyed> Kid<T> {
    /// Takes the upper part of a full tree off, in its place where nobody else holds it: the last of it alone where it
    /// grows at its end. After `OutOfMemory` it is as before.
    fn split_off(&mut self, alloc: Global, at_end: bool) -> Result<Kid<T>, OutOfMemory>
        requires full { self.old.room ≡ 0 }
        ensures halves { IfOk result (λ upper. AreHalves self.new upper self.old) }
        ensures same { OnErr result (self.new ≡ self.old) }
    {
        let len = self.len;
        prove!(len < LONG);
        unshare(alloc, &mut self.tree)?;
        let Some(tree) = Arc::get_mut(&mut self.tree) else {
            return Err(OutOfMemory);
        };
        let upper = tree.split_off(alloc, at_end)?;
        let _height = tree.height();
        self.len = len - upper.len;
        Ok(upper)
    }
}

/// Puts one more child in at a place, where there is memory for it.
pub fn put_kid<T: Keyed>(kids: &mut Vec<Kid<T>>, k: usize, kid: Kid<T>)
    requires child { k ≤ length kids.old.items }
    requires memory { vec_len kids.old < vec_capacity kids.old }
    ensures { kids.new.items ≡ insert kids.old.items k kid }
{
    let Ok(()) = kids.insert(k, kid) else {
        unreachable!();
    };
}

/// Notes where a child ends, before the end of another, where there is memory for one more.
pub fn put_end(ends: &mut Vec<u64>, k: usize, end: u64)
    requires child { k ≤ length ends.old.items }
    requires memory { vec_len ends.old < vec_capacity ends.old }
    ensures { ends.new.items ≡ insert ends.old.items k end }
{
    let Ok(()) = ends.insert(k, end) else {
        unreachable!();
    };
}

/// Parts a full child in its place. It answers how many elements the first part has. After `OutOfMemory` the children
/// are as before.
pub fn part<T: Keyed>(
    alloc: Global,
    kids: &mut Vec<Kid<T>>,
    ends: &mut Vec<u64>,
    k: usize,
    start: u64,
    at_end: bool,
) -> Result<u64, OutOfMemory>
    requires child { k < length kids.old.items }
    requires full { (d : Shape T) → (slice_index_or kids.old.items k d).room ≡ 0 }
    requires ends { AreEnds ends.old.items kids.old.items }
    requires start { start ≡ length (joined (take k kids.old.items)) }
    requires few { length (joined kids.old.items) < 2 ^ 62 }
    ensures parted { IfOk result (IsPartedAt kids.old.items kids.new.items k) }
    ensures same { OnErr result (kids.new.items ≡ kids.old.items) }
    ensures ends { AreEnds ends.new.items kids.new.items }
{
    ends.reserve(1)?;
    kids.reserve(1)?;
    let kid = &mut kids[k];
    let upper = kid.split_off(alloc, at_end)?;
    let len = kid.len;
    put_kid(kids, k + 1, upper);
    put_end(ends, k, start + len);
    Ok(len)
}
