//! Whole pages put behind the last one. Each full fork on the way is parted before, so that no page is copied and no
//! fork is filled beyond its most.

ghost use Rattle.std.specs.Prelude.{◌≡◌, ◌+◌, ◌-◌, ◌<◌, ◌≤◌, ◌^◌, ◌++◌, ◌∷◌, [], ℕ, IfOk, OnOk, OnErr, length, take, slice_index_or, All};
ghost use Rattle.version_pages.specs.Shape.{Shape, AreEnds, AreKids, IsDeep, IsUnder, joined};

use super::own::unshare;
use super::parts::{fork_kid, page_kid};
use super::split::part;
use super::{FULL, Kid, LONG, Node, Tree, WIDE, density_of, key_after, start};
use crate::page::{page_of_copies, page_of_one};
use base::{Keyed, OutOfMemory};
use std::alloc::Global;
use std::sync::Arc;

/// The most elements that are put at the end at once.
const MANY: usize = FULL * WIDE;

impl<T: Keyed> Tree<T> {
    /// How many more elements the last page may take.
    pub fn end_room(&self) -> usize
        ensures { result ≤ FULL }
    {
        match &self.node {
            Node::Page(items) => FULL - items.len(),
            Node::Fork { kids, .. } => kids[kids.len() - 1].tree().end_room(),
        }
    }
}

/// Puts one more child behind the last.
fn add_kid<T: Keyed>(
    kids: &mut Vec<Kid<T>>,
    ends: &mut Vec<u64>,
    kid: Kid<T>,
) -> Result<(), OutOfMemory>
    requires some { 0 < length kids.old.items }
    requires ends { AreEnds ends.old.items kids.old.items }
    requires few { length (joined kids.old.items) + length kid.items < 2 ^ 62 }
    ensures more { OnOk result (kids.new.items ≡ kids.old.items ++ kid ∷ []) }
    ensures same { OnErr result (kids.new.items ≡ kids.old.items) }
    ensures ends { AreEnds ends.new.items kids.new.items }
{
    let end = start(ends, kids.len()) + kid.len();
    ends.push(end)?;
    match kids.push(kid) {
        Ok(()) => Ok(()),
        Err(_) => {
            ends.pop();
            return Err(OutOfMemory);
        }
    }
}

/// Has the last child ready for a page more: a full one is parted before.
fn ready_end<T: Keyed>(
    alloc: Global,
    kids: &mut Vec<Kid<T>>,
    ends: &mut Vec<u64>,
) -> Result<(), OutOfMemory>
    requires some { 0 < length kids.old.items }
    requires ends { AreEnds ends.old.items kids.old.items }
    requires few { length (joined kids.old.items) < 2 ^ 62 }
    ensures same { joined kids.new.items ≡ joined kids.old.items }
    ensures under { (h : ℕ) → All (IsUnder h) kids.old.items → All (IsUnder h) kids.new.items }
    ensures ends { AreEnds ends.new.items kids.new.items }
    ensures least { length kids.old.items ≤ length kids.new.items }
    ensures most { length kids.new.items ≤ length kids.old.items + 1 }
    ensures room { OnOk result ((d : Shape T) → 0 < (slice_index_or kids.new.items (length kids.new.items - 1) d).room) }
{
    let last = kids.len() - 1;
    let kid = &kids[last];
    if kid.tree.has_room() {
        return Ok(());
    }
    let from = start(ends, last);
    part(alloc, kids, ends, last, from, true)?;
    Ok(())
}

impl<T: Keyed> Tree<T> {
    /// Puts a page behind the last one. After `OutOfMemory` the list is as before.
    #[cycle(graft)]
    fn graft(&mut self, alloc: Global, page: Kid<T>) -> Result<(), OutOfMemory>
        requires room { 0 < self.old.room }
        requires fork { 0 < self.old.height }
        requires page { page.height ≡ 0 }
        requires deep { IsDeep page }
        requires few { length self.old.items + length page.items < 2 ^ 62 }
        ensures items { OnOk result (self.new.items ≡ self.old.items ++ page.items) }
        ensures same { OnErr result (self.new.items ≡ self.old.items) }
        ensures level { self.new.height ≡ self.old.height }
    {
        match &mut self.node {
            Node::Page(_) => Err(OutOfMemory),
            Node::Fork {
                kids,
                height,
                ends,
                density,
            } => {
                if *height == 1 {
                    add_kid(kids, ends, page)?;
                    *density = density_of(ends);
                    return Ok(());
                }
                ready_end(alloc, kids, ends)?;
                let last = kids.len() - 1;
                let count = page.len();
                let kid = &mut kids[last];
                kid.graft(alloc, page)?;
                ends[last] += count;
                *density = density_of(ends);
                return Ok(());
            }
        }
    }
}

impl<T: Keyed> Kid<T> {
    /// Puts a page behind the last one. After `OutOfMemory` the list is as before.
    #[cycle(graft)]
    fn graft(&mut self, alloc: Global, page: Kid<T>) -> Result<(), OutOfMemory>
        requires room { 0 < self.old.room }
        requires fork { 0 < self.old.height }
        requires page { page.height ≡ 0 }
        requires deep { IsDeep page }
        requires few { length self.old.items + length page.items < 2 ^ 62 }
        ensures items { OnOk result (self.new.items ≡ self.old.items ++ page.items) }
        ensures same { OnErr result (self.new.items ≡ self.old.items) }
        ensures level { self.new.height ≡ self.old.height }
        ensures deep { IsDeep self.old → IsDeep self.new }
    {
        unshare(alloc, &mut self.tree)?;
        let Some(tree) = Arc::get_mut(&mut self.tree) else {
            return Err(OutOfMemory);
        };
        let count = page.len();
        tree.graft(alloc, page)?;
        let _height = tree.height();
        self.key = key_after(tree, self.len, self.key);
        self.len += count;
        Ok(())
    }

    /// Puts a page behind this one, under a fork of both.
    fn join(&mut self, alloc: Global, page: Kid<T>) -> Result<(), OutOfMemory>
        requires level { self.old.height ≡ page.height }
        requires deep { IsDeep page }
        requires few { length self.old.items + length page.items < 2 ^ 62 }
        requires height { page.height ≡ 0 }
        ensures items { OnOk result (self.new.items ≡ self.old.items ++ page.items) }
        ensures same { OnErr result (self.new.items ≡ self.old.items) }
    {
        let _height = self.tree.height();
        let mut kids = page_of_one(alloc, 2, self.clone()?)?;
        kids.push(page)?;
        *self = fork_kid(alloc, kids, 1)?;
        Ok(())
    }

    /// Has a tree ready for a page more: a full one is put under a fork of its two halves.
    fn ready_whole(&mut self, alloc: Global) -> Result<(), OutOfMemory>
        requires fork { 0 < self.old.height }
        ensures items { self.new.items ≡ self.old.items }
        ensures room { OnOk result (0 < self.new.room) }
        ensures fork { OnOk result (0 < self.new.height) }
    {
        if self.tree.has_room() {
            return Ok(());
        }
        return self.raise(alloc, true);
    }

    /// Puts a page behind the last one, one level higher where there is no room. After `OutOfMemory` the list is as
    /// before.
    pub fn graft_whole(&mut self, alloc: Global, page: Kid<T>) -> Result<(), OutOfMemory>
        requires page { page.height ≡ 0 }
        requires deep { IsDeep page }
        ensures items { OnOk result (self.new.items ≡ self.old.items ++ page.items) }
        ensures same { OnErr result (self.new.items ≡ self.old.items) }
    {
        if LONG - self.len() <= page.len() {
            return Err(OutOfMemory);
        }
        if self.tree.height() == 0 {
            return self.join(alloc, page);
        }
        self.ready_whole(alloc)?;
        return self.graft(alloc, page);
    }
}

/// Puts the first of some elements behind the last child of a fork over pages, as many as a page has. It answers how many.
/// After `OutOfMemory` the elements are as before.
fn add_page<T: Keyed + Copy>(
    alloc: Global,
    kids: &mut Vec<Kid<T>>,
    ends: &mut Vec<u64>,
    items: &[T],
) -> Result<usize, OutOfMemory>
    requires some { 0 < length items.now }
    requires kids { AreKids 1 kids.old.items }
    requires room { length kids.old.items < WIDE }
    requires ends { AreEnds ends.old.items kids.old.items }
    requires few { length (joined kids.old.items) + 64 < 2 ^ 62 }
    ensures some { IfOk result (λ count. 0 < count) }
    ensures within { IfOk result (λ count. count ≤ length items.now) }
    ensures items { IfOk result (λ count. joined kids.new.items ≡ joined kids.old.items ++ take count items.now) }
    ensures same { OnErr result (joined kids.new.items ≡ joined kids.old.items) }
    ensures kids { AreKids 1 kids.new.items }
    ensures ends { AreEnds ends.new.items kids.new.items }
{
    let count = items.len().min(FULL);
    let page = page_kid(alloc, page_of_copies(alloc, FULL, &items[..count])?)?;
    add_kid(kids, ends, page)?;
    Ok(count)
}

/// Puts the first of some elements behind the last child of a fork over pages, as many as it has room for. It answers how
/// many, one at least. After `OutOfMemory` the elements are as before.
fn fill_fork<T: Keyed + Copy>(
    alloc: Global,
    kids: &mut Vec<Kid<T>>,
    ends: &mut Vec<u64>,
    items: &[T],
) -> Result<usize, OutOfMemory>
    requires some { 0 < length items.now }
    requires kids { AreKids 1 kids.old.items }
    requires ends { AreEnds ends.old.items kids.old.items }
    requires few { length (joined kids.old.items) + length items.now + 64 < 2 ^ 62 }
    ensures some { IfOk result (λ count. 0 < count) }
    ensures within { IfOk result (λ count. count ≤ length items.now) }
    ensures items { IfOk result (λ count. joined kids.new.items ≡ joined kids.old.items ++ take count items.now) }
    ensures same { OnErr result (joined kids.new.items ≡ joined kids.old.items) }
    ensures kids { AreKids 1 kids.new.items }
    ensures ends { AreEnds ends.new.items kids.new.items }
{
    let mut at = 0;
    'pages: while at < items.len() {
        if kids.len() == WIDE {
            break;
        }
        match add_page(alloc, kids, ends, &items[at..]) {
            Ok(count) => at += count,
            Err(_) => break,
        }
    }
    if at == 0 {
        return Err(OutOfMemory);
    }
    Ok(at)
}

impl<T: Keyed + Copy> Tree<T> {
    /// Puts the first of some elements behind the last page, as many as the last fork has room for. It answers how many,
    /// one at least. After `OutOfMemory` the list is as before.
    #[cycle(pages)]
    fn add_pages(&mut self, alloc: Global, items: &[T]) -> Result<usize, OutOfMemory>
        requires some { 0 < length items.now }
        requires most { length items.now ≤ MANY }
        requires room { 0 < self.old.room }
        requires fork { 0 < self.old.height }
        requires few { length self.old.items + 16384 < 2 ^ 62 }
        ensures some { IfOk result (λ count. 0 < count) }
        ensures within { IfOk result (λ count. count ≤ length items.now) }
        ensures items { IfOk result (λ count. self.new.items ≡ self.old.items ++ take count items.now) }
        ensures same { OnErr result (self.new.items ≡ self.old.items) }
        ensures level { self.new.height ≡ self.old.height }
    {
        match &mut self.node {
            Node::Page(_) => Err(OutOfMemory),
            Node::Fork {
                kids,
                height,
                ends,
                density,
            } => {
                if *height == 1 {
                    let filled = fill_fork(alloc, kids, ends, items);
                    *density = density_of(ends);
                    return filled;
                }
                ready_end(alloc, kids, ends)?;
                let last = kids.len() - 1;
                let kid = &mut kids[last];
                let count = kid.add_pages(alloc, items)?;
                ends[last] += count as u64;
                *density = density_of(ends);
                return Ok(count);
            }
        }
    }
}

impl<T: Keyed + Copy> Kid<T> {
    /// Puts the first of some elements behind the last page, as many as the last fork has room for. It answers how many,
    /// one at least. After `OutOfMemory` the list is as before.
    #[cycle(pages)]
    fn add_pages(&mut self, alloc: Global, items: &[T]) -> Result<usize, OutOfMemory>
        requires some { 0 < length items.now }
        requires most { length items.now ≤ MANY }
        requires room { 0 < self.old.room }
        requires fork { 0 < self.old.height }
        requires few { length self.old.items + 16384 < 2 ^ 62 }
        ensures some { IfOk result (λ count. 0 < count) }
        ensures within { IfOk result (λ count. count ≤ length items.now) }
        ensures items { IfOk result (λ count. self.new.items ≡ self.old.items ++ take count items.now) }
        ensures same { OnErr result (self.new.items ≡ self.old.items) }
        ensures level { self.new.height ≡ self.old.height }
        ensures deep { IsDeep self.old → IsDeep self.new }
    {
        unshare(alloc, &mut self.tree)?;
        let Some(tree) = Arc::get_mut(&mut self.tree) else {
            return Err(OutOfMemory);
        };
        let count = tree.add_pages(alloc, items)?;
        let _height = tree.height();
        self.key = key_after(tree, self.len, self.key);
        self.len += count as u64;
        Ok(count)
    }

    /// Puts the first of some elements behind the last page, as many as a page has, one level higher where there is no
    /// room. It answers how many. After `OutOfMemory` the list is as before.
    fn add_one(&mut self, alloc: Global, items: &[T]) -> Result<usize, OutOfMemory>
        requires some { 0 < length items.now }
        ensures some { IfOk result (λ count. 0 < count) }
        ensures within { IfOk result (λ count. count ≤ length items.now) }
        ensures items { IfOk result (λ count. self.new.items ≡ self.old.items ++ take count items.now) }
        ensures same { OnErr result (self.new.items ≡ self.old.items) }
    {
        let count = items.len().min(FULL);
        let page = page_kid(alloc, page_of_copies(alloc, FULL, &items[..count])?)?;
        self.graft_whole(alloc, page)?;
        Ok(count)
    }

    /// Puts the first of some elements behind the last page, as pages. It answers how many, one at least. After
    /// `OutOfMemory` the list is as before.
    pub fn add_some(&mut self, alloc: Global, items: &[T]) -> Result<usize, OutOfMemory>
        requires some { 0 < length items.now }
        ensures some { IfOk result (λ count. 0 < count) }
        ensures within { IfOk result (λ count. count ≤ length items.now) }
        ensures items { IfOk result (λ count. self.new.items ≡ self.old.items ++ take count items.now) }
        ensures same { OnErr result (self.new.items ≡ self.old.items) }
    {
        if items.len() > MANY || self.len() >= LONG - 16_384 {
            return self.add_one(alloc, items);
        }
        if self.tree.height() == 0 || !self.tree.has_room() {
            return self.add_one(alloc, items);
        }
        return self.add_pages(alloc, items);
    }
}
