//! A full node in two parts.

ghost use Rattle.std.specs.Prelude.{◌≡◌, ◌<◌, ◌≤◌, ◌^◌, ◌++◌, ◌↔◌, IfOk, OnOk, IsTrue, length};
ghost use Rattle.version_pages.specs.Shape.{AreHalves, IsDeep, IsUnder, AreKids, AreEnds, joined, page_shape, fork_shape};

use super::{FULL, Kid, LONG, Node, Tree, WIDE, density_of};
use crate::page::{page_of, page_of_one};
use base::{Keyed, OutOfMemory};
use std::alloc::Global;
use std::sync::Arc;

/// How many elements children have together.
pub fn len_of<T: Keyed>(kids: &[Kid<T>]) -> u64
    requires { length (joined kids.now) < 2 ^ 64 }
    ensures { result ≡ length (joined kids.now) }
{
    let mut len = 0;
    for kid in kids {
        len += kid.len();
    }
    len
}

/// How many elements each child and those before it have together.
fn ends_of<T: Keyed>(alloc: Global, kids: &[Kid<T>]) -> Result<Vec<u64>, OutOfMemory>
    requires { length (joined kids.now) < 2 ^ 64 }
    ensures { IfOk result (λ ends. AreEnds ends.items kids.now) }
{
    let mut ends = Vec::with_capacity(alloc, WIDE)?;
    let mut end = 0;
    for kid in kids {
        end += kid.len();
        ends.push(end)?;
    }
    Ok(ends)
}

/// A page, to be shared.
pub fn page_kid<T: Keyed>(alloc: Global, items: Vec<T>) -> Result<Kid<T>, OutOfMemory>
    requires some { 0 < length items.items }
    requires few { length items.items ≤ FULL }
    ensures page { IfOk result (λ kid. kid ≡ page_shape items.items) }
    ensures deep { IfOk result IsDeep }
{
    let len = items.len() as u64;
    let tree = Tree {
        node: Node::Page(items),
    };
    let _height = tree.height();
    let key = tree.key();
    let tree = Arc::new(alloc, tree)?;
    Ok(Kid { tree, len, key })
}

/// A fork, to be shared.
pub fn fork_kid<T: Keyed>(
    alloc: Global,
    kids: Vec<Kid<T>>,
    height: u64,
) -> Result<Kid<T>, OutOfMemory>
    requires kids { AreKids height kids.items }
    requires few { length (joined kids.items) < 2 ^ 62 }
    ensures fork { IfOk result (λ kid. kid ≡ fork_shape height kids.items) }
    ensures deep { IfOk result IsDeep }
{
    let len = len_of(&kids);
    let ends = ends_of(alloc, &kids)?;
    let density = density_of(&ends);
    let tree = Tree {
        node: Node::Fork {
            kids,
            height,
            ends,
            density,
        },
    };
    let _height = tree.height();
    let key = tree.key();
    let tree = Arc::new(alloc, tree)?;
    Ok(Kid { tree, len, key })
}

impl<T: Keyed> Tree<T> {
    /// Whether the top node may take one more element or child.
    pub fn has_room(&self) -> bool
        ensures { IsTrue result ↔ (0 < self.now.room) }
    {
        match &self.node {
            Node::Page(items) => items.len() < FULL,
            Node::Fork { kids, .. } => kids.len() < WIDE,
        }
    }
}

impl<T: Keyed> Tree<T> {
    /// A full tree as two, of the same height. Where it grows at its end the first of them is nearly full.
    pub fn halves(&self, alloc: Global, at_end: bool) -> Result<(Kid<T>, Kid<T>), OutOfMemory>
        requires full { self.now.room ≡ 0 }
        requires few { length self.now.items < 2 ^ 62 }
        ensures { IfOk result (λ p. AreHalves p.0 p.1 self.now) }
    {
        match &self.node {
            Node::Page(items) => {
                let at = if at_end { FULL - 1 } else { FULL / 2 };
                let (lower, upper) = items.split_at(at);
                let lower = page_kid(alloc, page_of(alloc, FULL, lower)?)?;
                let upper = page_kid(alloc, page_of(alloc, FULL, upper)?)?;
                return Ok((lower, upper));
            }
            Node::Fork { kids, height, .. } => {
                let at = if at_end { WIDE - 2 } else { WIDE / 2 };
                let (lower, upper) = kids.split_at(at);
                let lower = fork_kid(alloc, page_of(alloc, WIDE, lower)?, *height)?;
                let upper = fork_kid(alloc, page_of(alloc, WIDE, upper)?, *height)?;
                return Ok((lower, upper));
            }
        }
    }
}

impl<T: Keyed> Kid<T> {
    /// A full tree as two, of the same height. Where it grows at its end the first of them is nearly full.
    pub fn halves(&self, alloc: Global, at_end: bool) -> Result<(Kid<T>, Kid<T>), OutOfMemory>
        requires full { self.now.room ≡ 0 }
        ensures { IfOk result (λ p. AreHalves p.0 p.1 self.now) }
    {
        let len = self.len;
        prove!(len < LONG);
        self.tree.halves(alloc, at_end)
    }

    /// Puts a full tree under a fork of its two halves.
    pub fn raise(&mut self, alloc: Global, at_end: bool) -> Result<(), OutOfMemory>
        requires full { self.old.room ≡ 0 }
        ensures items { self.new.items ≡ self.old.items }
        ensures room { OnOk result (0 < self.new.room) }
        ensures fork { OnOk result (0 < self.new.height) }
    {
        let height = self.tree.height();
        let (lower, upper) = self.halves(alloc, at_end)?;
        let mut kids = page_of_one(alloc, 2, lower)?;
        kids.push(upper)?;
        *self = fork_kid(alloc, kids, height + 1)?;
        Ok(())
    }
}
