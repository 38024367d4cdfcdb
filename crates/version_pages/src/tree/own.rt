//! A tree that others hold too is copied before it is changed.

ghost use Rattle.std.specs.Prelude.{◌≡◌, IfOk};
ghost use Rattle.std.specs.Arc.{arc_value};

use super::{FULL, Kid, Node, Tree, WIDE};
use crate::page::page_of;
use base::{Keyed, OutOfMemory};
use std::alloc::{AllocError, Global};
use std::sync::Arc;

impl<T: Keyed> Clone for Kid<T> {
    ghost is_clone = { λ kid copy. copy ≡ kid };

    fn clone(&self) -> Result<Kid<T>, AllocError> {
        let tree = Arc::try_clone(&self.tree)?;
        Ok(Kid {
            tree,
            len: self.len,
            key: self.key,
        })
    }
}

impl<T: Keyed> Tree<T> {
    /// The same tree again: a page of copies, or a fork that shares its children.
    fn duplicate(&self, alloc: Global) -> Result<Tree<T>, OutOfMemory>
        ensures { IfOk result (λ tree. tree ≡ self.now) }
    {
        match &self.node {
            Node::Page(items) => {
                let items = page_of(alloc, (2 * items.len()).min(FULL), items)?;
                Ok(Tree {
                    node: Node::Page(items),
                })
            }
            Node::Fork {
                kids,
                height,
                ends,
                density,
            } => {
                let room = (2 * kids.len()).min(WIDE);
                let kids = page_of(alloc, room, kids)?;
                let ends = page_of(alloc, room, ends)?;
                Ok(Tree {
                    node: Node::Fork {
                        kids,
                        height: *height,
                        ends,
                        density: *density,
                    },
                })
            }
        }
    }
}

/// Puts a copy in the place of a pointer's tree.
#[cold]
#[inline(never)]
fn copy_tree<T: Keyed>(alloc: Global, tree: &mut Arc<Tree<T>, Global>) -> Result<(), OutOfMemory>
    ensures { arc_value tree.new ≡ arc_value tree.old }
{
    let copy = tree.duplicate(alloc)?;
    *tree = Arc::new(alloc, copy)?;
    Ok(())
}

/// Makes a pointer the only one to its tree: where somebody else holds it too, this one gets a copy. The call that copies
/// stands in two branches, so that the compiler leaves it a call, and only the look at the count stands where a tree is
/// changed.
#[inline(always)]
pub fn unshare<T: Keyed>(alloc: Global, tree: &mut Arc<Tree<T>, Global>) -> Result<(), OutOfMemory>
    ensures { arc_value tree.new ≡ arc_value tree.old }
{
    match Arc::strong_count(tree) {
        1 => Ok(()),
        2 => copy_tree(alloc, tree),
        _ => copy_tree(alloc, tree),
    }
}
