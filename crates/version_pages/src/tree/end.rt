//! More elements at the end, where that takes no more than room in the last page.

ghost use Rattle.std.specs.Prelude.{◌≡◌, ◌+◌, ◌<◌, ◌≤◌, ◌^◌, ◌++◌, is_ok, if◌then◌else◌, IfErr, insert, length, take};
ghost use Rattle.version_pages.specs.Shape.{IsDeep};

use super::{FULL, Kid, Node, Tree, key_after};
use base::Keyed;
use std::sync::Arc;

/// Puts one more element at a page's end, or hands it back where there is no memory.
fn push_on<T>(page: &mut Vec<T>, value: T) -> Result<(), T>
    ensures items { page.new.items ≡ (if is_ok result then insert page.old.items (length page.old.items) value else page.old.items) }
    ensures back { IfErr result (λ x. x ≡ value) }
{
    match page.push(value) {
        Ok(()) => Ok(()),
        Err(refused) => Err(refused.value),
    }
}

/// Puts the first of some elements at a page's end, as many as it has room for. It answers how many: none where there
/// is no memory.
fn extend_on<T: Copy>(page: &mut Vec<T>, items: &[T]) -> usize
    requires { length page.old.items ≤ FULL }
    ensures most { result ≤ FULL }
    ensures within { result ≤ length items.now }
    ensures items { page.new.items ≡ page.old.items ++ take result items.now }
    ensures few { length page.new.items ≤ FULL }
{
    let count = items.len().min(FULL - page.len());
    match page.extend_from_slice(&items[..count]) {
        Ok(()) => count,
        Err(_) => 0,
    }
}

impl<T: Keyed + Copy> Kid<T> {
    /// Puts the first of some elements at the end, as many as the last page has room for, where nobody else holds a
    /// node on the way. It answers how many.
    #[cycle(extend)]
    pub fn extend_alone(&mut self, items: &[T]) -> usize
        requires few { length self.old.items + 64 < 2 ^ 62 }
        ensures most { result ≤ FULL }
        ensures within { result ≤ length items.now }
        ensures items { self.new.items ≡ self.old.items ++ take result items.now }
        ensures level { self.new.height ≡ self.old.height }
        ensures deep { IsDeep self.old → IsDeep self.new }
    {
        let Some(tree) = Arc::get_mut(&mut self.tree) else {
            return 0;
        };
        let count = tree.extend_alone(items);
        let _height = tree.height();
        self.key = key_after(tree, self.len, self.key);
        self.len += count as u64;
        count
    }
}

impl<T: Keyed + Copy> Tree<T> {
    /// Puts the first of some elements at the end, as many as the last page has room for, where nobody else holds a
    /// node on the way. It answers how many.
    #[cycle(extend)]
    fn extend_alone(&mut self, items: &[T]) -> usize
        requires few { length self.old.items + 64 < 2 ^ 62 }
        ensures most { result ≤ FULL }
        ensures within { result ≤ length items.now }
        ensures items { self.new.items ≡ self.old.items ++ take result items.now }
        ensures level { self.new.height ≡ self.old.height }
    {
        match &mut self.node {
            Node::Page(page) => extend_on(page, items),
            Node::Fork { kids, ends, .. } => {
                let end = kids.len() - 1;
                let kid = &mut kids[end];
                let count = kid.extend_alone(items);
                ends[end] += count as u64;
                return count;
            }
        }
    }
}

impl<T: Keyed> Kid<T> {
    /// Puts one more element at the end, where nobody else holds a node on the way and the last page has room. Else it hands
    /// the element back, and the list is as before.
    #[cycle(push)]
    pub fn push_alone(&mut self, value: T) -> Result<(), T>
        requires few { length self.old.items + 1 < 2 ^ 62 }
        ensures items { self.new.items ≡ (if is_ok result then insert self.old.items (length self.old.items) value else self.old.items) }
        ensures back { IfErr result (λ x. x ≡ value) }
        ensures level { self.new.height ≡ self.old.height }
        ensures deep { IsDeep self.old → IsDeep self.new }
    {
        let Some(tree) = Arc::get_mut(&mut self.tree) else {
            return Err(value);
        };
        tree.push_alone(value)?;
        let _height = tree.height();
        self.key = key_after(tree, self.len, self.key);
        self.len += 1;
        Ok(())
    }
}

impl<T: Keyed> Tree<T> {
    /// Puts one more element at the end, where nobody else holds a node on the way and the last page has room. Else it hands
    /// the element back, and the list is as before.
    #[cycle(push)]
    fn push_alone(&mut self, value: T) -> Result<(), T>
        requires few { length self.old.items + 1 < 2 ^ 62 }
        ensures items { self.new.items ≡ (if is_ok result then insert self.old.items (length self.old.items) value else self.old.items) }
        ensures back { IfErr result (λ x. x ≡ value) }
        ensures level { self.new.height ≡ self.old.height }
    {
        match &mut self.node {
            Node::Page(items) => {
                if items.len() == FULL {
                    return Err(value);
                }
                return push_on(items, value);
            }
            Node::Fork { kids, ends, .. } => {
                let last = kids.len() - 1;
                let kid = &mut kids[last];
                kid.push_alone(value)?;
                ends[last] += 1;
                return Ok(());
            }
        }
    }
}
