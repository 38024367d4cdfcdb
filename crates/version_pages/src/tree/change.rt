//! An element changed in its place, or the elements from a place to the end of its page.

ghost use Rattle.std.specs.Prelude.{◌≡◌, ◌<◌, IfOk, OnErr, length};
ghost use Rattle.std.specs.Fn.{FnOnceReturnsAtMut};
ghost use Rattle.version_pages.specs.Changes.{Changes, ChangesRun};

use super::own::unshare;
use super::{Kid, Node, Tree, find, key_after};
use base::{Keyed, OutOfMemory};
use std::alloc::Global;
use std::sync::Arc;

/// Calls a change on a value.
fn call_at<T, R, F: FnOnce(&mut T) -> R>(change: F, value: &mut T) -> R
    requires { F.IsAlwaysCallable change }
    ensures { FnOnceReturnsAtMut F.FnOnce change value.old result value.new }
{
    change(value)
}

/// Calls a change on some elements.
fn call_on<T, R, F: FnOnce(&mut [T]) -> R>(change: F, run: &mut [T]) -> R
    requires { F.IsAlwaysCallable change }
    ensures called { FnOnceReturnsAtMut F.FnOnce change run.old result run.new }
    ensures long { length run.new ≡ length run.old }
{
    change(run)
}

impl<T: Keyed> Tree<T> {
    /// Has an element changed in its place. After `OutOfMemory` the list is as before, and the change was not called.
    fn change<R, F: FnOnce(&mut T) -> R>(
        &mut self,
        alloc: Global,
        i: u64,
        change: F,
    ) -> Result<R, OutOfMemory>
        requires inside { i < length self.old.items }
        requires callable { F.IsAlwaysCallable change }
        ensures changed { IfOk result (Changes F.FnOnce change self.old.items self.new.items i) }
        ensures same { OnErr result (self.new.items ≡ self.old.items) }
        ensures level { self.new.height ≡ self.old.height }
    {
        match &mut self.node {
            Node::Page(items) => Ok(call_at(change, &mut items[i as usize])),
            Node::Fork {
                kids,
                ends,
                density,
                ..
            } => {
                let (k, j) = find(kids, ends, *density, i);
                let kid = &mut kids[k];
                unshare(alloc, &mut kid.tree)?;
                let Some(child) = Arc::get_mut(&mut kid.tree) else {
                    return Err(OutOfMemory);
                };
                let answer = child.change(alloc, j, change);
                kid.key = key_after(child, j, kid.key);
                return answer;
            }
        }
    }

    /// Has the elements from a place to the end of its page changed in their places. After `OutOfMemory` the list is as
    /// before, and the change was not called.
    fn change_run<R, F: FnOnce(&mut [T]) -> R>(
        &mut self,
        alloc: Global,
        i: u64,
        change: F,
    ) -> Result<R, OutOfMemory>
        requires inside { i < length self.old.items }
        requires callable { F.IsAlwaysCallable change }
        ensures changed { IfOk result (ChangesRun F.FnOnce change self.old.items self.new.items i) }
        ensures same { OnErr result (self.new.items ≡ self.old.items) }
        ensures level { self.new.height ≡ self.old.height }
    {
        match &mut self.node {
            Node::Page(items) => Ok(call_on(change, &mut items[i as usize..])),
            Node::Fork {
                kids,
                ends,
                density,
                ..
            } => {
                let (k, j) = find(kids, ends, *density, i);
                let kid = &mut kids[k];
                unshare(alloc, &mut kid.tree)?;
                let Some(child) = Arc::get_mut(&mut kid.tree) else {
                    return Err(OutOfMemory);
                };
                let answer = child.change_run(alloc, j, change);
                kid.key = key_after(child, j, kid.key);
                return answer;
            }
        }
    }
}

impl<T: Keyed> Kid<T> {
    /// Has an element changed in its place. After `OutOfMemory` the list is as before, and the change was not called.
    pub fn change<R, F: FnOnce(&mut T) -> R>(
        &mut self,
        alloc: Global,
        i: u64,
        change: F,
    ) -> Result<R, OutOfMemory>
        requires inside { i < length self.old.items }
        requires callable { F.IsAlwaysCallable change }
        ensures changed { IfOk result (Changes F.FnOnce change self.old.items self.new.items i) }
        ensures same { OnErr result (self.new.items ≡ self.old.items) }
    {
        unshare(alloc, &mut self.tree)?;
        let Some(tree) = Arc::get_mut(&mut self.tree) else {
            return Err(OutOfMemory);
        };
        let answer = tree.change(alloc, i, change);
        self.key = key_after(tree, i, self.key);
        return answer;
    }

    /// Has the elements from a place to the end of its page changed in their places. After `OutOfMemory` the list is as
    /// before, and the change was not called.
    pub fn change_run<R, F: FnOnce(&mut [T]) -> R>(
        &mut self,
        alloc: Global,
        i: u64,
        change: F,
    ) -> Result<R, OutOfMemory>
        requires inside { i < length self.old.items }
        requires callable { F.IsAlwaysCallable change }
        ensures changed { IfOk result (ChangesRun F.FnOnce change self.old.items self.new.items i) }
        ensures same { OnErr result (self.new.items ≡ self.old.items) }
    {
        unshare(alloc, &mut self.tree)?;
        let Some(tree) = Arc::get_mut(&mut self.tree) else {
            return Err(OutOfMemory);
        };
        let answer = tree.change_run(alloc, i, change);
        self.key = key_after(tree, i, self.key);
        return answer;
    }
}
