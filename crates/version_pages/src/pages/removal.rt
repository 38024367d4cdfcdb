//! Elements taken out of a list in shared pages.

ghost use Rattle.std.specs.Prelude.{◌≡◌, ◌+◌, ◌<◌, ◌≤◌, ◌++◌, IfOk, OnErr, OnOk, length, take, drop};

use super::Pages;
use crate::tree::FULL;
use base::{Keyed, OutOfMemory};
use std::alloc::Global;

/// Neighbouring pages that have no more elements together are joined after one of them lost some. It is well below what a
/// page may have, so that no page is joined and parted in turns.
const FEW: usize = FULL / 2;

impl<T: Keyed> Pages<T> {
    /// Takes some elements out from a place on, where one page has them all, and others beside them. It answers how many
    /// the page has left, or 0 where there is no such page, and then the list is as before; so it is after `OutOfMemory`.
    fn remove_inside(&mut self, alloc: Global, i: u64, count: u64) -> Result<u64, OutOfMemory>
        requires some { 0 < count }
        requires inside { i + count ≤ length self.old }
        ensures gone { IfOk result (λ left. 0 < left → self.new ≡ take i self.old ++ drop (i + count) self.old) }
        ensures none { IfOk result (λ left. left ≡ 0 → self.new ≡ self.old) }
        ensures same { OnErr result (self.new ≡ self.old) }
    {
        let Some(root) = &mut self.root else {
            return Ok(0);
        };
        return root.remove_inside(alloc, i, count);
    }

    /// Takes some elements out from a place on, of which some are left: what stands before them is joined with what stands
    /// behind them. After `OutOfMemory` the list is as before.
    fn remove_across(&mut self, alloc: Global, i: u64, count: u64) -> Result<(), OutOfMemory>
        requires place { i < length self.old }
        requires inside { i + count ≤ length self.old }
        requires left { count < length self.old }
        ensures items { OnOk result (self.new ≡ take i self.old ++ drop (i + count) self.old) }
        ensures same { OnErr result (self.new ≡ self.old) }
    {
        let Some(root) = &self.root else {
            return Err(OutOfMemory);
        };
        self.root = Some(root.without(alloc, i, count)?);
        Ok(())
    }

    /// Where the page of a place ends or begins, if it has few elements together with the next page or with the one before;
    /// and else 0.
    fn seam(&self, i: u64) -> u64
        ensures { 0 < result → result < length self.now }
    {
        let (page, first) = self.page_at(i.min(self.len().saturating_sub(1)));
        let next = first.saturating_add(page.len() as u64);
        if next < self.len() && page.len().saturating_add(self.run_from(next).len()) <= FEW {
            return next;
        }
        if first == 0 || first >= self.len() {
            return 0;
        }
        let (before, _) = self.page_at(first - 1);
        if page.len().saturating_add(before.len()) <= FEW {
            return first;
        }
        0
    }

    /// Joins the page of a place with a neighbour where they have few elements together. Where there is no memory for that,
    /// they stay.
    fn settle(&mut self, alloc: Global, i: u64)
        ensures { self.new ≡ self.old }
    {
        let seam = self.seam(i);
        if seam == 0 {
            return;
        }
        let _joined = self.remove_across(alloc, seam, 0);
    }

    /// Takes some elements out that follow one another from a place on. Where one page has them, and others beside them,
    /// they are taken out in their place in one descent; else the nodes that have none of them are shared with a new
    /// tree, in a time that grows as the logarithm of the length alone. Neighbouring pages in which few elements are left
    /// are joined. After `OutOfMemory` the list is as before.
    pub fn remove_run(&mut self, alloc: Global, i: u64, count: u64) -> Result<(), OutOfMemory>
        requires inside { i + count ≤ length self.old }
        ensures items { OnOk result (self.new ≡ take i self.old ++ drop (i + count) self.old) }
        ensures same { OnErr result (self.new ≡ self.old) }
    {
        if count == 0 {
            return Ok(());
        }
        if count == self.len() {
            self.root = None;
            return Ok(());
        }
        let left = self.remove_inside(alloc, i, count)?;
        if left == 0 {
            return self.remove_across(alloc, i, count);
        }
        if left < FEW as u64 {
            self.settle(alloc, i);
        }
        Ok(())
    }
}
