//! Runs of addresses, gathered while rows go by.

ghost use Rattle.std.specs.Prelude.{◌≡◌, ℕ, Bool, true, ◌+◌, ◌<◌, ◌≤◌, ◌-◌, ◌^◌, ◌||◌, [], IfOk, OnOk, length};
ghost use Rattle.std.specs.List.{list_any};
ghost use Rattle.base.specs.Forwarding.{AreForwarding};
ghost use Rattle.base.specs.Rows.{is_within};
ghost use Rattle.base.specs.Runs.{AreApart, holds};
ghost use Rattle.label_view.specs.Places.{AreGatheredTo, IsInRow, IsInRows, begin_of};

use crate::view::LabelView;
use base::{List, OutOfMemory, Run};
use std::alloc::Global;
use std::marker::Model;

/// Runs that are gathered in order of address, none touching another. A contract sees them, with the address after
/// their last one.
#[derive(Drop)]
pub struct RunList {
    closed: List<Run>,
    // the last run, half-closed, which more addresses may still lengthen; it is empty where the two are equal
    low: u64,
    past: u64,
}

impl Model for RunList {
    ghost use Rattle.std.specs.Prelude.{◌++◌};
    ghost use Rattle.label_view.specs.Gathered.{AreGathered, Gathered, run_between};

    ghost Value = { Gathered };

    ghost view = { λ r. record { runs = r.closed ++ run_between r.low r.past; past = r.past } };

    ghost invariant = { λ r. AreGathered r.closed r.low r.past };
}

impl RunList {
    /// No run yet. It takes no memory.
    pub fn new(alloc: Global) -> Self
        ensures runs { result.runs ≡ [] }
        ensures past { result.past ≡ 0 }
    {
        RunList {
            closed: List::new(alloc),
            low: 0,
            past: 0,
        }
    }

    /// Adds the addresses from `low` up to, and without, `past`, which come after all that were added before. Where they
    /// touch the last run, they lengthen it.
    pub fn push(&mut self, low: u64, past: u64) -> Result<(), OutOfMemory>
        requires order { self.old.past ≤ low }
        requires some { low < past }
        requires bound { past ≤ 2 ^ 32 }
        ensures past { OnOk result (self.new.past ≡ past) }
        ensures adds { OnOk result ((a : ℕ) → list_any (holds a) self.new.runs ≡ (list_any (holds a) self.old.runs || is_within low past a)) }
    {
        if self.past == low {
            self.past = past;
            return Ok(());
        }
        if self.low < self.past {
            self.closed.push(run_of(self.low, self.past))?;
            self.low = low;
            self.past = past;
            return Ok(());
        }
        self.low = low;
        self.past = past;
        Ok(())
    }

    /// Adds the addresses of the row at a place, which come after all that were added before, if they pass. Where this is
    /// done at each place in order, the runs are those of exactly the addresses that pass.
    pub fn push_row_if<V: LabelView>(
        &mut self,
        view: &V,
        i: u64,
        passes: bool,
    ) -> Result<(), OutOfMemory>
        requires place { i < length (V.rows view.now) }
        requires form { AreForwarding (V.width view.now) (V.rows view.now) }
        requires order { self.old.past ≤ begin_of (V.rows view.now) i }
        ensures { OnOk result ((test : ℕ → Bool) →
            AreGatheredTo self.old (V.rows view.now) i test →
            ((a : ℕ) → IsInRow (V.rows view.now) i a → passes ≡ test a) →
            AreGatheredTo self.new (V.rows view.now) (i + 1) test) }
    {
        if passes {
            let (low, past) = view.bounds(i);
            self.push(low, past)?;
            return Ok(());
        }
        Ok(())
    }

    /// Adds the addresses of rows side by side, which come after all that were added before: of those from the one at a
    /// place up to, and without, the one at another.
    pub fn push_rows<V: LabelView>(
        &mut self,
        view: &V,
        i: u64,
        past: u64,
    ) -> Result<(), OutOfMemory>
        requires some { i < past }
        requires inside { past ≤ length (V.rows view.now) }
        requires form { AreForwarding (V.width view.now) (V.rows view.now) }
        requires order { self.old.past ≤ begin_of (V.rows view.now) i }
        ensures { OnOk result ((test : ℕ → Bool) →
            AreGatheredTo self.old (V.rows view.now) i test →
            ((a : ℕ) → IsInRows (V.rows view.now) i past a → true ≡ test a) →
            AreGatheredTo self.new (V.rows view.now) past test) }
    {
        let (low, _) = view.bounds(i);
        let (_, end) = view.bounds(past - 1);
        self.push(low, end)?;
        Ok(())
    }

    /// The runs, in order, none touching another.
    pub fn finish(self) -> Result<List<Run>, OutOfMemory>
        ensures value { IfOk result (λ runs. runs ≡ self.runs) }
        ensures apart { IfOk result AreApart }
    {
        let RunList { closed, low, past } = self;
        if past <= low {
            return Ok(closed);
        }
        let mut runs = closed;
        runs.push(run_of(low, past))?;
        Ok(runs)
    }
}

/// The run of the addresses from `low` up to, and without, `past`.
pub(crate) fn run_of(low: u64, past: u64) -> Run
    requires some { low < past }
    requires bound { past ≤ 2 ^ 32 }
    ensures lo { result.lo ≡ low }
    ensures hi { result.hi ≡ past - 1 }
{
    Run {
        lo: low as u32,
        hi: (past - 1) as u32,
    }
}
