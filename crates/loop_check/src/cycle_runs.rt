//! Cycles that rows showed so far, by their routers, with the runs of the addresses that go round them.

ghost use Rattle.std.specs.Prelude.{◌≡◌, ◌<◌, ◌≤◌, ◌+◌, ℕ, List as Listed, None, Contains, IfOk, IsTrue, OnOk, length, slice_index_or};
ghost use Rattle.base.specs.Cycles.{AreCycles, goes_round, is_cycle};
ghost use Rattle.base.specs.CyclesFrom.{IsCycleOf};
ghost use Rattle.base.specs.Forwarding.{AreForwarding, does, target_of};
ghost use Rattle.base.specs.Runs.{AreApart, addresses_in};
ghost use Rattle.base.specs.declared.cycle.Cycle.{Cycle as CycleIs};
ghost use Rattle.base.specs.declared.forwarding_row.ForwardingRow.{ForwardingRow as Row};
ghost use Rattle.label_view.specs.Places.{AreGatheredTo};
ghost use Rattle.loop_check.specs.CycleOrder.{AddsCycle, AreUnsorted};
ghost use Rattle.loop_check.specs.CycleRuns.{AreKnownTo, AreRunsTo, HaveAllBefore, IsAdded, value_under};
ghost use Rattle.loop_check.specs.RowCycles.{AreCyclesAt};

use crate::cycle_order::{push_cycle, sort_cycles};
use base::{Cycle, List, OutOfMemory, RouterId, Run};
use label_view::LabelView;
use label_view::runs::RunList;
use std::alloc::Global;
use std::collections::BTreeMap;

/// Makes a cycle known that the addresses of the row at a place go round, and none before them.
fn add_first<V: LabelView>(
    alloc: Global,
    view: &V,
    i: u64,
    known: &mut BTreeMap<Vec<RouterId>, RunList>,
    routers: List<RouterId>,
) -> Result<(), OutOfMemory>
    requires form { AreForwarding (V.width view.now) (V.rows view.now) }
    requires place { i < length (V.rows view.now) }
    requires unknown { value_under known.old.entries routers ≡ None }
    requires runs { AreRunsTo (V.rows view.now) i routers None }
    requires goes { (d : Row) → IsTrue (is_cycle (target_of (slice_index_or (V.rows view.now) i d)) routers) }
    ensures { OnOk result (IsAdded (V.rows view.now) i routers known.old.entries known.new.entries) }
{
    let mut first = RunList::new(alloc);
    first.push_row_if(view, i, true)?;
    let _none = known.insert(routers.into_vec(), first)?;
    Ok(())
}

/// Adds the addresses of the row at a place, which go round the cycle of these routers, to its runs.
fn add_cycle<V: LabelView>(
    alloc: Global,
    view: &V,
    i: u64,
    known: &mut BTreeMap<Vec<RouterId>, RunList>,
    routers: List<RouterId>,
) -> Result<(), OutOfMemory>
    requires form { AreForwarding (V.width view.now) (V.rows view.now) }
    requires place { i < length (V.rows view.now) }
    requires runs { AreRunsTo (V.rows view.now) i routers (value_under known.old.entries routers) }
    requires goes { (d : Row) → IsTrue (is_cycle (target_of (slice_index_or (V.rows view.now) i d)) routers) }
    ensures { OnOk result (IsAdded (V.rows view.now) i routers known.old.entries known.new.entries) }
{
    match known.get_mut(routers.as_slice()) {
        Some(runs) => runs.push_row_if(view, i, true),
        None => add_first(alloc, view, i, known, routers),
    }
}

/// Adds the row at a place, of which these are the cycles, to what is known. Each of its cycles is looked up by its
/// routers; of the others nothing is looked at.
pub(crate) fn add_cycles<V: LabelView>(
    alloc: Global,
    view: &V,
    i: u64,
    known: &mut BTreeMap<Vec<RouterId>, RunList>,
    cycles: List<List<RouterId>>,
) -> Result<(), OutOfMemory>
    requires form { AreForwarding (V.width view.now) (V.rows view.now) }
    requires place { i < length (V.rows view.now) }
    requires known { AreKnownTo (V.rows view.now) i known.old.entries }
    requires before { HaveAllBefore (V.rows view.now) i known.old.entries }
    requires cycles { AreCyclesAt (V.rows view.now) i cycles }
    ensures known { OnOk result (AreKnownTo (V.rows view.now) (i + 1) known.new.entries) }
    ensures before { OnOk result (HaveAllBefore (V.rows view.now) (i + 1) known.new.entries) }
{
    let mut left = cycles.into_vec();
    'adding: while let Some(routers) = left.pop() {
        add_cycle(alloc, view, i, known, routers)?;
    }
    Ok(())
}

/// How many addresses runs that don't touch have.
fn count_of(runs: &[Run]) -> u64
    requires { AreApart runs.now }
    ensures { result ≡ addresses_in runs.now }
{
    let mut count = 0;
    for run in runs {
        count += (u64::from(run.hi) + 1).saturating_sub(u64::from(run.lo));
    }
    count
}

/// A cycle that is known of all rows, with its least address and the number of its addresses; None if it has none.
fn cycle_of(routers: List<RouterId>, runs: RunList) -> Result<Option<Cycle>, OutOfMemory>
    ensures { IfOk result (λ cycle. (rows : Listed Row) (i : ℕ) → length rows ≤ i
        → AreGatheredTo runs rows i (goes_round (does rows) routers) → IsCycleOf (does rows) routers cycle) }
{
    let runs = runs.finish()?;
    let [first, ..] = runs.as_slice() else {
        return Ok(None);
    };
    Ok(Some(Cycle {
        routers,
        least: first.lo,
        addresses: count_of(runs.as_slice()),
    }))
}

/// Puts a cycle that is known of all rows behind others.
fn push_known(
    cycles: &mut Vec<Cycle>,
    routers: Vec<RouterId>,
    runs: RunList,
) -> Result<(), OutOfMemory>
    ensures { OnOk result ((rows : Listed Row) (i : ℕ) → length rows ≤ i
        → AreGatheredTo runs rows i (goes_round (does rows) routers.items)
        → AreUnsorted (does rows) cycles.old.items
        → ((x : CycleIs) → Contains cycles.old.items x → x.routers ≡ routers.items → ⊥)
        → AddsCycle (does rows) routers.items cycles.old.items cycles.new.items) }
{
    let cycle = cycle_of(List::from_vec(routers), runs)?;
    push_cycle(cycles, cycle)
}

/// The cycles that are known of all rows, in order.
pub(crate) fn cycles_of(
    alloc: Global,
    known: BTreeMap<Vec<RouterId>, RunList>,
) -> Result<List<Cycle>, OutOfMemory>
    ensures { IfOk result (λ cycles. (rows : Listed Row) (i : ℕ) → length rows ≤ i
        → AreKnownTo rows i known.entries → HaveAllBefore rows i known.entries → AreCycles (does rows) cycles) }
{
    let mut left = known;
    let mut cycles = Vec::with_capacity(alloc, left.len())?;
    'cycles: while let Some((routers, runs)) = left.pop_first() {
        push_known(&mut cycles, routers, runs)?;
    }
    sort_cycles(&mut cycles);
    Ok(List::from_vec(cycles))
}
