//! The cycles of one row.

ghost use Rattle.std.specs.Prelude.{◌≡◌, ◌+◌, ◌<◌, ◌≤◌, IfOk, OnOk, None, length, slice_index_or, vec_len};
ghost use Rattle.base.specs.Forwarding.{AreForwarding, target_of};
ghost use Rattle.base.specs.declared.forwarding_row.ForwardingRow.{ForwardingRow as Row};
ghost use Rattle.base.specs.declared.ids.RouterId.{RouterId as Router};
ghost use Rattle.loop_check.specs.FirstOrder.{AreSomeOf, TellPassed};
ghost use Rattle.loop_check.specs.Following.{IsPassed, LeadInside, hops};
ghost use Rattle.loop_check.specs.RowCycles.{AreCyclesAt, AreCyclesOf};

use crate::first_order::put_cycle;
use crate::follow::find_cycle;
use crate::walk::walk_from;
use base::{List, OutOfMemory, RouterId, Target};
use label_view::LabelView;
use std::alloc::Global;
use std::sync::ledger::Ledger;
use step_count::Steps;

/// Room for looks at rows, which is used again for each row.
#[derive(Drop)]
pub(crate) struct Workspace {
    // what each router does with the addresses of the row
    targets: Vec<Target>,
    // for each router the start of the walk over the row that passed it first
    passed: Vec<Option<RouterId>>,
    // the routers that were followed last
    path: Vec<RouterId>,
}

impl Workspace {
    /// Room for this number of routers.
    pub(crate) fn new(alloc: Global, routers: u32) -> Result<Self, OutOfMemory>
        ensures targets { IfOk result (λ work. vec_len work.targets ≡ routers) }
        ensures passed { IfOk result (λ work. vec_len work.passed ≡ routers) }
    {
        Ok(Workspace {
            targets: vec![in alloc; Target::NoRoute; routers as usize]?,
            passed: vec![in alloc; None; routers as usize]?,
            path: Vec::new(alloc),
        })
    }
}

/// Takes what each router does with the addresses of the row at a place, by one look at each router.
fn read_row<V: LabelView, L: Ledger>(view: &V, i: u64, targets: &mut [Target], steps: &mut Steps<L>)
    requires place { i < length (V.rows view.now) }
    requires room { length targets.old ≡ V.width view.now }
    ensures row { (d : Row) (r : Router) → hops targets.new r ≡ target_of (slice_index_or (V.rows view.now) i d) r }
    ensures cost { steps.new ≤ steps.old + V.width view.now }
{
    for _router in 0..view.routers() {
        steps.tick();
    }
    view.row(i, targets);
}

/// Takes back all marks.
fn clear(passed: &mut [Option<RouterId>])
    ensures { (r : Router) → slice_index_or passed.new r.0 None ≡ None }
{
    for mark in passed.iter_mut() {
        *mark = None;
    }
}

/// Walks over a row from a router on, and puts the cycle that the walk comes round, if it does, among others.
fn tell_from(
    alloc: Global,
    targets: &[Target],
    passed: &mut [Option<RouterId>],
    path: &mut Vec<RouterId>,
    cycles: &mut Vec<List<RouterId>>,
    start: RouterId,
) -> Result<(), OutOfMemory>
    requires inside { start.0 < length targets.now }
    requires room { length passed.old ≡ length targets.now }
    requires within { LeadInside targets.now }
    requires form { AreSomeOf (hops targets.now) cycles.old.items }
    requires told { TellPassed (hops targets.now) passed.old cycles.old.items }
    ensures start { OnOk result (IsPassed passed.new start) }
    ensures kept { OnOk result ((r : Router) → IsPassed passed.old r → IsPassed passed.new r) }
    ensures form { OnOk result (AreSomeOf (hops targets.now) cycles.new.items) }
    ensures told { OnOk result (TellPassed (hops targets.now) passed.new cycles.new.items) }
{
    let Some(router) = walk_from(targets, passed, start) else {
        return Ok(());
    };
    if find_cycle(targets, router, path)? {
        put_cycle(alloc, cycles, path.as_slice())?;
    }
    Ok(())
}

/// The cycles of a row of which this is what each router does.
fn row_cycles(
    alloc: Global,
    targets: &[Target],
    passed: &mut [Option<RouterId>],
    path: &mut Vec<RouterId>,
) -> Result<List<List<RouterId>>, OutOfMemory>
    requires few { length targets.now ≤ 1024 }
    requires room { length passed.old ≡ length targets.now }
    requires none { (r : Router) → slice_index_or passed.old r.0 None ≡ None }
    requires within { LeadInside targets.now }
    ensures { IfOk result (λ cycles. AreCyclesOf (hops targets.now) cycles) }
{
    let mut cycles = Vec::new(alloc);
    for start in 0..targets.len() {
        tell_from(
            alloc,
            targets,
            passed,
            path,
            &mut cycles,
            RouterId(start as u16),
        )?;
    }
    Ok(List::from_vec(cycles))
}

/// The cycles of the row at a place, found in a workspace.
pub(crate) fn cycles_at<V: LabelView, L: Ledger>(
    alloc: Global,
    view: &V,
    i: u64,
    work: &mut Workspace,
    steps: &mut Steps<L>,
) -> Result<List<List<RouterId>>, OutOfMemory>
    requires form { AreForwarding (V.width view.now) (V.rows view.now) }
    requires place { i < length (V.rows view.now) }
    requires targets { vec_len work.old.targets ≡ V.width view.now }
    requires passed { vec_len work.old.passed ≡ V.width view.now }
    ensures targets { vec_len work.new.targets ≡ V.width view.now }
    ensures passed { vec_len work.new.passed ≡ V.width view.now }
    ensures cycles { IfOk result (λ cycles. AreCyclesAt (V.rows view.now) i cycles) }
    ensures cost { steps.new ≤ steps.old + V.width view.now }
{
    read_row(view, i, work.targets.as_mut_slice(), steps);
    clear(work.passed.as_mut_slice());
    row_cycles(
        alloc,
        work.targets.as_slice(),
        work.passed.as_mut_slice(),
        &mut work.path,
    )
}

/// The cycles in which the addresses of the row at a place go round: lists of routers, each of which sends them on to
/// the next and the last one back to the first. Each cycle is told once, from that of its routers on that is the first
/// in the topology's order, and the cycles come by first router. It takes one look at each router.
pub fn cycles_of_atom<V: LabelView, L: Ledger>(
    alloc: Global,
    view: &V,
    i: u64,
    steps: &mut Steps<L>,
) -> Result<List<List<RouterId>>, OutOfMemory>
    requires { i < length (V.rows view.now) }
    ensures cycles { IfOk result (λ cycles. AreCyclesAt (V.rows view.now) i cycles) }
    ensures cost { steps.new ≤ steps.old + V.width view.now }
{
    let mut work = Workspace::new(alloc, view.routers())?;
    cycles_at(alloc, view, i, &mut work, steps)
}
