//! The cycles of all addresses.

ghost use Rattle.std.specs.Prelude.{◌≡◌, ◌+◌, ◌*◌, ◌≤◌, IfOk, length};
ghost use Rattle.base.specs.Cycles.{AreCycles};
ghost use Rattle.base.specs.Forwarding.{does};

use crate::cycle_runs::{add_cycles, cycles_of};
use crate::row::{Workspace, cycles_at};
use base::{Cycle, List, OutOfMemory};
use label_view::LabelView;
use std::alloc::Global;
use std::collections::BTreeMap;
use std::sync::ledger::Ledger;
use step_count::Steps;

/// The cycles in which addresses go round for ever, by least address, then by first router: each once, from that of its
/// routers on that is the first in the topology's order, with the least address that goes round it and the number of
/// all that do. It goes over the rows once and takes one look at each router a row, so at most as many as rows times
/// routers. Of a row whose addresses go round each cycle is looked up beside by its routers.
pub fn loops<V: LabelView, L: Ledger>(
    alloc: Global,
    view: &V,
    steps: &mut Steps<L>,
) -> Result<List<Cycle>, OutOfMemory>
    ensures cycles { IfOk result (λ cycles. AreCycles (does (V.rows view.now)) cycles) }
    ensures cost { steps.new ≤ steps.old + length (V.rows view.now) * V.width view.now }
{
    let mut work = Workspace::new(alloc, view.routers())?;
    let mut known = BTreeMap::new(alloc);
    for i in 0..view.atoms() {
        let cycles = cycles_at(alloc, view, i, &mut work, steps)?;
        add_cycles(alloc, view, i, &mut known, cycles)?;
    }
    cycles_of(alloc, known)
}
