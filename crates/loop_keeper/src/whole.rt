//! All cycles of rows.

ghost use Rattle.std.specs.Prelude.{◌≡◌, ◌++◌, ◌+◌, ◌-◌, ◌*◌, ◌<◌, ◌≤◌, OnOk, length, map};
ghost use Rattle.base.specs.Forwarding.{AreForwarding};
ghost use Rattle.loop_keeper.specs.Together.{FindsIn, FindsWithin};
ghost use Rattle.loop_keeper.specs.Whole.{found_between};

use crate::finding::Search;
use crate::found::Found;
use base::{List, OutOfMemory, RouterId};
use label_view::LabelView;
use loop_check::cycles_of_atom;
use std::alloc::Global;
use std::sync::ledger::Ledger;
use step_count::Steps;

/// Puts cycles that all addresses from `low` up to, and without, `past` go round behind others.
fn push_all(
    found: &mut Vec<Found>,
    cycles: List<List<RouterId>>,
    low: u64,
    past: u64,
) -> Result<(), OutOfMemory>
    ensures { OnOk result (found.new.items ≡ found.old.items ++ map (found_between low past) cycles) }
{
    for routers in cycles.into_vec() {
        found.push(Found { routers, low, past })?;
    }
    Ok(())
}

/// Finds all cycles of the row at a place, by one look at each router.
fn find_in<V: LabelView, L: Ledger>(
    alloc: Global,
    view: &V,
    i: u64,
    search: &mut Search,
    steps: &mut Steps<L>,
) -> Result<(), OutOfMemory>
    requires form { AreForwarding (V.width view.now) (V.rows view.now) }
    requires place { i < length (V.rows view.now) }
    ensures found { OnOk result (FindsIn (V.rows view.now) i search.old.found.items search.new.found.items) }
    ensures cost { steps.new ≤ steps.old + V.width view.now }
{
    let cycles = cycles_of_atom(alloc, view, i, steps)?;
    let (low, past) = view.bounds(i);
    push_all(&mut search.found, cycles, low, past)
}

/// Finds all cycles of the rows from a place up to, and without, another one.
pub(crate) fn find_within<V: LabelView, L: Ledger>(
    alloc: Global,
    view: &V,
    first: u64,
    past: u64,
    search: &mut Search,
    steps: &mut Steps<L>,
) -> Result<(), OutOfMemory>
    requires form { AreForwarding (V.width view.now) (V.rows view.now) }
    requires rows { past ≤ length (V.rows view.now) }
    ensures found { OnOk result (FindsWithin (V.rows view.now) first past search.old.found.items search.new.found.items) }
    ensures cost { steps.new ≤ steps.old + V.width view.now * (past - first) }
{
    for i in first..past {
        find_in(alloc, view, i, search, steps)?;
    }
    Ok(())
}
