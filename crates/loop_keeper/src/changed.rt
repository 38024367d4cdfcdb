//! The cycles through the routers that change, where they do.

ghost use Rattle.std.specs.Prelude.{◌≡◌, ◌+◌, ◌*◌, ◌≤◌, IfOk, IsTrue};
ghost use Rattle.base.specs.Delta.{AreChanges};
ghost use Rattle.base.specs.Forwarding.{does};
ghost use Rattle.loop_keeper.specs.Finding.{AllGoRound, AllInside, AllTellAfter, FindTouched};
ghost use Rattle.loop_keeper.specs.Looks.{rows_met};
ghost use Rattle.loop_keeper.specs.Places.{AreInTurn};

use crate::finding::Search;
use crate::in_turn::find_in_turn;
use crate::together::find_together;
use base::{Change, OutOfMemory, RouterId};
use label_view::LabelView;
use std::alloc::Global;
use std::sync::ledger::Ledger;
use step_count::Steps;

/// Whether changes are of one router. They come by router.
fn are_of_one_router(changes: &[Change]) -> bool
    requires { AreChanges changes.now }
    ensures { IsTrue result → AreInTurn changes.now }
{
    let n = changes.len();
    if n == 0 {
        return true;
    }
    changes[0].router.0 == changes[n - 1].router.0
}

/// Finds the cycles through the routers of changes in the rows that their runs meet, where the routers do what the
/// changes tell. Each row is looked at once, however many changes meet it. The first row is asked for near a place, and
/// the ways are followed in the memory of a path, which is handed back beside what was found.
pub(crate) fn find_all<V: LabelView, L: Ledger>(
    alloc: Global,
    view: &V,
    changes: &[Change],
    near: u64,
    path: Vec<RouterId>,
    steps: &mut Steps<L>,
) -> Result<Search, OutOfMemory>
    requires { AreChanges changes.now }
    ensures sound { IfOk result (λ search. AllTellAfter (does (V.rows view.now)) changes.now
        → AllGoRound (does (V.rows view.now)) search.found.items) }
    ensures inside { IfOk result (λ search. AllInside search.found.items) }
    ensures all { IfOk result (λ search. AllTellAfter (does (V.rows view.now)) changes.now
        → FindTouched (does (V.rows view.now)) changes.now search.found.items) }
    ensures cost { steps.new ≤ steps.old + V.width view.now * rows_met (V.rows view.now) changes.now }
{
    let mut search = Search {
        found: Vec::new(alloc),
        path,
    };
    if are_of_one_router(changes) {
        find_in_turn(alloc, view, changes, near, &mut search, steps)?;
        return Ok(search);
    }
    find_together(alloc, view, changes, near, &mut search, steps)?;
    Ok(search)
}
