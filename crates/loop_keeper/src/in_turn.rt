//! The cycles through one router that changes, run by run.

ghost use Rattle.std.specs.Prelude.{◌≡◌, ◌+◌, ◌*◌, ◌<◌, ◌≤◌, ℕ, OnOk, Bool, IsTrue, [], ◌∷◌, length};
ghost use Rattle.base.specs.Delta.{AreChanges, IsChange};
ghost use Rattle.base.specs.Forwarding.{does};
ghost use Rattle.base.specs.declared.forwarding_row.ForwardingRow.{ForwardingRow as Row};
ghost use Rattle.loop_keeper.specs.Ahead.{IsReach};
ghost use Rattle.loop_keeper.specs.Finding.{AllInside, AllTellAfter, FindLast, FindsMore, FindsOn, TellsAfter};
ghost use Rattle.loop_keeper.specs.Looks.{AreLookedAt, meets, rows_met};
ghost use Rattle.loop_keeper.specs.Places.{AreInTurn};

use crate::ahead::{Ahead, ends_next};
use crate::finding::{Search, find_between, goes_on, places_of};
use crate::following::Start;
use base::{Change, OutOfMemory};
use label_view::LabelView;
use std::alloc::Global;
use std::sync::ledger::Ledger;
use step_count::Steps;

/// How far the rows of a router were followed.
#[derive(Drop)]
struct Reach {
    /// The place that is asked first for the next run's rows.
    near: u64,
    /// The place after the last row that was followed.
    past: u64,
    /// What the router that the changes go on to does in the rows that come next.
    ahead: Ahead,
}

/// Finds the cycles through the router of a change in the rows that its run meets, where it does what the change tells. Only
/// the last row before them may have been followed already, and is not followed again. No row is followed where the router
/// that the change goes on to is seen to go on to nobody.
fn find_along<V: LabelView, L: Ledger>(
    alloc: Global,
    view: &V,
    change: &Change,
    reach: &mut Reach,
    search: &mut Search,
    steps: &mut Steps<L>,
) -> Result<(), OutOfMemory>
    requires change { IsChange change.now }
    requires reach { IsReach (V.width view.now) (V.rows view.now) reach.old change.now.run.lo }
    ensures found { OnOk result (TellsAfter (does (V.rows view.now)) change.now
        → FindLast (V.rows view.now) search.old.found.items change.now.router reach.old.past
        → FindsOn (V.rows view.now) change.now reach.new.past search.old.found.items search.new.found.items) }
    ensures inside { OnOk result (AllInside search.old.found.items → AllInside search.new.found.items) }
    ensures reach { IsReach (V.width view.now) (V.rows view.now) reach.new change.now.run.hi }
    ensures cost { (test : Row → Bool) → ((row : Row) → IsTrue (meets change.now row) → IsTrue (test row))
        → AreLookedAt (V.width view.now) (V.rows view.now) test reach.old.past reach.new.past steps.old steps.new }
{
    if !goes_on(view, change) {
        return Ok(());
    }
    if ends_next(view, change, &mut reach.ahead) {
        return Ok(());
    }
    let start = Start {
        router: change.router,
        target: change.after,
    };
    let places = places_of(view, reach.near, change);
    let first = places.first.max(reach.past);
    let past = places.last + 1;
    reach.ahead.read_on(view, change.after, places, reach.past);
    reach.near = places.last.saturating_add(2);
    reach.past = past;
    find_between(alloc, view, first, past, start, search, steps)
}

/// Finds the cycles through the router of changes in the rows that their runs meet, each row followed once. The first row
/// is asked for near a place.
pub(crate) fn find_in_turn<V: LabelView, L: Ledger>(
    alloc: Global,
    view: &V,
    changes: &[Change],
    near: u64,
    search: &mut Search,
    steps: &mut Steps<L>,
) -> Result<(), OutOfMemory>
    requires form { AreChanges changes.now }
    requires turn { AreInTurn changes.now }
    ensures found { OnOk result (AllTellAfter (does (V.rows view.now)) changes.now
        → FindsMore (does (V.rows view.now)) changes.now search.old.found.items search.new.found.items) }
    ensures inside { OnOk result (AllInside search.old.found.items → AllInside search.new.found.items) }
    ensures cost { steps.new ≤ steps.old + V.width view.now * rows_met (V.rows view.now) changes.now }
{
    let mut reach = Reach {
        near,
        past: 0,
        ahead: Ahead::none(),
    };
    for change in changes {
        find_along(alloc, view, change, &mut reach, search, steps)?;
    }
    Ok(())
}
