//! The cycles through several routers that change.

ghost use Rattle.std.specs.Prelude.{◌≡◌, ◌+◌, ◌-◌, ◌*◌, ◌<◌, ◌≤◌, ℕ, OnOk, min};
ghost use Rattle.base.specs.Delta.{AreChanges};
ghost use Rattle.base.specs.Forwarding.{does};
ghost use Rattle.loop_keeper.specs.Finding.{AllInside, AllTellAfter, FindsMore};
ghost use Rattle.loop_keeper.specs.Looks.{rows_met};
ghost use Rattle.loop_keeper.specs.Starts.{DoesSo};
ghost use Rattle.loop_keeper.specs.Together.{FindsTo, IsForm, front_with};

use crate::finding::{Search, find_between};
use crate::following::Start;
use crate::stretch::{Stretch, sorted_stretches};
use crate::whole::find_within;
use base::{Change, OutOfMemory, RouterId, Target};
use label_view::LabelView;
use std::alloc::Global;
use std::sync::ledger::Ledger;
use step_count::Steps;

/// The rows of the stretches so far that are still to be looked at: those from a place on. They come in the order of
/// their first rows.
#[derive(Clone, Copy, Debug, PartialEq, Eq)]
struct Front {
    /// The place of the first row.
    place: u64,
    /// The place after the last row of a stretch.
    past: u64,
    /// The place after the last row of any other one: the rows before it are shared.
    shared: u64,
    /// Where following begins in the stretch that has the last row.
    start: Start,
}

impl Front {
    /// No rows.
    fn empty() -> Front
        ensures place { result.place ≡ 0 }
        ensures past { result.past ≡ 0 }
        ensures shared { result.shared ≡ 0 }
    {
        Front {
            place: 0,
            past: 0,
            shared: 0,
            start: Start {
                router: RouterId(0),
                target: Target::NoRoute,
            },
        }
    }

    /// With a stretch more, where all rows before its first one were looked at.
    fn with(self, stretch: &Stretch) -> Front
        ensures { result ≡ front_with self stretch.now }
    {
        if stretch.past > self.past {
            return Front {
                place: stretch.first,
                past: stretch.past,
                shared: self.past,
                start: stretch.start,
            };
        }
        Front {
            place: stretch.first,
            past: self.past,
            shared: self.shared.max(stretch.past),
            start: self.start,
        }
    }
}

/// Finds cycles in the rows of a front before a place: in those that stretches share all of them, and behind them those
/// that have the router that is left.
fn find_to<V: LabelView, L: Ledger>(
    alloc: Global,
    view: &V,
    to: u64,
    front: Front,
    search: &mut Search,
    steps: &mut Steps<L>,
) -> Result<(), OutOfMemory>
    requires { IsForm (V.width view.now) (V.rows view.now) front }
    ensures found { OnOk result (((k : ℕ) → front.place ≤ k → k < front.past → DoesSo (V.rows view.now) front.start k)
        → FindsTo (V.rows view.now) front to search.old.found.items search.new.found.items) }
    ensures inside { OnOk result (AllInside search.old.found.items → AllInside search.new.found.items) }
    ensures cost { steps.new ≤ steps.old + V.width view.now * (min front.past to - front.place) }
{
    let past = front.past.min(to);
    if front.place >= past {
        return Ok(());
    }
    let shared = front.shared.min(to);
    find_within(alloc, view, front.place, shared, search, steps)?;
    let first = front.place.max(shared);
    find_between(alloc, view, first, past, front.start, search, steps)
}

/// Finds the cycles through the routers of changes in the rows that their runs meet, each row looked at once. The first
/// row is asked for near a place.
pub(crate) fn find_together<V: LabelView, L: Ledger>(
    alloc: Global,
    view: &V,
    changes: &[Change],
    near: u64,
    search: &mut Search,
    steps: &mut Steps<L>,
) -> Result<(), OutOfMemory>
    requires { AreChanges changes.now }
    ensures found { OnOk result (AllTellAfter (does (V.rows view.now)) changes.now
        → FindsMore (does (V.rows view.now)) changes.now search.old.found.items search.new.found.items) }
    ensures inside { OnOk result (AllInside search.old.found.items → AllInside search.new.found.items) }
    ensures cost { steps.new ≤ steps.old + V.width view.now * rows_met (V.rows view.now) changes.now }
{
    let stretches = sorted_stretches(alloc, view, changes, near)?;
    let mut front = Front::empty();
    for stretch in stretches.as_slice() {
        find_to(alloc, view, stretch.first, front, search, steps)?;
        front = front.with(stretch);
    }
    find_to(alloc, view, front.past, front, search, steps)
}
