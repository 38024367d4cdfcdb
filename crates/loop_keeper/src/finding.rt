//! The cycles that rows show.

ghost use Rattle.std.specs.Prelude.{◌≡◌, ◌+◌, ◌-◌, ◌*◌, ◌<◌, ◌≤◌, ℕ, OnOk, IfSome, IsSome, IsTrue, IsFalse, List, [], ◌∷◌, length, slice_index_or};
ghost use Rattle.base.specs.Delta.{IsChange};
ghost use Rattle.base.specs.Forwarding.{AreForwarding, does};
ghost use Rattle.base.specs.declared.forwarding_row.ForwardingRow.{ForwardingRow as Row};
ghost use Rattle.loop_keeper.specs.Finding.{AllInside, FindsMore, FindsAt, FindsBetween, TellsAfter};
ghost use Rattle.loop_keeper.specs.Places.{AreMet};
ghost use Rattle.loop_keeper.specs.Starts.{DoesSo, IsStartOf, start_of};
ghost use Rattle.loop_keeper.specs.declared.found.Found.{Found as FoundIs};

use crate::following::{Start, follow, turned};
use crate::found::Found;
use base::{Change, OutOfMemory, RouterId, Target};
use label_view::LabelView;
use std::alloc::Global;
use std::sync::ledger::Ledger;
use step_count::Steps;

/// What was found so far, and the routers passed on the way that is followed. One path serves all changes of an update.
#[derive(Drop)]
pub(crate) struct Search {
    pub(crate) found: Vec<Found>,
    pub(crate) path: Vec<RouterId>,
}

/// The place of a row, and the address after the row's last.
#[derive(Clone, Copy, Debug, PartialEq, Eq)]
struct Spot {
    place: u64,
    past: u64,
}

/// The places of the first and the last row that a run meets.
#[derive(Clone, Copy, Debug, PartialEq, Eq)]
pub(crate) struct Places {
    pub(crate) first: u64,
    pub(crate) last: u64,
}

/// Finds the cycle of the row at a place that has a router, if there is one. What the router does there is given.
fn find_at<V: LabelView, L: Ledger>(
    alloc: Global,
    view: &V,
    i: u64,
    start: Start,
    search: &mut Search,
    steps: &mut Steps<L>,
) -> Result<(), OutOfMemory>
    requires form { AreForwarding (V.width view.now) (V.rows view.now) }
    requires place { i < length (V.rows view.now) }
    requires start { IsStartOf (V.width view.now) start }
    ensures found { OnOk result (DoesSo (V.rows view.now) start i
        → FindsAt (V.rows view.now) i start.router search.old.found.items search.new.found.items) }
    ensures inside { OnOk result (AllInside search.old.found.items → AllInside search.new.found.items) }
    ensures cost { steps.new ≤ steps.old + V.width view.now }
{
    if !follow(view, i, start, &mut search.path, steps)? {
        return Ok(());
    }
    let routers = turned(alloc, search.path.as_slice())?;
    let (low, past) = view.bounds(i);
    search.found.push(Found { routers, low, past })?;
    Ok(())
}

/// Finds the cycles that have a router in the rows from a place up to, and without, another one. What the router does
/// in these rows is given.
pub(crate) fn find_between<V: LabelView, L: Ledger>(
    alloc: Global,
    view: &V,
    first: u64,
    past: u64,
    start: Start,
    search: &mut Search,
    steps: &mut Steps<L>,
) -> Result<(), OutOfMemory>
    requires form { AreForwarding (V.width view.now) (V.rows view.now) }
    requires rows { past ≤ length (V.rows view.now) }
    requires start { IsStartOf (V.width view.now) start }
    ensures found { OnOk result (((k : ℕ) → first ≤ k → k < past → DoesSo (V.rows view.now) start k)
        → FindsBetween (V.rows view.now) first past start.router search.old.found.items search.new.found.items) }
    ensures inside { OnOk result (AllInside search.old.found.items → AllInside search.new.found.items) }
    ensures cost { steps.new ≤ steps.old + V.width view.now * (past - first) }
{
    for i in first..past {
        find_at(alloc, view, i, start, search, steps)?;
    }
    Ok(())
}

/// Whether a cycle may go through the router of a change: it goes on to one of the view's routers then.
pub(crate) fn goes_on<V: LabelView>(view: &V, change: &Change) -> bool
    ensures form { AreForwarding (V.width view.now) (V.rows view.now) }
    ensures start { IsTrue result → IsStartOf (V.width view.now) (start_of change.now) }
    ensures none { IsFalse result → TellsAfter (does (V.rows view.now)) change.now
        → (found : List FoundIs) → FindsMore (does (V.rows view.now)) (change.now ∷ []) found found }
{
    if u32::from(change.router.0) >= view.routers() {
        return false;
    }
    match change.after {
        Target::To(far, _) => u32::from(far.0) < view.routers(),
        _ => false,
    }
}

/// Where the row at a place ends, if that is the row that has an address.
fn past_at<V: LabelView>(view: &V, place: u64, a: u32) -> Option<u64>
    ensures inside { IsSome result → place < length (V.rows view.now) }
    ensures from { IsSome result → (d : Row) → (slice_index_or (V.rows view.now) place d).low ≤ a }
    ensures to { IsSome result → (d : Row) → a < (slice_index_or (V.rows view.now) place d).past }
    ensures past { IfSome result (λ past. (d : Row) → past ≡ (slice_index_or (V.rows view.now) place d).past) }
{
    if place >= view.atoms() {
        return None;
    }
    let (low, past) = view.bounds(place);
    if low <= u64::from(a) && u64::from(a) < past {
        return Some(past);
    }
    None
}

/// The row that has an address. A place is asked before there is a search.
fn row_near<V: LabelView>(view: &V, near: u64, a: u32) -> Spot
    ensures inside { result.place < length (V.rows view.now) }
    ensures from { (d : Row) → (slice_index_or (V.rows view.now) result.place d).low ≤ a }
    ensures to { (d : Row) → a < (slice_index_or (V.rows view.now) result.place d).past }
    ensures past { (d : Row) → result.past ≡ (slice_index_or (V.rows view.now) result.place d).past }
{
    if let Some(past) = past_at(view, near, a) {
        return Spot { place: near, past };
    }
    let place = view.atom_of(a);
    let (_, past) = view.bounds(place);
    Spot { place, past }
}

/// The place of the row that has an address, where that is not before a row's first one. Most runs lie within one row,
/// so that row is asked before there is a search.
fn row_from<V: LabelView>(view: &V, first: Spot, a: u32) -> u64
    requires place { first.place < length (V.rows view.now) }
    requires from { (d : Row) → (slice_index_or (V.rows view.now) first.place d).low ≤ a }
    requires past { (d : Row) → first.past ≡ (slice_index_or (V.rows view.now) first.place d).past }
    ensures inside { result < length (V.rows view.now) }
    ensures from { (d : Row) → (slice_index_or (V.rows view.now) result d).low ≤ a }
    ensures to { (d : Row) → a < (slice_index_or (V.rows view.now) result d).past }
{
    if u64::from(a) < first.past {
        return first.place;
    }
    view.atom_of(a)
}

/// The places of the rows that the run of a change meets. The first of them is asked for near a place.
pub(crate) fn places_of<V: LabelView>(view: &V, near: u64, change: &Change) -> Places
    requires { IsChange change.now }
    ensures { AreMet (V.rows view.now) change.now result.first result.last }
{
    let first = row_near(view, near, change.run.lo);
    let last = row_from(view, first, change.run.hi);
    Places {
        first: first.place,
        last,
    }
}
