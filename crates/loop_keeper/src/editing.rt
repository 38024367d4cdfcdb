//! Changes of what is kept.

ghost use Rattle.std.specs.Prelude.{◌≡◌, ℕ, ◌+◌, ◌-◌, ◌<◌, ◌≤◌, ◌^◌, ◌∷◌, [], false, true, List as Listed, OnOk, IfOk, IfSome, IsFalse, IsTrue, Contains, length, slice_index_or};
ghost use Rattle.base.specs.Delta.{AreChanges, IsChange};
ghost use Rattle.base.specs.declared.ids.RouterId.{RouterId as Router};
ghost use Rattle.loop_check.specs.Following.{is_among};
ghost use Rattle.loop_keeper.specs.Edits.{AreAlike, AreChangedTo, AreChangedWithin, ArePutIn, AreTakenOut, Begins, IsCut, IsInserted};
ghost use Rattle.loop_keeper.specs.Finding.{AllInside};
ghost use Rattle.loop_keeper.specs.Kept.{AreSegments, Kept as KeptIs};
ghost use Rattle.version_pages.specs.Search.{EndsBelow};

use crate::found::Found;
use crate::kept_cycle::KeptCycle;
use crate::segment::{Edit, Segment};
use base::{Change, OutOfMemory, RouterId};
use std::alloc::Global;
use version_pages::Pages;

/// Whether a segment begins at an address, where those before the place begin below it.
fn begins_at(segments: &Pages<Segment>, place: u64, at: u64) -> bool
    ensures yes { IsTrue result → place < length segments.now }
    ensures same { IsTrue result → (d : KeptIs) → (slice_index_or segments.now place d).low ≡ at }
    ensures other { IsFalse result → (d : KeptIs) → place < length segments.now
        → (slice_index_or segments.now place d).low ≡ at → ⊥ }
{
    match segments.get(place) {
        Some(segment) => u64::from(segment.low()) == at,
        None => false,
    }
}

/// A segment that begins at an address, with the cycles of the one before a place, if there is one.
fn segment_for(
    alloc: Global,
    segments: &Pages<Segment>,
    place: u64,
    at: u32,
) -> Result<Segment, OutOfMemory>
    ensures low { IfOk result (λ segment. segment.low ≡ at) }
    ensures first { IfOk result (λ segment. place ≡ 0 → segment.cycles ≡ []) }
    ensures same { IfOk result (λ segment. (d : KeptIs) → 0 < place
        → segment.cycles ≡ (slice_index_or segments.now (place - 1) d).cycles) }
{
    if place == 0 {
        return Segment::empty_from(alloc, at);
    }
    let Some(before) = segments.get(place - 1) else {
        return Err(OutOfMemory);
    };
    before.again_from(at)
}

/// Puts a segment that begins at an address at a place, with the cycles of the one before it.
fn insert(
    alloc: Global,
    segments: &mut Pages<Segment>,
    place: u64,
    at: u32,
) -> Result<(), OutOfMemory>
    requires { place ≤ length segments.old }
    ensures { OnOk result (IsInserted place at segments.old segments.new) }
{
    let segment = segment_for(alloc, segments, place, at)?;
    segments.insert_at(alloc, place, segment)
}

/// Cuts segments at an address, so that one begins there.
fn cut(alloc: Global, segments: &mut Pages<Segment>, at: u64) -> Result<(), OutOfMemory>
    ensures { OnOk result (AreSegments segments.old → IsCut at segments.old segments.new) }
{
    if at > u64::from(u32::MAX) {
        return Ok(());
    }
    let place = segments.count_below(at);
    if begins_at(segments, place, at) {
        return Ok(());
    }
    insert(alloc, segments, place, at as u32)
}

/// Changes the segment at a place.
fn change_at(
    alloc: Global,
    segments: &mut Pages<Segment>,
    place: u64,
    edit: &Edit,
) -> Result<(), OutOfMemory>
    ensures { OnOk result (AreChangedTo edit.now place (place + 1) segments.old segments.new) }
{
    let Some(segment) = segments.get(place) else {
        return Ok(());
    };
    let segment = segment.edited(alloc, edit)?;
    segments.put(alloc, place, segment)
}

/// Changes the segments that begin from one address up to, and without, another one.
fn change_between(
    alloc: Global,
    segments: &mut Pages<Segment>,
    low: u64,
    past: u64,
    edit: &Edit,
) -> Result<(), OutOfMemory>
    requires { past ≤ 2 ^ 32 }
    ensures { OnOk result (AreSegments segments.old → (low < 2 ^ 32 → Begins segments.old low)
        → (past < 2 ^ 32 → Begins segments.old past) → AreChangedWithin edit.now low past segments.old segments.new) }
{
    let first = segments.count_below(low);
    let end = segments.count_below(past);
    let mut place = first;
    'places: while place < end {
        change_at(alloc, segments, place, edit)?;
        place += 1;
    }
    Ok(())
}

/// Changes the cycles of the addresses from one up to, and without, another one.
fn change_within(
    alloc: Global,
    segments: &mut Pages<Segment>,
    low: u64,
    past: u64,
    edit: &Edit,
) -> Result<(), OutOfMemory>
    requires { past ≤ 2 ^ 32 }
    ensures { OnOk result (AreSegments segments.old → AreChangedWithin edit.now low past segments.old segments.new) }
{
    cut(alloc, segments, low)?;
    cut(alloc, segments, past)?;
    change_between(alloc, segments, low, past, edit)
}

/// Whether a cycle of the segment at a place has a router.
fn has_router_at(segments: &Pages<Segment>, place: u64, router: RouterId) -> bool
    ensures { IsFalse result → (d : KeptIs) (rs : Listed Router) → place < length segments.now
        → Contains (slice_index_or segments.now place d).cycles rs → is_among rs router ≡ false }
{
    match segments.get(place) {
        Some(segment) => segment.has_router(router),
        None => false,
    }
}

/// How many segments begin below an address, of which so many begin below it at least. Mostly there are no more, so the next
/// one is looked at before there is a search.
fn count_from(segments: &Pages<Segment>, least: u64, at: u64) -> u64
    requires inside { least ≤ length segments.now }
    requires before { (d : KeptIs) → 0 < least → (slice_index_or segments.now (least - 1) d).low < at }
    ensures { EndsBelow (λ (s : KeptIs). s.low) segments.now at result }
{
    match segments.get(least) {
        Some(segment) => {
            if u64::from(segment.low()) < at {
                return segments.count_below(at);
            }
            least
        }
        None => least,
    }
}

/// Whether a change may take addresses out of a cycle: whether its run meets a segment one of whose cycles has its
/// router.
fn is_met(segments: &Pages<Segment>, change: &Change) -> bool
    requires { IsChange change.now }
    ensures { IsFalse result → AreSegments segments.now → AreTakenOut (change.now ∷ []) segments.now segments.now }
{
    let begun = segments.count_below(u64::from(change.run.lo) + 1);
    let first = begun.saturating_sub(1);
    let end = count_from(segments, begun, u64::from(change.run.hi) + 1);
    for place in first..end {
        if has_router_at(segments, place, change.router) {
            return true;
        }
    }
    false
}

/// Whether changes may take addresses out of a cycle.
pub(crate) fn are_met(segments: &Pages<Segment>, changes: &[Change]) -> bool
    requires { AreChanges changes.now }
    ensures { IsFalse result → AreSegments segments.now → AreTakenOut changes.now segments.now segments.now }
{
    if segments.len() == 0 {
        return false;
    }
    for change in changes {
        if is_met(segments, change) {
            return true;
        }
    }
    false
}

/// Whether there is a segment at a place, and it has no cycle.
fn is_empty_at(segments: &Pages<Segment>, place: u64) -> bool
    ensures inside { IsTrue result → place < length segments.now }
    ensures none { IsTrue result → (d : KeptIs) → (slice_index_or segments.now place d).cycles ≡ [] }
{
    match segments.get(place) {
        Some(segment) => segment.is_empty(),
        None => false,
    }
}

/// Whether there is a segment at a place, and neither it nor the one before it has a cycle.
fn is_idle(segments: &Pages<Segment>, place: u64) -> bool
    ensures inside { IsTrue result → place < length segments.now }
    ensures none { IsTrue result → (d : KeptIs) → (slice_index_or segments.now place d).cycles ≡ [] }
    ensures before { IsTrue result → 0 < place → (d : KeptIs) → (slice_index_or segments.now (place - 1) d).cycles ≡ [] }
{
    if place == 0 {
        return is_empty_at(segments, place);
    }
    if !is_empty_at(segments, place - 1) {
        return false;
    }
    is_empty_at(segments, place)
}

/// Leaves the segment at a place out, if neither it nor the one before it has a cycle.
fn leave_out(alloc: Global, segments: &mut Pages<Segment>, place: u64) -> Result<(), OutOfMemory>
    ensures { OnOk result (AreSegments segments.old → AreAlike segments.old segments.new) }
{
    if !is_idle(segments, place) {
        return Ok(());
    }
    segments.remove_run(alloc, place, 1)
}

/// Leaves segments out that begin from one address up to another one, where neither they nor those before them have a
/// cycle.
fn leave_empty_out(
    alloc: Global,
    segments: &mut Pages<Segment>,
    low: u64,
    last: u64,
) -> Result<(), OutOfMemory>
    ensures { OnOk result (AreSegments segments.old → AreAlike segments.old segments.new) }
{
    let first = segments.count_below(low);
    let mut past = segments.count_below(last).saturating_add(1);
    'places: while past > first {
        past -= 1;
        leave_out(alloc, segments, past)?;
    }
    Ok(())
}

/// Takes the run of a change out of the cycles that have its router.
fn take_out(
    alloc: Global,
    segments: &mut Pages<Segment>,
    change: &Change,
) -> Result<(), OutOfMemory>
    requires { IsChange change.now }
    ensures { OnOk result (AreSegments segments.old → AreTakenOut (change.now ∷ []) segments.old segments.new) }
{
    if !is_met(segments, change) {
        return Ok(());
    }
    let past = u64::from(change.run.hi) + 1;
    let edit = Edit::Without(change.router);
    change_within(alloc, segments, u64::from(change.run.lo), past, &edit)?;
    leave_empty_out(alloc, segments, u64::from(change.run.lo), past)
}

/// Takes the runs of changes out of the cycles that have their routers.
pub(crate) fn take_all_out(
    alloc: Global,
    segments: &mut Pages<Segment>,
    changes: &[Change],
) -> Result<(), OutOfMemory>
    requires { AreChanges changes.now }
    ensures { OnOk result (AreSegments segments.old → AreTakenOut changes.now segments.old segments.new) }
{
    for change in changes {
        take_out(alloc, segments, change)?;
    }
    Ok(())
}

/// Puts a cycle that was found beside what is kept.
fn put_in(alloc: Global, segments: &mut Pages<Segment>, found: Found) -> Result<(), OutOfMemory>
    requires { found.past ≤ 2 ^ 32 }
    ensures { OnOk result (AreSegments segments.old → ArePutIn (found ∷ []) segments.old segments.new) }
{
    let Found { routers, low, past } = found;
    let edit = Edit::With(KeptCycle::new(alloc, routers)?);
    change_within(alloc, segments, low, past, &edit)
}

/// Puts the cycles that were found beside what is kept.
pub(crate) fn put_all_in(
    alloc: Global,
    segments: &mut Pages<Segment>,
    found: Vec<Found>,
) -> Result<(), OutOfMemory>
    requires { AllInside found.items }
    ensures { OnOk result (AreSegments segments.old → ArePutIn found.items segments.old segments.new) }
{
    let mut left = found;
    'putting: while let Some(one) = left.pop() {
        put_in(alloc, segments, one)?;
    }
    Ok(())
}
