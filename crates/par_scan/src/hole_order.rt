//! Black holes in the order in which they are told: by last router, then by cause.

ghost use Rattle.std.specs.Prelude.{◌≡◌, ◌<◌, ◌≤◌, ℕ, false, IsTrue, OnOk, length, slice_index_or};
ghost use Rattle.std.specs.List.{list_any};
ghost use Rattle.base.specs.Holes.{AreInOrder, cause_rank};
ghost use Rattle.base.specs.HolesFrom.{IsPutAmong, is_before, is_hole_of};
ghost use Rattle.base.specs.declared.hole.Hole.{Hole as HoleIs};
ghost use Rattle.par_scan.specs.HolesByRange.{hole_runs};

use base::{DropKind, Hole, OutOfMemory, RouterId, Run, Target};

/// The place of a cause in the order in which causes are told; 0 for what is none.
fn rank(target: Target) -> u32
    ensures { result ≡ cause_rank target }
{
    match target {
        Target::NoRoute => 1,
        Target::Dropped(DropKind::Blackhole) => 2,
        Target::Dropped(DropKind::Unreachable) => 3,
        Target::Dropped(DropKind::Prohibit) => 4,
        Target::LinkDown(link) => 5 + u32::from(link.0),
        _ => 0,
    }
}

/// Whether a hole is at this last router by this cause.
fn is_at(hole: &Hole, last: RouterId, cause: Target) -> bool
    ensures { result ≡ is_hole_of last cause hole.now }
{
    hole.router.0 == last.0 && rank(hole.cause) == rank(cause)
}

/// Whether a hole comes before another: by last router, then by cause.
fn comes_before(x: &Hole, y: &Hole) -> bool
    ensures { result ≡ is_before x.now y.now }
{
    x.router.0 < y.router.0 || (x.router.0 == y.router.0 && rank(x.cause) < rank(y.cause))
}

/// Whether a hole at this last router by this cause is among these.
pub(crate) fn has_hole(holes: &[Hole], last: RouterId, cause: Target) -> bool
    ensures { result ≡ list_any (is_hole_of last cause) holes.now }
{
    holes.iter().any(|hole| is_at(hole, last, cause))
}

/// The runs of the hole at this last router by this cause, and none if it isn't among these.
pub(crate) fn runs_at<'a>(holes: &'a [Hole], last: RouterId, cause: Target) -> &'a [Run]
    ensures { result.now ≡ hole_runs last cause holes.now }
{
    for i in 0..holes.len() {
        let hole = &holes[i];
        if is_at(hole, last, cause) {
            return hole.runs.as_slice();
        }
    }
    &[]
}

/// The place of a hole among others: after all that come before it.
fn place_of(holes: &[Hole], hole: &Hole) -> usize
    ensures within { result ≤ length holes.now }
    ensures before { (k : ℕ) (d : HoleIs) → k < result → IsTrue (is_before (slice_index_or holes.now k d) hole.now) }
    ensures after { (d : HoleIs) → result < length holes.now
        → is_before (slice_index_or holes.now result d) hole.now ≡ false }
{
    for (i, other) in holes.iter().enumerate() {
        if !comes_before(other, hole) {
            return i;
        }
    }
    holes.len()
}

/// Puts a hole in its place among others, of which none is at its last router by its cause.
pub(crate) fn put_hole(holes: &mut Vec<Hole>, hole: Hole) -> Result<(), OutOfMemory>
    ensures { OnOk result (AreInOrder holes.old.items
        → list_any (is_hole_of hole.router hole.cause) holes.old.items ≡ false
        → IsPutAmong hole holes.old.items holes.new.items) }
{
    let place = place_of(holes.as_slice(), &hole);
    holes.insert(place, hole)?;
    Ok(())
}
