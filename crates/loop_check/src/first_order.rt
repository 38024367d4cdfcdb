//! Cycles of one row, by first router.

ghost use Rattle.std.specs.Prelude.{◌≡◌, ◌<◌, ◌≤◌, ℕ, List as Listed, OnOk, IsTrue, IsFalse, length, slice_index_or};
ghost use Rattle.base.specs.Cycles.{first_router};
ghost use Rattle.base.specs.declared.ids.RouterId.{RouterId as Router};
ghost use Rattle.loop_check.specs.FirstOrder.{IsPutByFirst};
ghost use Rattle.loop_check.specs.RowCycles.{AreInFirstOrder};

use base::{List, OutOfMemory, RouterId};
use std::alloc::Global;

/// The number of the first of these routers.
pub(crate) fn first_number(routers: &[RouterId]) -> u16
    ensures { result ≡ first_router routers.now }
{
    match routers.first() {
        Some(router) => router.0,
        None => 0,
    }
}

/// The place of a cycle among others: after all whose first router comes before its own.
fn place_of(cycles: &[List<RouterId>], first: u16) -> usize
    ensures within { result ≤ length cycles.now }
    ensures before { (k : ℕ) (d : Listed Router) → k < result → first_router (slice_index_or cycles.now k d) < first }
    ensures after { (d : Listed Router) → result < length cycles.now
        → first ≤ first_router (slice_index_or cycles.now result d) }
{
    for (i, cycle) in cycles.iter().enumerate() {
        if first <= first_number(cycle.as_slice()) {
            return i;
        }
    }
    cycles.len()
}

/// Whether the cycle at a place among others has this first router.
fn has_first(cycles: &[List<RouterId>], place: usize, first: u16) -> bool
    ensures yes { IsTrue result → place < length cycles.now }
    ensures same { IsTrue result → (d : Listed Router) → first_router (slice_index_or cycles.now place d) ≡ first }
    ensures other { IsFalse result → (d : Listed Router) → place < length cycles.now
        → first_router (slice_index_or cycles.now place d) ≡ first → ⊥ }
{
    match cycles.get(place) {
        Some(cycle) => first_number(cycle.as_slice()) == first,
        None => false,
    }
}

/// Puts a cycle of a row in its place among others, unless one with its first router is there: a router is in one cycle
/// of a row at most.
pub(crate) fn put_cycle(
    alloc: Global,
    cycles: &mut Vec<List<RouterId>>,
    path: &[RouterId],
) -> Result<(), OutOfMemory>
    requires { AreInFirstOrder cycles.old.items }
    ensures { OnOk result (IsPutByFirst path.now cycles.old.items cycles.new.items) }
{
    let first = first_number(path);
    let place = place_of(cycles.as_slice(), first);
    if has_first(cycles.as_slice(), place, first) {
        return Ok(());
    }
    cycles.insert(place, List::from_vec(path.to_vec(alloc)?))?;
    Ok(())
}
