//! Cycles of all addresses, put together from those of each range.

ghost use Rattle.std.specs.Prelude.{◌≡◌, ◌≤◌, ◌^◌, ℕ, None, IfOk, OnOk};
ghost use Rattle.base.specs.Cycles.{AreCycles};
ghost use Rattle.base.specs.declared.ids.RouterId.{RouterId as RouterIs};
ghost use Rattle.base.specs.declared.target.Target.{Target as TargetIs};
ghost use Rattle.loop_check.specs.CycleRuns.{value_under};
ghost use Rattle.loop_check.specs.CyclesByRange.{AreCyclePieces, AreCyclesWithin};
ghost use Rattle.loop_check.specs.Shares.{AreAllUnsorted, AreShares, IsShareAdded, share_of};

use crate::cycle_order::sort_cycles;
use crate::share::{Share, both};
use base::{Cycle, List, OutOfMemory, RouterId};
use std::alloc::Global;
use std::collections::BTreeMap;

/// Makes a share of a cycle known, of which no share is known yet.
fn add_first(
    alloc: Global,
    known: &mut BTreeMap<Vec<RouterId>, Share>,
    cycle: &Cycle,
    share: Share,
) -> Result<(), OutOfMemory>
    requires unknown { value_under known.old.entries cycle.now.routers ≡ None }
    requires share { share ≡ share_of cycle.now }
    ensures { OnOk result (IsShareAdded cycle.now known.old.entries known.new.entries) }
{
    let routers = cycle.routers.as_slice().to_vec(alloc)?;
    let _none = known.insert(routers, share)?;
    Ok(())
}

/// Adds the addresses of a range that go round a cycle to its share, which is looked up by its routers.
fn add_share(
    alloc: Global,
    known: &mut BTreeMap<Vec<RouterId>, Share>,
    cycle: &Cycle,
) -> Result<(), OutOfMemory>
    ensures { OnOk result (IsShareAdded cycle.now known.old.entries known.new.entries) }
{
    let share = Share {
        least: cycle.least,
        addresses: cycle.addresses,
    };
    match known.get_mut(cycle.routers.as_slice()) {
        Some(so_far) => {
            *so_far = both(*so_far, share);
            Ok(())
        }
        None => add_first(alloc, known, cycle, share),
    }
}

/// Adds the cycles of a range to those of the addresses before it.
fn add_piece(
    alloc: Global,
    known: &mut BTreeMap<Vec<RouterId>, Share>,
    piece: &[Cycle],
) -> Result<(), OutOfMemory>
    ensures { OnOk result ((does : RouterIs → ℕ → TargetIs) (low past : ℕ) → low ≤ past
        → AreCyclesWithin low past does piece.now
        → AreShares low does known.old.entries → AreShares past does known.new.entries) }
{
    for i in 0..piece.len() {
        add_share(alloc, known, &piece[i])?;
    }
    Ok(())
}

/// The cycles of which shares are known, in any order.
fn cycles_of(
    alloc: Global,
    known: BTreeMap<Vec<RouterId>, Share>,
) -> Result<Vec<Cycle>, OutOfMemory>
    ensures { IfOk result (λ cycles. (does : RouterIs → ℕ → TargetIs) → AreShares (2 ^ 32) does known.entries
        → AreAllUnsorted does cycles.items) }
{
    let mut left = known;
    let mut cycles = Vec::with_capacity(alloc, left.len())?;
    'cycles: while let Some((routers, share)) = left.pop_first() {
        cycles.push(Cycle {
            routers: List::from_vec(routers),
            least: share.least,
            addresses: share.addresses,
        })?;
    }
    Ok(cycles)
}

/// The cycles of all addresses, in order, where each range has those of its own addresses. Each cycle of a range is
/// looked up by its routers among those of the ranges before it. It fails for want of memory alone.
pub fn join_cycles(alloc: Global, pieces: &[List<Cycle>]) -> Result<List<Cycle>, OutOfMemory>
    ensures { IfOk result (λ cycles. (does : RouterIs → ℕ → TargetIs) → AreCyclePieces does pieces.now
        → AreCycles does cycles) }
{
    let mut known = BTreeMap::new(alloc);
    for k in 0..pieces.len() {
        add_piece(alloc, &mut known, pieces[k].as_slice())?;
    }
    let mut cycles = cycles_of(alloc, known)?;
    sort_cycles(&mut cycles);
    Ok(List::from_vec(cycles))
}
