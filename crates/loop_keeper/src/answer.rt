//! Kept cycles as an answer: by least address, then by first router.

ghost use Rattle.std.specs.Prelude.{◌≡◌, ◌<◌, ◌≤◌, ◌^◌, ◌++◌, ◌∷◌, ℕ, [], IfOk, OnOk, length, map};
ghost use Rattle.base.specs.Cycles.{AreCycles};
ghost use Rattle.base.specs.declared.ids.RouterId.{RouterId as Router};
ghost use Rattle.base.specs.declared.target.Target.{Target as TargetIs};
ghost use Rattle.loop_keeper.specs.Answer.{ArePieces, begin_at, cycle_between, piece_of};
ghost use Rattle.loop_keeper.specs.Kept.{AreKept};

use crate::kept_cycle::KeptCycle;
use crate::segment::Segment;
use base::{Cycle, List, OutOfMemory};
use loop_check::join_cycles;
use std::alloc::Global;
use version_pages::Pages;

/// Cycles that all addresses from `low` up to, and without, `past` go round, as they are told.
fn told_between(
    alloc: Global,
    cycles: &[KeptCycle],
    low: u32,
    past: u64,
) -> Result<List<Cycle>, OutOfMemory>
    ensures { IfOk result (λ told. told ≡ map (cycle_between low past) cycles.now) }
{
    let mut told = Vec::with_capacity(alloc, cycles.len())?;
    for one in cycles {
        let routers = List::from_vec(one.routers().to_vec(alloc)?);
        told.push(Cycle {
            routers,
            least: low,
            addresses: past.saturating_sub(u64::from(low)),
        })?;
    }
    Ok(List::from_vec(told))
}

/// The first address of the segment at a place, or 2^32 behind the last one.
fn begin_of(segments: &Pages<Segment>, place: u64) -> u64
    ensures { result ≡ begin_at segments.now place }
{
    match segments.get(place) {
        Some(segment) => u64::from(segment.low()),
        None => 1 << 32,
    }
}

/// The cycles of the segment at a place.
fn told_at(alloc: Global, segments: &Pages<Segment>, place: u64) -> Result<List<Cycle>, OutOfMemory>
    requires { place < length segments.now }
    ensures { IfOk result (λ told. told ≡ piece_of segments.now place) }
{
    let whole = segments.len();
    let Some(segment) = segments.get(place) else {
        return Err(OutOfMemory);
    };
    prove!(place < whole);
    let past = begin_of(segments, place + 1);
    let told = told_between(alloc, segment.cycles(), segment.low(), past)?;
    Ok(told)
}

/// The cycles of each segment, behind none for the addresses before the first one.
fn told_by_segment(
    alloc: Global,
    segments: &Pages<Segment>,
) -> Result<Vec<List<Cycle>>, OutOfMemory>
    ensures { IfOk result (λ pieces. ArePieces segments.now (length segments.now) pieces.items) }
{
    let mut pieces = Vec::new(alloc);
    pieces.push(List::from_vec(Vec::new(alloc)))?;
    for place in 0..segments.len() {
        let piece = told_at(alloc, segments, place)?;
        pieces.push(piece)?;
    }
    Ok(pieces)
}

/// The cycles that are kept, in order.
pub(crate) fn cycles_of(
    alloc: Global,
    segments: &Pages<Segment>,
) -> Result<List<Cycle>, OutOfMemory>
    ensures { IfOk result (λ cycles. (does : Router → ℕ → TargetIs) → AreKept does segments.now → AreCycles does cycles) }
{
    let pieces = told_by_segment(alloc, segments)?;
    let cycles = join_cycles(alloc, pieces.as_slice())?;
    Ok(cycles)
}
