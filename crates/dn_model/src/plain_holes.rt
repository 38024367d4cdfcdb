//! The plain evaluator of `blackholes`: where the walks of the elementary intervals between the ends of all routers'
//! prefixes fall, and for each such last router and cause the runs of all addresses that fall there.

ghost use Rattle.std.specs.Prelude.{◌≡◌, ◌<◌, ◌≤◌, ◌^◌, ℕ, IfOk, OnOk, IsTrue, IsSome, false, length, slice_index_or};
ghost use Rattle.std.specs.List.{list_any};
ghost use Rattle.dn_model.specs.Answer.{IsAnswerOf};
ghost use Rattle.base.specs.Holes.{is_cause, falls, AreHoles, AreInOrder};
ghost use Rattle.base.specs.HolesFrom.{is_hole_of, is_before, fall_of, fall_at, IsPutAmong, AreSomeHoles, TellsHole, AreHolesFrom};
ghost use Rattle.dn_model.specs.Lookup.{router_of};
ghost use Rattle.dn_model.specs.Network.{does_in, routers_in};
ghost use Rattle.dn_model.specs.declared.query.Ask.TheVariants.{Blackholes};

use crate::answer::Answer;
use crate::network::Network;
use crate::plain_intervals::interval_below;
use crate::plain_reach::known_router;
use crate::plain_runs::plain_runs;
use crate::plain_test::{Test, is_a_cause, last_of, rank_of};
use crate::topology::Topology;
use base::{Hole, List, Name, OutOfMemory, PathEnd, RouterId, Target};
use std::alloc::Global;

/// Whether a hole comes before another: by router, then cause.
fn comes_before(x: &Hole, y: &Hole) -> bool
    ensures { result ≡ is_before x.now y.now }
{
    x.router.0 < y.router.0 || (x.router.0 == y.router.0 && rank_of(x.cause) < rank_of(y.cause))
}

/// Whether a hole of this last router and this cause is among these.
fn has_hole(holes: &[Hole], last: RouterId, cause: Target) -> bool
    ensures { result ≡ list_any (is_hole_of last cause) holes.now }
{
    holes.iter().any(|hole| hole.router.0 == last.0 && rank_of(hole.cause) == rank_of(cause))
}

/// The place of a hole among others: after all that come before it.
fn place_of(holes: &[Hole], hole: &Hole) -> usize
    ensures within { result ≤ length holes.now }
    ensures before { (k : ℕ) (d : Hole) → k < result → IsTrue (is_before (slice_index_or holes.now k d) hole.now) }
    ensures after { (d : Hole) → result < length holes.now
        → is_before (slice_index_or holes.now result d) hole.now ≡ false }
{
    for (i, other) in holes.iter().enumerate() {
        if !comes_before(other, hole) {
            return i;
        }
    }
    holes.len()
}

/// Puts a hole in its place among others, of which none is of its last router and its cause.
fn put_hole(holes: &mut Vec<Hole>, hole: Hole) -> Result<(), OutOfMemory>
    requires order { AreInOrder holes.old.items }
    requires other { list_any (is_hole_of hole.router hole.cause) holes.old.items ≡ false }
    ensures { OnOk result (IsPutAmong hole holes.old.items holes.new.items) }
{
    let place = place_of(holes.as_slice(), &hole);
    holes.insert(place, hole)?;
    Ok(())
}

/// Where a walk with this last router and this end falls, and by which cause.
fn fall_by_end(last: RouterId, end: PathEnd) -> Option<(RouterId, Target)>
    ensures { result ≡ fall_of last end }
{
    match end {
        PathEnd::At(cause) => {
            if is_a_cause(cause) {
                Some((last, cause))
            } else {
                None
            }
        }
        PathEnd::Loop => None,
    }
}

/// Where the walk of an address from a router falls, and by which cause.
fn plain_fall(
    alloc: Global,
    net: &Network,
    first: RouterId,
    a: u32,
) -> Result<Option<(RouterId, Target)>, OutOfMemory>
    ensures { IfOk result (λ fall. fall ≡ fall_at (routers_in net.now) (does_in net.now) first a) }
{
    let (routers, end) = net.walk(alloc, first, a)?;
    match last_of(routers.as_slice()) {
        Some(last) => Ok(fall_by_end(last, end)),
        None => Ok(None),
    }
}

/// Puts the hole in which an address falls, if it does, among others.
fn tell_hole(
    alloc: Global,
    net: &Network,
    first: RouterId,
    holes: &mut Vec<Hole>,
    a: u32,
) -> Result<(), OutOfMemory>
    requires form { AreSomeHoles (routers_in net.now) (does_in net.now) first holes.old.items }
    ensures { OnOk result (
        TellsHole (routers_in net.now) (does_in net.now) first a holes.old.items holes.new.items) }
{
    let Some((last, cause)) = plain_fall(alloc, net, first, a)? else {
        return Ok(());
    };
    if has_hole(holes.as_slice(), last, cause) {
        return Ok(());
    }
    let runs = plain_runs(alloc, net, &Test::Falls(first, last, cause))?;
    let hole = Hole {
        router: last,
        cause,
        runs,
    };
    put_hole(holes, hole)?;
    Ok(())
}

/// Puts the hole of the last elementary interval below `past` among others, and gives where the interval begins.
fn tell_interval(
    alloc: Global,
    net: &Network,
    first: RouterId,
    holes: &mut Vec<Hole>,
    past: u64,
) -> Result<u64, OutOfMemory>
    requires some { 0 < past }
    requires below { past ≤ 2 ^ 32 }
    requires holes { AreHolesFrom (routers_in net.now) (does_in net.now) first past holes.old.items }
    ensures lower { IfOk result (λ low. low < past) }
    ensures told { IfOk result (λ low.
        AreHolesFrom (routers_in net.now) (does_in net.now) first low holes.new.items) }
{
    let low = interval_below(net, past);
    tell_hole(alloc, net, first, holes, (past - 1) as u32)?;
    Ok(low)
}

/// The black holes of a router's walks.
fn holes_of(alloc: Global, net: &Network, first: RouterId) -> Result<List<Hole>, OutOfMemory>
    ensures { IfOk result (λ holes. AreHoles (routers_in net.now) (does_in net.now) first holes) }
{
    let mut holes = Vec::new(alloc);
    let mut past: u64 = 1 << 32;
    while past > 0 {
        past = tell_interval(alloc, net, first, &mut holes, past)?;
    }
    Ok(List::from_vec(holes))
}

/// The black holes of the walks from the router of this name.
pub(crate) fn plain_holes(
    alloc: Global,
    t: &Topology,
    net: &Network,
    name: &Name,
) -> Result<Answer, OutOfMemory>
    requires count { routers_in net.now ≡ length t.now.routers }
    requires name { IsSome (router_of t.now name.now) }
    ensures { IfOk result (λ answer. IsAnswerOf t.now (does_in net.now) (Blackholes name.now) answer) }
{
    let first = known_router(t, name);
    let holes = holes_of(alloc, net, first)?;
    Ok(Answer::Holes(holes))
}
