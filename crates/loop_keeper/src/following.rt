//! The cycle of one row that has a router.

ghost use Rattle.std.specs.Prelude.{ℕ, ◌≡◌, ◌+◌, ◌<◌, ◌≤◌, IfOk, OnOk, IsTrue, length, slice_index_or};
ghost use Rattle.base.specs.Cycles.{goes_to};
ghost use Rattle.base.specs.Forwarding.{AreForwarding, target_of};
ghost use Rattle.base.specs.declared.forwarding_row.ForwardingRow.{ForwardingRow as Row};
ghost use Rattle.base.specs.declared.ids.RouterId.{RouterId as Router};
ghost use Rattle.base.specs.declared.target.Target.{Target as TargetIs};
ghost use Rattle.loop_check.specs.Following.{is_among};
ghost use Rattle.loop_keeper.specs.Following.{IsFollowed, IsTurned};
ghost use Rattle.loop_keeper.specs.Starts.{DoesSo, IsStartOf};

use base::{List, OutOfMemory, RouterId, Target};
use label_view::LabelView;
use std::alloc::Global;
use std::sync::ledger::Ledger;
use step_count::Steps;

/// A router, and what it does in a row.
#[derive(Clone, Copy, Debug, PartialEq, Eq)]
pub(crate) struct Start {
    pub(crate) router: RouterId,
    pub(crate) target: Target,
}

/// Whether a router is seen to be among those passed. Two places are looked at: the last but one, since most ways that
/// go round elsewhere end in two routers that send to each other, and the one half way, where every such way shows in
/// the end, as between a tortoise and a hare. Where one is not seen, the way only goes on.
fn has_passed(path: &[RouterId], router: RouterId) -> bool
    ensures { IsTrue result → IsTrue (is_among path.now router) }
{
    let n = path.len();
    if n < 2 {
        return false;
    }
    if path[n - 2].0 == router.0 {
        return true;
    }
    path[n / 2].0 == router.0
}

/// Whether what a router does is to send to this one.
fn leads_to(target: Target, router: RouterId) -> bool
    ensures { (f : Router → TargetIs) (r : Router) → f r ≡ target → result ≡ goes_to f r router }
{
    match target {
        Target::To(far, _) => far.0 == router.0,
        _ => false,
    }
}

/// Follows the row at a place from a router on until it comes back to that router, or ends, or is seen to go round
/// elsewhere. What the router does there is given, so that each hop but the first is one look; there are fewer looks
/// than routers. The routers passed are left in `path`.
pub(crate) fn follow<V: LabelView, L: Ledger>(
    view: &V,
    i: u64,
    start: Start,
    path: &mut Vec<RouterId>,
    steps: &mut Steps<L>,
) -> Result<bool, OutOfMemory>
    requires form { AreForwarding (V.width view.now) (V.rows view.now) }
    requires place { i < length (V.rows view.now) }
    requires start { IsStartOf (V.width view.now) start }
    ensures followed { IfOk result (λ found. DoesSo (V.rows view.now) start i → (d : Row)
        → IsFollowed (target_of (slice_index_or (V.rows view.now) i d)) start.router path.new.items found) }
    ensures some { OnOk result (0 < length path.new.items) }
    ensures cost { steps.new ≤ steps.old + V.width view.now }
{
    path.clear();
    path.push(start.router)?;
    let mut target = start.target;
    let mut left = view.routers();
    'hops: while left > 1 {
        let Target::To(far, _) = target else {
            return Ok(false);
        };
        if far.0 == start.router.0 {
            return Ok(true);
        }
        if has_passed(path.as_slice(), far) {
            return Ok(false);
        }
        path.push(far)?;
        steps.tick();
        target = view.target(far, i);
        left -= 1;
    }
    Ok(leads_to(target, start.router))
}

/// Which of two places has the router that is the first in the topology's order.
fn earlier_of(path: &[RouterId], x: usize, y: usize) -> usize
    requires x { x < length path.now }
    requires y { y < length path.now }
    ensures within { result < length path.now }
    ensures x { (d : Router) → (slice_index_or path.now result d).0 ≤ (slice_index_or path.now x d).0 }
    ensures y { (d : Router) → (slice_index_or path.now result d).0 ≤ (slice_index_or path.now y d).0 }
{
    if path[y].0 < path[x].0 {
        return y;
    }
    x
}

/// The place of the first of these routers in the topology's order.
fn place_of_first(path: &[RouterId]) -> usize
    requires { 0 < length path.now }
    ensures within { result < length path.now }
    ensures least { (k : ℕ) (d : Router) → k < length path.now
        → (slice_index_or path.now result d).0 ≤ (slice_index_or path.now k d).0 }
{
    let mut place = 0;
    for k in 0..path.len() {
        place = earlier_of(path, place, k);
    }
    place
}

/// Routers that go round, from the first of them in the topology's order on.
pub(crate) fn turned(alloc: Global, path: &[RouterId]) -> Result<List<RouterId>, OutOfMemory>
    requires { 0 < length path.now }
    ensures { IfOk result (IsTurned path.now) }
{
    let place = place_of_first(path);
    let mut routers = path[place..].to_vec(alloc)?;
    routers.extend_from_slice(&path[..place])?;
    Ok(List::from_vec(routers))
}
