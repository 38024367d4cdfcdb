//! Where the addresses of one row end without a way on.

ghost use Rattle.std.specs.Prelude.{◌≡◌, ℕ, true, ◌+◌, ◌<◌, ◌≤◌, IfSome, length, slice_index_or};
ghost use Rattle.base.specs.Forwarding.{AreForwarding, does, target_of};
ghost use Rattle.base.specs.Holes.{falls, is_cause};
ghost use Rattle.base.specs.Walk.{at_address};
ghost use Rattle.base.specs.declared.forwarding_row.ForwardingRow.{ForwardingRow};
ghost use Rattle.base.specs.declared.ids.RouterId.{RouterId as RouterIs};
ghost use Rattle.base.specs.declared.target.Target.{Target as TargetIs};
ghost use Rattle.label_view.specs.Places.{IsInRow};
ghost use Rattle.blackhole.specs.Falls.{fall_of, is_fall, walk_falls};

use base::{RouterId, Target};
use label_view::LabelView;
use std::sync::ledger::Ledger;
use step_count::Steps;

/// The last router of a walk and what it does, if that is a cause.
fn fall_at(router: RouterId, target: Target) -> Option<(RouterId, Target)>
    ensures value { result ≡ fall_of router target }
    ensures cause { IfSome result (λ end. is_cause end.1 ≡ true) }
{
    match target {
        Target::NoRoute | Target::Dropped(_) | Target::LinkDown(_) => Some((router, target)),
        _ => None,
    }
}

/// The last router, and the cause, of the walks from a router, of so many hops at most, of the addresses of the row at
/// a place, if they end without a way on. It takes at most as many looks.
fn walk_fall<V: LabelView, L: Ledger>(
    view: &V,
    i: u64,
    first: RouterId,
    hops: u32,
    steps: &mut Steps<L>,
) -> Option<(RouterId, Target)>
    requires form { AreForwarding (V.width view.now) (V.rows view.now) }
    requires router { first.0 < V.width view.now }
    requires place { i < length (V.rows view.now) }
    ensures cause { IfSome result (λ end. is_cause end.1 ≡ true) }
    ensures falls { (last : RouterIs) (cause : TargetIs) (a : ℕ) → IsInRow (V.rows view.now) i a →
        is_fall result last cause ≡ walk_falls (at_address (does (V.rows view.now)) a) hops first last cause }
    ensures cost { steps.new ≤ steps.old + hops }
{
    let mut router = first;
    let mut left = hops;
    while left > 0 {
        steps.tick();
        match view.target(router, i) {
            Target::To(far, _) => router = far,
            last => return fall_at(router, last),
        }
        left -= 1;
    }
    None
}

/// The last router, and the cause, of the walks from a router of the addresses of the row at a place, with which the
/// router does this, if they end without a way on. It takes at most as many looks as there are routers.
pub fn row_fall<V: LabelView, L: Ledger>(
    view: &V,
    i: u64,
    first: RouterId,
    target: Target,
    steps: &mut Steps<L>,
) -> Option<(RouterId, Target)>
    requires router { first.0 < V.width view.now }
    requires place { i < length (V.rows view.now) }
    requires target { (d : ForwardingRow) → target ≡ target_of (slice_index_or (V.rows view.now) i d) first }
    ensures cause { IfSome result (λ end. is_cause end.1 ≡ true) }
    ensures falls { (last : RouterIs) (cause : TargetIs) (a : ℕ) → IsInRow (V.rows view.now) i a →
        is_fall result last cause ≡ falls (V.width view.now) (does (V.rows view.now)) first last cause a }
    ensures cost { steps.new ≤ steps.old + V.width view.now }
{
    let routers = view.routers();
    steps.tick();
    match target {
        Target::To(far, _) => walk_fall(view, i, far, routers - 1, steps),
        last => fall_at(first, last),
    }
}
