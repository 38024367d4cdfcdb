//! The way of one address.

ghost use Rattle.std.specs.Prelude.{◌≡◌, ◌+◌, ◌<◌, ◌≤◌, IfOk};
ghost use Rattle.base.specs.Forwarding.{does};
ghost use Rattle.base.specs.Walk.{at_address, walk, walk_end};

use base::{List, OutOfMemory, PathEnd, RouterId, Target};
use label_view::LabelView;
use std::alloc::Global;
use std::sync::ledger::Ledger;
use step_count::Steps;

/// The walk of the address `a` (0 to 2^32 - 1) from a router: its routers in order, the first one included, and how it
/// ends. It finds the address once, and makes at most as many hops as there are routers, each by one look.
pub fn path<V: LabelView, L: Ledger>(
    alloc: Global,
    view: &V,
    first: RouterId,
    a: u32,
    steps: &mut Steps<L>,
) -> Result<(List<RouterId>, PathEnd), OutOfMemory>
    requires { first.0 < V.width view.now }
    ensures hops { IfOk result (λ answer. answer.0 ≡ walk (at_address (does (V.rows view.now)) a) (V.width view.now) first) }
    ensures end { IfOk result (λ answer. answer.1 ≡ walk_end (at_address (does (V.rows view.now)) a) (V.width view.now) first) }
    ensures cost { steps.new ≤ steps.old + V.width view.now }
{
    let place = view.atom_of(a);
    let mut hops = Vec::new(alloc);
    let mut router = first;
    let mut left = view.routers();
    while left > 0 {
        hops.push(router)?;
        steps.tick();
        match view.target(router, place) {
            Target::To(far, _) => router = far,
            last => return Ok((List::from_vec(hops), PathEnd::At(last))),
        }
        left -= 1;
    }
    hops.push(router)?;
    Ok((List::from_vec(hops), PathEnd::Loop))
}
