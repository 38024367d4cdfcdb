//! Cycles of one address.

ghost use Rattle.std.specs.Prelude.{◌≡◌, ◌∷◌, ◌<◌, ◌&&◌, IfOk, nat_lt, not, false};
ghost use Rattle.std.specs.List.{list_all, list_any};
ghost use Rattle.base.specs.Cycles.{go_round, goes_round};
ghost use Rattle.base.specs.CyclesFrom.{IsCycleFrom};
ghost use Rattle.base.specs.Reach.{is_router};
ghost use Rattle.base.specs.Lists.{all_differ};
ghost use Rattle.base.specs.Walk.{at_address, on_far};
ghost use Rattle.dn_model.specs.Network.{IsClosed, does_in, routers_in};

use crate::network::Network;
use crate::plain_test::is_among;
use base::{List, OutOfMemory, RouterId, Target};
use std::alloc::Global;

/// Whether a router stands before all of these in the topology's order.
fn is_first_of(first: RouterId, others: &[RouterId]) -> bool
    ensures { result ≡ list_all (λ s. nat_lt first.0 s.0) others.now }
{
    others.iter().all(|s| first.0 < s.0)
}

/// Whether no router stands twice among these.
fn do_differ(routers: &[RouterId]) -> bool
    ensures { result ≡ all_differ is_router routers.now }
{
    let mut left = routers;
    while let [first, others @ ..] = left {
        if is_among(others, *first) {
            return false;
        }
        left = others;
    }
    true
}

/// Whether a target goes on to a router.
fn is_to(target: Target, router: RouterId) -> bool
    ensures { result ≡ on_far target false (is_router router) }
{
    match target {
        Target::To(far, _) => far.0 == router.0,
        Target::NoRoute
        | Target::Dropped(_)
        | Target::Local
        | Target::Exit(_)
        | Target::OnLink(_)
        | Target::LinkDown(_) => false,
    }
}

/// Whether `first` and each of the other routers sends an address on to the next, and the last one to `first`.
fn do_go_round(net: &Network, first: RouterId, others: &[RouterId], a: u32) -> bool
    ensures { result ≡ go_round (at_address (does_in net.now) a) first (first ∷ others.now) }
{
    let mut last = first;
    for router in others {
        let target = net.target(last, a);
        if !is_to(target, *router) {
            return false;
        }
        last = *router;
    }
    let target = net.target(last, a);
    is_to(target, first)
}

/// Whether an address goes round the cycle of these routers.
pub(crate) fn is_cycle_of(net: &Network, routers: &[RouterId], a: u32) -> bool
    ensures { result ≡ goes_round (does_in net.now) routers.now a }
{
    let [first, others @ ..] = routers else {
        return false;
    };
    if !is_first_of(*first, others) || !do_differ(routers) {
        return false;
    }
    do_go_round(net, *first, others, a)
}

/// Whether a walk that came along these routers goes on to one that may stand in a cycle of which `first` is the first
/// router: one that stands after `first` in the topology's order and not among those.
fn is_new_after(first: RouterId, routers: &[RouterId], far: RouterId) -> bool
    ensures { result ≡ (nat_lt first.0 far.0 && not (list_any (is_router far) routers.now)) }
{
    first.0 < far.0 && !is_among(routers, far)
}

/// The cycle that an address goes round, and of which `first` is the
/// first router in the topology's order; None where there is none.
pub(crate) fn cycle_from(
    alloc: Global,
    net: &Network,
    first: RouterId,
    a: u32,
) -> Result<Option<List<RouterId>>, OutOfMemory>
    requires closed { IsClosed net.now }
    requires first { first.0 < routers_in net.now }
    ensures { IfOk result (λ cycle. IsCycleFrom (at_address (does_in net.now) a) first cycle) }
{
    let mut routers = Vec::new(alloc);
    routers.push(first)?;
    let mut last = first;
    let mut left = net.router_count();
    while left > 0 {
        let Target::To(far, _) = net.target(last, a) else {
            return Ok(None);
        };
        if far.0 == first.0 {
            return Ok(Some(List::from_vec(routers)));
        }
        if !is_new_after(first, routers.as_slice(), far) {
            return Ok(None);
        }
        routers.push(far)?;
        last = far;
        left -= 1;
    }
    Ok(None)
}
