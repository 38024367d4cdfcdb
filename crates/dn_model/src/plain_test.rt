//! Tests of an address: what is asked of each address, where the answer is a set of addresses.

ghost use Rattle.std.specs.Prelude.{◌≡◌, ◌-◌, ◌&&◌, IfOk, length, slice_get};
ghost use Rattle.std.specs.List.{list_any};
ghost use Rattle.base.specs.Holes.{cause_rank, is_cause, ends_by, falls};
ghost use Rattle.base.specs.Reach.{is_router, comes_before, is_over, reaches, misses, goes_over};
ghost use Rattle.dn_model.specs.Test.{passes};
ghost use Rattle.dn_model.specs.Network.{does_in, routers_in};

use crate::network::Network;
use crate::plain_cycle::is_cycle_of;
use base::{DropKind, LinkId, List, OutOfMemory, PathEnd, RouterId, Target};
use std::alloc::Global;

/// A test of an address.
#[derive(Drop)]
pub(crate) enum Test {
    /// Its walk from the first router comes to the second.
    Reaches(RouterId, RouterId),
    /// Its walk from the first router comes to the second without having met the third.
    Misses(RouterId, RouterId, RouterId),
    /// The router sends it over the link.
    GoesOver(RouterId, LinkId),
    /// Its walk from the first router ends at the second by the cause.
    Falls(RouterId, RouterId, Target),
    /// It goes round the cycle of these routers.
    GoesRound(List<RouterId>),
}

/// Whether a router is one of these.
pub(crate) fn is_among(routers: &[RouterId], router: RouterId) -> bool
    ensures { result ≡ list_any (is_router router) routers.now }
{
    routers.iter().any(|r| r.0 == router.0)
}

/// Whether one of these routers is `to`, and none up to the first of them is `through`.
fn is_before_waypoint(routers: &[RouterId], to: RouterId, through: RouterId) -> bool
    ensures { result ≡ comes_before to through routers.now }
{
    for router in routers {
        if router.0 == through.0 {
            return false;
        }
        if router.0 == to.0 {
            return true;
        }
    }
    false
}

/// Whether a target goes on over a link.
fn is_sent_over(link: LinkId, target: Target) -> bool
    ensures { result ≡ is_over link target }
{
    match target {
        Target::To(_, over) => over.0 == link.0,
        Target::NoRoute
        | Target::Dropped(_)
        | Target::Local
        | Target::Exit(_)
        | Target::OnLink(_)
        | Target::LinkDown(_) => false,
    }
}

/// The place of a cause among the causes of black holes; other targets have 0.
pub(crate) fn rank_of(cause: Target) -> u32
    ensures { result ≡ cause_rank cause }
{
    match cause {
        Target::NoRoute => 1,
        Target::Dropped(DropKind::Blackhole) => 2,
        Target::Dropped(DropKind::Unreachable) => 3,
        Target::Dropped(DropKind::Prohibit) => 4,
        Target::LinkDown(link) => 5 + link.0 as u32,
        Target::Local | Target::Exit(_) | Target::OnLink(_) | Target::To(_, _) => 0,
    }
}

/// Whether a target is a cause of black holes.
pub(crate) fn is_a_cause(target: Target) -> bool
    ensures { result ≡ is_cause target }
{
    match target {
        Target::NoRoute | Target::Dropped(_) | Target::LinkDown(_) => true,
        Target::Local | Target::Exit(_) | Target::OnLink(_) | Target::To(_, _) => false,
    }
}

/// Whether a walk's end is of a cause.
fn is_end_by(cause: Target, end: PathEnd) -> bool
    ensures { result ≡ ends_by cause end }
{
    match end {
        PathEnd::At(target) => is_a_cause(target) && rank_of(target) == rank_of(cause),
        PathEnd::Loop => false,
    }
}

/// Whether the walk of an address comes from a router to another.
fn comes_to(
    alloc: Global,
    net: &Network,
    first: RouterId,
    to: RouterId,
    a: u32,
) -> Result<bool, OutOfMemory>
    ensures { IfOk result (λ comes.
        comes ≡ reaches (routers_in net.now) (does_in net.now) first to a) }
{
    let (routers, _end) = net.walk(alloc, first, a)?;
    Ok(is_among(routers.as_slice(), to))
}

/// Whether the walk of an address comes from a router to another without having met the waypoint.
fn misses_waypoint(
    alloc: Global,
    net: &Network,
    routers: (RouterId, RouterId, RouterId),
    a: u32,
) -> Result<bool, OutOfMemory>
    ensures { IfOk result (λ comes.
        comes ≡ misses (routers_in net.now) (does_in net.now) routers.0 routers.1 routers.2 a) }
{
    let (first, to, through) = routers;
    let (routers, _end) = net.walk(alloc, first, a)?;
    Ok(is_before_waypoint(routers.as_slice(), to, through))
}

/// The last of these routers.
pub(crate) fn last_of(routers: &[RouterId]) -> Option<RouterId>
    ensures { result ≡ slice_get routers.now (length routers.now - 1) }
{
    routers.last().copied()
}

/// Whether a walk that ends at a router so ends at `last` by the cause.
fn is_fall(router: RouterId, end: PathEnd, last: RouterId, cause: Target) -> bool
    ensures { result ≡ (is_router last router && ends_by cause end) }
{
    router.0 == last.0 && is_end_by(cause, end)
}

/// Whether the walk of an address from a router ends at the last router by the cause.
fn falls_at(
    alloc: Global,
    net: &Network,
    hole: (RouterId, RouterId, Target),
    a: u32,
) -> Result<bool, OutOfMemory>
    ensures { IfOk result (λ is.
        is ≡ falls (routers_in net.now) (does_in net.now) hole.0 hole.1 hole.2 a) }
{
    let (first, last, cause) = hole;
    let (routers, end) = net.walk(alloc, first, a)?;
    match last_of(routers.as_slice()) {
        Some(router) => Ok(is_fall(router, end, last, cause)),
        None => Ok(false),
    }
}

/// Whether an address passes a test.
pub(crate) fn is_passed(
    alloc: Global,
    net: &Network,
    test: &Test,
    a: u32,
) -> Result<bool, OutOfMemory>
    ensures { IfOk result (λ is. is ≡ passes (routers_in net.now) (does_in net.now) test.now a) }
{
    match test {
        Test::Reaches(first, to) => comes_to(alloc, net, *first, *to, a),
        Test::Misses(first, to, through) => misses_waypoint(alloc, net, (*first, *to, *through), a),
        Test::GoesOver(router, link) => Ok(is_sent_over(*link, net.target(*router, a))),
        Test::Falls(first, last, cause) => falls_at(alloc, net, (*first, *last, *cause), a),
        Test::GoesRound(routers) => Ok(is_cycle_of(net, routers.as_slice(), a)),
    }
}
