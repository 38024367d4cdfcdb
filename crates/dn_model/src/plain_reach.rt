//! The plain evaluator of the queries that ask for runs of addresses: `reach`, `uses` and `waypoint`.

ghost use Rattle.std.specs.Prelude.{◌≡◌, ◌<◌, IfOk, IsSome, Some, length};
ghost use Rattle.dn_model.specs.Answer.{IsAnswerOf};
ghost use Rattle.dn_model.specs.Lookup.{router_of, link_of};
ghost use Rattle.dn_model.specs.Network.{does_in, routers_in};
ghost use Rattle.dn_model.specs.declared.query.Ask.TheVariants.{Reach, Uses, Waypoint};

use crate::answer::Answer;
use crate::lookup::{link, router};
use crate::network::Network;
use crate::plain_runs::plain_runs;
use crate::plain_test::Test;
use crate::topology::Topology;
use base::{LinkId, Name, OutOfMemory, RouterId};
use std::alloc::Global;

/// The router of a name that the topology has.
pub(crate) fn known_router(t: &Topology, name: &Name) -> RouterId
    requires { IsSome (router_of t.now name.now) }
    ensures { router_of t.now name.now ≡ Some result }
{
    let Some(known) = router(t, name) else {
        unreachable!()
    };
    known
}

/// The link of a name that the topology has.
fn known_link(t: &Topology, name: &Name) -> LinkId
    requires { IsSome (link_of t.now name.now) }
    ensures value { link_of t.now name.now ≡ Some result }
    ensures within { result.0 < length t.now.links }
{
    let Some(known) = link(t, name) else {
        unreachable!()
    };
    known
}

/// The runs of the addresses whose walk from a router comes to another.
pub(crate) fn plain_reach(
    alloc: Global,
    t: &Topology,
    net: &Network,
    from: &Name,
    to: &Name,
) -> Result<Answer, OutOfMemory>
    requires count { routers_in net.now ≡ length t.now.routers }
    requires from { IsSome (router_of t.now from.now) }
    requires to { IsSome (router_of t.now to.now) }
    ensures { IfOk result (λ answer.
        IsAnswerOf t.now (does_in net.now) (Reach from.now to.now) answer) }
{
    let test = Test::Reaches(known_router(t, from), known_router(t, to));
    let runs = plain_runs(alloc, net, &test)?;
    Ok(Answer::Runs(runs))
}

/// The runs of the addresses that each end of a link sends over it.
pub(crate) fn plain_uses(
    alloc: Global,
    t: &Topology,
    net: &Network,
    name: &Name,
) -> Result<Answer, OutOfMemory>
    requires name { IsSome (link_of t.now name.now) }
    ensures { IfOk result (λ answer. IsAnswerOf t.now (does_in net.now) (Uses name.now) answer) }
{
    let over = known_link(t, name);
    let link = &t.links.as_slice()[over.0 as usize];
    let test = Test::GoesOver(link.first.router, over);
    let first = plain_runs(alloc, net, &test)?;
    let test = Test::GoesOver(link.second.router, over);
    let second = plain_runs(alloc, net, &test)?;
    Ok(Answer::Uses(first, second))
}

/// The runs of the addresses whose walk from a router comes to another without having met the waypoint.
pub(crate) fn plain_waypoint(
    alloc: Global,
    t: &Topology,
    net: &Network,
    from: &Name,
    to: &Name,
    through: &Name,
) -> Result<Answer, OutOfMemory>
    requires count { routers_in net.now ≡ length t.now.routers }
    requires from { IsSome (router_of t.now from.now) }
    requires to { IsSome (router_of t.now to.now) }
    requires through { IsSome (router_of t.now through.now) }
    ensures { IfOk result (λ answer.
        IsAnswerOf t.now (does_in net.now) (Waypoint from.now to.now through.now) answer) }
{
    let test = Test::Misses(
        known_router(t, from),
        known_router(t, to),
        known_router(t, through),
    );
    let runs = plain_runs(alloc, net, &test)?;
    Ok(Answer::Runs(runs))
}
