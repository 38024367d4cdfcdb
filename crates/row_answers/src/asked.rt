//! Each kind of query, by a view of which the topology has the routers.

ghost use Rattle.std.specs.Prelude.{◌≡◌, ◌+◌, ◌*◌, ◌≤◌, [], IfOk, IsSome, None, length};
ghost use Rattle.dn_model.specs.Answer.{IsAnswerOf};
ghost use Rattle.base.specs.Forwarding.{does};
ghost use Rattle.dn_model.specs.Lookup.{link_of, router_of};
ghost use Rattle.dn_model.specs.Query.{unknown_of};
ghost use Rattle.dn_model.specs.declared.query.Ask.TheVariants.{Path, Reach, Uses, Loops, Blackholes, Waypoint};
ghost use Rattle.row_answers.specs.Looks.{most_looks};
ghost use Rattle.row_answers.specs.Shown.{IsShown};

use crate::named::{known_link, known_router, link_at};
use dn_model::{Answer, Ask, Change, List, Name, OutOfMemory, Query, Topology};
use label_view::LabelView;
use std::alloc::Global;
use std::sync::ledger::Ledger;
use step_count::Steps;

/// The walk of an address from a router.
fn path<V: LabelView, L: Ledger>(
    alloc: Global,
    topology: &Topology,
    view: &V,
    name: &Name,
    address: u32,
    steps: &mut Steps<L>,
) -> Result<Answer, OutOfMemory>
    requires name { IsSome (router_of topology.now name.now) }
    requires wide { V.width view.now ≡ length topology.now.routers }
    ensures answer { IfOk result (IsShown topology.now (does (V.rows view.now)) [] (Path name.now address)) }
    ensures cost { steps.new ≤ steps.old + V.width view.now }
{
    let first = known_router(topology, name);
    let (hops, end) = walk_check::path(alloc, view, first, address, steps)?;
    Ok(Answer::Path { hops, end })
}

/// The addresses whose walk from a router comes to another.
fn reach<V: LabelView, L: Ledger>(
    alloc: Global,
    topology: &Topology,
    view: &V,
    from: &Name,
    to: &Name,
    steps: &mut Steps<L>,
) -> Result<Answer, OutOfMemory>
    requires from { IsSome (router_of topology.now from.now) }
    requires to { IsSome (router_of topology.now to.now) }
    requires wide { V.width view.now ≡ length topology.now.routers }
    ensures answer { IfOk result (IsAnswerOf topology.now (does (V.rows view.now)) (Reach from.now to.now)) }
    ensures cost { steps.new ≤ steps.old + length (V.rows view.now) * V.width view.now }
{
    let first = known_router(topology, from);
    let last = known_router(topology, to);
    let runs = walk_check::reach(alloc, view, first, last, steps)?;
    Ok(Answer::Runs(runs))
}

/// The addresses that each end of a link sends over it. Its ends are two routers, and of each row only these are looked
/// at.
fn uses<V: LabelView, L: Ledger>(
    alloc: Global,
    topology: &Topology,
    view: &V,
    name: &Name,
    steps: &mut Steps<L>,
) -> Result<Answer, OutOfMemory>
    requires name { IsSome (link_of topology.now name.now) }
    requires wide { V.width view.now ≡ length topology.now.routers }
    ensures answer { IfOk result (IsAnswerOf topology.now (does (V.rows view.now)) (Uses name.now)) }
    ensures cost { steps.new ≤ steps.old + length (V.rows view.now) * V.width view.now }
{
    let over = known_link(topology, name);
    let link = link_at(topology, over);
    let (end1, end2) = (link.first.router, link.second.router);
    let (first, second) = walk_check::uses(alloc, view, end1, end2, over, steps)?;
    Ok(Answer::Uses(first, second))
}

/// The addresses whose walk from a router comes to another without having met the waypoint.
fn waypoint<V: LabelView, L: Ledger>(
    alloc: Global,
    topology: &Topology,
    view: &V,
    from: &Name,
    to: &Name,
    through: &Name,
    steps: &mut Steps<L>,
) -> Result<Answer, OutOfMemory>
    requires from { IsSome (router_of topology.now from.now) }
    requires to { IsSome (router_of topology.now to.now) }
    requires through { IsSome (router_of topology.now through.now) }
    requires wide { V.width view.now ≡ length topology.now.routers }
    ensures answer { IfOk result
        (IsAnswerOf topology.now (does (V.rows view.now)) (Waypoint from.now to.now through.now)) }
    ensures cost { steps.new ≤ steps.old + length (V.rows view.now) * V.width view.now }
{
    let first = known_router(topology, from);
    let last = known_router(topology, to);
    let by = known_router(topology, through);
    let runs = waypoint::waypoint(alloc, view, first, last, by, steps)?;
    Ok(Answer::Runs(runs))
}

/// The addresses whose walk from a router ends without a way on, by last router and cause.
fn holes<V: LabelView, L: Ledger>(
    alloc: Global,
    topology: &Topology,
    view: &V,
    name: &Name,
    steps: &mut Steps<L>,
) -> Result<Answer, OutOfMemory>
    requires name { IsSome (router_of topology.now name.now) }
    requires wide { V.width view.now ≡ length topology.now.routers }
    ensures answer { IfOk result (IsAnswerOf topology.now (does (V.rows view.now)) (Blackholes name.now)) }
    ensures cost { steps.new ≤ steps.old + length (V.rows view.now) * V.width view.now }
{
    let first = known_router(topology, name);
    let holes = blackhole::blackholes(alloc, view, first, steps)?;
    Ok(Answer::Holes(holes))
}

/// The answer to a query whose names the topology has, by what a view shows; no link is taken as down for it. For
/// `Ask::Delta` it is the changes that are given, and nothing is looked at.
pub fn shown<V: LabelView, L: Ledger>(
    alloc: Global,
    topology: &Topology,
    view: &V,
    changes: &[Change],
    query: &Query,
    steps: &mut Steps<L>,
) -> Result<Answer, OutOfMemory>
    requires known { unknown_of topology.now query.now ≡ None }
    requires wide { V.width view.now ≡ length topology.now.routers }
    ensures answer { IfOk result (IsShown topology.now (does (V.rows view.now)) changes.now query.now.ask) }
    ensures cost { steps.new ≤ steps.old + most_looks query.now.ask (length (V.rows view.now)) (V.width view.now) }
{
    match query.ask() {
        Ask::Path(name, address) => path(alloc, topology, view, name, *address, steps),
        Ask::Reach(from, to) => reach(alloc, topology, view, from, to, steps),
        Ask::Uses(name) => uses(alloc, topology, view, name, steps),
        Ask::Loops => Ok(Answer::Loops(loop_check::loops(alloc, view, steps)?)),
        Ask::Blackholes(name) => holes(alloc, topology, view, name, steps),
        Ask::Waypoint(from, to, through) => waypoint(
            alloc, topology, view, from, to, through, steps,
        ),
        Ask::Delta => Ok(Answer::Delta(List::from_vec(Vec::from_slice(alloc, changes)?))),
    }
}
