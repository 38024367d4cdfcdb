//! Entries that are drawn.

ghost use Rattle.std.specs.Prelude.{◌<◌, IfSome, length};
ghost use Rattle.dn_model.specs.Entry.{IsEntryOf, IsOpOf, IsTargetOf};
ghost use Rattle.net_engine.specs.Followed.{IsFollowed, IsFollowedOp};

use crate::draw::{Draw, Spot, drawn_prefix};
use dn_model::{DropKind, Entry, LinkId, Op, Port, Prefix, RouterId, Target, Topology, port};

/// What a route through a router's interface does: over a link to the far router, out of the network at an edge, or, at
/// an interface that the topology doesn't have, to its segment.
fn through(topology: &Topology, router: RouterId, index: u32) -> Target
    ensures { IsTargetOf topology.now result }
{
    match port(topology, router, index) {
        Some(Port::Link { far, link, .. }) => Target::To(far, link),
        Some(Port::Edge) => Target::Exit(index),
        None => Target::OnLink(index),
    }
}

/// What a route of a router does; most lead on over a link, the ways round and back alike.
fn drawn_target(topology: &Topology, router: RouterId, draw: &mut Draw) -> Target
    ensures { IsTargetOf topology.now result }
{
    match draw.below(16) {
        0 => Target::Local,
        1 => Target::OnLink(2),
        2 => Target::Dropped(DropKind::Blackhole),
        3 => Target::Dropped(DropKind::Unreachable),
        4 => Target::Dropped(DropKind::Prohibit),
        5 => through(topology, router, 1),
        drawn => through(topology, router, 2 + drawn % 4),
    }
}

/// What an update of a router does to the routes of a prefix: of six, four set one, one clears all, and one clears that
/// of a metric.
fn drawn_op(topology: &Topology, router: RouterId, prefix: Prefix, draw: &mut Draw) -> Op
    ensures own { IsOpOf topology.now router result }
    ensures followed { IsFollowedOp result }
{
    let metric = 10 * draw.below(3);
    match draw.below(6) {
        0 => Op::Clear {
            prefix,
            metric: None,
        },
        1 => Op::Clear {
            prefix,
            metric: Some(metric),
        },
        _ => Op::Set {
            prefix,
            metric,
            target: drawn_target(topology, router, draw),
        },
    }
}

/// One of the topology's links goes down or comes up, each equally often; None where it has none.
fn drawn_link(topology: &Topology, draw: &mut Draw) -> Option<Entry>
    ensures own { IfSome result (IsEntryOf topology.now) }
    ensures followed { IfSome result IsFollowed }
{
    let count = topology.links.len().min(4_096) as u32;
    if count == 0 {
        return None;
    }
    Some(Entry::Link {
        job: 1,
        link: LinkId(draw.below(count) as u16),
        down: draw.below(2) == 0,
    })
}

/// An update of one of the topology's routers.
fn drawn_update(topology: &Topology, spot: &Spot, draw: &mut Draw) -> Entry
    requires { 0 < length topology.now.routers }
    ensures own { IsEntryOf topology.now result }
    ensures followed { IsFollowed result }
{
    let router = RouterId(draw.below(topology.router_count()) as u16);
    let prefix = drawn_prefix(spot, draw);
    Entry::Route {
        router,
        feed_no: 1,
        op: drawn_op(topology, router, prefix, draw),
    }
}

/// Whether the next entry is one of a link.
fn is_of_link(spot: &Spot, draw: &mut Draw) -> bool {
    spot.links > 0 && draw.below(spot.links) == 0
}

/// An update of one of the topology's routers, or a link of it that goes down or comes up.
pub fn drawn_entry(topology: &Topology, spot: &Spot, draw: &mut Draw) -> Entry
    requires { 0 < length topology.now.routers }
    ensures own { IsEntryOf topology.now result }
    ensures followed { IsFollowed result }
{
    if is_of_link(spot, draw) {
        if let Some(entry) = drawn_link(topology, draw) {
            return entry;
        }
    }
    drawn_update(topology, spot, draw)
}
