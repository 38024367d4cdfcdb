//! The update that a route's message in a device's feed is.

ghost use Rattle.std.specs.Prelude.{◌≡◌, IfSome, unwrap_or};
ghost use Rattle.dn_model.specs.Entry.{IsTargetOf};
ghost use Rattle.dn_model.specs.Lookup.{IsPortWithin};
ghost use Rattle.feed_model.specs.Message.{target_at, set_op_of, set_op_by, op_of};
ghost use Rattle.dn_model.specs.declared.topology.Topology.{Topology as TopologyIs};
ghost use Rattle.route_feed.specs.FeedReader.{IsFeedOp};

use crate::port_hints::{PortHints, port_hinted};
use dn_model::{DropKind, Op, Port, RouterId, Target, Topology};
use feed_model::{RawRoute, RouteKind};

/// What a unicast route does at a port, which is the device's interface of this number.
fn target_at(port: Port, via: bool, index: u32) -> Target
    ensures value { result ≡ target_at port via index }
    ensures within { (t : TopologyIs) → IsPortWithin t port → IsTargetOf t result }
{
    match port {
        Port::Link {
            far,
            link,
            unnumbered,
        } => {
            if via || unnumbered {
                Target::To(far, link)
            } else {
                Target::OnLink(index)
            }
        }
        Port::Edge => {
            if via {
                Target::Exit(index)
            } else {
                Target::OnLink(index)
            }
        }
    }
}

/// The update that sets the route of a message to this target. Without a metric it is 0.
fn set(raw: &RawRoute, target: Target) -> Op
    ensures { result ≡ Op.Set raw.now.prefix (unwrap_or raw.now.metric 0) target }
{
    Op::Set {
        prefix: raw.prefix,
        metric: raw.metric.unwrap_or(0),
        target,
    }
}

/// The update that a message to set a unicast route is, where its interface is the device's.
fn set_unicast(
    topology: &Topology,
    router: RouterId,
    raw: &RawRoute,
    hints: &mut PortHints,
) -> Option<Op>
    ensures value { result ≡ set_op_of topology.now router raw.now.prefix raw.now.metric raw.now.via raw.now.oif }
    ensures within { IfSome result (IsFeedOp topology.now) }
{
    let index = raw.oif?;
    let at = port_hinted(topology, router, index, hints)?;
    Some(set(raw, target_at(at, raw.via, index)))
}

/// The update that a message to set a route is, by its type.
fn set_by_kind(
    topology: &Topology,
    router: RouterId,
    raw: &RawRoute,
    hints: &mut PortHints,
) -> Option<Op>
    ensures value { result ≡ set_op_by topology.now router raw.now.kind raw.now.prefix raw.now.metric raw.now.via raw.now.oif }
    ensures within { IfSome result (IsFeedOp topology.now) }
{
    match raw.kind {
        RouteKind::Unicast => set_unicast(topology, router, raw, hints),
        RouteKind::Local => Some(set(raw, Target::Local)),
        RouteKind::Blackhole => Some(set(raw, Target::Dropped(DropKind::Blackhole))),
        RouteKind::Unreachable => Some(set(raw, Target::Dropped(DropKind::Unreachable))),
        RouteKind::Prohibit => Some(set(raw, Target::Dropped(DropKind::Prohibit))),
    }
}

/// The update that a route's message is, and None exactly where it is a unicast route to be set whose interface isn't
/// the device's.
pub fn op_of(
    topology: &Topology,
    router: RouterId,
    raw: &RawRoute,
    hints: &mut PortHints,
) -> Option<Op>
    ensures value { result ≡ op_of topology.now router raw.now }
    ensures within { IfSome result (IsFeedOp topology.now) }
{
    if raw.del {
        Some(Op::Clear {
            prefix: raw.prefix,
            metric: raw.metric,
        })
    } else {
        set_by_kind(topology, router, raw, hints)
    }
}
