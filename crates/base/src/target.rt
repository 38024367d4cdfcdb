//! What a router does with an address.

use crate::ids::{LinkId, RouterId};

/// Why a route drops its packets: the route types of rtnetlink(7) that discard.
#[derive(Clone, Copy, Debug, PartialEq, Eq, PartialOrd, Ord)]
pub enum DropKind {
    /// Dropped in silence (RTN_BLACKHOLE).
    Blackhole,
    /// Dropped, and the sender is told that the address is unreachable (RTN_UNREACHABLE).
    Unreachable,
    /// Dropped, and the sender is told that it is prohibited (RTN_PROHIBIT).
    Prohibit,
}

/// What a router does with an address. Targets are ordered by kind, then by what they name: among the causes of black
/// holes this is the order in which they are told.
#[derive(Clone, Copy, Debug, PartialEq, Eq, PartialOrd, Ord)]
pub enum Target {
    /// No route covers the address, or its route is by a next-hop object that isn't there.
    NoRoute,
    /// A route drops it.
    Dropped(DropKind),
    /// It is the router's own (RTN_LOCAL).
    Local,
    /// It leaves the network by the edge at this interface of the router's device.
    Exit(u32),
    /// It is on the segment at this interface of the router's device, with no further router named.
    OnLink(u32),
    /// It goes to this router over this link.
    To(RouterId, LinkId),
    /// It would go over this link, which is down or taken as down.
    LinkDown(LinkId),
}
