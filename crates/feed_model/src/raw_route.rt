//! Routes as rtnetlink messages carry them.

use dn_model::Prefix;

/// The number of the main routing table (RT_TABLE_MAIN).
pub const MAIN_TABLE: u32 = 254;

/// The type of a route in rtnetlink(7).
#[derive(Clone, Copy, Debug, PartialEq, Eq)]
pub enum RouteKind {
    /// A gateway or a direct route (RTN_UNICAST, 1).
    Unicast,
    /// The router's own address (RTN_LOCAL, 2).
    Local,
    /// Dropped in silence (RTN_BLACKHOLE, 6).
    Blackhole,
    /// Dropped, and the sender is told that the address is unreachable (RTN_UNREACHABLE, 7).
    Unreachable,
    /// Dropped, and the sender is told that it is prohibited (RTN_PROHIBIT, 8).
    Prohibit,
}

/// What a route message says: RTM_DELROUTE where `del`, else RTM_NEWROUTE. `table` is the routing table's number, from
/// 1 on. `metric` is its RTA_PRIORITY and `oif` the interface number of its RTA_OIF, each where the message has one;
/// `via` says that it names a gateway. `by` is the id of the next-hop object that stands in place of gateway and
/// interface (RTA_NH_ID): it is None in what a payload says, as routes by an object are refused.
#[derive(Clone, Copy, Debug, PartialEq, Eq)]
pub struct RawRoute {
    pub del: bool,
    pub prefix: Prefix,
    pub table: u32,
    pub metric: Option<u32>,
    pub kind: RouteKind,
    pub via: bool,
    pub oif: Option<u32>,
    pub by: Option<u32>,
}
