//! What must always hold of a network.

use base::{Prefix, RouterId};

/// A rule that each moment of a history is judged by. Which addresses violate it stands at each.
#[derive(Clone, Copy, Debug, PartialEq, Eq)]
pub enum Policy {
    /// Those that go round a cycle of routers.
    NeverLoops,
    /// Those of the prefix that don't come from `first` to `to`; where these are one router, each comes to it.
    AlwaysReach {
        first: RouterId,
        to: RouterId,
        prefix: Prefix,
    },
    /// Those of the prefix that come from `first` to `to`.
    NeverReach {
        first: RouterId,
        to: RouterId,
        prefix: Prefix,
    },
    /// Those of the prefix that come from `first` to `to` without having met `through` before.
    AlwaysWaypoint {
        first: RouterId,
        to: RouterId,
        through: RouterId,
        prefix: Prefix,
    },
    /// Those of the prefix whose walk from `first` ends without a way on: no route, dropped, or a link that is down. One
    /// that loops doesn't.
    NeverBlackholes {
        first: RouterId,
        prefix: Prefix,
    },
}
