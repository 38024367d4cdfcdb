//! Updates of one router's routes.

ghost use Rattle.std.specs.Prelude.{◌≡◌};
ghost use Rattle.net_engine.specs.Followed.{IsFollowedOp};
ghost use Rattle.net_engine.specs.Updates.{IsUpdateOf};

use dn_model::{Op, RouterId, TableOp, Topology, Way, replaces_prefix};
use route_table::TableUpdate;

/// An update of one router's routes, at one prefix.
#[derive(Clone, Copy, Debug, PartialEq, Eq)]
pub struct Update {
    pub router: RouterId,
    pub table: TableUpdate,
}

/// What an update of a router does to its routes.
pub fn update_of(topology: &Topology, router: RouterId, op: Op) -> Update
    requires { IsFollowedOp op }
    ensures { IsUpdateOf topology.now router op result }
{
    let alone = replaces_prefix(topology, router);
    let op = match op {
        Op::Set {
            prefix,
            metric,
            target,
        } => TableOp::Put {
            prefix,
            metric,
            way: Way::Straight(target),
        },
        Op::Clear { prefix, metric } => TableOp::Clear { prefix, metric },
        _ => unreachable!(),
    };
    Update {
        router,
        table: TableUpdate { op, alone },
    }
}
