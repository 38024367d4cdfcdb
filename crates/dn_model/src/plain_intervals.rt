//! The elementary intervals of addresses between the ends of all routers' prefixes: on one of them each router does
//! the same with all addresses.

ghost use Rattle.std.specs.Prelude.{◌<◌};
ghost use Rattle.base.specs.RunsFrom.{DoAlike};
ghost use Rattle.dn_model.specs.Network.{does_in};

use crate::network::Network;
use crate::plain_delta::last_end;

/// The last end below `past` of the prefixes of all routers' routes, or 0: where the elementary interval begins that
/// ends at `past`.
pub(crate) fn interval_below(net: &Network, past: u64) -> u64
    requires { 0 < past }
    ensures lower { result < past }
    ensures alike { DoAlike (does_in net.now) result past }
{
    let mut low = 0;
    for moment in net.routers.as_slice() {
        low = last_end(moment.routes.as_slice(), low, past);
    }
    low
}
