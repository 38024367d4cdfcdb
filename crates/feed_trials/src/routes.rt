//! Routes for tests, and a frame of them.

ghost use Rattle.std.specs.Prelude.{◌<◌};
ghost use Rattle.feed_model.specs.Payload.{CanBeSaid};

use dn_model::Prefix;
use fpm_frame::write_frame;
use rt_netlink::{MAIN_TABLE, RawRoute, RouteKind, write_route};
use std::alloc::Global;
use std::process::Abort;

/// 10.0.0.0/8 by a gateway over this interface, in the main table.
pub fn ten(interface: u32) -> RawRoute
    ensures { CanBeSaid result }
{
    ten_in(MAIN_TABLE, interface)
}

/// 10.0.0.0/8 by a gateway over this interface, in this table.
pub fn ten_in(table: u32, interface: u32) -> RawRoute
    requires { 0 < table }
    ensures { CanBeSaid result }
{
    RawRoute {
        del: false,
        prefix: Prefix::new(0x0a00_0000, 8),
        table,
        metric: Some(20),
        kind: RouteKind::Unicast,
        via: true,
        oif: Some(interface),
        by: None,
    }
}

/// 10.0.0.0/8 with metric 20 is deleted from this table.
fn no_ten_in(table: u32) -> RawRoute
    requires { 0 < table }
    ensures { CanBeSaid result }
{
    RawRoute {
        del: true,
        prefix: Prefix::new(0x0a00_0000, 8),
        table,
        metric: Some(20),
        kind: RouteKind::Unicast,
        via: false,
        oif: None,
        by: None,
    }
}

/// What a frame says of 10.0.0.0/8 with metric 20 in a table: it goes by a gateway over this interface, or it is
/// deleted.
pub type Said = (u32, Option<u32>);

/// The message that says this.
fn message_of(rt: &impl Abort, alloc: Global, said: Said) -> Vec<u8> {
    let (table, interface) = said;
    assert!(rt; 0 < table);
    let route = match interface {
        Some(interface) => ten_in(table, interface),
        None => no_ten_in(table),
    };
    write_route(alloc, &route).expect(rt, "memory")
}

/// A frame that says these, in order.
pub fn frame_of(rt: &impl Abort, alloc: Global, routes: &[Said]) -> Vec<u8> {
    let mut payload = Vec::new(alloc);
    for said in routes {
        let message = message_of(rt, alloc, *said);
        payload
            .extend_from_slice(message.as_slice())
            .expect(rt, "memory");
    }
    assert!(rt; payload.len() <= 65_531);
    write_frame(alloc, 1, payload.as_slice()).expect(rt, "memory")
}
