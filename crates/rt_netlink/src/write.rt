//! The message of a route.

ghost use Rattle.std.specs.Prelude.{◌≡◌, ◌+◌, ◌<◌, ◌≤◌, ◌++◌, ◌∷◌, ℕ, List, [], None, true, length, IfOk, OnOk};
ghost use Rattle.feed_model.specs.Message.{message_text, header_text, route_part, attribute, destination_text, gateway_text, number_text, attributes_text, kind_number, narrow_table, wide_table};
ghost use Rattle.feed_model.specs.Payload.{IsPayload, CanBeSaid, is_read};
ghost use Rattle.feed_model.specs.declared.payload.ItemKind.TheVariants.{Route};

use crate::numbers::{address_bytes, number_bytes};
use dn_model::{OutOfMemory, Prefix};
use feed_model::{RawRoute, RouteKind};
use std::alloc::Global;

/// RTA_DST: the first address of the prefix.
const DESTINATION: u8 = 1;
/// RTA_OIF: the interface's number.
const INTERFACE: u8 = 4;
/// RTA_GATEWAY: the next router's address, of which the presence alone counts.
const GATEWAY: u8 = 5;
/// RTA_PRIORITY: the metric.
const PRIORITY: u8 = 6;
/// RTA_TABLE: the table, where it doesn't fit a byte.
const TABLE: u8 = 15;

/// The address that is written as a gateway's: 192.0.2.1, which is set aside for documentation (RFC 5737).
const GATEWAY_ADDRESS: [u8; 4] = [192, 0, 2, 1];

/// struct nlmsghdr of a message of `len` bytes.
fn header(del: bool, len: u32) -> [u8; 16]
    ensures { result ≡ header_text del len }
{
    let [a, b, c, d] = number_bytes(len);
    if del {
        [a, b, c, d, 25, 0, 1, 0, 0, 0, 0, 0, 0, 0, 0, 0]
    } else {
        [a, b, c, d, 24, 0, 1, 5, 0, 0, 0, 0, 0, 0, 0, 0]
    }
}

/// The number of a route's type.
fn number_of(kind: RouteKind) -> u8
    ensures { result ≡ kind_number kind }
{
    match kind {
        RouteKind::Unicast => 1,
        RouteKind::Local => 2,
        RouteKind::Blackhole => 6,
        RouteKind::Unreachable => 7,
        RouteKind::Prohibit => 8,
    }
}

/// A table's number where it fits a byte, else 0.
fn narrow_table(table: u32) -> u8
    ensures { result ≡ narrow_table table }
{
    if table > 255 { 0 } else { table as u8 }
}

/// A table's number where it doesn't fit a byte.
fn wide_table(table: u32) -> Option<u32>
    ensures { result ≡ wide_table table }
{
    if table > 255 { Some(table) } else { None }
}

/// struct rtmsg of a route to a prefix of this length in this table.
fn route_bytes(len: u8, table: u32, kind: RouteKind) -> [u8; 12]
    ensures { result ≡ route_part len table (kind_number kind) }
{
    let table = narrow_table(table);
    [2, len, 0, 0, table, 11, 0, number_of(kind), 0, 0, 0, 0]
}

/// struct rtattr of this type with four bytes of payload.
fn attribute_bytes(kind: u8, payload: [u8; 4]) -> [u8; 8]
    ensures { result ≡ attribute kind payload }
{
    let [a, b, c, d] = payload;
    [8, 0, kind, 0, a, b, c, d]
}

/// How many bytes the attribute of a number takes, where there is one.
fn number_len(number: Option<u32>) -> u32
    ensures value { (kind : ℕ) → result ≡ length (number_text kind number) }
    ensures few { result ≤ 8 }
{
    if number.is_some() { 8 } else { 0 }
}

/// How many bytes the attributes of a route's message take.
fn attributes_len(route: &RawRoute) -> u32
    ensures value { result ≡ length (attributes_text route.now) }
    ensures few { result < 64 }
{
    let destination = if route.prefix.len() == 0 { 0 } else { 8 };
    let gateway = if route.via { 8 } else { 0 };
    let next_hop = destination + gateway + number_len(route.oif);
    next_hop + number_len(route.metric) + number_len(wide_table(route.table))
}

/// Writes a route's prefix, where its length isn't 0.
fn push_destination(out: &mut Vec<u8>, prefix: Prefix) -> Result<(), OutOfMemory>
    ensures { OnOk result (out.new.items ≡ out.old.items ++ destination_text prefix) }
{
    if prefix.len() != 0 {
        out.extend_from_slice(&attribute_bytes(DESTINATION, address_bytes(prefix.base())))?;
    }
    Ok(())
}

/// Writes a gateway, where one is named.
fn push_gateway(out: &mut Vec<u8>, via: bool) -> Result<(), OutOfMemory>
    ensures { OnOk result (out.new.items ≡ out.old.items ++ gateway_text via) }
{
    if via {
        out.extend_from_slice(&attribute_bytes(GATEWAY, GATEWAY_ADDRESS))?;
    }
    Ok(())
}

/// Writes a number as an attribute of this type, where there is one.
fn push_number(out: &mut Vec<u8>, kind: u8, number: Option<u32>) -> Result<(), OutOfMemory>
    ensures { OnOk result (out.new.items ≡ out.old.items ++ number_text kind number) }
{
    if let Some(n) = number {
        out.extend_from_slice(&attribute_bytes(kind, number_bytes(n)))?;
    }
    Ok(())
}

/// Writes the attributes of a route's message.
fn push_attributes(out: &mut Vec<u8>, route: &RawRoute) -> Result<(), OutOfMemory>
    ensures { OnOk result (out.new.items ≡ out.old.items ++ attributes_text route.now) }
{
    push_destination(out, route.prefix)?;
    push_gateway(out, route.via)?;
    push_number(out, INTERFACE, route.oif)?;
    push_number(out, PRIORITY, route.metric)?;
    push_number(out, TABLE, wide_table(route.table))
}

/// The message of a route, as FRR's forwarding plane manager module would send it: a payload of this one message says
/// this one route, where its table (1 to 2^32 - 1) is read. A route to delete is unicast, and has neither gateway nor
/// interface; one to set has a metric, and an interface if it is unicast. A table above 255 stands in an attribute,
/// after all others.
///
/// Source: rtnetlink(7), netlink(7), linux/rtnetlink.h.
///
/// # Errors
///
/// `OutOfMemory` where there is no memory for the message.
pub fn write_route(alloc: Global, route: &RawRoute) -> Result<Vec<u8>, OutOfMemory>
    requires sayable { CanBeSaid route.now }
    ensures text { IfOk result (λ message. message.items ≡ message_text route.now) }
    ensures says { IfOk result (λ message. (tables : List ℕ) → is_read tables route.now.table ≡ true
        → IsPayload tables message.items (record {
          items = record { at = 0; what = Route route.now } ∷ [];
          refused = None;
        })) }
{
    let mut message = Vec::new(alloc);
    message.extend_from_slice(&header(route.del, 28 + attributes_len(route)))?;
    message.extend_from_slice(&route_bytes(route.prefix.len(), route.table, route.kind))?;
    push_attributes(&mut message, route)?;
    Ok(message)
}
