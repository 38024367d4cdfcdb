//! A message of a route: struct rtmsg and the attributes after struct nlmsghdr.
//!
//! The functions are given the bytes from where the message begins to the payload's end.

ghost use Rattle.std.specs.Prelude.{◌≡◌, ◌≤◌, ◌^◌, ◌-◌, ◌%◌, ◌==◌, ◌++◌, length, not, true, false, None, Some, IfOk, IsSome};
ghost use Rattle.base.specs.Cidr.{IsCidr};
ghost use Rattle.feed_model.specs.Payload.{CanBeSaid, IsTable, is_set, is_read, table_of, kind_of, attributes, prefix_of, route_set, route_of, part_rows, prefix_rows, hop_rows, route_rows};
ghost use Rattle.feed_model.specs.declared.raw_route.RouteKind.TheVariants.{Unicast};
ghost use Rattle.rt_netlink.specs.Gathered.{Keeps, KeepsAll};
ghost use Rattle.rt_netlink.specs.Ruled.{Rules};
ghost use Rattle.rt_netlink.specs.Read.{IsWhole};

use crate::attributes::{RouteAttributes, read_attributes};
use crate::ruling::Ruling;
use dn_model::Prefix;
use feed_model::frame_cause::{
    BAD_ATTR, BAD_PREFIX_LENGTH, ENCAP, HOST_BITS, MULTIPATH, NEXT_HOP_ID, NO_DESTINATION,
    NO_INTERFACE, ROUTE_TYPE, SHORT, SOURCE_OR_TOS,
};
use feed_model::{MAIN_TABLE, RawRoute, RouteKind, Skip};

/// How long struct nlmsghdr is with struct rtmsg after it.
const ROUTE_LENGTH: usize = 28;

/// The route's family.
const FAMILY: usize = 16;
/// The length of its prefix.
const PREFIX_LENGTH: usize = 17;
/// The length of the source's prefix.
const SOURCE_LENGTH: usize = 18;
/// The type of service.
const SERVICE_TYPE: usize = 19;
/// The table, where it fits a byte.
const TABLE: usize = 20;
/// The route's type.
const ROUTE_KIND: usize = 23;

/// IPv4.
const AF_INET: u8 = 2;
/// No table is said.
const RT_TABLE_UNSPEC: u32 = 0;

/// Whether the routes of a table are read: those of the main one, and of these.
fn is_read(tables: &[u32], table: u32) -> bool
    ensures { result ≡ is_read tables.now table }
{
    table == MAIN_TABLE || tables.contains(&table)
}

/// The table of a route whose attributes say this. The number 0 counts as the main one's.
fn table_of(bytes: &[u8], kept: &RouteAttributes) -> u32
    requires long { 28 ≤ length bytes.now }
    requires kept { Keeps (attributes bytes.now) kept.now }
    ensures value { result ≡ table_of bytes.now }
    ensures sound { IsTable result }
{
    match kept.table.unwrap_or(bytes[TABLE] as u32) {
        RT_TABLE_UNSPEC => MAIN_TABLE,
        number => number,
    }
}

/// What the attributes of a message of a route say, from byte 28 to the message's end; None where one is bad.
fn read_its_attributes(bytes: &[u8], length: usize, del: bool) -> Option<RouteAttributes>
    requires whole { IsWhole bytes.now length }
    requires del { is_set bytes.now ≡ not del }
    requires long { 28 ≤ length }
    ensures { KeepsAll (is_set bytes.now) (attributes bytes.now) result }
{
    read_attributes(!del, &bytes[ROUTE_LENGTH..length])
}

/// What the attributes of a message of an IPv4 route say, whose table is the main one or one of these.
fn read_parts(
    bytes: &[u8],
    length: usize,
    del: bool,
    tables: &[u32],
) -> Result<RouteAttributes, Ruling>
    requires whole { IsWhole bytes.now length }
    requires del { is_set bytes.now ≡ not del }
    ensures { Rules (part_rows tables.now) bytes.now result
        (λ kept. Keeps (attributes bytes.now) kept × (28 ≤ length)) }
{
    if length < ROUTE_LENGTH {
        return Err(Ruling::Refuses(SHORT));
    }
    if bytes[FAMILY] != AF_INET {
        return Err(Ruling::Skips(Skip::OtherFamily));
    }
    let Some(kept) = read_its_attributes(bytes, length, del) else {
        return Err(Ruling::Refuses(BAD_ATTR));
    };
    if is_read(tables, table_of(bytes, &kept)) {
        Ok(kept)
    } else {
        Err(Ruling::Skips(Skip::OtherTable))
    }
}

/// Whether a bit of an address is set past a prefix's length.
fn has_host_bits(address: u32, len: u8) -> bool
    requires { len ≤ 32 }
    ensures { result ≡ not (address % 2 ^ (32 - len) == 0) }
{
    address as u64 % (1u64 << (32 - len as u32)) != 0
}

/// The prefix of a route.
fn read_prefix(bytes: &[u8], kept: &RouteAttributes) -> Result<Prefix, Ruling>
    requires long { 28 ≤ length bytes.now }
    requires kept { Keeps (attributes bytes.now) kept.now }
    ensures rules { Rules prefix_rows bytes.now result (λ prefix. prefix ≡ prefix_of bytes.now) }
    ensures sound { IfOk result IsCidr }
{
    let len = bytes[PREFIX_LENGTH];
    if len > 32 {
        return Err(Ruling::Refuses(BAD_PREFIX_LENGTH));
    }
    if bytes[SOURCE_LENGTH] != 0 || bytes[SERVICE_TYPE] != 0 {
        return Err(Ruling::Refuses(SOURCE_OR_TOS));
    }
    if len > 0 && kept.destination.is_none() {
        return Err(Ruling::Refuses(NO_DESTINATION));
    }
    let base = kept.destination.unwrap_or(0);
    if has_host_bits(base, len) {
        return Err(Ruling::Refuses(HOST_BITS));
    }
    Ok(Prefix::new(base, len))
}

/// The type of a route by its number.
fn kind_of(number: u8) -> Option<RouteKind>
    ensures { result ≡ kind_of number }
{
    match number {
        1 => Some(RouteKind::Unicast),
        2 => Some(RouteKind::Local),
        6 => Some(RouteKind::Blackhole),
        7 => Some(RouteKind::Unreachable),
        8 => Some(RouteKind::Prohibit),
        _ => None,
    }
}

/// A route that is set in place of what has its prefix and metric.
fn replacement(
    prefix: Prefix,
    table: u32,
    metric: u32,
    kind: RouteKind,
    via: bool,
    oif: Option<u32>,
) -> RawRoute
    requires sound { IsCidr prefix }
    requires table { IsTable table }
    requires interface { kind ≡ Unicast → IsSome oif }
    ensures value { result ≡ record {
      del = false;
      prefix = prefix;
      table = table;
      metric = Some metric;
      kind = kind;
      via = via;
      oif = oif;
      by = None;
    } }
    ensures sayable { CanBeSaid result }
{
    RawRoute {
        del: false,
        prefix,
        table,
        metric: Some(metric),
        kind,
        via,
        oif,
        by: None,
    }
}

/// The route that is set.
fn read_set(bytes: &[u8], kept: &RouteAttributes, prefix: Prefix) -> Result<RawRoute, Ruling>
    requires long { 28 ≤ length bytes.now }
    requires set { is_set bytes.now ≡ true }
    requires kept { Keeps (attributes bytes.now) kept.now }
    requires prefix { prefix ≡ prefix_of bytes.now }
    requires sound { IsCidr prefix }
    ensures rules { Rules hop_rows bytes.now result (λ raw. raw ≡ route_set bytes.now) }
    ensures sayable { IfOk result CanBeSaid }
{
    let Some(kind) = kind_of(bytes[ROUTE_KIND]) else {
        return Err(Ruling::Refuses(ROUTE_TYPE));
    };
    if kept.multipath {
        return Err(Ruling::Refuses(MULTIPATH));
    }
    if kept.encap {
        return Err(Ruling::Refuses(ENCAP));
    }
    if kept.next_hop_id {
        return Err(Ruling::Refuses(NEXT_HOP_ID));
    }
    if bytes[ROUTE_KIND] == 1 && kept.interface.is_none() {
        return Err(Ruling::Refuses(NO_INTERFACE));
    }
    let table = table_of(bytes, kept);
    let metric = kept.metric.unwrap_or(0);
    Ok(replacement(prefix, table, metric, kind, kept.via, kept.interface))
}

/// The route that is deleted. Its type and its next hop are not looked at.
fn deletion(prefix: Prefix, table: u32, metric: Option<u32>) -> RawRoute
    requires sound { IsCidr prefix }
    requires table { IsTable table }
    ensures value { result ≡ record {
      del = true;
      prefix = prefix;
      table = table;
      metric = metric;
      kind = Unicast;
      via = false;
      oif = None;
      by = None;
    } }
    ensures sayable { CanBeSaid result }
{
    RawRoute {
        del: true,
        prefix,
        table,
        metric,
        kind: RouteKind::Unicast,
        via: false,
        oif: None,
        by: None,
    }
}

/// The route of a message whose attributes say this.
fn route_in(bytes: &[u8], del: bool, kept: &RouteAttributes) -> Result<RawRoute, Ruling>
    requires long { 28 ≤ length bytes.now }
    requires del { is_set bytes.now ≡ not del }
    requires kept { Keeps (attributes bytes.now) kept.now }
    ensures rules { Rules (prefix_rows ++ hop_rows) bytes.now result (λ raw. raw ≡ route_of bytes.now) }
    ensures sayable { IfOk result CanBeSaid }
{
    let prefix = read_prefix(bytes, kept)?;
    if del {
        Ok(deletion(prefix, table_of(bytes, kept), kept.metric))
    } else {
        read_set(bytes, kept, prefix)
    }
}

/// The route that a message of this length deletes or sets, whose table is the main one or one of these.
pub fn read_route(
    bytes: &[u8],
    length: usize,
    del: bool,
    tables: &[u32],
) -> Result<RawRoute, Ruling>
    requires whole { IsWhole bytes.now length }
    requires del { is_set bytes.now ≡ not del }
    ensures rules { Rules (route_rows tables.now) bytes.now result (λ raw. raw ≡ route_of bytes.now) }
    ensures sayable { IfOk result CanBeSaid }
{
    let kept = read_parts(bytes, length, del, tables)?;
    route_in(bytes, del, &kept)
}
