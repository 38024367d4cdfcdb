//! Payloads of frames, byte by byte: what they say, and what stands before a refusal; and a route as it is written.

ghost use Rattle.std.specs.Prelude.{◌≤◌, length};

use crate::frames::{BROKEN_LAST, SET_IPV6, SET_TEN, bytes_of};
use crate::routes::{ten, ten_in};
use crate::same::{same, same_list};
use dn_model::Prefix;
use rt_netlink::{Item, ItemKind, RawRoute, Refused, Skip, read_payload, write_route};
use std::alloc::Global;
use std::process::Abort;

/// A default route is set, without a destination.
const DEFAULT: [u8; 52] = [
    0x34, 0, 0, 0, 0x18, 0, 1, 5, 0, 0, 0, 0, 0, 0, 0, 0, 2, 0, 0, 0, 0xfe, 0x0b, 0, 1, 0, 0, 0, 0,
    8, 0, 5, 0, 0xc0, 0, 2, 1, 8, 0, 4, 0, 2, 0, 0, 0, 8, 0, 6, 0, 0x14, 0, 0, 0,
];

/// The route of `SET_TEN` in table 1000, whose number stands in an attribute.
const IN_A_WIDE_TABLE: [u8; 68] = [
    0x44, 0, 0, 0, 0x18, 0, 1, 5, 0, 0, 0, 0, 0, 0, 0, 0, 2, 8, 0, 0, 0, 0x0b, 0, 1, 0, 0, 0, 0, 8,
    0, 1, 0, 10, 0, 0, 0, 8, 0, 5, 0, 192, 0, 2, 1, 8, 0, 4, 0, 2, 0, 0, 0, 8, 0, 6, 0, 20, 0, 0,
    0, 8, 0, 0x0f, 0, 0xe8, 3, 0, 0,
];

/// An item at a place.
fn item_at(at: u32, what: ItemKind) -> Item {
    Item { at, what }
}

/// A payload, of which the routes of the main table alone are read, says these items, and this refusal.
fn compare_items(
    rt: &impl Abort,
    alloc: Global,
    payload: &[u8],
    items: &[Item],
    refused: Option<Refused>,
)
    requires { length payload.now ≤ 65531 }
{
    let said = read_payload(alloc, payload, &[]).expect(rt, "memory");
    assert_eq!(rt; said.items.as_slice(), items, "in {payload:?}");
    assert_eq!(rt; said.refused, refused, "in {payload:?}");
}

/// A payload of one message, of which the routes of these tables are read too, says this.
fn compare_in_tables(rt: &impl Abort, alloc: Global, payload: &[u8], tables: &[u32], what: ItemKind)
    requires { length payload.now ≤ 65531 }
{
    let said = read_payload(alloc, payload, tables).expect(rt, "memory");
    let items = [item_at(0, what)];
    assert_eq!(rt; said.items.as_slice(), items.as_slice(), "in {tables:?}");
    same(rt, &said.refused, &None);
}

/// The message of `SET_TEN`, with the byte at one place of it changed, is passed over by this cause.
fn compare_skip(rt: &impl Abort, alloc: Global, place: usize, byte: u8, skip: Skip) {
    let mut frame = SET_TEN;
    if place < 60 {
        frame[place + 4] = byte;
    }
    let items = [item_at(0, ItemKind::Skipped(skip))];
    compare_items(rt, alloc, &frame[4..], &items, None);
}

#[test]
fn reads_one_message(rt: HostRuntime) {
    let alloc = rt.alloc();
    let items = [item_at(0, ItemKind::Route(ten(2)))];
    compare_items(&rt, alloc, &SET_TEN[4..], &items, None);
    let items = [item_at(0, ItemKind::Skipped(Skip::OtherFamily))];
    compare_items(&rt, alloc, &SET_IPV6[4..], &items, None);
    let default = RawRoute {
        prefix: Prefix::new(0, 0),
        ..ten(2)
    };
    let items = [item_at(0, ItemKind::Route(default))];
    compare_items(&rt, alloc, &DEFAULT, &items, None);
}

#[test]
fn reads_what_stands_before_a_refusal(rt: HostRuntime) {
    let alloc = rt.alloc();
    let payload = bytes_of(&rt, alloc, &[&SET_TEN[4..], &BROKEN_LAST]);
    let payload = payload.as_slice();
    assert_eq!(rt; payload.len(), 76);
    let items = [item_at(0, ItemKind::Route(ten(2)))];
    let refused = Some(Refused { at: 60, cause: 1 });
    compare_items(&rt, alloc, payload, &items, refused);
}

#[test]
fn skips_by_table_and_type(rt: HostRuntime) {
    let alloc = rt.alloc();
    compare_skip(&rt, alloc, 20, 10, Skip::OtherTable);
    compare_skip(&rt, alloc, 4, 3, Skip::OtherType);
}

#[test]
fn writes_a_route(rt: HostRuntime) {
    let message = write_route(rt.alloc(), &ten(2)).expect(&rt, "memory");
    same_list(&rt, message.as_slice(), &SET_TEN[4..]);
}

#[test]
fn reads_the_tables_that_are_told(rt: HostRuntime) {
    let alloc = rt.alloc();
    let mut frame = SET_TEN;
    frame[24] = 10;
    let route = ItemKind::Route(ten_in(10, 2));
    compare_in_tables(&rt, alloc, &frame[4..], &[7, 10], route);
    let other = ItemKind::Skipped(Skip::OtherTable);
    compare_in_tables(&rt, alloc, &frame[4..], &[7, 254, 0], other);
    frame[24] = 0;
    let main = ItemKind::Route(ten(2));
    compare_in_tables(&rt, alloc, &frame[4..], &[7, 10], main);
}

#[test]
fn writes_a_route_of_a_wide_table(rt: HostRuntime) {
    let alloc = rt.alloc();
    let route = ten_in(1000, 2);
    let message = write_route(alloc, &route).expect(&rt, "memory");
    same_list(&rt, message.as_slice(), &IN_A_WIDE_TABLE);
    compare_in_tables(
        &rt,
        alloc,
        &IN_A_WIDE_TABLE,
        &[1000],
        ItemKind::Route(route),
    );
    let other = ItemKind::Skipped(Skip::OtherTable);
    compare_in_tables(&rt, alloc, &IN_A_WIDE_TABLE, &[10], other);
}

/// The attribute stands in place of the header's table, also where its number is 0, which counts as the main table.
#[test]
fn reads_an_attribute_of_no_table(rt: HostRuntime) {
    let mut message = IN_A_WIDE_TABLE;
    message[20] = 10;
    message[64] = 0;
    message[65] = 0;
    let main = ItemKind::Route(ten(2));
    compare_in_tables(&rt, rt.alloc(), &message, &[10], main);
}

#[test]
fn writes_a_route_of_a_narrow_table(rt: HostRuntime) {
    let mut frame = SET_TEN;
    frame[24] = 255;
    let message = write_route(rt.alloc(), &ten_in(255, 2)).expect(&rt, "memory");
    same_list(&rt, message.as_slice(), &frame[4..]);
}
