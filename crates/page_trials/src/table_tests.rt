//! Tables whose answers were worked out by hand, or are compared with a plain list.

ghost use Rattle.std.specs.Prelude.{◌≤◌};

use crate::draw::next_draw;
use crate::same::{holds, same, same_list};
use dn_model::{DropKind, Prefix, Route, TableOp, Target, Way};
use route_table::{RouteTable, TableUpdate};
use std::alloc::Global;
use std::process::Abort;

/// 10.0.0.0/8.
pub fn ten() -> Prefix {
    Prefix::new(0x0A00_0000, 8)
}

/// 10.0.0.0/16.
pub fn ten_zero() -> Prefix {
    Prefix::new(0x0A00_0000, 16)
}

/// 10.1.0.0/16.
pub fn ten_one() -> Prefix {
    Prefix::new(0x0A01_0000, 16)
}

fn route(prefix: Prefix, metric: u32, target: Target) -> Route {
    Route {
        prefix,
        metric,
        way: Way::Straight(target),
    }
}

/// A route is set beside those of other metrics.
pub fn set(rt: &impl Abort, alloc: Global, table: &mut RouteTable, new: Route) {
    table
        .set(alloc, new.prefix, new.metric, new.way)
        .expect(rt, "memory");
}

/// A route is set in the place of all routes of its prefix.
pub fn set_alone(rt: &impl Abort, alloc: Global, table: &mut RouteTable, new: Route) {
    table
        .set_alone(alloc, new.prefix, new.metric, new.way)
        .expect(rt, "memory");
}

fn clear(
    rt: &impl Abort,
    alloc: Global,
    table: &mut RouteTable,
    prefix: Prefix,
    metric: Option<u32>,
) {
    table.clear(alloc, prefix, metric).expect(rt, "memory");
}

/// The same table again.
pub fn copied(rt: &impl Abort, table: &RouteTable) -> RouteTable {
    table.copy().expect(rt, "memory")
}

/// 10.0.0.0/8 with metric 20, and 10.1.0.0/16 with metric 5 and then with metric 20.
fn set_three(rt: &impl Abort, alloc: Global, table: &mut RouteTable) {
    set(rt, alloc, table, route(ten(), 20, Target::Local));
    set(rt, alloc, table, route(ten_one(), 5, Target::Exit(1)));
    let dropped = Target::Dropped(DropKind::Blackhole);
    set(rt, alloc, table, route(ten_one(), 20, dropped));
}

/// What the table does with an address.
fn compare_target(rt: &impl Abort, table: &RouteTable, a: u32, want: Option<Target>) {
    let way = match table.best(a) {
        Some(route) => Some(route.way),
        None => None,
    };
    let want = match want {
        Some(target) => Some(Way::Straight(target)),
        None => None,
    };
    same(rt, &way, &want);
}

/// The least metric of a prefix.
fn compare_least(rt: &impl Abort, table: &RouteTable, prefix: Prefix, want: Option<u32>) {
    let least = match table.least_of(prefix) {
        Some(route) => Some(route.metric),
        None => None,
    };
    same(rt, &least, &want);
}

#[test]
fn the_longest_prefix_wins_and_then_the_least_metric(rt: HostRuntime) {
    let mut table = RouteTable::new();
    compare_target(&rt, &table, 0x0A01_0007, None);
    set_three(&rt, rt.alloc(), &mut table);
    compare_target(&rt, &table, 0x0A01_0007, Some(Target::Exit(1)));
    compare_target(&rt, &table, 0x0A02_0007, Some(Target::Local));
    compare_target(&rt, &table, 0x0B00_0000, None);
}

/// All routes of a table are these.
pub fn compare_routes(rt: &impl Abort, alloc: Global, table: &RouteTable, want: &[Route]) {
    let routes = table.routes(alloc).expect(rt, "memory");
    same_list(rt, routes.as_slice(), want);
}

#[test]
fn a_clear_without_a_metric_takes_all_routes_of_its_prefix(rt: HostRuntime) {
    let alloc = rt.alloc();
    let mut table = RouteTable::new();
    set_three(&rt, alloc, &mut table);
    let before = copied(&rt, &table);
    clear(&rt, alloc, &mut table, ten_one(), Some(5));
    let dropped = Target::Dropped(DropKind::Blackhole);
    compare_target(&rt, &table, 0x0A01_0007, Some(dropped));
    clear(&rt, alloc, &mut table, ten_one(), None);
    compare_routes(&rt, alloc, &table, &[route(ten(), 20, Target::Local)]);
    compare_target(&rt, &before, 0x0A01_0007, Some(Target::Exit(1)));
}

/// Prefixes with one first address are told apart, and of each the metrics.
#[test]
fn several_metrics_of_a_prefix(rt: HostRuntime) {
    let alloc = rt.alloc();
    let mut table = RouteTable::new();
    for metric in 0..5u32 {
        let metric = (metric * 3) % 5 + 10;
        set(
            &rt,
            alloc,
            &mut table,
            route(ten(), metric, Target::Exit(metric)),
        );
    }
    compare_least(&rt, &table, ten(), Some(10));
    compare_least(&rt, &table, ten_zero(), None);
    set(&rt, alloc, &mut table, route(ten_zero(), 7, Target::Local));
    set(&rt, alloc, &mut table, route(ten(), 10, Target::Local));
    compare_target(&rt, &table, 0x0AFF_0000, Some(Target::Local));
    clear(&rt, alloc, &mut table, ten(), Some(9));
    clear(&rt, alloc, &mut table, ten(), Some(12));
    clear(&rt, alloc, &mut table, ten(), Some(10));
    compare_least(&rt, &table, ten(), Some(11));
    clear(&rt, alloc, &mut table, ten(), None);
    compare_least(&rt, &table, ten(), None);
    compare_routes(&rt, alloc, &table, &[route(ten_zero(), 7, Target::Local)]);
    set(&rt, alloc, &mut table, route(ten(), 8, Target::Exit(3)));
    compare_target(&rt, &table, 0x0AFF_0000, Some(Target::Exit(3)));
}

/// The prefix of this length that has an address.
fn prefix_around(a: u32, len: u8) -> Prefix
    requires { len ≤ 32 }
{
    let size = 1u64 << (32 - len);
    let base = a as u64 - a as u64 % size;
    Prefix::new(base as u32, len)
}

/// One of some hundred prefixes of several lengths, many within others.
pub fn some_prefix(k: u32) -> Prefix {
    let len = (k % 17) as u8 + 8;
    prefix_around(k.wrapping_mul(0x01F3_5A00), len)
}

/// A route is set in a plain list: alone, it takes the place of all of its prefix.
fn set_plainly(rt: &impl Abort, plain: &mut Vec<Route>, new: Route, alone: bool) {
    if alone {
        plain.retain(|old| old.prefix != new.prefix);
    } else {
        plain.retain(|old| old.prefix != new.prefix || old.metric != new.metric);
    }
    plain.push(new).expect(rt, "memory");
}

/// A route is cleared in a plain list, or without a metric all of a prefix.
fn clear_plainly(plain: &mut Vec<Route>, prefix: Prefix, metric: Option<u32>) {
    match metric {
        Some(metric) => plain.retain(|old| old.prefix != prefix || old.metric != metric),
        None => plain.retain(|old| old.prefix != prefix),
    }
}

/// Two interfaces, and an object.
fn some_way(k: u32) -> Way {
    if k == 2 {
        return Way::By(7);
    }
    Way::Straight(Target::Exit(k))
}

/// A route is put, or one is cleared, or all of a prefix.
pub fn some_op(draw: u64) -> TableOp {
    let prefix = some_prefix(((draw >> 33) % 300) as u32);
    let metric = ((draw >> 20) % 4) as u32;
    let kind = (draw >> 12) % 8;
    if kind < 5 {
        let way = some_way(((draw >> 15) % 3) as u32);
        return TableOp::Put {
            prefix,
            metric,
            way,
        };
    }
    let metric = if kind < 7 { Some(metric) } else { None };
    TableOp::Clear { prefix, metric }
}

/// An update of a plain list.
fn update_plainly(rt: &impl Abort, plain: &mut Vec<Route>, update: &TableUpdate) {
    match update.op {
        TableOp::Put {
            prefix,
            metric,
            way,
        } => {
            let new = Route {
                prefix,
                metric,
                way,
            };
            set_plainly(rt, plain, new, update.alone);
        }
        TableOp::Clear { prefix, metric } => clear_plainly(plain, prefix, metric),
    }
}

/// An update of the table of one router.
pub fn update_table(rt: &impl Abort, alloc: Global, table: &mut RouteTable, update: &TableUpdate) {
    match update.op {
        TableOp::Put {
            prefix,
            metric,
            way,
        } => {
            let new = Route {
                prefix,
                metric,
                way,
            };
            if update.alone {
                set_alone(rt, alloc, table, new);
            } else {
                set(rt, alloc, table, new);
            }
        }
        TableOp::Clear { prefix, metric } => clear(rt, alloc, table, prefix, metric),
    }
}

/// Many updates of both.
fn update_often(
    rt: &impl Abort,
    alloc: Global,
    table: &mut RouteTable,
    plain: &mut Vec<Route>,
    seed: u64,
) {
    let mut draw = seed;
    for _ in 0..2000u32 {
        draw = next_draw(draw);
        let alone = (draw >> 60) % 4 == 0;
        let update = TableUpdate {
            op: some_op(draw),
            alone,
        };
        update_plainly(rt, plain, &update);
        update_table(rt, alloc, table, &update);
    }
}

/// The table has the routes of a plain list, and no others.
fn compare_plainly(rt: &impl Abort, alloc: Global, table: &RouteTable, plain: &[Route]) {
    let routes = table.routes(alloc).expect(rt, "memory");
    same(rt, &routes.as_slice().len(), &plain.len());
    for route in routes.as_slice() {
        holds(rt, plain.contains(route));
    }
    for k in 0..300 {
        let prefix = some_prefix(k);
        let of_prefix = plain.iter().filter(|route| route.prefix == prefix);
        let least = of_prefix.map(|route| route.metric).min();
        compare_least(rt, table, prefix, least);
    }
}

/// Some hundred prefixes stand in several pages. A copy that is held while they change keeps what it had.
#[test]
fn a_copy_is_held_across_many_updates(rt: HostRuntime) {
    let alloc = rt.alloc();
    let mut table = RouteTable::new();
    let mut plain = Vec::new(alloc);
    update_often(&rt, alloc, &mut table, &mut plain, 1);
    compare_plainly(&rt, alloc, &table, &plain);
    let held = copied(&rt, &table);
    let old = plain.clone().expect(&rt, "memory");
    update_often(&rt, alloc, &mut table, &mut plain, 2);
    compare_plainly(&rt, alloc, &table, &plain);
    compare_plainly(&rt, alloc, &held, &old);
}
