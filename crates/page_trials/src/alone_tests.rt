//! Routes that take the place of all routes of their prefix, at one router and beside others.

ghost use Rattle.std.specs.Prelude.{◌≡◌, ◌<◌};

use crate::same::same;
use crate::table_tests::{compare_routes, copied, set, set_alone, ten, ten_one};
use dn_model::{Prefix, Route, RouterId, TableOp, Target, Way};
use route_table::{Lane, RouteTable, RouteTables, TableUpdate};
use std::alloc::Global;
use std::marker::Brand;
use std::process::Abort;
use std::sync::ledger::{Blank, Ledger};
use step_count::Steps;

fn exit(k: u32) -> Way {
    Way::Straight(Target::Exit(k))
}

fn no_route() -> Option<Way> {
    Some(Way::Straight(Target::NoRoute))
}

/// A route of 10.0.0.0/8 is put beside those of other metrics.
fn put(metric: u32, way: Way) -> TableUpdate {
    let op = TableOp::Put {
        prefix: ten(),
        metric,
        way,
    };
    TableUpdate { op, alone: false }
}

/// A route of 10.0.0.0/8 is put in the place of all.
fn put_alone(metric: u32, way: Way) -> TableUpdate {
    let op = TableOp::Put {
        prefix: ten(),
        metric,
        way,
    };
    TableUpdate { op, alone: true }
}

/// The route of 10.0.0.0/8 with this metric is cleared.
fn clear(metric: u32) -> TableUpdate {
    let op = TableOp::Clear {
        prefix: ten(),
        metric: Some(metric),
    };
    TableUpdate { op, alone: true }
}

/// An update of one of four routers, and what that router does with the addresses of 10.0.0.0/8 after it, where it isn't
/// what it did before.
#[derive(Drop)]
struct Step {
    router: RouterId,
    update: TableUpdate,
    after: Option<Way>,
}

fn on_router(router: u16, update: TableUpdate, after: Option<Way>) -> Step {
    Step {
        router: RouterId(router),
        update,
        after,
    }
}

/// The steps, one after another, do what they say.
fn compare_steps<L: Ledger>(rt: &impl Abort, alloc: Global, list: &[Step], blank: Blank)
    requires name { blank.name ≡ L.name }
    requires parts { blank.parts ≡ L.parts }
    requires some { 0 < blank.parts }
{
    let mut steps = Steps::<L>::new(blank);
    let mut tables = RouteTables::new();
    let mut runs = Vec::new(alloc);
    for step in list {
        let told = tables
            .update(
                alloc,
                Lane::of(step.router),
                &step.update,
                0,
                &mut runs,
                &mut steps,
            )
            .expect(rt, "memory");
        same(rt, &told.after, &step.after);
    }
}

/// A route of a third metric is left by itself, and the other router has both that it had.
#[test]
fn a_route_put_alone_takes_the_place_of_all_at_its_router(rt: HostRuntime) {
    let list = [
        on_router(1, put(5, exit(5)), Some(exit(5))),
        on_router(1, put(20, exit(20)), None),
        on_router(2, put(5, exit(5)), Some(exit(5))),
        on_router(2, put(20, exit(20)), None),
        on_router(2, put_alone(7, Way::By(3)), Some(Way::By(3))),
        on_router(2, clear(5), None),
        on_router(2, clear(20), None),
        on_router(2, clear(7), no_route()),
        on_router(1, clear(5), Some(exit(20))),
        on_router(1, clear(20), no_route()),
    ];
    compare_steps::<Brand>(&rt, rt.alloc(), &list, Blank::new(1));
}

/// Nothing is seen of it until the route itself goes: then the other is gone too.
#[test]
fn the_same_route_put_alone_drops_the_other(rt: HostRuntime) {
    let list = [
        on_router(2, put(5, exit(5)), Some(exit(5))),
        on_router(2, put(20, exit(20)), None),
        on_router(2, put_alone(5, exit(5)), None),
        on_router(2, put_alone(5, exit(5)), None),
        on_router(2, clear(5), no_route()),
    ];
    compare_steps::<Brand>(&rt, rt.alloc(), &list, Blank::new(1));
}

fn route(prefix: Prefix, metric: u32) -> Route {
    Route {
        prefix,
        metric,
        way: exit(metric),
    }
}

/// Those of another prefix stay, and a copy keeps what it had.
#[test]
fn a_table_is_left_with_one_route_of_the_prefix(rt: HostRuntime) {
    let alloc = rt.alloc();
    let mut table = RouteTable::new();
    set_alone(&rt, alloc, &mut table, route(ten(), 5));
    set(&rt, alloc, &mut table, route(ten(), 20));
    set_alone(&rt, alloc, &mut table, route(ten_one(), 9));
    let before = copied(&rt, &table);
    set_alone(&rt, alloc, &mut table, route(ten(), 7));
    let left = [route(ten(), 7), route(ten_one(), 9)];
    compare_routes(&rt, alloc, &table, &left);
    let all = [route(ten(), 5), route(ten(), 20), route(ten_one(), 9)];
    compare_routes(&rt, alloc, &before, &all);
    set_alone(&rt, alloc, &mut table, route(ten(), 7));
    compare_routes(&rt, alloc, &table, &left);
}
