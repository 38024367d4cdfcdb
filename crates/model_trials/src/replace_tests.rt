//! Routers that replace by prefix, on small histories, whose answers were worked out by hand.

use crate::network::{TO_SECOND, TO_THIRD, clear, network_by, object, set, set_by, ten, ten_one};
use crate::plain_delta_tests::{change, compare_delta_in};
use crate::same::same_list;
use dn_model::{Change, Entry, Replace, Route, RouterId, Target, Way, plain_routes};
use std::alloc::Global;
use std::process::Abort;

const LO: u32 = 0x0A00_0000;

const HI: u32 = 0x0AFF_FFFF;

/// Two metrics of 10.0.0.0/8 at r1, of which the lesser one is cleared.
fn two_metrics() -> [Entry; 3] {
    [
        set(0, ten(), 20, TO_SECOND),
        set(0, ten(), 5, TO_THIRD),
        clear(0, ten(), Some(5)),
    ]
}

/// Where r1 replaces routes like this, the last of these entries changes this.
fn compare_last(
    rt: &impl Abort,
    alloc: Global,
    first: Replace,
    entries: &[Entry],
    want: &[Change],
) {
    let t = network_by(rt, alloc, first);
    compare_delta_in(rt, alloc, &t, entries, want);
}

#[test]
fn one_of_two_metrics_is_cleared(rt: HostRuntime) {
    let alloc = rt.alloc();
    let entries = two_metrics();
    let set = [change(0, LO, HI, TO_SECOND, TO_THIRD)];
    let gone = [change(0, LO, HI, TO_THIRD, Target::NoRoute)];
    let back = [change(0, LO, HI, TO_THIRD, TO_SECOND)];
    compare_last(&rt, alloc, Replace::Prefix, &entries[..2], &set);
    compare_last(&rt, alloc, Replace::Prefix, &entries, &gone);
    compare_last(&rt, alloc, Replace::Key, &entries, &back);
}

#[test]
fn a_greater_metric_takes_the_place_of_a_lesser(rt: HostRuntime) {
    let alloc = rt.alloc();
    let entries = [set(0, ten(), 5, TO_THIRD), set(0, ten(), 20, TO_SECOND)];
    let second = [change(0, LO, HI, TO_THIRD, TO_SECOND)];
    compare_last(&rt, alloc, Replace::Prefix, &entries, &second);
    compare_last(&rt, alloc, Replace::Key, &entries, &[]);
}

#[test]
fn a_route_by_an_object_takes_the_place_of_a_straight_one(rt: HostRuntime) {
    let alloc = rt.alloc();
    let entries = [
        object(0, 7, TO_SECOND),
        set(0, ten(), 5, TO_THIRD),
        set_by(0, ten(), 20, 7),
        set(0, ten(), 30, Target::Local),
    ];
    let by = [change(0, LO, HI, TO_THIRD, TO_SECOND)];
    let straight = [change(0, LO, HI, TO_SECOND, Target::Local)];
    compare_last(&rt, alloc, Replace::Prefix, &entries[..3], &by);
    compare_last(&rt, alloc, Replace::Prefix, &entries, &straight);
}

/// Where r1 replaces routes by prefix, a router has these routes after a history.
fn compare_routes(rt: &impl Abort, alloc: Global, entries: &[Entry], router: u16, want: &[Route]) {
    let t = network_by(rt, alloc, Replace::Prefix);
    let routes = plain_routes(alloc, &t, entries, RouterId(router)).expect(rt, "memory");
    same_list(rt, routes.as_slice(), want);
}

/// A route of 10.0.0.0/8.
fn of_ten(metric: u32, way: Way) -> Route {
    Route {
        prefix: ten(),
        metric,
        way,
    }
}

#[test]
fn other_prefixes_and_other_routers_keep_their_routes(rt: HostRuntime) {
    let alloc = rt.alloc();
    let entries = [
        set(0, ten(), 20, TO_SECOND),
        set(0, ten_one(), 5, TO_THIRD),
        set(1, ten(), 20, Target::Local),
        set(1, ten(), 5, Target::Exit(1)),
        set_by(0, ten(), 30, 7),
    ];
    let longer = Route {
        prefix: ten_one(),
        metric: 5,
        way: Way::Straight(TO_THIRD),
    };
    let marked = [longer, of_ten(30, Way::By(7))];
    let unmarked = [
        of_ten(20, Way::Straight(Target::Local)),
        of_ten(5, Way::Straight(Target::Exit(1))),
    ];
    compare_routes(&rt, alloc, &entries, 0, &marked);
    compare_routes(&rt, alloc, &entries, 1, &unmarked);
}
