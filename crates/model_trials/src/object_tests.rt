//! Next-hop objects, on small histories, whose answers were worked out by hand.

use crate::network::{
    TO_SECOND, TO_THIRD, clear, network, no_object, object, set, set_by, ten, ten_one,
};
use crate::plain_delta_tests::{change, compare_delta};
use crate::same::{holds, same_list};
use dn_model::{Entry, RouterId, Target, plain_objects, vrf};
use std::alloc::Global;
use std::process::Abort;

const LO: u32 = 0x0A00_0000;

const HI: u32 = 0x0AFF_FFFF;

/// The last of these entries changes what r1 does with 10.0.0.0/8.
fn compare_change(
    rt: &impl Abort,
    alloc: Global,
    entries: &[Entry],
    before: Target,
    after: Target,
) {
    let want = [change(0, LO, HI, before, after)];
    compare_delta(rt, alloc, entries, &want);
}

#[test]
fn a_route_goes_with_its_object(rt: HostRuntime) {
    let alloc = rt.alloc();
    let entries = [
        object(0, 7, TO_SECOND),
        set_by(0, ten(), 20, 7),
        object(0, 7, TO_THIRD),
        no_object(0, 7),
        object(0, 7, TO_SECOND),
    ];
    compare_delta(&rt, alloc, &entries[..1], &[]);
    compare_change(&rt, alloc, &entries[..2], Target::NoRoute, TO_SECOND);
    compare_change(&rt, alloc, &entries[..3], TO_SECOND, TO_THIRD);
    compare_change(&rt, alloc, &entries[..4], TO_THIRD, Target::NoRoute);
    compare_delta(&rt, alloc, &entries, &[]);
}

#[test]
fn a_route_by_an_object_that_comes_later(rt: HostRuntime) {
    let alloc = rt.alloc();
    let entries = [
        set_by(0, ten(), 20, 7),
        object(0, 8, TO_SECOND),
        object(0, 7, TO_THIRD),
    ];
    compare_delta(&rt, alloc, &entries[..1], &[]);
    compare_delta(&rt, alloc, &entries[..2], &[]);
    compare_change(&rt, alloc, &entries, Target::NoRoute, TO_THIRD);
}

#[test]
fn a_straight_route_of_less_metric_hides_an_object(rt: HostRuntime) {
    let alloc = rt.alloc();
    let entries = [
        object(0, 7, Target::Local),
        set_by(0, ten(), 20, 7),
        set(0, ten(), 5, TO_SECOND),
        object(0, 7, TO_THIRD),
        clear(0, ten(), Some(5)),
    ];
    compare_change(&rt, alloc, &entries[..3], Target::Local, TO_SECOND);
    compare_delta(&rt, alloc, &entries[..4], &[]);
    compare_change(&rt, alloc, &entries, TO_SECOND, TO_THIRD);
}

#[test]
fn two_routes_go_with_an_object_that_is_removed(rt: HostRuntime) {
    let alloc = rt.alloc();
    let entries = [
        object(0, 7, TO_SECOND),
        set_by(0, ten(), 20, 7),
        set_by(0, ten_one(), 0, 7),
        set(0, ten(), 30, TO_THIRD),
        no_object(0, 7),
    ];
    compare_delta(&rt, alloc, &entries[..3], &[]);
    compare_delta(&rt, alloc, &entries[..4], &[]);
    compare_change(&rt, alloc, &entries, TO_SECOND, TO_THIRD);
}

/// A router's objects after a history are these.
fn compare_objects(
    rt: &impl Abort,
    alloc: Global,
    entries: &[Entry],
    router: u16,
    want: &[(u32, Target)],
) {
    let t = network(rt, alloc);
    let objects = plain_objects(alloc, &t, entries, RouterId(router)).expect(rt, "memory");
    same_list(rt, objects.as_slice(), want);
}

#[test]
fn each_device_has_its_own_objects(rt: HostRuntime) {
    let alloc = rt.alloc();
    let entries = [
        object(0, 7, TO_SECOND),
        object(1, 7, Target::Local),
        object(0, 8, Target::Local),
        object(0, 7, TO_THIRD),
        no_object(0, 8),
        no_object(0, 9),
    ];
    compare_objects(
        &rt,
        alloc,
        &entries[..3],
        0,
        &[(7, TO_SECOND), (8, Target::Local)],
    );
    compare_objects(&rt, alloc, &entries, 0, &[(7, TO_THIRD)]);
    compare_objects(&rt, alloc, &entries, 1, &[(7, Target::Local)]);
    compare_objects(&rt, alloc, &entries, 2, &[]);
}

#[test]
fn a_network_of_devices_has_no_vrf(rt: HostRuntime) {
    let t = network(&rt, rt.alloc());
    holds(&rt, vrf(&t, RouterId(0), 254).is_none());
    holds(&rt, vrf(&t, RouterId(0), 10).is_none());
}
