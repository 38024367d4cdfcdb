//! A VRF of a device, on small histories, whose answers were worked out by hand.

use crate::network::{
    TO_SECOND, TO_THIRD, answer_in, clear, name_of, network_with_vrf, no_object, object, set,
    set_by, ten, ten_one,
};
use crate::plain_delta_tests::{change, compare_delta_in};
use crate::plain_query_tests::path_of;
use crate::same::{holds, same, same_list};
use dn_model::{
    Ask, Change, Entry, LinkId, PathEnd, Query, Replace, RouterId, Target, Topology, device_of,
    plain_objects, replaces_prefix, vrf,
};
use std::alloc::Global;
use std::process::Abort;

const LO: u32 = 0x0A00_0000;

const HI: u32 = 0x0AFF_FFFF;

/// v1, the VRF of r1.
const VRF: u16 = 3;

/// From v1 to r2 over the link d.
const BY_ITS_LINK: Target = Target::To(RouterId(1), LinkId(3));

/// The last of these entries changes this.
fn compare_last(rt: &impl Abort, alloc: Global, entries: &[Entry], want: &[Change]) {
    let t = network_with_vrf(rt, alloc, Replace::Key);
    compare_delta_in(rt, alloc, &t, entries, want);
}

/// The walk of 10.1.2.3 from the router of this name has these routers, and there no route.
fn compare_path(rt: &impl Abort, alloc: Global, entries: &[Entry], from: &[u8], want: &[RouterId]) {
    let t = network_with_vrf(rt, alloc, Replace::Key);
    let query = Query::of(alloc, Ask::Path(name_of(rt, alloc, from), 0x0A01_0203));
    let answer = answer_in(rt, alloc, &t, entries, &query);
    let end = PathEnd::At(Target::NoRoute);
    same(rt, &path_of(&answer), &Some((want, end)));
}

#[test]
fn a_vrf_has_routes_of_its_own(rt: HostRuntime) {
    let alloc = rt.alloc();
    let of_vrf = [set(VRF, ten(), 20, BY_ITS_LINK)];
    let of_device = [set(0, ten(), 20, TO_SECOND)];
    let hops = [RouterId(VRF), RouterId(1)];
    compare_path(&rt, alloc, &of_vrf, b"v1", &hops);
    compare_path(&rt, alloc, &of_vrf, b"r1", &[RouterId(0)]);
    compare_path(&rt, alloc, &of_device, b"v1", &[RouterId(VRF)]);
    compare_path(&rt, alloc, &of_device, b"r1", &[RouterId(0), RouterId(1)]);
}

#[test]
fn a_route_of_a_vrf_goes_by_its_devices_object(rt: HostRuntime) {
    let alloc = rt.alloc();
    let entries = [
        object(0, 7, TO_SECOND),
        object(1, 7, Target::Local),
        set_by(VRF, ten(), 20, 7),
        object(1, 7, Target::Exit(1)),
        object(0, 7, TO_THIRD),
    ];
    let first = [change(VRF, LO, HI, Target::NoRoute, TO_SECOND)];
    let moved = [change(VRF, LO, HI, TO_SECOND, TO_THIRD)];
    compare_last(&rt, alloc, &entries[..3], &first);
    compare_last(&rt, alloc, &entries[..4], &[]);
    compare_last(&rt, alloc, &entries, &moved);
}

#[test]
fn routes_of_a_device_and_its_vrf_go_with_an_object(rt: HostRuntime) {
    let alloc = rt.alloc();
    let entries = [
        object(0, 7, TO_SECOND),
        set_by(0, ten_one(), 20, 7),
        set_by(VRF, ten(), 20, 7),
        set(VRF, ten(), 30, BY_ITS_LINK),
        no_object(1, 7),
        no_object(0, 7),
        object(0, 7, TO_SECOND),
    ];
    let gone = [
        change(0, 0x0A01_0000, 0x0A01_FFFF, TO_SECOND, Target::NoRoute),
        change(VRF, LO, HI, TO_SECOND, BY_ITS_LINK),
    ];
    compare_last(&rt, alloc, &entries[..5], &[]);
    compare_last(&rt, alloc, &entries[..6], &gone);
    compare_last(&rt, alloc, &entries, &[]);
}

/// The VRF has these objects after a history.
fn compare_objects(rt: &impl Abort, alloc: Global, entries: &[Entry], want: &[(u32, Target)]) {
    let t = network_with_vrf(rt, alloc, Replace::Key);
    let objects = plain_objects(alloc, &t, entries, RouterId(VRF)).expect(rt, "memory");
    same_list(rt, objects.as_slice(), want);
}

#[test]
fn a_vrf_has_the_objects_of_its_device(rt: HostRuntime) {
    let alloc = rt.alloc();
    let entries = [object(0, 7, TO_SECOND), object(1, 8, Target::Local)];
    compare_objects(&rt, alloc, &entries, &[(7, TO_SECOND)]);
}

/// The VRF of a device by the number of its table is this router.
fn compare_vrf(rt: &impl Abort, t: &Topology, device: u16, number: u32, want: Option<RouterId>) {
    same(rt, &vrf(t, RouterId(device), number), &want);
}

/// A router belongs to this device.
fn compare_device(rt: &impl Abort, t: &Topology, router: u16, device: RouterId) {
    same(rt, &device_of(t, RouterId(router)), &device);
}

#[test]
fn a_vrf_is_found_by_its_table(rt: HostRuntime) {
    let t = network_with_vrf(&rt, rt.alloc(), Replace::Prefix);
    compare_vrf(&rt, &t, 0, 10, Some(RouterId(VRF)));
    compare_vrf(&rt, &t, 0, 254, None);
    compare_vrf(&rt, &t, 0, 11, None);
    compare_vrf(&rt, &t, 1, 10, None);
    compare_vrf(&rt, &t, VRF, 10, None);
    compare_device(&rt, &t, VRF, RouterId(0));
    compare_device(&rt, &t, 1, RouterId(1));
    holds(&rt, replaces_prefix(&t, RouterId(0)));
    holds(&rt, !replaces_prefix(&t, RouterId(VRF)));
}

#[test]
fn the_mark_of_a_device_is_not_its_vrfs(rt: HostRuntime) {
    let alloc = rt.alloc();
    let entries = [
        set(VRF, ten(), 20, TO_SECOND),
        set(VRF, ten(), 5, TO_THIRD),
        clear(VRF, ten(), Some(5)),
    ];
    let t = network_with_vrf(&rt, alloc, Replace::Prefix);
    let back = [change(VRF, LO, HI, TO_THIRD, TO_SECOND)];
    compare_delta_in(&rt, alloc, &t, &entries, &back);
}
