//! Next-hop objects and their users.

use crate::network::{
    TO_SECOND, TO_THIRD, clear, network_with_vrf, no_object, object, set, set_by, ten, ten_one,
};
use crate::same::{holds, same, same_list};
use dn_model::{
    Entry, Prefix, Replace, RouterId, Target, Topology, Way, plain_objects, plain_routes,
    plain_target,
};
use nexthop_objects::Objects;
use std::alloc::Global;
use std::process::Abort;

const FIRST: RouterId = RouterId(0);

const SECOND: RouterId = RouterId(1);

/// A VRF of the first device.
const VRF: RouterId = RouterId(3);

/// A route by an object: its router, prefix and metric.
type User = (RouterId, Prefix, u32);

/// Adds a route to the users of an object of the first device.
fn add(rt: &impl Abort, objects: &mut Objects, id: u32, user: User) {
    let (router, prefix, metric) = user;
    objects
        .add_user(FIRST, id, router, prefix, metric)
        .expect(rt, "memory");
}

/// Takes a route away from the users of an object of the first device.
fn remove(objects: &mut Objects, id: u32, user: User) {
    let (router, prefix, metric) = user;
    objects.remove_user(FIRST, id, router, prefix, metric);
}

/// Sets an object of a device.
fn put(rt: &impl Abort, objects: &mut Objects, device: RouterId, id: u32, target: Target) {
    objects.put(device, id, target).expect(rt, "memory");
}

/// An object, by its device and its number, has this target.
fn compare_target(
    rt: &impl Abort,
    objects: &Objects,
    object: (RouterId, u32),
    want: Option<Target>,
) {
    let (device, id) = object;
    same(rt, &objects.find(device, id), &want);
}

/// Takes an object of the first device out. It answers whether it was there.
fn take_out(objects: &mut Objects, id: u32) -> bool {
    objects.take_out(FIRST, id)
}

fn copied(rt: &impl Abort, objects: &Objects) -> Objects {
    objects.copy().expect(rt, "memory")
}

/// An object of the first device has so many users.
fn compare_count(rt: &impl Abort, objects: &Objects, id: u32, want: usize) {
    let users = objects.users(FIRST, id).expect(rt, "memory");
    same(rt, &users.len(), &want);
}

/// A value crosses to another thread, and several share it.
fn crosses<T: Send + Sync>(_value: &T) {}

/// An object of the first device has these users.
fn compare_users(rt: &impl Abort, objects: &Objects, id: u32, want: &[User]) {
    let users = objects.users(FIRST, id).expect(rt, "memory");
    same_list(rt, users.as_slice(), want);
}

#[test]
fn each_device_has_its_own_ids(rt: HostRuntime) {
    let mut objects = Objects::new(rt.alloc());
    compare_target(&rt, &objects, (FIRST, 7), None);
    put(&rt, &mut objects, FIRST, 7, TO_SECOND);
    put(&rt, &mut objects, SECOND, 7, Target::Local);
    put(&rt, &mut objects, FIRST, 8, TO_THIRD);
    compare_target(&rt, &objects, (FIRST, 7), Some(TO_SECOND));
    compare_target(&rt, &objects, (SECOND, 7), Some(Target::Local));
    compare_target(&rt, &objects, (FIRST, 8), Some(TO_THIRD));
    compare_target(&rt, &objects, (SECOND, 8), None);
    holds(&rt, take_out(&mut objects, 7));
    holds(&rt, !take_out(&mut objects, 7));
    compare_target(&rt, &objects, (FIRST, 7), None);
    compare_target(&rt, &objects, (SECOND, 7), Some(Target::Local));
    compare_target(&rt, &objects, (FIRST, 8), Some(TO_THIRD));
}

#[test]
fn an_id_that_is_put_again_keeps_its_users(rt: HostRuntime) {
    let mut objects = Objects::new(rt.alloc());
    put(&rt, &mut objects, FIRST, 7, TO_SECOND);
    add(&rt, &mut objects, 7, (FIRST, ten(), 20));
    put(&rt, &mut objects, FIRST, 7, TO_THIRD);
    compare_target(&rt, &objects, (FIRST, 7), Some(TO_THIRD));
    compare_users(&rt, &objects, 7, &[(FIRST, ten(), 20)]);
    crosses(&objects);
}

#[test]
fn a_user_that_is_added_twice_stands_once(rt: HostRuntime) {
    let mut objects = Objects::new(rt.alloc());
    put(&rt, &mut objects, FIRST, 7, TO_SECOND);
    add(&rt, &mut objects, 7, (VRF, ten(), 20));
    add(&rt, &mut objects, 7, (FIRST, ten_one(), 20));
    add(&rt, &mut objects, 7, (VRF, ten(), 20));
    add(&rt, &mut objects, 7, (FIRST, ten_one(), 20));
    let want = [(FIRST, ten_one(), 20), (VRF, ten(), 20)];
    compare_users(&rt, &objects, 7, &want);
}

#[test]
fn users_of_ids_that_are_not_there_are_kept(rt: HostRuntime) {
    let mut objects = Objects::new(rt.alloc());
    add(&rt, &mut objects, 7, (FIRST, ten(), 20));
    compare_target(&rt, &objects, (FIRST, 7), None);
    compare_users(&rt, &objects, 7, &[(FIRST, ten(), 20)]);
    put(&rt, &mut objects, FIRST, 7, TO_SECOND);
    compare_users(&rt, &objects, 7, &[(FIRST, ten(), 20)]);
    holds(&rt, take_out(&mut objects, 7));
    compare_users(&rt, &objects, 7, &[(FIRST, ten(), 20)]);
    compare_users(&rt, &objects, 8, &[]);
}

#[test]
fn one_of_three_metrics_is_removed(rt: HostRuntime) {
    let mut objects = Objects::new(rt.alloc());
    add(&rt, &mut objects, 7, (FIRST, ten(), 30));
    add(&rt, &mut objects, 7, (FIRST, ten(), 10));
    add(&rt, &mut objects, 7, (FIRST, ten(), 20));
    add(&rt, &mut objects, 8, (FIRST, ten(), 20));
    remove(&mut objects, 7, (FIRST, ten(), 20));
    remove(&mut objects, 7, (FIRST, ten_one(), 10));
    remove(&mut objects, 7, (VRF, ten(), 10));
    let left = [(FIRST, ten(), 10), (FIRST, ten(), 30)];
    compare_users(&rt, &objects, 7, &left);
    compare_users(&rt, &objects, 8, &[(FIRST, ten(), 20)]);
}

#[test]
fn a_copy_is_one_of_its_own(rt: HostRuntime) {
    let mut objects = Objects::new(rt.alloc());
    put(&rt, &mut objects, FIRST, 7, TO_SECOND);
    add(&rt, &mut objects, 7, (FIRST, ten(), 20));
    let copy = copied(&rt, &objects);
    holds(&rt, take_out(&mut objects, 7));
    remove(&mut objects, 7, (FIRST, ten(), 20));
    add(&rt, &mut objects, 7, (FIRST, ten_one(), 20));
    compare_target(&rt, &copy, (FIRST, 7), Some(TO_SECOND));
    compare_users(&rt, &copy, 7, &[(FIRST, ten(), 20)]);
}

/// The first users of an object are the first device's routes of 10.0.0.0/8, by metrics from 0 on.
fn compare_metrics(rt: &impl Abort, objects: &Objects, id: u32) {
    let users = objects.users(FIRST, id).expect(rt, "memory");
    let metrics = 0..1_000_u32;
    for (user, metric) in users.as_slice().iter().zip(metrics) {
        same(rt, user, &(FIRST, ten(), metric));
    }
}

/// Adds a thousand routes to the users of each of three objects.
fn add_thousand(rt: &impl Abort, objects: &mut Objects) {
    for i in 0..1_000_u32 {
        add(rt, objects, 7, (FIRST, ten(), 999 - i));
        add(rt, objects, 6, (FIRST, ten(), i));
        add(rt, objects, 8, (FIRST, ten(), i));
    }
}

#[test]
fn an_object_of_a_thousand_routes(rt: HostRuntime) {
    let mut objects = Objects::new(rt.alloc());
    add_thousand(&rt, &mut objects);
    compare_count(&rt, &objects, 7, 1_000);
    compare_metrics(&rt, &objects, 7);
    for i in 0..999_u32 {
        remove(&mut objects, 7, (FIRST, ten(), i));
    }
    compare_users(&rt, &objects, 7, &[(FIRST, ten(), 999)]);
    compare_count(&rt, &objects, 8, 1_000);
}

/// What a router does with 10.1.2.3 after these entries.
fn target_after(
    rt: &impl Abort,
    alloc: Global,
    t: &Topology,
    entries: &[Entry],
    router: RouterId,
) -> Target {
    let routes = plain_routes(alloc, t, entries, router).expect(rt, "memory");
    let objects = plain_objects(alloc, t, entries, router).expect(rt, "memory");
    plain_target(routes.as_slice(), objects.as_slice(), &[], 0x0A01_0203)
}

/// Both histories do the same with 10.1.2.3, at the first device and at its VRF.
fn compare_histories(rt: &impl Abort, alloc: Global, entries: &[Entry], flat: &[Entry]) {
    let t = network_with_vrf(rt, alloc, Replace::Key);
    for router in [FIRST, VRF] {
        let want = target_after(rt, alloc, &t, flat, router);
        same(rt, &target_after(rt, alloc, &t, entries, router), &want);
    }
}

#[test]
fn a_history_without_objects_does_the_same(rt: HostRuntime) {
    let alloc = rt.alloc();
    let entries = [
        object(0, 7, TO_SECOND),
        set_by(0, ten(), 20, 7),
        set_by(3, ten_one(), 5, 7),
        object(0, 7, TO_THIRD),
        set(0, ten(), 30, Target::Local),
        no_object(0, 7),
    ];
    let flat = [
        set(0, ten(), 20, TO_SECOND),
        set(3, ten_one(), 5, TO_SECOND),
        set(0, ten(), 20, TO_THIRD),
        set(3, ten_one(), 5, TO_THIRD),
        set(0, ten(), 30, Target::Local),
        clear(0, ten(), Some(20)),
        clear(3, ten_one(), Some(5)),
    ];
    compare_histories(&rt, alloc, &entries[..2], &flat[..1]);
    compare_histories(&rt, alloc, &entries[..3], &flat[..2]);
    compare_histories(&rt, alloc, &entries[..4], &flat[..4]);
    compare_histories(&rt, alloc, &entries[..5], &flat[..5]);
    compare_histories(&rt, alloc, &entries, &flat);
}

/// 10.0.0.0/16.
fn ten_zero() -> Prefix {
    Prefix::new(0x0A00_0000, 16)
}

#[test]
fn users_come_in_their_order(rt: HostRuntime) {
    let mut objects = Objects::new(rt.alloc());
    let want = [
        (FIRST, ten(), 1),
        (FIRST, ten(), 2),
        (FIRST, ten_zero(), 0),
        (FIRST, ten_one(), 1),
        (VRF, ten(), 0),
    ];
    for user in want.iter().rev() {
        add(&rt, &mut objects, 7, *user);
    }
    compare_users(&rt, &objects, 7, &want);
}

/// The routes by an object in the table of a router after these entries.
fn users_at(
    rt: &impl Abort,
    alloc: Global,
    entries: &[Entry],
    router: RouterId,
    id: u32,
) -> Vec<User> {
    let t = network_with_vrf(rt, alloc, Replace::Prefix);
    let routes = plain_routes(alloc, &t, entries, router).expect(rt, "memory");
    let mut users = Vec::new(alloc);
    for route in routes.as_slice() {
        if route.way == Way::By(id) {
            users
                .push((router, route.prefix, route.metric))
                .expect(rt, "memory");
        }
    }
    users
}

/// Each of some routes is one of these users.
fn are_users(rt: &impl Abort, users: &[User], routes: &[User]) {
    for route in routes {
        holds(rt, users.contains(route));
    }
}

/// The users of an object are the routes by it in the tables of the first device and of its VRF after these entries.
fn compare_with_tables(
    rt: &impl Abort,
    alloc: Global,
    entries: &[Entry],
    objects: &Objects,
    id: u32,
) {
    let users = objects.users(FIRST, id).expect(rt, "memory");
    let first = users_at(rt, alloc, entries, FIRST, id);
    let of_vrf = users_at(rt, alloc, entries, VRF, id);
    are_users(rt, users.as_slice(), first.as_slice());
    are_users(rt, users.as_slice(), of_vrf.as_slice());
    same(rt, &users.len(), &first.len().saturating_add(of_vrf.len()));
}

/// Takes all routes away from the users of an object.
fn remove_all(rt: &impl Abort, objects: &mut Objects, id: u32) {
    let users = objects.users(FIRST, id).expect(rt, "memory");
    for user in users.as_slice() {
        remove(objects, id, *user);
    }
}

#[test]
fn users_are_the_routes_of_tables(rt: HostRuntime) {
    let alloc = rt.alloc();
    let entries = [
        set_by(3, ten(), 30, 7),
        set_by(0, ten(), 30, 7),
        set_by(0, ten(), 40, 8),
        set_by(0, ten_one(), 5, 7),
        set(0, ten_one(), 9, TO_THIRD),
        set_by(0, ten(), 50, 7),
        no_object(0, 7),
    ];
    let mut objects = Objects::new(alloc);
    add(&rt, &mut objects, 7, (VRF, ten(), 30));
    add(&rt, &mut objects, 7, (FIRST, ten(), 30));
    compare_with_tables(&rt, alloc, &entries[..2], &objects, 7);
    add(&rt, &mut objects, 8, (FIRST, ten(), 40));
    remove(&mut objects, 7, (FIRST, ten(), 30));
    add(&rt, &mut objects, 7, (FIRST, ten_one(), 5));
    compare_with_tables(&rt, alloc, &entries[..4], &objects, 7);
    compare_with_tables(&rt, alloc, &entries[..4], &objects, 8);
    remove(&mut objects, 7, (FIRST, ten_one(), 5));
    add(&rt, &mut objects, 7, (FIRST, ten(), 50));
    remove(&mut objects, 8, (FIRST, ten(), 40));
    compare_with_tables(&rt, alloc, &entries[..6], &objects, 7);
    compare_with_tables(&rt, alloc, &entries[..6], &objects, 8);
    remove_all(&rt, &mut objects, 7);
    compare_with_tables(&rt, alloc, &entries, &objects, 7);
}
