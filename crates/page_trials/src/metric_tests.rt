//! One prefix with thousands of metrics.

use crate::same::same;
use crate::table_tests::{copied, set_alone, ten};
use dn_model::{Route, Target, Way};
use route_table::RouteTable;
use std::alloc::Global;
use std::process::Abort;

/// How many metrics the prefix comes to have: 0 and those above it.
const MANY: u32 = 5000;

fn set(rt: &impl Abort, alloc: Global, table: &mut RouteTable, metric: u32) {
    table
        .set(alloc, ten(), metric, Way::Straight(Target::Exit(metric)))
        .expect(rt, "memory");
}

fn clear(rt: &impl Abort, alloc: Global, table: &mut RouteTable, metric: Option<u32>) {
    table.clear(alloc, ten(), metric).expect(rt, "memory");
}

/// Whether each metric has a route: none has.
fn no_metrics(rt: &impl Abort, alloc: Global) -> Vec<bool> {
    let mut held = Vec::new(alloc);
    for _metric in 0..MANY {
        held.push(false).expect(rt, "memory");
    }
    held
}

fn mark(held: &mut Vec<bool>, metric: u32, is_held: bool) {
    let place = metric as usize;
    if place < held.len() {
        held[place] = is_held;
    }
}

/// The least metric of the prefix is the first that has a route.
fn compare_least(rt: &impl Abort, table: &RouteTable, held: &[bool]) {
    let least = match table.least_of(ten()) {
        Some(route) => Some(route.metric as usize),
        None => None,
    };
    same(rt, &least, &held.iter().position(|&is_held| is_held));
}

/// Puts all metrics, in an order of their own.
fn put_all(rt: &impl Abort, alloc: Global, table: &mut RouteTable, held: &mut Vec<bool>) {
    for k in 0..MANY {
        let metric = k * 1777 % MANY;
        set(rt, alloc, table, metric);
        mark(held, metric, true);
        if k % 50 == 0 {
            compare_least(rt, table, held);
        }
    }
}

/// Clears all metrics, in another order.
fn clear_all(rt: &impl Abort, alloc: Global, table: &mut RouteTable, held: &mut Vec<bool>) {
    for k in 0..MANY {
        let metric = (k * 3083 + 17) % MANY;
        clear(rt, alloc, table, Some(metric));
        mark(held, metric, false);
        if k % 50 == 0 {
            compare_least(rt, table, held);
        }
    }
}

/// The table lists all metrics, in order.
fn compare_all(rt: &impl Abort, alloc: Global, table: &RouteTable) {
    let routes = table.routes(alloc).expect(rt, "memory");
    same(rt, &routes.as_slice().len(), &(MANY as usize));
    let mut metric = 0u32;
    for route in routes.as_slice() {
        same(rt, &route.metric, &metric);
        same(rt, &route.way, &Way::Straight(Target::Exit(metric)));
        metric = metric.wrapping_add(1);
    }
}

#[test]
fn many_metrics_come_in_one_order_and_go_in_another(rt: HostRuntime) {
    let alloc = rt.alloc();
    let mut table = RouteTable::new();
    let mut held = no_metrics(&rt, alloc);
    put_all(&rt, alloc, &mut table, &mut held);
    compare_all(&rt, alloc, &table);
    clear_all(&rt, alloc, &mut table, &mut held);
    compare_least(&rt, &table, &held);
    set(&rt, alloc, &mut table, 7);
    mark(&mut held, 7, true);
    compare_least(&rt, &table, &held);
}

#[test]
fn a_copy_keeps_the_metrics_that_go(rt: HostRuntime) {
    let alloc = rt.alloc();
    let mut table = RouteTable::new();
    let mut held = no_metrics(&rt, alloc);
    put_all(&rt, alloc, &mut table, &mut held);
    let copy = copied(&rt, &table);
    clear_all(&rt, alloc, &mut table, &mut held);
    compare_least(&rt, &table, &held);
    compare_all(&rt, alloc, &copy);
}

#[test]
fn a_route_put_alone_takes_the_place_of_many_metrics(rt: HostRuntime) {
    let alloc = rt.alloc();
    let mut table = RouteTable::new();
    let mut held = no_metrics(&rt, alloc);
    put_all(&rt, alloc, &mut table, &mut held);
    let copy = copied(&rt, &table);
    let alone = Way::Straight(Target::Local);
    let new = Route {
        prefix: ten(),
        metric: 4000,
        way: alone,
    };
    set_alone(&rt, alloc, &mut table, new);
    let mut held = no_metrics(&rt, alloc);
    mark(&mut held, 4000, true);
    compare_least(&rt, &table, &held);
    clear(&rt, alloc, &mut table, Some(3));
    compare_least(&rt, &table, &held);
    clear(&rt, alloc, &mut table, Some(4000));
    mark(&mut held, 4000, false);
    compare_least(&rt, &table, &held);
    compare_all(&rt, alloc, &copy);
}

#[test]
fn a_clearing_without_a_metric_takes_many(rt: HostRuntime) {
    let alloc = rt.alloc();
    let mut table = RouteTable::new();
    let mut held = no_metrics(&rt, alloc);
    put_all(&rt, alloc, &mut table, &mut held);
    let copy = copied(&rt, &table);
    clear(&rt, alloc, &mut table, None);
    let held = no_metrics(&rt, alloc);
    compare_least(&rt, &table, &held);
    compare_all(&rt, alloc, &copy);
}
