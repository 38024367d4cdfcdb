//! The plain evaluator's routes, targets and walks on small histories, whose answers were worked out by hand.

use crate::network::{BACK, TO_SECOND, clear, network, set, ten, ten_one};
use crate::same::{same, same_list};
use dn_model::{Entry, LinkId, PathEnd, RouterId, Target, plain_routes, plain_target, plain_walk};
use std::alloc::Global;
use std::process::Abort;

/// With no link down, router 0 does this with 10.1.0.7 after a history.
fn compare_first(rt: &impl Abort, alloc: Global, entries: &[Entry], want: Target) {
    let t = network(rt, alloc);
    let routes = plain_routes(alloc, &t, entries, RouterId(0)).expect(rt, "memory");
    let target = plain_target(routes.as_slice(), &[], &[], 0x0A01_0007);
    same(rt, &(entries.len(), target), &(entries.len(), want));
}

#[test]
fn least_metric_of_the_longest_prefix(rt: HostRuntime) {
    let alloc = rt.alloc();
    let history = [
        set(0, ten_one(), 5, Target::Exit(1)),
        set(0, ten_one(), 20, Target::Exit(2)),
        set(0, ten(), 0, Target::Exit(3)),
        set(1, ten_one(), 0, Target::Exit(4)),
        clear(0, ten_one(), Some(5)),
        clear(0, ten_one(), None),
        clear(0, ten(), None),
    ];
    compare_first(&rt, alloc, &[], Target::NoRoute);
    compare_first(&rt, alloc, &history[..1], Target::Exit(1));
    compare_first(&rt, alloc, &history[..2], Target::Exit(1));
    compare_first(&rt, alloc, &history[..3], Target::Exit(1));
    compare_first(&rt, alloc, &history[..4], Target::Exit(1));
    compare_first(&rt, alloc, &history[..5], Target::Exit(2));
    compare_first(&rt, alloc, &history[..6], Target::Exit(3));
    compare_first(&rt, alloc, &history, Target::NoRoute);
}

/// With these links down, router 0 does this with an address after a history.
fn compare_down(
    rt: &impl Abort,
    alloc: Global,
    entries: &[Entry],
    down: &[LinkId],
    a: u32,
    want: Target,
) {
    let t = network(rt, alloc);
    let routes = plain_routes(alloc, &t, entries, RouterId(0)).expect(rt, "memory");
    same(rt, &plain_target(routes.as_slice(), &[], down, a), &want);
}

#[test]
fn a_link_that_is_down(rt: HostRuntime) {
    let alloc = rt.alloc();
    let up = Target::To(RouterId(1), LinkId(4));
    let history = [set(0, ten(), 0, up)];
    let both = [LinkId(3), LinkId(4)];
    let gone = Target::LinkDown(LinkId(4));
    compare_down(&rt, alloc, &history, &both[..1], 0x0AFF_FFFF, up);
    compare_down(&rt, alloc, &history, &both, 0x0AFF_FFFF, gone);
    compare_down(
        &rt,
        alloc,
        &history,
        &both[1..],
        0x0B00_0000,
        Target::NoRoute,
    );
    compare_down(
        &rt,
        alloc,
        &history,
        &both[1..],
        0x09FF_FFFF,
        Target::NoRoute,
    );
}

/// The walk of an address from router 0 has these routers and this end.
fn compare_walk(
    rt: &impl Abort,
    alloc: Global,
    entries: &[Entry],
    a: u32,
    want: &[RouterId],
    want_end: PathEnd,
) {
    let t = network(rt, alloc);
    let walk = plain_walk(alloc, &t, entries, &[], RouterId(0), a);
    let (routers, end) = walk.expect(rt, "memory");
    same_list(rt, routers.as_slice(), want);
    same(rt, &end, &want_end);
}

/// The network has three routers, so that a walk of three hops is in a loop.
#[test]
fn a_walk_that_loops(rt: HostRuntime) {
    let alloc = rt.alloc();
    let history = [set(0, ten(), 0, TO_SECOND), set(1, ten(), 0, BACK)];
    let around = [RouterId(0), RouterId(1), RouterId(0), RouterId(1)];
    compare_walk(&rt, alloc, &history, 0x0A00_0000, &around, PathEnd::Loop);
    let stays = PathEnd::At(Target::NoRoute);
    compare_walk(&rt, alloc, &history, 0x0B00_0000, &around[..1], stays);
}
