//! Walks by rows whose answers are found by hand.

ghost use Rattle.std.specs.Prelude.{◌≡◌, ◌<◌};

use crate::network::{FIRST, LAST, SECOND, there_and_back};
use crate::one_thread::{path_alone, reach_alone, uses_alone};
use crate::same::{same, same_list};
use base::{LinkId, PathEnd, RouterId, Run, Target};
use label_view::ListView;
use std::alloc::Global;
use std::process::Abort;

/// The walk of an address from the first router has these hops, and ends so.
fn compare_path(
    rt: &impl Abort,
    alloc: Global,
    view: &ListView,
    address: u32,
    want: &[RouterId],
    end: PathEnd,
)
    requires { view.now.routers ≡ 2 }
{
    let (hops, last) = path_alone(rt, alloc, view, FIRST, address);
    same_list(rt, hops.as_slice(), want);
    same(rt, &last, &end);
}

/// These addresses come from a router to another.
fn compare_reach(
    rt: &impl Abort,
    alloc: Global,
    view: &ListView,
    first: RouterId,
    to: RouterId,
    run: Run,
)
    requires routers { view.now.routers ≡ 2 }
    requires router { first.0 < 2 }
{
    let runs = reach_alone(rt, alloc, view, first, to);
    same_list(rt, runs.as_slice(), &[run][..]);
}

#[test]
fn a_walk_ends_or_goes_round(rt: HostRuntime) {
    let alloc = rt.alloc();
    let view = there_and_back(&rt, alloc);
    let ends = PathEnd::At(Target::Local);
    compare_path(&rt, alloc, &view, 5, &[FIRST, SECOND][..], ends);
    let round = [FIRST, SECOND, FIRST];
    compare_path(&rt, alloc, &view, 15, &round[..], PathEnd::Loop);
}

#[test]
fn touching_rows_that_come_to_a_router_are_one_run(rt: HostRuntime) {
    let alloc = rt.alloc();
    let view = there_and_back(&rt, alloc);
    let (low, back) = (Run { lo: 0, hi: 19 }, Run { lo: 10, hi: 19 });
    compare_reach(&rt, alloc, &view, FIRST, SECOND, low);
    compare_reach(&rt, alloc, &view, SECOND, FIRST, back);
    let all = Run { lo: 0, hi: LAST };
    compare_reach(&rt, alloc, &view, FIRST, FIRST, all);
}

#[test]
fn each_end_uses_a_link_for_itself(rt: HostRuntime) {
    let alloc = rt.alloc();
    let view = there_and_back(&rt, alloc);
    let (first, second) = uses_alone(&rt, alloc, &view, FIRST, SECOND, LinkId(0));
    same_list(&rt, first.as_slice(), &[Run { lo: 0, hi: 19 }][..]);
    same_list(&rt, second.as_slice(), &[Run { lo: 10, hi: 19 }][..]);
}
