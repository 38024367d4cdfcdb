//! Waypoints by rows whose answers are found by hand.

ghost use Rattle.std.specs.Prelude.{◌≡◌};

use crate::network::{FIRST, LAST, SECOND, there_and_back};
use crate::one_thread::waypoint_alone;
use crate::same::same_list;
use base::{RouterId, Run};
use label_view::ListView;
use std::alloc::Global;
use std::process::Abort;

/// These addresses come from the first router to another without having met the waypoint.
fn compare(
    rt: &impl Abort,
    alloc: Global,
    view: &ListView,
    to: RouterId,
    through: RouterId,
    want: &[Run],
)
    requires { view.now.routers ≡ 2 }
{
    let runs = waypoint_alone(rt, alloc, view, FIRST, to, through);
    same_list(rt, runs.as_slice(), want);
}

#[test]
fn a_waypoint_counts_up_to_the_arrival(rt: HostRuntime) {
    let alloc = rt.alloc();
    let view = there_and_back(&rt, alloc);
    let missed = [Run { lo: 0, hi: 19 }];
    compare(&rt, alloc, &view, SECOND, RouterId(9), &missed[..]);
    let after = [Run { lo: 0, hi: LAST }];
    compare(&rt, alloc, &view, FIRST, SECOND, &after[..]);
}

#[test]
fn either_end_as_waypoint_is_met_by_all(rt: HostRuntime) {
    let alloc = rt.alloc();
    let view = there_and_back(&rt, alloc);
    compare(&rt, alloc, &view, SECOND, SECOND, &[][..]);
    compare(&rt, alloc, &view, SECOND, FIRST, &[][..]);
}
