//! Small lists of changes, which were worked out by hand.

ghost use Rattle.std.specs.Prelude.{◌≡◌, ◌≤◌, []};
ghost use Rattle.delta_graph.specs.Pushed.{IsPushed};

use crate::network::{FIRST, crosses};
use crate::same::same_list;
use base::{Change, RouterId, Run, Target};
use delta_graph::Delta;
use std::alloc::Global;
use std::process::Abort;

/// From no route to the router's own, at these addresses.
fn change(router: u16, lo: u32, hi: u32) -> Change
    requires { lo ≤ hi }
    ensures router { result.router.0 ≡ router }
    ensures lo { result.run.lo ≡ lo }
    ensures hi { result.run.hi ≡ hi }
    ensures differ { result.before ≡ result.after → ⊥ }
{
    Change {
        router: RouterId(router),
        run: Run { lo, hi },
        before: Target::NoRoute,
        after: Target::Local,
    }
}

/// One change.
fn one_change(rt: &impl Abort, alloc: Global, change: Change) -> Delta
    requires ends { change.run.lo ≤ change.run.hi }
    requires differ { change.before ≡ change.after → ⊥ }
    ensures { IsPushed [] result change }
{
    let mut delta = Delta::new(alloc);
    delta.push(change).expect(rt, "memory");
    crosses(&delta);
    delta
}

#[test]
fn touching_changes_with_the_same_targets_are_one(rt: HostRuntime) {
    let alloc = rt.alloc();
    let first = change(0, 0, 9);
    let second = change(0, 10, 19);
    let mut delta = one_change(&rt, alloc, second);
    delta.push(first).expect(&rt, "memory");
    same_list(&rt, delta.changes(), &[change(0, 0, 19)][..]);
    let runs = delta.runs_of(alloc, FIRST).expect(&rt, "memory");
    same_list(&rt, runs.as_slice(), &[Run { lo: 0, hi: 19 }][..]);
}

#[test]
fn changes_stand_by_router_and_then_by_address(rt: HostRuntime) {
    let alloc = rt.alloc();
    let low = change(0, 7, 9);
    let high = change(1, 5, 5);
    let mut delta = one_change(&rt, alloc, high);
    let other = one_change(&rt, alloc, low);
    delta.merge(alloc, &other).expect(&rt, "memory");
    same_list(&rt, delta.changes(), &[low, high][..]);
}
