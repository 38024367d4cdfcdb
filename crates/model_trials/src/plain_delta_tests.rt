//! What the last update changed, on small histories, whose answers were worked out by hand.

ghost use Rattle.std.specs.Prelude.{◌≤◌};

use crate::network::{TO_SECOND, TO_THIRD, answer, answer_in, clear, set, ten};
use crate::same::same;
use dn_model::{Answer, Ask, Change, Entry, Prefix, Query, RouterId, Run, Target, Topology};
use std::alloc::Global;
use std::process::Abort;

/// The changes that an answer tells; None where it is another.
fn changes_of(answer: &Answer) -> Option<&[Change]> {
    match answer {
        Answer::Delta(changes) => Some(changes.as_slice()),
        _ => None,
    }
}

/// The last of these updates of a network changed this.
pub fn compare_delta_in(
    rt: &impl Abort,
    alloc: Global,
    t: &Topology,
    entries: &[Entry],
    want: &[Change],
) {
    let answer = answer_in(rt, alloc, t, entries, &Query::of(alloc, Ask::Delta));
    same(rt, &changes_of(&answer), &Some(want));
}

/// The last of these updates changed this.
pub fn compare_delta(rt: &impl Abort, alloc: Global, entries: &[Entry], want: &[Change]) {
    let answer = answer(rt, alloc, entries, Ask::Delta);
    same(rt, &changes_of(&answer), &Some(want));
}

/// Where a router does something else.
pub fn change(router: u16, lo: u32, hi: u32, before: Target, after: Target) -> Change
    requires { lo ≤ hi }
{
    Change {
        router: RouterId(router),
        run: Run { lo, hi },
        before,
        after,
    }
}

#[test]
fn all_addresses_and_the_last(rt: HostRuntime) {
    let alloc = rt.alloc();
    let history = [
        set(0, Prefix::new(0, 0), 20, TO_SECOND),
        set(0, Prefix::new(u32::MAX, 32), 0, Target::Exit(1)),
    ];
    let all = [change(0, 0, u32::MAX, Target::NoRoute, TO_SECOND)];
    let last = [change(0, u32::MAX, u32::MAX, TO_SECOND, Target::Exit(1))];
    compare_delta(&rt, alloc, &[], &[]);
    compare_delta(&rt, alloc, &history[..1], &all);
    compare_delta(&rt, alloc, &history, &last);
}

#[test]
fn all_metrics_cleared(rt: HostRuntime) {
    let alloc = rt.alloc();
    let ten = ten();
    let (lo, hi) = (0x0A00_0000, 0x0AFF_FFFF);
    let history = [
        set(0, ten, 20, TO_SECOND),
        set(0, ten, 5, TO_THIRD),
        clear(0, ten, None),
        clear(0, ten, None),
    ];
    let second = [change(0, lo, hi, TO_SECOND, TO_THIRD)];
    let third = [change(0, lo, hi, TO_THIRD, Target::NoRoute)];
    compare_delta(&rt, alloc, &history[..2], &second);
    compare_delta(&rt, alloc, &history[..3], &third);
    compare_delta(&rt, alloc, &history, &[]);
}

#[test]
fn runs_around_a_longer_prefix(rt: HostRuntime) {
    let ten = ten();
    let exit = Target::Exit(1);
    let history = [
        set(1, Prefix::new(0x0A01_0000, 16), 0, Target::Local),
        set(1, Prefix::new(0x0AC0_0000, 10), 0, exit),
        set(0, ten, 0, exit),
        set(1, ten, 0, exit),
    ];
    let want = [
        change(1, 0x0A00_0000, 0x0A00_FFFF, Target::NoRoute, exit),
        change(1, 0x0A02_0000, 0x0ABF_FFFF, Target::NoRoute, exit),
    ];
    compare_delta(&rt, rt.alloc(), &history, &want);
}
