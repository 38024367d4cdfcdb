//! Links that go down and come up, on small histories, whose answers were worked out by hand.

use crate::network::{SECOND_TO_THIRD, TO_SECOND, answer, link_entry, name_of, set, ten};
use crate::plain_delta_tests::{change, compare_delta};
use crate::same::{same, same_list};
use dn_model::{Answer, Ask, Entry, LinkId, Run, Target, plain_downs};
use std::alloc::Global;
use std::process::Abort;

const LO: u32 = 0x0A00_0000;

const HI: u32 = 0x0AFF_FFFF;

/// 10.0.0.0/8 goes from r1 by r2 to r3 and leaves there; then the link b from r2 to r3 goes down and comes up.
fn history() -> [Entry; 5] {
    [
        set(0, ten(), 20, TO_SECOND),
        set(1, ten(), 20, SECOND_TO_THIRD),
        set(2, ten(), 20, Target::Exit(1)),
        link_entry(2, true),
        link_entry(2, false),
    ]
}

/// The runs of an answer; None where it is another.
fn runs_of(answer: &Answer) -> Option<&[Run]> {
    match answer {
        Answer::Runs(runs) => Some(runs.as_slice()),
        _ => None,
    }
}

/// These addresses come from r1 to r3.
fn compare_reach(rt: &impl Abort, alloc: Global, entries: &[Entry], want: &[Run]) {
    let question = Ask::Reach(name_of(rt, alloc, b"r1"), name_of(rt, alloc, b"r3"));
    let answer = answer(rt, alloc, entries, question);
    same(rt, &runs_of(&answer), &Some(want));
}

/// These links are down.
fn compare_downs(rt: &impl Abort, alloc: Global, entries: &[Entry], want: &[LinkId]) {
    let downs = plain_downs(alloc, entries).expect(rt, "memory");
    same_list(rt, downs.as_slice(), want);
}

#[test]
fn a_link_goes_down_and_comes_up(rt: HostRuntime) {
    let alloc = rt.alloc();
    let history = history();
    let ten = [Run { lo: LO, hi: HI }];
    let gone = Target::LinkDown(LinkId(2));
    let down = [change(1, LO, HI, SECOND_TO_THIRD, gone)];
    let up = [change(1, LO, HI, gone, SECOND_TO_THIRD)];
    compare_reach(&rt, alloc, &history[..3], &ten);
    compare_reach(&rt, alloc, &history[..4], &[]);
    compare_reach(&rt, alloc, &history, &ten);
    compare_delta(&rt, alloc, &history[..4], &down);
    compare_delta(&rt, alloc, &history, &up);
}

#[test]
fn a_link_is_as_the_last_entry_says(rt: HostRuntime) {
    let alloc = rt.alloc();
    let b = LinkId(2);
    let twice = [
        link_entry(2, true),
        link_entry(2, true),
        link_entry(2, false),
        link_entry(2, false),
    ];
    compare_downs(&rt, alloc, &twice[..1], &[b]);
    compare_downs(&rt, alloc, &twice[..2], &[b]);
    compare_downs(&rt, alloc, &twice[..3], &[]);
    compare_downs(&rt, alloc, &twice, &[]);
    let two = [
        link_entry(0, true),
        link_entry(2, true),
        link_entry(0, true),
    ];
    compare_downs(&rt, alloc, &two, &[b, LinkId(0)]);
}

#[test]
fn a_link_that_is_down_twice_over_comes_up_at_once(rt: HostRuntime) {
    let alloc = rt.alloc();
    let entries = [
        set(1, ten(), 20, SECOND_TO_THIRD),
        link_entry(2, true),
        link_entry(2, true),
        link_entry(2, false),
    ];
    let up = [change(1, LO, HI, Target::LinkDown(LinkId(2)), SECOND_TO_THIRD)];
    compare_delta(&rt, alloc, &entries[..3], &[]);
    compare_delta(&rt, alloc, &entries, &up);
}
