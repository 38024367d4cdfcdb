//! Queries of all addresses on small histories of three routers, whose answers were worked out by hand.

ghost use Rattle.std.specs.Prelude.{◌≡◌, ◌∷◌, [], codes};
ghost use Rattle.dn_model.specs.Query.{IsAskedWithout};

use crate::network::{
    BACK, SECOND_TO_THIRD, THIRD_TO_SECOND, TO_SECOND, TO_THIRD, answer, answer_to, clear,
    link_entry, name_of, set, ten, ten_one,
};
use crate::plain_delta_tests::{change, compare_delta};
use crate::same::{same, same_list};
use dn_model::{
    Answer, Ask, Cycle, DropKind, Entry, Hole, LinkId, List, Name, PathEnd, Prefix, Query,
    RouterId, Run, Target,
};
use std::alloc::Global;
use std::process::Abort;

/// 10.0.0.0/8, as runs.
const TEN: [Run; 1] = [Run {
    lo: 0x0A00_0000,
    hi: 0x0AFF_FFFF,
}];

/// All but 10.0.0.0/8.
const BUT_TEN: [Run; 2] = [
    Run {
        lo: 0,
        hi: 0x09FF_FFFF,
    },
    Run {
        lo: 0x0B00_0000,
        hi: u32::MAX,
    },
];

const ALL: [Run; 1] = [Run {
    lo: 0,
    hi: u32::MAX,
}];

fn ten_nine() -> Prefix {
    Prefix::new(0x0A09_0000, 24)
}

/// 10.0.0.0/8 goes from r1 by r2 to r3 and leaves there; at r2 10.1.0.0/16 goes back to r1, until that is cleared;
/// 10.9.0.0/24 goes from r1 to r3 at once.
fn history() -> [Entry; 6] {
    [
        set(0, ten(), 20, TO_SECOND),
        set(1, ten(), 20, SECOND_TO_THIRD),
        set(2, ten(), 20, Target::Exit(1)),
        set(1, ten_one(), 20, BACK),
        clear(1, ten_one(), None),
        set(0, ten_nine(), 20, TO_THIRD),
    ]
}

/// The runs of an answer; None where it is another.
fn runs_of(answer: &Answer) -> Option<&[Run]> {
    match answer {
        Answer::Runs(runs) => Some(runs.as_slice()),
        _ => None,
    }
}

/// The runs over both ends of a link; None where the answer is another.
fn uses_of(answer: &Answer) -> Option<(&[Run], &[Run])> {
    match answer {
        Answer::Uses(first, second) => Some((first.as_slice(), second.as_slice())),
        _ => None,
    }
}

/// The routers and the end of a path; None where the answer is another.
pub fn path_of(answer: &Answer) -> Option<(&[RouterId], PathEnd)> {
    match answer {
        Answer::Path { hops, end } => Some((hops.as_slice(), *end)),
        _ => None,
    }
}

/// These addresses from r1 come to the router of this name.
fn compare_reach(rt: &impl Abort, alloc: Global, entries: &[Entry], to: &[u8], want: &[Run]) {
    let question = Ask::Reach(name_of(rt, alloc, b"r1"), name_of(rt, alloc, to));
    let answer = answer(rt, alloc, entries, question);
    same(rt, &runs_of(&answer), &Some(want));
}

/// These addresses from r1 come to r3 without having met r2.
fn compare_missing_second(rt: &impl Abort, alloc: Global, entries: &[Entry], want: &[Run]) {
    let question = Ask::Waypoint(
        name_of(rt, alloc, b"r1"),
        name_of(rt, alloc, b"r3"),
        name_of(rt, alloc, b"r2"),
    );
    let answer = answer(rt, alloc, entries, question);
    same(rt, &runs_of(&answer), &Some(want));
}

/// Where addresses from r1 vanish.
fn holes_from_first(rt: &impl Abort, alloc: Global, entries: &[Entry]) -> Answer {
    answer(
        rt,
        alloc,
        entries,
        Ask::Blackholes(name_of(rt, alloc, b"r1")),
    )
}

/// The link b, twice.
fn b_twice(rt: &impl Abort, alloc: Global) -> List<Name>
    ensures { result ≡ codes "b" ∷ codes "b" ∷ [] }
{
    let mut down = List::new(alloc);
    let first = Name::from_text(alloc, b"b").expect(rt, "memory");
    let second = Name::from_text(alloc, b"b").expect(rt, "memory");
    down.push(first).expect(rt, "memory");
    down.push(second).expect(rt, "memory");
    down
}

/// The answer to this with the link b named as down twice.
fn answer_without_b(rt: &impl Abort, alloc: Global, entries: &[Entry], ask: Ask) -> Answer
    requires { IsAskedWithout (codes "b" ∷ codes "b" ∷ []) ask }
{
    let query = Query::new(b_twice(rt, alloc), ask);
    answer_to(rt, alloc, entries, &query)
}

/// These addresses from r1 come to r3 without the link b.
fn compare_reach_without_b(rt: &impl Abort, alloc: Global, entries: &[Entry], want: &[Run]) {
    let question = Ask::Reach(name_of(rt, alloc, b"r1"), name_of(rt, alloc, b"r3"));
    let answer = answer_without_b(rt, alloc, entries, question);
    same(rt, &runs_of(&answer), &Some(want));
}

/// Where addresses from r1 vanish without the link b, in this order.
fn compare_holes_without_b(
    rt: &impl Abort,
    alloc: Global,
    entries: &[Entry],
    want: &[Vanishing<'_>],
) {
    let question = Ask::Blackholes(name_of(rt, alloc, b"r1"));
    let answer = answer_without_b(rt, alloc, entries, question);
    compare_holes(rt, &answer, want);
}

/// A cycle of two routers.
#[derive(Clone, Copy)]
struct Round {
    routers: [RouterId; 2],
    least: u32,
    addresses: u64,
}

/// A cycle of r1 and r2.
fn of_first_two(least: u32, addresses: u64) -> Round {
    Round {
        routers: [RouterId(0), RouterId(1)],
        least,
        addresses,
    }
}

/// The cycles of an answer.
fn cycles_of<'a>(rt: &impl Abort, answer: &'a Answer) -> &'a [Cycle] {
    match answer {
        Answer::Loops(cycles) => cycles.as_slice(),
        _ => panic!(rt; "no loops"),
    }
}

fn compare_cycle(rt: &impl Abort, cycle: &Cycle, want: &Round) {
    same_list(rt, cycle.routers.as_slice(), &want.routers[..]);
    same(rt, &cycle.least, &want.least);
    same(rt, &cycle.addresses, &want.addresses);
}

/// The cycles are these, in this order.
fn compare_loops(rt: &impl Abort, alloc: Global, entries: &[Entry], want: &[Round]) {
    let answer = answer(rt, alloc, entries, Ask::Loops);
    let cycles = cycles_of(rt, &answer);
    same(rt, &cycles.len(), &want.len());
    for (cycle, round) in cycles.iter().zip(want.iter()) {
        compare_cycle(rt, cycle, round);
    }
}

/// Where addresses vanish.
#[derive(Clone, Copy)]
struct Vanishing<'a> {
    router: u16,
    cause: Target,
    runs: &'a [Run],
}

/// A hole at the router of this number, by this cause, with these runs.
fn hole_at(router: u16, cause: Target, runs: &[Run]) -> Vanishing<'_> {
    Vanishing {
        router,
        cause,
        runs,
    }
}

/// The black holes of an answer.
fn holes_of<'a>(rt: &impl Abort, answer: &'a Answer) -> &'a [Hole] {
    match answer {
        Answer::Holes(holes) => holes.as_slice(),
        _ => panic!(rt; "no holes"),
    }
}

fn compare_hole(rt: &impl Abort, hole: &Hole, want: &Vanishing<'_>) {
    same(rt, &hole.router.0, &want.router);
    same(rt, &hole.cause, &want.cause);
    same_list(rt, hole.runs.as_slice(), want.runs);
}

/// The black holes of an answer are these, in this order.
fn compare_holes(rt: &impl Abort, answer: &Answer, want: &[Vanishing<'_>]) {
    let holes = holes_of(rt, answer);
    same(rt, &holes.len(), &want.len());
    for (hole, vanishing) in holes.iter().zip(want.iter()) {
        compare_hole(rt, hole, vanishing);
    }
}

#[test]
fn a_path_of_three_routers(rt: HostRuntime) {
    let alloc = rt.alloc();
    let question = Ask::Path(name_of(&rt, alloc, b"r1"), 0x0A00_0000);
    let answer = answer(&rt, alloc, &history()[..3], question);
    let routers = [RouterId(0), RouterId(1), RouterId(2)];
    let end = PathEnd::At(Target::Exit(1));
    same(&rt, &path_of(&answer), &Some((&routers[..], end)));
}

#[test]
fn reaches_past_two_links(rt: HostRuntime) {
    let alloc = rt.alloc();
    let history = history();
    compare_reach(&rt, alloc, &history[..3], b"r3", &TEN);
    compare_reach(&rt, alloc, &history[..5], b"r3", &TEN);
    compare_reach(&rt, alloc, &history[..2], b"r2", &TEN);
    compare_reach(&rt, alloc, &[], b"r2", &[]);
}

#[test]
fn a_router_is_reached_from_itself_by_all(rt: HostRuntime) {
    let alloc = rt.alloc();
    compare_reach(&rt, alloc, &[], b"r1", &ALL);
    compare_reach(&rt, alloc, &history()[..4], b"r1", &ALL);
}

#[test]
fn what_loops_past_a_router_reaches_it(rt: HostRuntime) {
    let alloc = rt.alloc();
    let history = history();
    compare_reach(&rt, alloc, &history[..4], b"r2", &TEN);
    let around = [
        Run {
            lo: 0x0A00_0000,
            hi: 0x0A00_FFFF,
        },
        Run {
            lo: 0x0A02_0000,
            hi: 0x0AFF_FFFF,
        },
    ];
    compare_reach(&rt, alloc, &history[..4], b"r3", &around);
}

#[test]
fn each_end_of_a_link_uses_it(rt: HostRuntime) {
    let alloc = rt.alloc();
    let question = Ask::Uses(name_of(&rt, alloc, b"a"));
    let answer = answer(&rt, alloc, &history()[..4], question);
    let looping = [Run {
        lo: 0x0A01_0000,
        hi: 0x0A01_FFFF,
    }];
    same(&rt, &uses_of(&answer), &Some((&TEN[..], &looping[..])));
}

#[test]
fn a_loop_ends_when_it_is_cleared(rt: HostRuntime) {
    let alloc = rt.alloc();
    let history = history();
    let round = [of_first_two(0x0A01_0000, 65536)];
    compare_loops(&rt, alloc, &history[..4], &round);
    compare_loops(&rt, alloc, &history[..5], &[]);
    compare_loops(&rt, alloc, &[], &[]);
}

#[test]
fn a_cycle_of_two_runs_is_told_once(rt: HostRuntime) {
    let entries = [
        set(0, ten(), 0, TO_SECOND),
        set(1, ten_one(), 0, BACK),
        set(1, ten_nine(), 0, BACK),
        set(1, ten(), 0, SECOND_TO_THIRD),
        set(2, ten_nine(), 0, THIRD_TO_SECOND),
    ];
    let round = [of_first_two(0x0A01_0000, 65536 + 256)];
    compare_loops(&rt, rt.alloc(), &entries, &round);
}

#[test]
fn cycles_come_by_least_address(rt: HostRuntime) {
    let lowest = Prefix::new(0x0A00_0000, 32);
    let entries = [
        set(1, ten(), 0, SECOND_TO_THIRD),
        set(2, ten(), 0, THIRD_TO_SECOND),
        set(0, ten_nine(), 0, TO_SECOND),
        set(1, ten_nine(), 0, BACK),
        set(1, lowest, 0, BACK),
        set(0, lowest, 0, TO_SECOND),
    ];
    let want = [
        of_first_two(0x0A00_0000, 257),
        Round {
            routers: [RouterId(1), RouterId(2)],
            least: 0x0A00_0001,
            addresses: (1 << 24) - 257,
        },
    ];
    compare_loops(&rt, rt.alloc(), &entries, &want);
}

#[test]
fn addresses_on_a_segment_go_no_further(rt: HostRuntime) {
    let alloc = rt.alloc();
    let four = Prefix::new(0x0A00_0000, 30);
    let on_link = [
        set(0, four, 0, Target::OnLink(2)),
        set(1, four, 0, Target::OnLink(2)),
    ];
    compare_loops(&rt, alloc, &on_link, &[]);
    let through = [set(0, four, 0, TO_SECOND), set(1, four, 0, BACK)];
    let round = [of_first_two(0x0A00_0000, 4)];
    compare_loops(&rt, alloc, &through, &round);
}

#[test]
fn a_link_down_is_on_no_way(rt: HostRuntime) {
    compare_reach_without_b(&rt, rt.alloc(), &history()[..3], &[]);
}

#[test]
fn a_link_down_is_a_hole(rt: HostRuntime) {
    let want = [
        hole_at(0, Target::NoRoute, &BUT_TEN),
        hole_at(1, Target::LinkDown(LinkId(2)), &TEN),
    ];
    compare_holes_without_b(&rt, rt.alloc(), &history()[..3], &want);
}

/// What is left of 10.0.0.0/8 beside 10.1.0.0/16.
const BUT_TEN_ONE: [Run; 2] = [
    Run {
        lo: 0x0A00_0000,
        hi: 0x0A00_FFFF,
    },
    Run {
        lo: 0x0A02_0000,
        hi: 0x0AFF_FFFF,
    },
];

/// As far as r2 all of 10.0.0.0/8 goes as before, but 10.1.0.0/16 goes from r1 to r3 at once; then the link b goes down
/// and comes up, and the link c goes down.
fn with_links() -> [Entry; 7] {
    [
        set(0, ten(), 20, TO_SECOND),
        set(0, ten_one(), 20, TO_THIRD),
        set(1, ten(), 20, SECOND_TO_THIRD),
        set(2, ten(), 20, Target::Exit(1)),
        link_entry(2, true),
        link_entry(2, false),
        link_entry(1, true),
    ]
}

#[test]
fn a_link_taken_as_down_beside_one_that_is(rt: HostRuntime) {
    let alloc = rt.alloc();
    let entries = with_links();
    let ten_one = [Run {
        lo: 0x0A01_0000,
        hi: 0x0A01_FFFF,
    }];
    let one = [
        hole_at(0, Target::NoRoute, &BUT_TEN),
        hole_at(1, Target::LinkDown(LinkId(2)), &BUT_TEN_ONE),
    ];
    let two = [
        hole_at(0, Target::NoRoute, &BUT_TEN),
        hole_at(0, Target::LinkDown(LinkId(1)), &ten_one),
        hole_at(1, Target::LinkDown(LinkId(2)), &BUT_TEN_ONE),
    ];
    compare_holes_without_b(&rt, alloc, &entries[..5], &one);
    compare_holes_without_b(&rt, alloc, &entries[..6], &one);
    compare_holes_without_b(&rt, alloc, &entries, &two);
}

#[test]
fn a_link_that_comes_up_is_taken_as_down(rt: HostRuntime) {
    let alloc = rt.alloc();
    let entries = with_links();
    let ten_one = [Run {
        lo: 0x0A01_0000,
        hi: 0x0A01_FFFF,
    }];
    compare_reach(&rt, alloc, &entries[..5], b"r3", &ten_one);
    compare_reach(&rt, alloc, &entries[..6], b"r3", &TEN);
    compare_reach(&rt, alloc, &entries, b"r3", &BUT_TEN_ONE);
    compare_reach_without_b(&rt, alloc, &entries[..6], &ten_one);
    compare_reach_without_b(&rt, alloc, &entries, &[]);
}

/// All that addresses from r1 vanish by is that r1 has no route for these.
fn compare_without_route(rt: &impl Abort, alloc: Global, entries: &[Entry], runs: &[Run]) {
    let answer = holes_from_first(rt, alloc, entries);
    let want = [hole_at(0, Target::NoRoute, runs)];
    compare_holes(rt, &answer, &want);
}

#[test]
fn a_walk_that_loops_is_no_hole(rt: HostRuntime) {
    let alloc = rt.alloc();
    compare_without_route(&rt, alloc, &history()[..4], &BUT_TEN);
    compare_without_route(&rt, alloc, &[], &ALL);
}

/// What is left of 10.0.0.0/8 beside 10.1.0.0/16 and 10.9.0.0/24.
const LEFT: [Run; 3] = [
    Run {
        lo: 0x0A00_0000,
        hi: 0x0A00_FFFF,
    },
    Run {
        lo: 0x0A02_0000,
        hi: 0x0A08_FFFF,
    },
    Run {
        lo: 0x0A09_0100,
        hi: 0x0AFF_FFFF,
    },
];

#[test]
fn holes_come_by_router_then_cause(rt: HostRuntime) {
    let entries = [
        set(0, ten(), 0, Target::Dropped(DropKind::Prohibit)),
        set(0, Prefix::new(0, 0), 0, TO_SECOND),
        set(0, ten_one(), 0, Target::Dropped(DropKind::Blackhole)),
        set(0, ten_nine(), 0, Target::Local),
    ];
    let answer = holes_from_first(&rt, rt.alloc(), &entries);
    let ten_one = [Run {
        lo: 0x0A01_0000,
        hi: 0x0A01_FFFF,
    }];
    let want = [
        hole_at(0, Target::Dropped(DropKind::Blackhole), &ten_one),
        hole_at(0, Target::Dropped(DropKind::Prohibit), &LEFT),
        hole_at(1, Target::NoRoute, &BUT_TEN),
    ];
    compare_holes(&rt, &answer, &want);
}

#[test]
fn a_waypoint_is_missed_on_the_way_alone(rt: HostRuntime) {
    let alloc = rt.alloc();
    let history = history();
    let missed = [Run {
        lo: 0x0A09_0000,
        hi: 0x0A09_00FF,
    }];
    compare_missing_second(&rt, alloc, &history[..3], &[]);
    compare_missing_second(&rt, alloc, &history, &missed);
    let later = [
        set(0, ten_nine(), 0, TO_THIRD),
        set(2, ten_nine(), 0, THIRD_TO_SECOND),
    ];
    compare_missing_second(&rt, alloc, &later, &missed);
}

#[test]
fn an_empty_history_has_no_change(rt: HostRuntime) {
    let alloc = rt.alloc();
    compare_delta(&rt, alloc, &[], &[]);
    let cleared = [change(1, 0x0A01_0000, 0x0A01_FFFF, BACK, SECOND_TO_THIRD)];
    compare_delta(&rt, alloc, &history()[..5], &cleared);
}
