//! Links that go down and come up in a ring of routers, with what that changes, worked out by hand.

ghost use Rattle.std.specs.Prelude.{IsTrue};
ghost use Rattle.dn_model.specs.Entry.{IsEntryOf, IsTargetOf};
ghost use Rattle.net_engine.specs.Followed.{IsFollowed};

use crate::block::{Block, prefix_of, run_of};
use crate::course::{Course, course_of_ring};
use crate::same::same;
use answer_equality::is_same_answer;
use dn_model::{Ask, Change, Entry, LinkId, Op, Query, RouterId, Target, Topology};
use label_view::LabelView;
use std::alloc::Global;
use std::process::Abort;

/// The routers of a ring of three.
const FIRST: RouterId = RouterId(0);

const SECOND: RouterId = RouterId(1);

const THIRD: RouterId = RouterId(2);

/// The link from the first router to the second.
const LINK: LinkId = LinkId(0);

/// The link from the second router to the third.
const OTHER: LinkId = LinkId(2);

/// On to the second router by the first link.
const ON: Target = Target::To(SECOND, LINK);

/// On to the first router by the same link.
const BACK: Target = Target::To(FIRST, LINK);

/// The first link is down.
const DOWN: Target = Target::LinkDown(LINK);

/// No route.
const NONE: Target = Target::NoRoute;

/// An entry: a router sets a route of a block and a metric, or a link goes down or comes up.
#[derive(Clone, Copy)]
enum Step {
    Set(RouterId, Block, u32, Target),
    Turn(LinkId, bool),
}

/// One move of a history.
#[derive(Clone, Copy)]
enum Move {
    /// An entry comes.
    Make(Step),
    /// The next of the changes of the last entry is of this router and block, before and after it. Each change is told
    /// so before the next entry comes.
    Told(RouterId, Block, Target, Target),
    /// A router does this with the first address of 10.0.0.0/8.
    Does(RouterId, Target),
}

/// Whether a target is one over a link of the topology to one of its routers, or one out of the network.
fn is_target_of(topology: &Topology, target: Target) -> bool
    ensures { IsTrue result → IsTargetOf topology.now target }
{
    match target {
        Target::To(router, link) => {
            u32::from(router.0) < topology.router_count()
                && usize::from(link.0) < topology.links.len()
        }
        Target::Exit(_) => true,
        _ => false,
    }
}

/// The entry of a step in a network that has what it names.
fn entry_of(rt: &impl Abort, topology: &Topology, step: Step) -> Entry
    ensures own { IsEntryOf topology.now result }
    ensures followed { IsFollowed result }
{
    match step {
        Step::Set(router, block, metric, target) => {
            assert!(rt; u32::from(router.0) < topology.router_count());
            assert!(rt; is_target_of(topology, target));
            Entry::Route {
                router,
                feed_no: 1,
                op: Op::Set {
                    prefix: prefix_of(block),
                    metric,
                    target,
                },
            }
        }
        Step::Turn(link, down) => {
            assert!(rt; usize::from(link.0) < topology.links.len());
            Entry::Link { job: 1, link, down }
        }
    }
}

/// The changes are those that the plain evaluator tells of the last entry.
fn compare_plain(rt: &impl Abort, alloc: Global, course: &Course, changes: &[Change]) {
    let query = Query::of(alloc, Ask::Delta);
    assert!(rt; course.knows(&query));
    let (told, plain) = course.answers(alloc, changes, &query).expect(rt, "memory");
    assert!(rt; is_same_answer(&told, &plain));
}

/// What a router does with the first address of 10.0.0.0/8.
fn does(rt: &impl Abort, course: &Course, router: RouterId) -> Target {
    let version = course.version();
    assert!(rt; u32::from(router.0) < version.routers());
    version.target(router, version.atom_of(0x0A00_0000))
}

/// A history, what its last entry changed, and how many of these changes were told.
#[derive(Drop)]
struct Play {
    course: Course,
    changes: Vec<Change>,
    told: usize,
}

impl Play {
    /// A history of which all was told.
    fn of(alloc: Global, course: Course) -> Play {
        Play {
            course,
            changes: Vec::new(alloc),
            told: 0,
        }
    }

    /// The history, whose last entry made no more changes than were told.
    fn into_course(self, rt: &impl Abort) -> Course {
        let Play {
            course,
            changes,
            told,
        } = self;
        same(rt, &changes.len(), &told);
        course
    }

    /// What a router does with the first address of 10.0.0.0/8 is compared.
    fn compare_target(&self, rt: &impl Abort, router: RouterId, target: Target) {
        same(rt, &does(rt, &self.course, router), &target);
    }

    /// The next of the changes of the last entry is this.
    fn tell(self, rt: &impl Abort, change: Change) -> Play {
        let Play {
            course,
            changes,
            told,
        } = self;
        same(rt, &changes.as_slice().get(told), &Some(&change));
        Play {
            course,
            changes,
            told: told.saturating_add(1),
        }
    }
}

/// The history with an entry more, whose changes are those of the plain evaluator.
fn after(rt: &impl Abort, alloc: Global, course: Course, step: Step) -> Play {
    let entry = entry_of(rt, course.topology(), step);
    let (course, delta) = course.advance(alloc, &entry).expect(rt, "memory");
    compare_plain(rt, alloc, &course, delta.changes());
    let changes = Vec::from_slice(alloc, delta.changes()).expect(rt, "memory");
    Play {
        course,
        changes,
        told: 0,
    }
}

/// The history after a move.
fn moved(rt: &impl Abort, alloc: Global, play: Play, next: Move) -> Play {
    match next {
        Move::Make(step) => after(rt, alloc, play.into_course(rt), step),
        Move::Told(router, block, before, after) => {
            let run = run_of(block);
            play.tell(
                rt,
                Change {
                    router,
                    run,
                    before,
                    after,
                },
            )
        }
        Move::Does(router, target) => {
            play.compare_target(rt, router, target);
            play
        }
    }
}

/// The history after these moves.
fn follow(rt: &impl Abort, alloc: Global, course: Course, moves: &[Move]) -> Course {
    let mut play = Play::of(alloc, course);
    for next in moves {
        play = moved(rt, alloc, play, *next);
    }
    play.into_course(rt)
}

/// The history of a ring of three routers, after these moves.
fn course_after(rt: &impl Abort, alloc: Global, moves: &[Move]) -> Course {
    let course = course_of_ring(rt, alloc, 3);
    follow(rt, alloc, course, moves)
}

#[test]
fn a_link_goes_down_once_and_comes_up_once(rt: HostRuntime) {
    let moves = [
        Move::Make(Step::Set(FIRST, Block::Ten, 20, ON)),
        Move::Told(FIRST, Block::Ten, NONE, ON),
        Move::Make(Step::Turn(LINK, true)),
        Move::Told(FIRST, Block::Ten, ON, DOWN),
        Move::Make(Step::Turn(LINK, true)),
        Move::Does(FIRST, DOWN),
        Move::Make(Step::Turn(LINK, false)),
        Move::Told(FIRST, Block::Ten, DOWN, ON),
        Move::Make(Step::Turn(LINK, false)),
        Move::Does(FIRST, ON),
    ];
    course_after(&rt, rt.alloc(), &moves);
}

/// Neither does one that nothing goes over tell anything.
#[test]
fn a_link_that_was_never_down_comes_up(rt: HostRuntime) {
    let moves = [
        Move::Make(Step::Set(FIRST, Block::Ten, 20, ON)),
        Move::Told(FIRST, Block::Ten, NONE, ON),
        Move::Make(Step::Turn(LINK, false)),
        Move::Make(Step::Turn(OTHER, false)),
        Move::Make(Step::Turn(OTHER, true)),
        Move::Does(FIRST, ON),
    ];
    course_after(&rt, rt.alloc(), &moves);
}

/// The route that is set tells the link, and the link the route.
#[test]
fn a_link_is_down_before_a_route_goes_over_it(rt: HostRuntime) {
    let moves = [
        Move::Make(Step::Turn(LINK, true)),
        Move::Make(Step::Set(FIRST, Block::Ten, 20, ON)),
        Move::Told(FIRST, Block::Ten, NONE, DOWN),
        Move::Make(Step::Turn(LINK, false)),
        Move::Told(FIRST, Block::Ten, DOWN, ON),
        Move::Does(FIRST, ON),
    ];
    course_after(&rt, rt.alloc(), &moves);
}

/// A better route over the same link, to another router, is not seen until the link comes up; one that leads elsewhere is.
#[test]
fn a_route_is_replaced_while_its_link_is_down(rt: HostRuntime) {
    let alloc = rt.alloc();
    let replaced = [
        Move::Make(Step::Turn(LINK, true)),
        Move::Make(Step::Set(SECOND, Block::Ten, 20, ON)),
        Move::Told(SECOND, Block::Ten, NONE, DOWN),
        Move::Make(Step::Set(SECOND, Block::Ten, 5, BACK)),
        Move::Does(SECOND, DOWN),
    ];
    let works = [
        Move::Make(Step::Turn(LINK, false)),
        Move::Told(SECOND, Block::Ten, DOWN, BACK),
        Move::Does(SECOND, BACK),
    ];
    let leaves = [
        Move::Does(SECOND, DOWN),
        Move::Make(Step::Set(SECOND, Block::Ten, 1, Target::Exit(1))),
        Move::Told(SECOND, Block::Ten, DOWN, Target::Exit(1)),
        Move::Make(Step::Turn(LINK, false)),
        Move::Does(SECOND, Target::Exit(1)),
    ];
    let course = course_after(&rt, alloc, &replaced);
    let held = course.copy(alloc).expect(&rt, "memory");
    follow(&rt, alloc, course, &works);
    follow(&rt, alloc, held, &leaves);
}

/// The third router is no end of the link. Changes are told by router, then address; what leads to two routers by one
/// link is two changes.
#[test]
fn all_routers_that_go_over_a_link_are_told(rt: HostRuntime) {
    let moves = [
        Move::Make(Step::Set(THIRD, Block::Ten, 20, ON)),
        Move::Told(THIRD, Block::Ten, NONE, ON),
        Move::Make(Step::Set(THIRD, Block::Eleven, 20, BACK)),
        Move::Told(THIRD, Block::Eleven, NONE, BACK),
        Move::Make(Step::Set(FIRST, Block::Eleven, 20, ON)),
        Move::Told(FIRST, Block::Eleven, NONE, ON),
        Move::Make(Step::Turn(LINK, true)),
        Move::Told(FIRST, Block::Eleven, ON, DOWN),
        Move::Told(THIRD, Block::Ten, ON, DOWN),
        Move::Told(THIRD, Block::Eleven, BACK, DOWN),
        Move::Make(Step::Turn(LINK, false)),
        Move::Told(FIRST, Block::Eleven, DOWN, ON),
        Move::Told(THIRD, Block::Ten, DOWN, ON),
        Move::Told(THIRD, Block::Eleven, DOWN, BACK),
        Move::Does(THIRD, ON),
    ];
    course_after(&rt, rt.alloc(), &moves);
}

/// Runs that touch are one; a link beside it that is down too stays so.
#[test]
fn touching_runs_are_told_as_one(rt: HostRuntime) {
    let moves = [
        Move::Make(Step::Set(SECOND, Block::Ten, 20, BACK)),
        Move::Told(SECOND, Block::Ten, NONE, BACK),
        Move::Make(Step::Set(SECOND, Block::Eleven, 20, BACK)),
        Move::Told(SECOND, Block::Eleven, NONE, BACK),
        Move::Make(Step::Turn(OTHER, true)),
        Move::Make(Step::Turn(LINK, true)),
        Move::Told(SECOND, Block::TenAndEleven, BACK, DOWN),
        Move::Make(Step::Turn(OTHER, false)),
        Move::Does(SECOND, DOWN),
        Move::Make(Step::Turn(LINK, false)),
        Move::Told(SECOND, Block::TenAndEleven, DOWN, BACK),
        Move::Does(SECOND, BACK),
    ];
    course_after(&rt, rt.alloc(), &moves);
}
