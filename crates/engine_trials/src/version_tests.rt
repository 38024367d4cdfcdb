//! Versions of networks of two, three and six routers, against answers worked out by hand and the plain evaluator.

ghost use Rattle.std.specs.Prelude.{◌<◌, length};
ghost use Rattle.dn_model.specs.Entry.{IsEntryOf};
ghost use Rattle.net_engine.specs.Followed.{IsFollowed};
ghost use Rattle.dn_model.specs.declared.topology.Topology.{Topology as TopologyIs};

use crate::block::{Block, prefix_of, run_of};
use crate::course::{Course, course_of_ring};
use crate::same::{same, same_list};
use delta_graph::Delta;
use dn_model::{Change, Entry, Op, Route, RouterId, Target, Topology, plain_routes, plain_target};
use label_view::LabelView;
use net_engine::Version;
use std::alloc::Global;
use std::process::Abort;

/// The router of most updates.
const FIRST: RouterId = RouterId(0);

const SECOND: RouterId = RouterId(1);

/// An update of a router.
#[derive(Clone, Copy)]
enum Update {
    /// A route of a block is set by a metric, out of an interface.
    Set(Block, u32, u32),
    /// The routes of a block are cleared; of a metric alone, where there is one.
    Clear(Block, Option<u32>),
}

/// An update of this router.
fn entry_at(router: RouterId, update: Update) -> Entry
    ensures own { (t : TopologyIs) → router.0 < length t.routers → IsEntryOf t result }
    ensures followed { IsFollowed result }
{
    match update {
        Update::Set(block, metric, exit) => Entry::Route {
            router,
            feed_no: 1,
            op: Op::Set {
                prefix: prefix_of(block),
                metric,
                target: Target::Exit(exit),
            },
        },
        Update::Clear(block, metric) => Entry::Route {
            router,
            feed_no: 1,
            op: Op::Clear {
                prefix: prefix_of(block),
                metric,
            },
        },
    }
}

/// Nested prefixes, both ends of the addresses, equal lengths beside each other, clearings of nothing, and settings of
/// what is done already.
const UPDATES: [Update; 15] = [
    Update::Clear(Block::Ten, None),
    Update::Set(Block::Ten, 20, 2),
    Update::Set(Block::Ten, 5, 3),
    Update::Set(Block::TenOne, 9, 4),
    Update::Set(Block::Ten, 5, 3),
    Update::Set(Block::All, 0, 1),
    Update::Set(Block::High, 7, 5),
    Update::Set(Block::Last, 1, 6),
    Update::Set(Block::Low, 1, 1),
    Update::Clear(Block::Ten, Some(5)),
    Update::Clear(Block::TenOne, Some(8)),
    Update::Set(Block::Eleven, 20, 2),
    Update::Clear(Block::All, None),
    Update::Clear(Block::Ten, None),
    Update::Clear(Block::Last, Some(1)),
];

/// Addresses at the ends of those prefixes, and beside them.
const ADDRESSES: [u32; 16] = [
    0,
    0x00FF_FFFF,
    0x0100_0000,
    0x09FF_FFFF,
    0x0A00_0000,
    0x0A01_0000,
    0x0A01_FFFF,
    0x0A02_0000,
    0x0AFF_FFFF,
    0x0B00_0000,
    0x0BFF_FFFF,
    0x0C00_0000,
    0x7FFF_FFFF,
    0x8000_0000,
    0xFFFF_FFFE,
    0xFFFF_FFFF,
];

/// An update of one of a network's routers.
fn entry_in(rt: &impl Abort, topology: &Topology, router: RouterId, update: Update) -> Entry
    ensures own { IsEntryOf topology.now result }
    ensures followed { IsFollowed result }
{
    assert!(rt; u32::from(router.0) < topology.router_count());
    entry_at(router, update)
}

/// The history with an update of a router more, whose version is made in the place of the one before it, and what that
/// changed.
fn advance_and_tell(
    rt: &impl Abort,
    alloc: Global,
    course: Course,
    router: RouterId,
    update: Update,
) -> (Course, Delta) {
    let entry = entry_in(rt, course.topology(), router, update);
    course.advance(alloc, &entry).expect(rt, "memory")
}

/// The same history.
fn advance(
    rt: &impl Abort,
    alloc: Global,
    course: Course,
    router: RouterId,
    update: Update,
) -> Course {
    let (course, _) = advance_and_tell(rt, alloc, course, router, update);
    course
}

/// The history with an update of the first router more, whose version is made beside the one before it, and what that
/// changed.
fn apply(rt: &impl Abort, alloc: Global, course: &Course, update: Update) -> (Course, Delta) {
    let entry = entry_in(rt, course.topology(), FIRST, update);
    course.apply(alloc, &entry).expect(rt, "memory")
}

/// What a router does with an address by the rows of a version.
fn by_rows(rt: &impl Abort, version: &Version, r: RouterId, a: u32) -> Target {
    assert!(rt; u32::from(r.0) < version.routers());
    version.target(r, version.atom_of(a))
}

/// The change that is told of an address.
fn told_at(changes: &[Change], a: u32) -> Option<(Target, Target)> {
    for change in changes {
        if change.run.lo <= a && a <= change.run.hi {
            return Some((change.before, change.after));
        }
    }
    None
}

/// The first router does what the plain evaluator says of these routes, and the second has none.
fn compare(rt: &impl Abort, version: &Version, routes: &[Route]) {
    for a in ADDRESSES {
        let plain = plain_target(routes, &[], &[], a);
        assert_eq!(rt; by_rows(rt, version, FIRST, a), plain, "at {a}");
        same(rt, &by_rows(rt, version, SECOND, a), &Target::NoRoute);
    }
}

/// A version is the one after these updates, all of the first router.
fn compare_after(
    rt: &impl Abort,
    alloc: Global,
    version: &Version,
    topology: &Topology,
    entries: &[Entry],
) {
    let routes = plain_routes(alloc, topology, entries, FIRST).expect(rt, "memory");
    compare(rt, version, routes.as_slice());
}

/// A history's version is the one after one update of the first router.
fn compare_after_one(rt: &impl Abort, alloc: Global, course: &Course, update: Update) {
    let entries = [entry_at(FIRST, update)];
    compare_after(rt, alloc, course.version(), course.topology(), &entries);
}

/// A history's version is the one after its updates, all of the first router.
fn compare_course(rt: &impl Abort, alloc: Global, course: &Course) {
    compare_after(
        rt,
        alloc,
        course.version(),
        course.topology(),
        course.entries(),
    );
}

/// The changes are where the first router does something else in one version than in the other.
fn compare_told(rt: &impl Abort, old: &Version, new: &Version, changes: &[Change]) {
    for a in ADDRESSES {
        let was = by_rows(rt, old, FIRST, a);
        let is = by_rows(rt, new, FIRST, a);
        let change = if was == is { None } else { Some((was, is)) };
        assert_eq!(rt; told_at(changes, a), change, "told, at {a}");
    }
}

/// A version has so many routers and atoms.
fn compare_counts(rt: &impl Abort, version: &Version, routers: u32, atoms: u64) {
    let counts = (version.routers(), version.atoms());
    same(rt, &counts, &(routers, atoms));
}

/// An address lies in the atom at this place, which has these bounds.
fn compare_atom(rt: &impl Abort, version: &Version, a: u32, place: u64, bounds: (u64, u64)) {
    let found = version.atom_of(a);
    same(rt, &(found, version.bounds(found)), &(place, bounds));
}

/// Atoms begin at 0.0.0.0, 10.0.0.0 and 11.0.0.0.
fn compare_three_atoms(rt: &impl Abort, version: &Version) {
    compare_counts(rt, version, 2, 3);
    compare_atom(rt, version, 0x0A00_0000, 1, (0x0A00_0000, 0x0B00_0000));
    compare_atom(rt, version, 0x0AFF_FFFF, 1, (0x0A00_0000, 0x0B00_0000));
    compare_atom(rt, version, 0x0B00_0000, 2, (0x0B00_0000, 0x1_0000_0000));
}

/// One move of a history.
#[derive(Clone, Copy)]
enum Move {
    /// An update of a router comes, and the version is made in the place of the one before it.
    Make(RouterId, Update),
    /// The version has so many routers and atoms.
    Counts(u32, u64),
    /// The version's atoms begin at 0.0.0.0, 10.0.0.0 and 11.0.0.0.
    ThreeAtoms,
    /// The version is the one after the updates so far, all of the first router.
    Plain,
    /// A router does this with an address.
    Does(RouterId, u32, Target),
}

/// A history's version is as this move says; one that makes an update says nothing.
fn compare_said(rt: &impl Abort, alloc: Global, course: &Course, said: Move) {
    match said {
        Move::Make(_, _) => {}
        Move::Counts(routers, atoms) => compare_counts(rt, course.version(), routers, atoms),
        Move::ThreeAtoms => compare_three_atoms(rt, course.version()),
        Move::Plain => compare_course(rt, alloc, course),
        Move::Does(router, a, target) => {
            same(rt, &by_rows(rt, course.version(), router, a), &target);
        }
    }
}

/// The history after a move.
fn moved(rt: &impl Abort, alloc: Global, course: Course, next: Move) -> Course {
    if let Move::Make(router, update) = next {
        return advance(rt, alloc, course, router, update);
    }
    compare_said(rt, alloc, &course, next);
    course
}

/// The history after these moves.
fn follow(rt: &impl Abort, alloc: Global, course: Course, moves: &[Move]) -> Course {
    let mut course = course;
    for next in moves {
        course = moved(rt, alloc, course, *next);
    }
    course
}

/// The history of so many routers, after these moves.
fn course_after(rt: &impl Abort, alloc: Global, routers: u16, moves: &[Move]) -> Course {
    follow(rt, alloc, course_of_ring(rt, alloc, routers), moves)
}

/// A copy of a history.
fn copy_of(rt: &impl Abort, alloc: Global, course: &Course) -> Course {
    course.copy(alloc).expect(rt, "memory")
}

#[test]
fn a_new_network_has_one_atom_of_all_addresses(rt: HostRuntime) {
    let moves = [Move::Counts(2, 1), Move::Does(SECOND, 5, Target::NoRoute)];
    let course = course_after(&rt, rt.alloc(), 2, &moves);
    compare_atom(&rt, course.version(), 5, 0, (0, 0x1_0000_0000));
}

/// The ends of a prefix that is set again, with another metric and of another router, are no further cuts.
#[test]
fn a_cut_is_made_once(rt: HostRuntime) {
    let moves = [
        Move::Make(FIRST, Update::Set(Block::Ten, 20, 2)),
        Move::ThreeAtoms,
        Move::Make(FIRST, Update::Set(Block::Ten, 5, 3)),
        Move::Make(SECOND, Update::Set(Block::Ten, 20, 2)),
    ];
    let course = course_after(&rt, rt.alloc(), 2, &moves);
    let copy = copy_of(&rt, rt.alloc(), &course);
    compare_three_atoms(&rt, course.version());
    compare_three_atoms(&rt, copy.version());
}

/// No router has a route of the prefix any more when it is set again, and then one has when another router sets it.
#[test]
fn a_prefix_that_was_cleared_is_set_again(rt: HostRuntime) {
    let moves = [
        Move::Make(FIRST, Update::Set(Block::Ten, 5, 3)),
        Move::Make(FIRST, Update::Clear(Block::Ten, None)),
        Move::Counts(2, 3),
        Move::Make(FIRST, Update::Set(Block::Ten, 20, 2)),
        Move::ThreeAtoms,
        Move::Plain,
        Move::Make(SECOND, Update::Set(Block::Ten, 5, 4)),
        Move::Counts(2, 3),
        Move::Does(SECOND, 0x0A00_0000, Target::Exit(4)),
    ];
    course_after(&rt, rt.alloc(), 2, &moves);
}

/// The first router leaves by another interface than before in the addresses of 10.0.0.0/8.
fn compare_better(rt: &impl Abort, changes: &[Change]) {
    let change = Change {
        router: FIRST,
        run: run_of(Block::Ten),
        before: Target::Exit(2),
        after: Target::Exit(3),
    };
    same_list(rt, changes, &[change]);
}

#[test]
fn of_two_metrics_the_lesser_wins(rt: HostRuntime) {
    let alloc = rt.alloc();
    let moves = [Move::Make(FIRST, Update::Set(Block::Ten, 20, 2))];
    let course = course_after(&rt, alloc, 3, &moves);
    let better = Update::Set(Block::Ten, 5, 3);
    let (course, delta) = advance_and_tell(&rt, alloc, course, FIRST, better);
    compare_better(&rt, delta.changes());
    compare_counts(&rt, course.version(), 3, 3);
    let copy = copy_of(&rt, alloc, &course);
    let bounds = (0x0A00_0000, 0x0B00_0000);
    compare_atom(&rt, copy.version(), 0x0A00_0000, 1, bounds);
}

/// An update within 10.0.0.0/8.
const INSIDE_TEN: Update = Update::Set(Block::TenOne, 9, 4);

/// A copy has no guide of its own. It stands as it is while the version goes on, which searches from where it was.
#[test]
fn a_copy_that_is_held_keeps_its_answers(rt: HostRuntime) {
    let alloc = rt.alloc();
    let before = [
        Move::Make(FIRST, Update::Set(Block::Ten, 20, 2)),
        Move::Make(FIRST, INSIDE_TEN),
    ];
    let after = [
        Move::Make(FIRST, Update::Set(Block::All, 0, 1)),
        Move::Make(FIRST, Update::Clear(Block::Ten, None)),
        Move::Plain,
    ];
    let cleared = [
        Move::Plain,
        Move::Make(FIRST, Update::Clear(Block::Ten, None)),
    ];
    let course = course_after(&rt, alloc, 3, &before);
    let held = copy_of(&rt, alloc, &course);
    follow(&rt, alloc, course, &after);
    let held = follow(&rt, alloc, held, &cleared);
    compare_after_one(&rt, alloc, &held, INSIDE_TEN);
}

/// The history with an update more. The version before it, the one after it and what is told are compared.
fn step(rt: &impl Abort, alloc: Global, old: Course, update: Update) -> Course {
    let (new, delta) = apply(rt, alloc, &old, update);
    compare_course(rt, alloc, &old);
    compare_course(rt, alloc, &new);
    compare_told(rt, old.version(), new.version(), delta.changes());
    new
}

#[test]
fn as_the_plain_evaluator(rt: HostRuntime) {
    let mut course = course_of_ring(&rt, rt.alloc(), 3);
    for update in UPDATES {
        course = step(&rt, rt.alloc(), course, update);
    }
}

/// The interface where packets for an address leave a router; None where it has no such route.
fn exit_of(rt: &impl Abort, version: &Version, r: RouterId, a: u32) -> Option<u32> {
    match by_rows(rt, version, r, a) {
        Target::Exit(exit) => Some(exit),
        _ => None,
    }
}

/// The interfaces where packets for an address leave each of six routers.
fn compare_exits(rt: &impl Abort, version: &Version, a: u32, want: [Option<u32>; 6]) {
    for k in 0..6u16 {
        let exit = exit_of(rt, version, RouterId(k), a);
        assert_eq!(rt; exit, want[usize::from(k)], "of router {k}, at {a}");
    }
}

/// The interfaces where packets leave six routers, of which each has a route of its own, and the fifth one inside.
fn compare_before(rt: &impl Abort, version: &Version) {
    let all = [Some(1), Some(2), Some(3), Some(4), Some(5), Some(6)];
    let within = [Some(1), Some(2), Some(3), Some(4), Some(50), Some(6)];
    compare_exits(rt, version, 0x0A00_0000, all);
    compare_exits(rt, version, 0x0A01_0000, within);
    compare_exits(rt, version, 0x0B00_0000, [None; 6]);
}

/// The same after the sixth has a better route, and the second none.
fn compare_later(rt: &impl Abort, version: &Version) {
    let all = [Some(1), None, Some(3), Some(4), Some(5), Some(60)];
    let within = [Some(1), None, Some(3), Some(4), Some(50), Some(60)];
    compare_exits(rt, version, 0x0A00_0000, all);
    compare_exits(rt, version, 0x0A01_0000, within);
}

/// The first four routers stand side by side, and so do the last two. Each has a route of its own for one prefix, and
/// the fifth alone has one inside. An update of one leaves the others' answers, and a copy's, as they are.
#[test]
fn each_router_keeps_its_own_routes(rt: HostRuntime) {
    let alloc = rt.alloc();
    let own = [
        Move::Make(FIRST, Update::Set(Block::Ten, 20, 1)),
        Move::Make(SECOND, Update::Set(Block::Ten, 20, 2)),
        Move::Make(RouterId(2), Update::Set(Block::Ten, 20, 3)),
        Move::Make(RouterId(3), Update::Set(Block::Ten, 20, 4)),
        Move::Make(RouterId(4), Update::Set(Block::Ten, 20, 5)),
        Move::Make(RouterId(5), Update::Set(Block::Ten, 20, 6)),
        Move::Make(RouterId(4), Update::Set(Block::TenOne, 9, 50)),
    ];
    let others = [
        Move::Make(RouterId(5), Update::Set(Block::Ten, 5, 60)),
        Move::Make(SECOND, Update::Clear(Block::Ten, None)),
    ];
    let course = course_after(&rt, alloc, 6, &own);
    let held = copy_of(&rt, alloc, &course);
    let course = follow(&rt, alloc, course, &others);
    compare_before(&rt, held.version());
    compare_later(&rt, course.version());
}
