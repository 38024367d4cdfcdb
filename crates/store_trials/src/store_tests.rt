//! What is compared of stores: what their snapshots answer, with the plain evaluator over what was posted before each.

use crate::course::{Move, course_of};
use crate::questions::{compare, refusal_of};
use crate::same::same;
use crate::step::{Step, entry_of};
use crate::trial::Trial;
use dn_model::{Ask, Entry, Name};
use std::alloc::Global;
use std::process::Abort;
use version_lock::PostRefused;
use version_store::{AskRefused, Snapshot};

#[test]
fn a_new_store_has_no_entry(rt: HostRuntime) {
    course_of(&rt, rt.alloc(), &[Move::Hold, Move::Compare(0)]);
}

/// The seat and the entry of the last of two that were posted.
fn last_of_two(rt: &impl Abort, alloc: Global, trial: &Trial) -> (u32, Entry) {
    let history = trial.history(rt, alloc);
    assert_eq!(rt; history.len(), 2);
    let last = history.as_slice()[1];
    (last.seat, last.entry)
}

#[test]
fn a_full_store_refuses(rt: HostRuntime) {
    let mut trial = Trial::new(&rt, rt.alloc(), 2);
    let first = trial.post(7, Step::ToSecond);
    let second = trial.post(7, Step::ClearAtFirst);
    let third = trial.post(7, Step::ExitAtSecond);
    same(&rt, &(first, second), &(Ok(1), Ok(2)));
    same(&rt, &third, &Err(PostRefused::Full { length: 2 }));
    same(
        &rt,
        &last_of_two(&rt, rt.alloc(), &trial),
        &(7, entry_of(Step::ClearAtFirst)),
    );
}

/// What a snapshot saw is cut by 10.1.0.0/16, changed there, and cleared.
#[test]
fn a_held_snapshot_stays(rt: HostRuntime) {
    let moves = [
        Move::Post(Step::ToSecond),
        Move::Post(Step::ExitAtSecond),
        Move::Hold,
        Move::Post(Step::DropAtFirst),
        Move::Post(Step::Own),
        Move::Compare(0),
        Move::Post(Step::ClearAtFirst),
        Move::Compare(0),
        Move::Hold,
        Move::Compare(1),
    ];
    course_of(&rt, rt.alloc(), &moves);
}

/// A cycle comes, is held, and breaks.
#[test]
fn a_held_snapshot_keeps_its_loops(rt: HostRuntime) {
    let moves = [
        Move::Post(Step::ToSecond),
        Move::Hold,
        Move::Post(Step::Back),
        Move::Hold,
        Move::Post(Step::Own),
        Move::Loops(0, 0),
        Move::Loops(1, 1),
        Move::Compare(1),
        Move::Hold,
        Move::Compare(2),
    ];
    course_of(&rt, rt.alloc(), &moves);
}

/// A cycle of two routers goes with its link, in one entry that changes both.
#[test]
fn a_cycle_goes_with_its_link(rt: HostRuntime) {
    let moves = [
        Move::Post(Step::ToSecond),
        Move::Post(Step::Back),
        Move::Hold,
        Move::Post(Step::Fail),
        Move::Hold,
        Move::Compare(0),
        Move::Compare(1),
    ];
    course_of(&rt, rt.alloc(), &moves);
}

/// And comes again with it.
#[test]
fn a_cycle_comes_again_with_its_link(rt: HostRuntime) {
    let moves = [
        Move::Post(Step::ToSecond),
        Move::Post(Step::Back),
        Move::Post(Step::Fail),
        Move::Hold,
        Move::Post(Step::Mend),
        Move::Hold,
        Move::Loops(0, 0),
        Move::Loops(1, 1),
        Move::Compare(1),
    ];
    course_of(&rt, rt.alloc(), &moves);
}

/// Routes that make a cycle are set while its link is down: the cycle comes with the link.
#[test]
fn a_cycle_comes_with_its_link_alone(rt: HostRuntime) {
    let moves = [
        Move::Post(Step::Fail),
        Move::Post(Step::ToSecond),
        Move::Post(Step::Back),
        Move::Hold,
        Move::Post(Step::Mend),
        Move::Hold,
        Move::Loops(0, 0),
        Move::Compare(1),
    ];
    let course = course_of(&rt, rt.alloc(), &moves);
    course.compare_wide(&rt, rt.alloc(), 1);
}

/// A cycle and a black hole. The loops are asked for as kept, and as threads find them with the link b down. Threads
/// look at a copy of the snapshot.
#[test]
fn threads_answer_as_one_does(rt: HostRuntime) {
    let moves = [
        Move::Post(Step::ToSecond),
        Move::Post(Step::Back),
        Move::Post(Step::DropAtFirst),
        Move::Hold,
        Move::Compare(0),
    ];
    let course = course_of(&rt, rt.alloc(), &moves);
    course.compare_copy(&rt, rt.alloc(), 0, 5);
}

/// Two snapshots: of no entry, and of the first.
fn compare_pins(rt: &impl Abort, alloc: Global, snapshots: &[Snapshot]) {
    assert_eq!(rt; snapshots.len(), 2);
    compare(rt, alloc, &snapshots[0], &[]);
    compare(rt, alloc, &snapshots[1], &[Step::ToSecond]);
}

#[test]
fn events_are_played(rt: HostRuntime) {
    let alloc = rt.alloc();
    let mut trial = Trial::new(&rt, alloc, 2);
    let snapshots = trial.play(alloc).expect(&rt, "memory");
    compare_pins(&rt, alloc, &snapshots);
    same(
        &rt,
        &last_of_two(&rt, alloc, &trial),
        &(3, entry_of(Step::ExitAtSecond)),
    );
    let refused = trial.play(alloc).err();
    same(&rt, &refused, &Some(PostRefused::Full { length: 2 }));
}

/// Why a snapshot of a new store doesn't answer.
fn refusal(rt: &impl Abort, alloc: Global, ask: Ask) -> Option<AskRefused> {
    let trial = Trial::new(rt, alloc, 10);
    refusal_of(alloc, &trial.snap(rt), ask)
}

#[test]
fn an_unknown_name_is_told(rt: HostRuntime) {
    let alloc = rt.alloc();
    let router = Name::from_text(alloc, b"r9").expect(&rt, "memory");
    let refused = refusal(&rt, alloc, Ask::Blackholes(router));
    same(&rt, &refused, &Some(AskRefused::UnknownRouter(1)));
    let link = Name::from_text(alloc, b"z").expect(&rt, "memory");
    let refused = refusal(&rt, alloc, Ask::Uses(link));
    same(&rt, &refused, &Some(AskRefused::UnknownLink(1)));
}
