//! Courses of a store: what is posted, held and compared, one after another.

use crate::questions::{compare, compare_wide, count_loops};
use crate::same::same;
use crate::step::Step;
use crate::trial::Trial;
use fast_pins::Shot;
use std::alloc::Global;
use std::process::Abort;
use std::thread::Threads;
use version_store::Snapshot;

/// One move of a course.
#[derive(Clone, Copy)]
pub enum Move {
    /// The entry of a step is posted under the seat 7.
    Post(Step),
    /// A snapshot is taken, and held to the end. Its place is how many were taken before it.
    Hold,
    /// The snapshot at a place is compared with the plain evaluator after what was posted before it was taken.
    Compare(usize),
    /// The snapshot at a place tells so many cycles.
    Loops(usize, usize),
}

/// A snapshot that is held, and what was posted before it was taken.
#[derive(Drop)]
struct Held {
    snapshot: Snapshot,
    steps: Vec<Step>,
}

/// A store of the network, what was posted in it, and the snapshots that are held of it.
#[derive(Drop)]
pub struct Course {
    trial: Trial,
    steps: Vec<Step>,
    held: Vec<Held>,
}

/// The snapshot at a place.
fn held_at<'a>(rt: &impl Abort, held: &'a [Held], place: usize) -> &'a Held {
    held.get(place).expect(rt, "a snapshot")
}

/// A snapshot that is held is compared.
fn compare_held(rt: &impl Abort, alloc: Global, held: &Held) {
    compare(rt, alloc, &held.snapshot, held.steps.as_slice());
}

impl Course {
    /// A course of a store that takes at most 10 entries, before its first move.
    fn new(rt: &impl Abort, alloc: Global) -> Course {
        Course {
            trial: Trial::new(rt, alloc, 10),
            steps: Vec::new(alloc),
            held: Vec::new(alloc),
        }
    }

    /// Posts the entry of a step.
    fn post(&mut self, rt: &impl Abort, step: Step) {
        let _ = self.trial.post(7, step);
        self.steps.push(step).expect(rt, "memory");
    }

    /// Takes a snapshot, and holds it.
    fn hold(&mut self, rt: &impl Abort, alloc: Global) {
        let snapshot = self.trial.snap(rt);
        let steps = Vec::from_slice(alloc, self.steps.as_slice()).expect(rt, "memory");
        self.held
            .push(Held { snapshot, steps })
            .expect(rt, "memory");
    }

    /// The snapshot at a place is compared.
    fn compare(&self, rt: &impl Abort, alloc: Global, place: usize) {
        compare_held(rt, alloc, held_at(rt, self.held.as_slice(), place));
    }

    /// The snapshot at a place tells so many cycles.
    fn compare_loops(&self, rt: &impl Abort, alloc: Global, place: usize, count: usize) {
        let held = held_at(rt, self.held.as_slice(), place);
        same(rt, &count_loops(rt, alloc, &held.snapshot), &count);
    }

    /// The snapshot at a place is compared as threads find its answers.
    pub fn compare_wide(&self, rt: &(impl Threads + Abort + Sync), alloc: Global, place: usize) {
        let held = held_at(rt, self.held.as_slice(), place);
        compare_wide(rt, alloc, &held.snapshot, held.steps.as_slice());
    }

    /// A copy of the snapshot at a place has so many atoms, and is compared as threads find its answers.
    pub fn compare_copy(
        &self,
        rt: &(impl Threads + Abort + Sync),
        alloc: Global,
        place: usize,
        atoms: u64,
    ) {
        let held = held_at(rt, self.held.as_slice(), place);
        let copy = held.snapshot.copy().expect(rt, "memory");
        same(
            rt,
            &(copy.number() as usize, copy.atoms()),
            &(held.steps.len(), atoms),
        );
        compare_wide(rt, alloc, &copy, held.steps.as_slice());
    }

    /// Makes a move.
    fn make(&mut self, rt: &impl Abort, alloc: Global, next: Move) {
        match next {
            Move::Post(step) => self.post(rt, step),
            Move::Hold => self.hold(rt, alloc),
            Move::Compare(place) => self.compare(rt, alloc, place),
            Move::Loops(place, count) => self.compare_loops(rt, alloc, place, count),
        }
    }
}

/// The course after these moves.
pub fn course_of(rt: &impl Abort, alloc: Global, moves: &[Move]) -> Course {
    let mut course = Course::new(rt, alloc);
    for next in moves {
        course.make(rt, alloc, *next);
    }
    course
}
