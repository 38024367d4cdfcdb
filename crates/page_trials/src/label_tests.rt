//! Sets that were worked out by hand, and the labels of one router.

use crate::same::{same, same_list};
use crate::trial_graph::TrialGraph;
use dn_model::{AtomId, Target};
use edge_labels::AtomSet;
use std::alloc::Global;
use std::process::Abort;

fn set_of(rt: &impl Abort, alloc: Global, atoms: &[AtomId]) -> AtomSet {
    AtomSet::of(alloc, atoms).expect(rt, "memory")
}

fn three_atoms(rt: &impl Abort, alloc: Global) -> AtomSet {
    set_of(rt, alloc, &[AtomId(64), AtomId(0), AtomId(5), AtomId(0)])
}

/// Its last member stands in the third chunk.
fn three_others(rt: &impl Abort, alloc: Global) -> AtomSet {
    set_of(rt, alloc, &[AtomId(1_024), AtomId(5), AtomId(70)])
}

fn copied(rt: &impl Abort, set: &AtomSet) -> AtomSet {
    set.copy().expect(rt, "memory")
}

/// A set has these members, in order.
fn compare(rt: &impl Abort, alloc: Global, set: &AtomSet, want: &[AtomId]) {
    let members = set.members(alloc).expect(rt, "memory");
    same_list(rt, members.as_slice(), want);
}

/// The atoms that two sets both have are these.
fn compare_both(rt: &impl Abort, alloc: Global, x: &AtomSet, y: &AtomSet, want: &[AtomId]) {
    let both = x.intersection(alloc, y).expect(rt, "memory");
    compare(rt, alloc, &both, want);
}

/// The atoms that one of two sets has are these.
fn compare_either(rt: &impl Abort, alloc: Global, x: &AtomSet, y: &AtomSet, want: &[AtomId]) {
    let either = x.union(alloc, y).expect(rt, "memory");
    compare(rt, alloc, &either, want);
}

/// The atoms that the first set has and the second doesn't are these.
fn compare_left(rt: &impl Abort, alloc: Global, x: &AtomSet, y: &AtomSet, want: &[AtomId]) {
    let left = x.difference(alloc, y).expect(rt, "memory");
    compare(rt, alloc, &left, want);
}

#[test]
fn sets_of_two_sets(rt: HostRuntime) {
    let alloc = rt.alloc();
    let three = three_atoms(&rt, alloc);
    let others = three_others(&rt, alloc);
    same(&rt, &three.count(), &3);
    compare_both(&rt, alloc, &three, &others, &[AtomId(5)]);
    let all = [AtomId(0), AtomId(5), AtomId(64), AtomId(70), AtomId(1_024)];
    compare_either(&rt, alloc, &three, &others, &all);
    let left = [AtomId(0), AtomId(64)];
    compare_left(&rt, alloc, &three, &others, &left);
    let left = [AtomId(70), AtomId(1_024)];
    compare_left(&rt, alloc, &others, &three, &left);
}

/// The labels of one router, which has no route for any of 1,024 atoms.
fn thousand_atoms(rt: &impl Abort, alloc: Global) -> TrialGraph {
    let mut graph = TrialGraph::new(rt, alloc);
    for _atom in 0..1_023u32 {
        graph = graph.inherit(rt, alloc);
    }
    graph
}

/// The atoms whose numbers stand at the ends of chunks are the one router's own.
fn own_ends(rt: &impl Abort, alloc: Global) -> TrialGraph {
    thousand_atoms(rt, alloc)
        .turn(rt, alloc, 511, Target::Local)
        .turn(rt, alloc, 512, Target::Local)
        .turn(rt, alloc, 1_023, Target::Local)
}

/// The atom 512 leaves the label of the one router's own atoms, and 0 joins it.
fn change(rt: &impl Abort, alloc: Global, graph: TrialGraph) -> TrialGraph {
    graph
        .turn(rt, alloc, 512, Target::NoRoute)
        .turn(rt, alloc, 0, Target::Local)
}

#[test]
fn members_at_the_ends_of_chunks(rt: HostRuntime) {
    let alloc = rt.alloc();
    let ends = [AtomId(511), AtomId(512), AtomId(1_023)];
    compare(&rt, alloc, &set_of(&rt, alloc, &ends), &ends);
    let graph = own_ends(&rt, alloc);
    let copy = copied(&rt, graph.label(Target::Local));
    let graph = change(&rt, alloc, graph);
    let now = [AtomId(0), AtomId(511), AtomId(1_023)];
    compare(&rt, alloc, graph.label(Target::Local), &now);
    compare(&rt, alloc, &copy, &ends);
    let left = [AtomId(512)];
    compare_left(&rt, alloc, &copy, graph.label(Target::Local), &left);
}

/// The labels of one router, which has atoms 0 and 1, both with exit 1.
fn inherited(rt: &impl Abort, alloc: Global) -> TrialGraph {
    TrialGraph::new(rt, alloc)
        .turn(rt, alloc, 0, Target::Exit(1))
        .inherit(rt, alloc)
}

/// How many atoms have a target at the one router.
fn compare_count(rt: &impl Abort, graph: &TrialGraph, target: Target, want: u64) {
    same(rt, &graph.label(target).count(), &want);
}

#[test]
fn a_new_atom_has_the_label_of_the_old_one(rt: HostRuntime) {
    let alloc = rt.alloc();
    let graph = inherited(&rt, alloc);
    same(&rt, &graph.target(&rt, 1), &Target::Exit(1));
    let label = graph.label(Target::Exit(1));
    compare(&rt, alloc, label, &[AtomId(0), AtomId(1)]);
    compare_count(&rt, &graph, Target::NoRoute, 0);
    compare_count(&rt, &graph, Target::Local, 0);
}

#[test]
fn a_copy_keeps_its_labels(rt: HostRuntime) {
    let alloc = rt.alloc();
    let graph = inherited(&rt, alloc);
    let copy = graph.copied(&rt);
    let graph = graph.turn(&rt, alloc, 0, Target::Local);
    compare_count(&rt, &graph, Target::Local, 1);
    compare_count(&rt, &graph, Target::Exit(1), 1);
    compare_count(&rt, &copy, Target::Exit(1), 2);
    same(&rt, &copy.target(&rt, 0), &Target::Exit(1));
}
