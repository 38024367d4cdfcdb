//! Answers beside what they are to be.

use base::{Cycle, Hole, RouterId, Run, Target};
use std::fmt::Debug;
use std::process::Abort;

/// Two values are equal. This contract and the next say nothing: what a comparison found is of no use to the proof of
/// the test that asks for it. The length that an index rests on is compared by `assert_eq!`.
pub(crate) fn same<T: PartialEq + Debug>(rt: &impl Abort, left: &T, right: &T) {
    assert_eq!(rt; *left, *right);
}

/// Two slices have equal elements.
pub(crate) fn same_list<T: PartialEq + Debug>(rt: &impl Abort, left: &[T], right: &[T]) {
    assert_eq!(rt; left, right);
}

/// This is so.
pub(crate) fn holds(rt: &impl Abort, is_so: bool) {
    assert!(rt; is_so);
}

/// The hole at a place is this one.
pub(crate) fn compare_hole(
    rt: &impl Abort,
    holes: &[Hole],
    place: usize,
    router: RouterId,
    cause: Target,
    runs: &[Run],
) {
    let hole = holes.get(place).expect(rt, "a hole");
    same(rt, &hole.router, &router);
    same(rt, &hole.cause, &cause);
    same_list(rt, hole.runs.as_slice(), runs);
}

/// The cycle at a place is of these routers, with this least address and so many addresses.
pub(crate) fn compare_cycle(
    rt: &impl Abort,
    cycles: &[Cycle],
    place: usize,
    routers: &[RouterId],
    least: u32,
    addresses: u64,
) {
    let cycle = cycles.get(place).expect(rt, "a cycle");
    same_list(rt, cycle.routers.as_slice(), routers);
    same(rt, &cycle.least, &least);
    same(rt, &cycle.addresses, &addresses);
}

/// Two lists of holes are the same.
pub(crate) fn compare_holes(rt: &impl Abort, xs: &[Hole], ys: &[Hole]) {
    same(rt, &xs.len(), &ys.len());
    for (place, y) in ys.iter().enumerate() {
        compare_hole(rt, xs, place, y.router, y.cause, y.runs.as_slice());
    }
}

/// Two lists of cycles are the same.
pub(crate) fn compare_cycles(rt: &impl Abort, xs: &[Cycle], ys: &[Cycle]) {
    same(rt, &xs.len(), &ys.len());
    for (place, y) in ys.iter().enumerate() {
        compare_cycle(rt, xs, place, y.routers.as_slice(), y.least, y.addresses);
    }
}
