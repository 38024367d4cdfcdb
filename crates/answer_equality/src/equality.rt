//! Whether two answers are the same.

ghost use Rattle.std.specs.Prelude.{◌≡◌, IsTrue};

use dn_model::{Answer, Change, Cycle, Hole, RouterId, Run};

/// Whether two routers are the same.
fn is_same_router(x: &RouterId, y: &RouterId) -> bool
    ensures { IsTrue result → x.now ≡ y.now }
{
    x.0 == y.0
}

/// Whether two lists of routers are the same.
fn are_same_routers(x: &[RouterId], y: &[RouterId]) -> bool
    ensures { IsTrue result → x.now ≡ y.now }
{
    match (x, y) {
        ([], []) => true,
        ([first, left @ ..], [second, right @ ..]) => {
            is_same_router(first, second) && are_same_routers(left, right)
        }
        _ => false,
    }
}

/// Whether two runs are the same.
fn is_same_run(x: &Run, y: &Run) -> bool
    ensures { IsTrue result → x.now ≡ y.now }
{
    x.lo == y.lo && x.hi == y.hi
}

/// Whether two lists of runs are the same.
fn are_same_runs(x: &[Run], y: &[Run]) -> bool
    ensures { IsTrue result → x.now ≡ y.now }
{
    match (x, y) {
        ([], []) => true,
        ([first, left @ ..], [second, right @ ..]) => {
            is_same_run(first, second) && are_same_runs(left, right)
        }
        _ => false,
    }
}

/// Whether two changes are the same.
fn is_same_change(x: &Change, y: &Change) -> bool
    ensures { IsTrue result → x.now ≡ y.now }
{
    x.router == y.router
        && is_same_run(&x.run, &y.run)
        && x.before == y.before
        && x.after == y.after
}

/// Whether two lists of changes are the same.
fn are_same_changes(x: &[Change], y: &[Change]) -> bool
    ensures { IsTrue result → x.now ≡ y.now }
{
    match (x, y) {
        ([], []) => true,
        ([first, left @ ..], [second, right @ ..]) => {
            is_same_change(first, second) && are_same_changes(left, right)
        }
        _ => false,
    }
}

/// Whether two cycles are the same.
fn is_same_cycle(x: &Cycle, y: &Cycle) -> bool
    ensures { IsTrue result → x.now ≡ y.now }
{
    x.least == y.least
        && x.addresses == y.addresses
        && are_same_routers(x.routers.as_slice(), y.routers.as_slice())
}

/// Whether two lists of cycles are the same.
fn are_same_cycles(x: &[Cycle], y: &[Cycle]) -> bool
    ensures { IsTrue result → x.now ≡ y.now }
{
    match (x, y) {
        ([], []) => true,
        ([first, left @ ..], [second, right @ ..]) => {
            is_same_cycle(first, second) && are_same_cycles(left, right)
        }
        _ => false,
    }
}

/// Whether two holes are the same.
fn is_same_hole(x: &Hole, y: &Hole) -> bool
    ensures { IsTrue result → x.now ≡ y.now }
{
    x.router == y.router
        && x.cause == y.cause
        && are_same_runs(x.runs.as_slice(), y.runs.as_slice())
}

/// Whether two lists of holes are the same.
fn are_same_holes(x: &[Hole], y: &[Hole]) -> bool
    ensures { IsTrue result → x.now ≡ y.now }
{
    match (x, y) {
        ([], []) => true,
        ([first, left @ ..], [second, right @ ..]) => {
            is_same_hole(first, second) && are_same_holes(left, right)
        }
        _ => false,
    }
}

/// Whether two answers are the same: of one kind, with the same routers, runs, cycles, holes or changes in the same
/// order. That it says yes of equal ones, the trials show.
pub fn is_same_answer(first: &Answer, second: &Answer) -> bool
    ensures { IsTrue result → first.now ≡ second.now }
{
    match (first, second) {
        (
            Answer::Path { hops, end },
            Answer::Path {
                hops: others,
                end: other,
            },
        ) => end == other && are_same_routers(hops.as_slice(), others.as_slice()),
        (Answer::Runs(x), Answer::Runs(y)) => are_same_runs(x.as_slice(), y.as_slice()),
        (Answer::Uses(x, back), Answer::Uses(y, other)) => {
            are_same_runs(x.as_slice(), y.as_slice())
                && are_same_runs(back.as_slice(), other.as_slice())
        }
        (Answer::Loops(x), Answer::Loops(y)) => are_same_cycles(x.as_slice(), y.as_slice()),
        (Answer::Holes(x), Answer::Holes(y)) => are_same_holes(x.as_slice(), y.as_slice()),
        (Answer::Delta(x), Answer::Delta(y)) => are_same_changes(x.as_slice(), y.as_slice()),
        _ => false,
    }
}
