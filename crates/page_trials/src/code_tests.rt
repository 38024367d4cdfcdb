//! Rows that were worked out by hand, of one router and of seventeen, whose codes stand in three chunks.

use crate::same::same;
use crate::trial_rows::TrialRows;
use dn_model::Target;
use std::alloc::Global;
use std::process::Abort;

/// The rows of one router, which has atoms 0 and 1, both with exit 1.
fn parted_rows(rt: &impl Abort, alloc: Global) -> TrialRows {
    let mut rows = TrialRows::new(rt, alloc, 1);
    rows.turn(rt, alloc, 0, (0, 1), Target::Exit(1));
    rows.cut_first(rt, alloc);
    rows
}

/// A router does this with the atom at a place.
fn compare_target(rt: &impl Abort, rows: &TrialRows, r: u16, place: u64, want: Target) {
    same(rt, &rows.target(rt, r, place), &want);
}

#[test]
fn a_copy_keeps_its_rows(rt: HostRuntime) {
    let alloc = rt.alloc();
    let mut rows = parted_rows(&rt, alloc);
    let copy = rows.copied(&rt);
    rows.turn(&rt, alloc, 0, (0, 1), Target::Local);
    compare_target(&rt, &rows, 0, 0, Target::Local);
    compare_target(&rt, &rows, 0, 1, Target::Exit(1));
    compare_target(&rt, &copy, 0, 0, Target::Exit(1));
}

/// Rows of seventeen routers, each of which has an exit of its own number for atoms 0 and 1.
fn seventeen(rt: &impl Abort, alloc: Global) -> TrialRows {
    let mut rows = TrialRows::new(rt, alloc, 17);
    turn_all(rt, alloc, &mut rows);
    rows.cut_first(rt, alloc);
    rows
}

/// Each of seventeen routers gets an exit of its own number for the first atom.
fn turn_all(rt: &impl Abort, alloc: Global, rows: &mut TrialRows) {
    for r in 0..17u16 {
        rows.turn(rt, alloc, r, (0, 1), Target::Exit(u32::from(r)));
    }
}

/// Each of seventeen routers has its own exit for an atom, but one of them, whose own the atom is.
fn compare_row(rt: &impl Abort, rows: &TrialRows, place: u64, own: u16) {
    compare_others(rt, rows, place, own, Target::Local);
}

/// Each of seventeen routers has its own exit for an atom, but one of them, which does this.
fn compare_others(rt: &impl Abort, rows: &TrialRows, place: u64, one: u16, does: Target) {
    for r in 0..17u16 {
        let want = if r == one {
            does
        } else {
            Target::Exit(u32::from(r))
        };
        compare_target(rt, rows, r, place, want);
    }
}

#[test]
fn codes_of_a_row_stand_in_three_chunks(rt: HostRuntime) {
    let alloc = rt.alloc();
    let mut rows = seventeen(&rt, alloc);
    let copy = rows.copied(&rt);
    rows.turn(&rt, alloc, 16, (0, 1), Target::Local);
    rows.turn(&rt, alloc, 8, (1, 2), Target::Local);
    compare_row(&rt, &rows, 0, 16);
    compare_row(&rt, &rows, 1, 8);
    compare_row(&rt, &copy, 0, 17);
    compare_row(&rt, &copy, 1, 17);
}

#[test]
fn a_row_that_is_cut_keeps_those_behind_it(rt: HostRuntime) {
    let alloc = rt.alloc();
    let mut rows = seventeen(&rt, alloc);
    rows.turn(&rt, alloc, 3, (0, 1), Target::Local);
    rows.turn(&rt, alloc, 16, (1, 2), Target::Local);
    rows.cut_first(&rt, alloc);
    compare_row(&rt, &rows, 0, 3);
    compare_row(&rt, &rows, 1, 3);
    compare_row(&rt, &rows, 2, 16);
}

/// Rows of seventeen routers and 102 atoms, which stand in more than five pages.
fn hundred_and_two(rt: &impl Abort, alloc: Global) -> TrialRows {
    let mut rows = seventeen(rt, alloc);
    for _cut in 0..100u64 {
        rows.cut_first(rt, alloc);
    }
    rows
}

/// A router has the atoms of the places from `first` up to, and without, `past` as its own, and no router has another.
fn compare_rows(rt: &impl Abort, rows: &TrialRows, own: u16, first: u64, past: u64) {
    for place in 0..102 {
        let here = first <= place && place < past;
        compare_row(rt, rows, place, if here { own } else { 17 });
    }
}

#[test]
fn a_run_of_atoms_over_many_pages(rt: HostRuntime) {
    let alloc = rt.alloc();
    let mut rows = hundred_and_two(&rt, alloc);
    let copy = rows.copied(&rt);
    rows.turn(&rt, alloc, 9, (40, 40), Target::Local);
    compare_rows(&rt, &rows, 17, 0, 0);
    rows.turn(&rt, alloc, 9, (7, 95), Target::Local);
    compare_rows(&rt, &rows, 9, 7, 95);
    rows.turn(&rt, alloc, 9, (0, 102), Target::Exit(9));
    rows.turn(&rt, alloc, 16, (101, 102), Target::Local);
    compare_rows(&rt, &rows, 16, 101, 102);
    compare_rows(&rt, &copy, 17, 0, 0);
}

/// A router does so many things with no atom, exits from one on, none of which any router did before: each takes a code
/// of its own. What the routers do stays as it is.
fn use_codes(rt: &impl Abort, alloc: Global, rows: &mut TrialRows, first: u32, count: u32) {
    for exit in first..first.saturating_add(count) {
        rows.turn(rt, alloc, 0, (0, 0), Target::Exit(exit));
    }
}

/// The last of seventeen routers does something else with the atom at one of two places.
fn turn_last(rt: &impl Abort, alloc: Global, rows: &mut TrialRows, place: u64, after: Target) {
    rows.turn(rt, alloc, 16, (place, place.saturating_add(1)), after);
}

/// Each of seventeen routers has its own exit for an atom, but the last, which does this.
fn compare_last(rt: &impl Abort, rows: &TrialRows, place: u64, last: Target) {
    compare_others(rt, rows, place, 16, last);
}

/// The routers' exits for an atom have the codes from 65,528 to 65,544, the last nine of which have upper halves:
/// without these they would be codes of other routers. One of the nine gives way to a code that has none, in one row of
/// two.
#[test]
fn some_codes_of_a_row_have_upper_halves(rt: HostRuntime) {
    let alloc = rt.alloc();
    let mut rows = TrialRows::new(&rt, alloc, 17);
    use_codes(&rt, alloc, &mut rows, 1_000, 65_511);
    turn_all(&rt, alloc, &mut rows);
    rows.cut_first(&rt, alloc);
    turn_last(&rt, alloc, &mut rows, 1, Target::NoRoute);
    compare_last(&rt, &rows, 0, Target::Exit(16));
    compare_last(&rt, &rows, 1, Target::NoRoute);
}

/// Two rows have codes below 34, and a copy holds them. One router has at one atom the code 65,536, the first with an
/// upper half, and then at the other the code 131,073, whose upper half is another.
#[test]
fn the_first_code_with_an_upper_half_leaves_the_others(rt: HostRuntime) {
    let alloc = rt.alloc();
    let mut rows = seventeen(&rt, alloc);
    use_codes(&rt, alloc, &mut rows, 1_000, 65_502);
    let copy = rows.copied(&rt);
    turn_last(&rt, alloc, &mut rows, 0, Target::Exit(100));
    compare_last(&rt, &rows, 0, Target::Exit(100));
    compare_last(&rt, &rows, 1, Target::Exit(16));
    use_codes(&rt, alloc, &mut rows, 100_000, 65_536);
    turn_last(&rt, alloc, &mut rows, 1, Target::Exit(101));
    compare_last(&rt, &rows, 0, Target::Exit(100));
    compare_last(&rt, &rows, 1, Target::Exit(101));
    compare_last(&rt, &copy, 0, Target::Exit(16));
    compare_last(&rt, &copy, 1, Target::Exit(16));
}
