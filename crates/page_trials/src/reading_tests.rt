//! What routers do with atoms, of many atoms or of many routers read at once.

use crate::same::{holds, same};
use crate::trial_rows::TrialRows;
use dn_model::Target;
use std::alloc::Global;
use std::process::Abort;

/// Rows of some routers and atoms: each router has an exit of its own number.
fn exits_for(rt: &impl Abort, alloc: Global, routers: u16, atoms: u64) -> TrialRows {
    let mut rows = TrialRows::new(rt, alloc, routers);
    for r in 0..routers {
        rows.turn(rt, alloc, r, (0, 1), Target::Exit(u32::from(r)));
    }
    for _cut in 1..atoms {
        rows.cut_first(rt, alloc);
    }
    rows
}

/// The router whose own the atom at a place becomes: they take turns.
fn owner_of(place: u64, routers: u16) -> u16 {
    if routers == 0 {
        return 0;
    }
    (place % u64::from(routers)) as u16
}

/// Each atom becomes the own one of a router.
fn share_out(rt: &impl Abort, alloc: Global, rows: &mut TrialRows) {
    let routers = rows.routers();
    for place in 0..rows.atoms() {
        let own = owner_of(place, routers);
        rows.turn(
            rt,
            alloc,
            own,
            (place, place.saturating_add(1)),
            Target::Local,
        );
    }
}

/// What a router does with the atom at a place of rows that were shared out.
fn does(routers: u16, r: u16, place: u64) -> Target {
    if owner_of(place, routers) == r {
        return Target::Local;
    }
    Target::Exit(u32::from(r))
}

/// What a router does with the atoms from a place on is this.
fn compare_some(rt: &impl Abort, routers: u16, r: u16, place: u64, some: &[Target]) {
    for (target, k) in some.iter().zip(place..u64::MAX) {
        same(rt, target, &does(routers, r, k));
    }
}

/// What a router does with all atoms is read in order. It answers in how many calls.
fn compare_column(rt: &impl Abort, rows: &TrialRows, r: u16, out: &mut [Target]) -> u64 {
    let mut place = 0u64;
    let mut calls = 0u64;
    for _call in 0..rows.atoms() {
        if place < rows.atoms() {
            let count = rows.column(rt, r, place, out);
            assert!(rt; 0 < count);
            assert!(rt; count <= out.len());
            compare_some(rt, rows.routers(), r, place, &out[..count]);
            place = place.saturating_add(count as u64);
            calls = calls.saturating_add(1);
        }
    }
    same(rt, &place, &rows.atoms());
    calls
}

/// Each router's targets for all atoms are read with room for one of them, and then with room for 100, which takes at most
/// so many calls.
fn compare_columns(rt: &impl Abort, rows: &TrialRows, most: u64) {
    let mut one = [Target::NoRoute; 1];
    let mut many = [Target::NoRoute; 100];
    for r in 0..rows.routers() {
        same(rt, &compare_column(rt, rows, r, &mut one), &rows.atoms());
        holds(rt, compare_column(rt, rows, r, &mut many) <= most);
    }
}

/// All routers' targets for an atom are these.
fn compare_all(rt: &impl Abort, routers: u16, place: u64, all: &[Target]) {
    for (target, r) in all.iter().zip(0..routers) {
        same(rt, target, &does(routers, r, place));
    }
}

/// All routers' targets for an atom are read at once.
fn compare_row(rt: &impl Abort, rows: &TrialRows, place: u64) {
    let mut room = [Target::NoRoute; 64];
    let routers = usize::from(rows.routers());
    assert!(rt; routers <= room.len());
    let all = &mut room[..routers];
    rows.row(rt, place, all);
    compare_all(rt, rows.routers(), place, all);
}

/// All routers' targets for each atom are read at once.
fn compare_rows(rt: &impl Abort, rows: &TrialRows) {
    for place in 0..rows.atoms() {
        compare_row(rt, rows, place);
    }
}

/// Rows of some routers and atoms are read by columns, for each of which so many calls are enough, and by rows.
fn read_all(rt: &impl Abort, alloc: Global, routers: u16, atoms: u64, most: u64) {
    let mut rows = exits_for(rt, alloc, routers, atoms);
    share_out(rt, alloc, &mut rows);
    same(rt, &rows.atoms(), &atoms);
    compare_columns(rt, &rows, most);
    compare_rows(rt, &rows);
}

/// The codes of one router, of eight and of nine for 200 atoms, and of 64 for 40 stand in several pages of 64 chunks: a
/// page with half of its room taken has 32 atoms, or 16, or 4.
#[test]
fn columns_and_rows_over_pages(rt: HostRuntime) {
    let alloc = rt.alloc();
    read_all(&rt, alloc, 1, 200, 8);
    read_all(&rt, alloc, 8, 200, 8);
    read_all(&rt, alloc, 9, 200, 16);
    read_all(&rt, alloc, 64, 40, 12);
}

/// There are fewer atoms than there is room for: one, and three.
#[test]
fn columns_with_more_room_than_atoms(rt: HostRuntime) {
    let alloc = rt.alloc();
    read_all(&rt, alloc, 9, 1, 1);
    read_all(&rt, alloc, 8, 3, 1);
}
