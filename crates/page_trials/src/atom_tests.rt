//! Maps that are cut, whose answers were worked out by hand.

use crate::same::same;
use atom_map::{AtomMap, AtomRow};
use base::AtomId;
use std::alloc::Global;
use std::process::Abort;

/// 10.0.0.0.
const TEN: u32 = 167_772_160;

fn new_map(rt: &impl Abort, alloc: Global) -> AtomMap {
    AtomMap::new(alloc).expect(rt, "memory")
}

fn cut(rt: &impl Abort, alloc: Global, atoms: &mut AtomMap, at: u32) -> Option<(AtomId, AtomId)> {
    atoms.cut(alloc, at).expect(rt, "memory")
}

fn copied(rt: &impl Abort, atoms: &AtomMap) -> AtomMap {
    atoms.copy().expect(rt, "memory")
}

/// The atom that has an address has these bounds.
fn compare_bounds(rt: &impl Abort, atoms: &AtomMap, a: u32, want: (u64, u64)) {
    same(rt, &atoms.bounds(atoms.atom_of(a)), &want);
}

/// This atom has an address.
fn compare_atom(rt: &impl Abort, atoms: &AtomMap, a: u32, want: AtomId) {
    same(rt, &atoms.atom_of(a), &want);
}

/// The atom that has an address stands at this place.
fn compare_place(rt: &impl Abort, atoms: &AtomMap, a: u32, want: u64) {
    same(rt, &atoms.place_of(a), &want);
}

/// The atoms of the addresses from one to another stand at these places, the first of which is looked for at a place.
fn compare_places(
    rt: &impl Abort,
    atoms: &AtomMap,
    near: Option<u64>,
    ends: (u32, u32),
    want: (u64, u64),
) {
    let (lo, hi) = ends;
    same(rt, &atoms.places_from(near, lo, hi), &want);
}

/// A row that is looked for from a place on is the one that is found from nowhere.
fn compare_spots(rt: &impl Abort, atoms: &AtomMap, near: u64, a: u32) {
    same(rt, &atoms.spot_from(near, a), &atoms.spot_of(a));
}

#[test]
fn a_cut_parts_the_atom_of_all_addresses(rt: HostRuntime) {
    let alloc = rt.alloc();
    let mut atoms = new_map(&rt, alloc);
    same(&rt, &cut(&rt, alloc, &mut atoms, 0), &None);
    let parts = cut(&rt, alloc, &mut atoms, TEN);
    same(&rt, &parts, &Some((AtomId(0), AtomId(1))));
    same(&rt, &cut(&rt, alloc, &mut atoms, TEN), &None);
    compare_atom(&rt, &atoms, TEN, AtomId(1));
}

/// What is told of the atoms before and after 10.0.0.0.
fn compare_parts(rt: &impl Abort, alloc: Global, atoms: &AtomMap) {
    same(rt, &atoms.count(), &2);
    compare_bounds(rt, atoms, 5, (0, 167_772_160));
    compare_bounds(rt, atoms, TEN, (167_772_160, 4_294_967_296));
    compare_place(rt, atoms, TEN, 1);
    compare_row(rt, atoms);
    compare_lists(rt, alloc, atoms);
}

/// What is told of the atom from 10.0.0.0 on.
fn compare_row(rt: &impl Abort, atoms: &AtomMap) {
    let second = AtomRow {
        atom: AtomId(1),
        low: 167_772_160,
        past: 4_294_967_296,
    };
    same(rt, &atoms.at(atoms.place_of(TEN)), &second);
}

/// How many atoms there are, and how many between two addresses.
fn compare_lists(rt: &impl Abort, alloc: Global, atoms: &AtomMap) {
    let rows = atoms.rows(alloc).expect(rt, "memory");
    same(rt, &rows.len(), &2);
    let met = atoms.atoms_in(alloc, 5, 167_772_160).expect(rt, "memory");
    same(rt, &met.len(), &1);
}

#[test]
fn the_parts_of_a_cut_are_told(rt: HostRuntime) {
    let alloc = rt.alloc();
    let mut atoms = new_map(&rt, alloc);
    let _parts = cut(&rt, alloc, &mut atoms, TEN);
    compare_parts(&rt, alloc, &copied(&rt, &atoms));
}

/// Cuts at the multiples of 20,000,000 below 4,000,000,000, the last one first.
fn cut_often(rt: &impl Abort, alloc: Global, atoms: &mut AtomMap) {
    for k in 1..200u32 {
        let parts = cut(rt, alloc, atoms, (200 - k) * 20_000_000);
        same(rt, &parts, &Some((AtomId(0), AtomId(k))));
    }
}

/// The atoms between the first cut and the last have the numbers of their cuts.
fn compare_many(rt: &impl Abort, atoms: &AtomMap) {
    for k in 1..199u32 {
        let at = (200 - k) * 20_000_000;
        compare_atom(rt, atoms, at, AtomId(k));
        let place = u64::from(201 - k);
        compare_place(rt, atoms, at, place);
        same(rt, &atoms.place_from(u64::from(k), at), &place);
    }
}

/// The atoms of two addresses are the same wherever they are looked for.
fn compare_ends(rt: &impl Abort, atoms: &AtomMap) {
    let (lo, hi) = (45_000_000, 3_999_999_999);
    for near in 0..250 {
        compare_places(rt, atoms, Some(near), (lo, lo), (3, 3));
        compare_places(rt, atoms, Some(near), (lo, hi), (3, 200));
        compare_spots(rt, atoms, near, hi);
    }
    compare_places(rt, atoms, None, (lo, hi), (3, 200));
}

#[test]
fn many_cuts_are_told_in_order(rt: HostRuntime) {
    let alloc = rt.alloc();
    let mut atoms = new_map(&rt, alloc);
    cut_often(&rt, alloc, &mut atoms);
    let old = copied(&rt, &atoms);
    let parts = cut(&rt, alloc, &mut atoms, 30_000_000);
    same(&rt, &parts, &Some((AtomId(199), AtomId(200))));
    same(&rt, &old.count(), &200);
    same(&rt, &atoms.count(), &201);
    compare_bounds(&rt, &old, 30_000_000, (20_000_000, 40_000_000));
    compare_bounds(&rt, &atoms, 30_000_000, (30_000_000, 40_000_000));
    compare_many(&rt, &atoms);
    compare_ends(&rt, &atoms);
    compare_ends(&rt, &copied(&rt, &atoms));
}
