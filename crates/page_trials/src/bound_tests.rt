//! Boundaries that are cut, whose answers were worked out by hand.

use crate::same::same;
use atom_map::Bounds;
use std::alloc::Global;
use std::process::Abort;

/// 10.0.0.0.
const TEN: u32 = 167_772_160;

fn new_bounds(rt: &impl Abort, alloc: Global) -> Bounds {
    Bounds::new(alloc).expect(rt, "memory")
}

/// A cut at an address, looked for first near a place that may be at hand, parts addresses or not.
fn compare_cut(
    rt: &impl Abort,
    alloc: Global,
    atoms: &mut Bounds,
    looked_for: (Option<u64>, u32),
    parts: bool,
) {
    let (near, at) = looked_for;
    let spot = atoms.spot_near(near, at);
    let parted = atoms.cut_at(alloc, spot, at).expect(rt, "memory");
    same(rt, &parted, &parts);
}

/// The addresses at a place have these bounds.
fn compare_bounds(rt: &impl Abort, atoms: &Bounds, place: u64, want: (u64, u64)) {
    assert!(rt; place < atoms.count());
    same(rt, &atoms.bounds(place), &want);
}

/// An address stands at this place.
fn compare_place(rt: &impl Abort, atoms: &Bounds, a: u32, place: u64) {
    same(rt, &atoms.place_of(a), &place);
}

/// The addresses from one to another stand at these places, the first of which is looked for at a place.
fn compare_places(
    rt: &impl Abort,
    atoms: &Bounds,
    near: Option<u64>,
    ends: (u32, u32),
    want: (u64, u64),
) {
    let (lo, hi) = ends;
    same(rt, &atoms.places_from(near, lo, hi), &want);
}

/// The addresses from the first to the last of an atom stand at its place, wherever it is looked for.
fn compare_near(rt: &impl Abort, atoms: &Bounds, low: u32, last: u32, place: u64) {
    for near in 0..250 {
        same(rt, &atoms.place_near(Some(near), last), &place);
        compare_places(rt, atoms, Some(near), (low, last), (place, place));
    }
}

#[test]
fn a_cut_parts_all_addresses(rt: HostRuntime) {
    let alloc = rt.alloc();
    let mut atoms = new_bounds(&rt, alloc);
    compare_bounds(&rt, &atoms, 0, (0, 4_294_967_296));
    compare_cut(&rt, alloc, &mut atoms, (None, 0), false);
    compare_cut(&rt, alloc, &mut atoms, (None, TEN), true);
    compare_cut(&rt, alloc, &mut atoms, (Some(0), TEN), false);
    same(&rt, &atoms.count(), &2);
    compare_bounds(&rt, &atoms, 0, (0, 167_772_160));
    compare_bounds(&rt, &atoms, 1, (167_772_160, 4_294_967_296));
    compare_places(&rt, &atoms, None, (TEN - 1, TEN), (0, 1));
    same(&rt, &atoms.spot_near(None, u32::MAX).low, &TEN);
}

/// Cuts at the multiples of 20,000,000 below 4,000,000,000, the last one first.
fn cut_often(rt: &impl Abort, alloc: Global, atoms: &mut Bounds) {
    for k in 1..200u32 {
        let at = (200 - k) * 20_000_000;
        compare_cut(rt, alloc, atoms, (Some(1), at), true);
    }
}

/// Each atom is found by its first address and by its last, wherever it is looked for, also where it is a page's last.
fn compare_many(rt: &impl Abort, atoms: &Bounds) {
    for k in 0..200u32 {
        let (low, last) = (k * 20_000_000, k * 20_000_000 + 19_999_999);
        let place = k as u64;
        compare_place(rt, atoms, low, place);
        compare_place(rt, atoms, last, place);
        compare_near(rt, atoms, low, last, place);
    }
    compare_places(rt, atoms, None, (0, 3_999_999_999), (0, 199));
}

#[test]
fn many_cuts_are_found_in_order(rt: HostRuntime) {
    let alloc = rt.alloc();
    let mut atoms = new_bounds(&rt, alloc);
    cut_often(&rt, alloc, &mut atoms);
    let old = atoms.copy().expect(&rt, "memory");
    compare_many(&rt, &atoms);
    compare_cut(&rt, alloc, &mut atoms, (None, 30_000_000), true);
    same(&rt, &old.count(), &200);
    same(&rt, &atoms.count(), &201);
    compare_bounds(&rt, &old, 1, (20_000_000, 40_000_000));
    compare_bounds(&rt, &atoms, 1, (20_000_000, 30_000_000));
    compare_many(&rt, &old);
}
