//! Atoms in order: the one of an address, the first ones, and two in the place of one.

ghost use Rattle.std.specs.Prelude.{◌≡◌, ◌<◌, ◌≤◌, ◌^◌, IfOk, IfSome, OnOk, OnErr, length, map, drop, slice_index_or};
ghost use Rattle.atom_map.specs.Atoms.{AreAtoms, atom_of};
ghost use Rattle.atom_map.specs.declared.atom_row.AtomRow.{AtomRow};
ghost use Rattle.atom_map.specs.Index.{first_below, AgreeBelow, IsAtomAt, IsAtomPlace, IsNoted, IsPartedAt};

use crate::atom_row::AtomRow;
use base::{AtomId, OutOfMemory};
use std::alloc::Global;
use version_pages::{Keyed, Pages, count_below_from};

/// The atom of an address, and its place: how many atoms go before it.
#[derive(Clone, Copy, Debug, PartialEq, Eq)]
pub struct AtomSpot {
    pub place: u64,
    pub row: AtomRow,
}

/// The element at a place of a list in pages.
pub fn read<T: Keyed + Copy>(pages: &Pages<T>, i: u64) -> T
    requires { i < length pages.now }
    ensures { (d : T) → result ≡ slice_index_or pages.now i d }
{
    match pages.get(i) {
        Some(element) => *element,
        None => unreachable!(),
    }
}

/// Which of all atoms, by place, has an address: the last that doesn't begin above it. It is found in one descent.
pub fn place_of(rows: &Pages<AtomRow>, a: u32) -> u64
    requires { AreAtoms rows.now }
    ensures inside { result < length rows.now }
    ensures from { (d : AtomRow) → (slice_index_or rows.now result d).low ≤ a }
    ensures to { (d : AtomRow) → a < (slice_index_or rows.now result d).past }
{
    let past = rows.count_below(a as u64 + 1);
    past - 1
}

/// Which of these atoms has an address: the last that doesn't begin above it, unless it ends before it, as the last of a
/// page may. It looks first at the atom behind the expected one, and then at that one.
fn place_in(run: &[AtomRow], expected: usize, a: u32) -> Option<usize>
    ensures { IfSome result (λ place. IsAtomPlace run.now place a) }
{
    let begun = count_below_from(run, u64::from(a) + 1, expected.saturating_add(1));
    let place = begun.checked_sub(1)?;
    if run[place].past <= u64::from(a) {
        return None;
    }
    Some(place)
}

/// The atom of an address, where it stands in one page with the atom at a place. It is expected so many places behind that
/// one, and looked for there first.
pub fn spot_near(rows: &Pages<AtomRow>, near: u64, expected: usize, a: u32) -> Option<AtomSpot>
    requires { AreAtoms rows.now }
    ensures { IfSome result (λ spot. IsAtomAt rows.now spot.place a spot.row) }
{
    let (page, first, at) = rows.page_near(near);
    let below = place_in(page, at.saturating_add(expected), a)?;
    let place = first + below as u64;
    Some(AtomSpot {
        place,
        row: page[below],
    })
}

/// The places of the atoms that have two addresses, where both stand in one page with the atom at a place. The first is
/// looked for where it is expected, and the other from there.
pub fn places_near(
    rows: &Pages<AtomRow>,
    near: u64,
    expected: usize,
    lo: u32,
    hi: u32,
) -> Option<(u64, u64)>
    requires { AreAtoms rows.now }
    ensures first { IfSome result (λ places. IsAtomPlace rows.now places.0 lo) }
    ensures last { IfSome result (λ places. IsAtomPlace rows.now places.1 hi) }
{
    let (page, from, at) = rows.page_near(near);
    let first = place_in(page, at.saturating_add(expected), lo)?;
    let last = place_in(page, first, hi)?;
    Some((from + first as u64, from + last as u64))
}

/// The place of the atom that has an address. It looks first where a guide says.
pub fn place_from(rows: &Pages<AtomRow>, near: u64, a: u32) -> u64
    requires { AreAtoms rows.now }
    ensures inside { result < length rows.now }
    ensures from { (d : AtomRow) → (slice_index_or rows.now result d).low ≤ a }
    ensures to { (d : AtomRow) → a < (slice_index_or rows.now result d).past }
{
    match spot_near(rows, near, 0, a) {
        Some(spot) => spot.place,
        None => place_of(rows, a),
    }
}

/// The atom of an address. It looks first where a guide says.
pub fn spot_from(rows: &Pages<AtomRow>, near: u64, a: u32) -> AtomSpot
    requires { AreAtoms rows.now }
    ensures { IsAtomAt rows.now result.place a result.row }
{
    match spot_near(rows, near, 0, a) {
        Some(spot) => spot,
        None => spot_of(rows, a),
    }
}

/// The atom of an address, found in one descent.
fn spot_of(rows: &Pages<AtomRow>, a: u32) -> AtomSpot
    requires { AreAtoms rows.now }
    ensures { IsAtomAt rows.now result.place a result.row }
{
    let place = place_of(rows, a);
    let row = read(rows, place);
    AtomSpot { place, row }
}

/// The first atoms from a place on, up to the first that begins at this address or above it.
pub fn atoms_below(
    alloc: Global,
    rows: &Pages<AtomRow>,
    from: u64,
    hi: u64,
) -> Result<Vec<AtomId>, OutOfMemory>
    requires { from ≤ length rows.now }
    ensures { IfOk result (λ atoms. atoms.items ≡ map atom_of (first_below hi (drop from rows.now))) }
{
    let mut atoms = Vec::new(alloc);
    for i in from..rows.len() {
        let row = read(rows, i);
        if row.low >= hi {
            break;
        }
        atoms.push(row.atom)?;
    }
    Ok(atoms)
}

/// Notes where the atom of a number begins. What is noted of lower numbers stays, also where it fails, for which want
/// of memory is the one cause.
fn note(alloc: Global, lows: &mut Pages<u32>, number: u64, at: u32) -> Result<(), OutOfMemory>
    requires { number ≤ length lows.old }
    ensures below { AgreeBelow lows.old lows.new number }
    ensures there { OnOk result (IsNoted lows.new number at) }
{
    if number < lows.len() {
        lows.put(alloc, number, at)?;
        return Ok(());
    }
    lows.push(alloc, at)?;
    Ok(())
}

/// Puts the two parts of an atom in its place, and notes where the new one begins. It fails for want of memory alone,
/// and the atoms are then as before.
pub fn part(
    alloc: Global,
    rows: &mut Pages<AtomRow>,
    lows: &mut Pages<u32>,
    spot: AtomSpot,
    at: u32,
) -> Result<AtomId, OutOfMemory>
    requires inside { spot.place < length rows.old }
    requires row { (d : AtomRow) → spot.row ≡ slice_index_or rows.old spot.place d }
    requires few { length rows.old < 2 ^ 32 }
    requires begun { length rows.old ≤ length lows.old }
    ensures number { IfOk result (λ new. new.0 ≡ length rows.old) }
    ensures rows { IfOk result (λ new. (d : AtomRow) → IsPartedAt rows.old rows.new spot.place at new d) }
    ensures same { OnErr result (rows.new ≡ rows.old) }
    ensures below { AgreeBelow lows.old lows.new (length rows.old) }
    ensures noted { OnOk result (IsNoted lows.new (length rows.old) at) }
{
    let row = spot.row;
    let number = rows.len();
    let new = AtomId(number as u32);
    let lower = AtomRow {
        atom: row.atom,
        low: row.low,
        past: at as u64,
    };
    let upper = AtomRow {
        atom: new,
        low: at as u64,
        past: row.past,
    };
    note(alloc, lows, number, at)?;
    rows.replace_by_two(alloc, spot.place, lower, upper)?;
    Ok(new)
}
