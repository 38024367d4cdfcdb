//! Atoms by address and by number.

ghost use Rattle.std.specs.Prelude.{◌≡◌, ◌<◌, ◌≤◌, ◌^◌, Some, OnErr, IfOk, IfSome, Contains, length, map, option_map, take, drop, slice_index_or};
ghost use Rattle.atom_map.specs.Atoms.{AreAtoms, IsCut, atom_of, atoms_in, bounds_of, row_at, row_of};
ghost use Rattle.atom_map.specs.declared.atom_row.AtomRow.{AtomRow};
ghost use Rattle.atom_map.specs.Index.{one_atom, IsAtomAt, IsAtomPlace};

use crate::atom_row::AtomRow;
use crate::guide::Guide;
use crate::search::{
    AtomSpot, atoms_below, part, place_from, place_of, places_near, read, spot_from, spot_near,
};
use base::{AtomId, List, OutOfMemory};
use std::alloc::Global;
use std::marker::Model;
use version_pages::Pages;

/// The address after the last.
const END: u64 = 0x1_0000_0000;

/// How many places behind one that is at hand an atom is expected that is looked for from there.
const AHEAD: usize = 1;

/// The addresses, cut into atoms. A contract sees it as the list of the atoms with their bounds, in order: they cover
/// the addresses from 0 to 2^32 once, and their numbers are those below their count.
#[derive(Drop)]
pub struct AtomMap {
    rows: Pages<AtomRow>,
    lows: Pages<u32>,
    /// Where to look for the atom of an address.
    guide: Guide,
}

impl Model for AtomMap {
    ghost use Rattle.std.specs.Prelude.{List};
    ghost use Rattle.atom_map.specs.declared.atom_row.AtomRow.{AtomRow};
    ghost use Rattle.atom_map.specs.Index.{IsIndexed};

    ghost Value = { List AtomRow };

    ghost view = { λ m. m.rows };

    ghost invariant = { λ m. IsIndexed m.rows m.lows };
}

impl AtomMap {
    /// One atom, number 0, of all addresses.
    pub fn new(alloc: Global) -> Result<AtomMap, OutOfMemory>
        ensures { IfOk result (λ atoms. atoms ≡ one_atom) }
    {
        let row = AtomRow {
            atom: AtomId(0),
            low: 0,
            past: END,
        };
        let mut rows = Pages::new();
        rows.push(alloc, row)?;
        let mut lows = Pages::new();
        lows.push(alloc, 0)?;
        Ok(AtomMap {
            rows,
            lows,
            guide: guide_to_one(alloc),
        })
    }

    /// Cuts the atom of an address in two there: the atom ends at the address now, and a new one, whose number is the
    /// count of the atoms before, begins there. It answers both, and none exactly where an atom begins at the address
    /// already. After `OutOfMemory`, for which alone it fails, the atoms are as before.
    pub fn cut(&mut self, alloc: Global, at: u32) -> Result<Option<(AtomId, AtomId)>, OutOfMemory>
        ensures ok { IfOk result (IsCut self.old self.new at) }
        ensures err { OnErr result (self.new ≡ self.old) }
        ensures form { AreAtoms self.new }
        ensures there { IfOk result (λ cut. IfSome cut (λ p. (p.0.0 < length self.new) × (p.1.0 < length self.new))) }
    {
        let spot = self.spot_of(at);
        return self.cut_at(alloc, spot, at);
    }

    /// Cuts the atom of an address, which was found, as `cut` does. So a caller that needs its place searches once, and the
    /// atom isn't read again.
    pub fn cut_at(
        &mut self,
        alloc: Global,
        spot: AtomSpot,
        at: u32,
    ) -> Result<Option<(AtomId, AtomId)>, OutOfMemory>
        requires { IsAtomAt self.old spot.place at spot.row }
        ensures ok { IfOk result (IsCut self.old self.new at) }
        ensures err { OnErr result (self.new ≡ self.old) }
        ensures form { AreAtoms self.new }
        ensures there { IfOk result (λ cut. IfSome cut (λ p. (p.0.0 < length self.new) × (p.1.0 < length self.new))) }
    {
        let _ = &self.rows;
        if spot.row.low == at as u64 {
            return Ok(None);
        }
        let new = part(alloc, &mut self.rows, &mut self.lows, spot, at)?;
        self.guide.count(at);
        Ok(Some((spot.row.atom, new)))
    }

    /// The atom of an address. It takes no memory.
    pub fn atom_of(&self, a: u32) -> AtomId
        ensures atom { option_map atom_of (row_at self.now a) ≡ Some result }
        ensures there { result.0 < length self.now }
    {
        let place = place_of(&self.rows, a);
        read(&self.rows, place).atom
    }

    /// How many atoms there are.
    pub fn count(&self) -> u64
        ensures value { result ≡ length self.now }
        ensures form { AreAtoms self.now }
    {
        self.rows.len()
    }

    /// The place of the atom that has an address: how many atoms go before it. It takes no memory.
    pub fn place_of(&self, a: u32) -> u64
        ensures inside { result < length self.now }
        ensures from { (d : AtomRow) → (slice_index_or self.now result d).low ≤ a }
        ensures to { (d : AtomRow) → a < (slice_index_or self.now result d).past }
    {
        place_from(&self.rows, self.guide.place(a), a)
    }

    /// The place of the atom that has an address. It looks first in the page of a place that is at hand, right behind that
    /// place: where the atom stands in that page, it is found in one descent.
    pub fn place_from(&self, near: u64, a: u32) -> u64
        ensures inside { result < length self.now }
        ensures from { (d : AtomRow) → (slice_index_or self.now result d).low ≤ a }
        ensures to { (d : AtomRow) → a < (slice_index_or self.now result d).past }
    {
        match spot_near(&self.rows, near, AHEAD, a) {
            Some(spot) => spot.place,
            None => self.place_of(a),
        }
    }

    /// The places of the atoms that have two addresses, the second of which isn't below the first. It looks first in the page
    /// of a place that may be at hand, right behind that place: where both atoms stand in that page, they are found in one
    /// descent.
    pub fn places_from(&self, near: Option<u64>, lo: u32, hi: u32) -> (u64, u64)
        ensures first { IsAtomPlace self.now result.0 lo }
        ensures last { IsAtomPlace self.now result.1 hi }
    {
        match self.places_at_hand(near, lo, hi) {
            Some(places) => places,
            None => {
                let first = self.place_of(lo);
                (first, self.place_from(first, hi))
            }
        }
    }

    /// The places of the atoms that have two addresses, where both stand in the page of a place that is at hand, or, where none
    /// is, in that of the place that the guide says.
    fn places_at_hand(&self, near: Option<u64>, lo: u32, hi: u32) -> Option<(u64, u64)>
        ensures first { IfSome result (λ places. IsAtomPlace self.now places.0 lo) }
        ensures last { IfSome result (λ places. IsAtomPlace self.now places.1 hi) }
    {
        match near {
            Some(place) => places_near(&self.rows, place, AHEAD, lo, hi),
            None => places_near(&self.rows, self.guide.place(lo), 0, lo, hi),
        }
    }

    /// The atom of an address and its place. It takes no memory.
    pub fn spot_of(&self, a: u32) -> AtomSpot
        ensures { IsAtomAt self.now result.place a result.row }
    {
        spot_from(&self.rows, self.guide.place(a), a)
    }

    /// The atom of an address and its place. It looks first in the page of a place that is at hand, right behind that
    /// place.
    pub fn spot_from(&self, near: u64, a: u32) -> AtomSpot
        ensures { IsAtomAt self.now result.place a result.row }
    {
        match spot_near(&self.rows, near, AHEAD, a) {
            Some(spot) => spot,
            None => self.spot_of(a),
        }
    }

    /// The atom at a place, with its bounds.
    pub fn at(&self, i: u64) -> AtomRow
        requires { i < length self.now }
        ensures { (d : AtomRow) → result ≡ slice_index_or self.now i d }
    {
        read(&self.rows, i)
    }

    /// The atoms from a place to the end of its page, with their bounds: at least one where there is one at the place. So a
    /// loop over many atoms goes down to a page once for all that it has of them.
    pub fn run_from(&self, i: u64) -> &[AtomRow]
        ensures some { i < length self.now → 0 < length result.now }
        ensures run { take (length result.now) (drop i self.now) ≡ result.now }
    {
        self.rows.run_from(i)
    }

    /// The bounds of an atom: its first address, and the one after its last, which for the last atom is 2^32. It takes
    /// no memory.
    pub fn bounds(&self, atom: AtomId) -> (u64, u64)
        requires { atom.0 < length self.now }
        ensures row { Contains self.now (row_of atom result.0 result.1) }
        ensures order { result.0 < result.1 }
        ensures end { result.1 ≤ 2 ^ 32 }
    {
        let low = read(&self.lows, atom.0 as u64);
        let place = place_of(&self.rows, low);
        let row = read(&self.rows, place);
        (row.low, row.past)
    }

    /// The atoms that have one of the addresses from `lo` up to, and without, `hi`, in order.
    pub fn atoms_in(&self, alloc: Global, lo: u64, hi: u64) -> Result<List<AtomId>, OutOfMemory>
        ensures { IfOk result (λ atoms. atoms ≡ atoms_in self.now lo hi) }
    {
        let _ = &self.rows;
        if lo >= hi || lo >= END {
            return Ok(List::new(alloc));
        }
        let from = place_of(&self.rows, lo as u32);
        let atoms = atoms_below(alloc, &self.rows, from, hi)?;
        Ok(List::from_vec(atoms))
    }

    /// Each atom with its bounds, in order.
    pub fn rows(&self, alloc: Global) -> Result<List<(AtomId, u64, u64)>, OutOfMemory>
        ensures value { IfOk result (λ rows. rows ≡ map bounds_of self.now) }
        ensures form { AreAtoms self.now }
    {
        let mut rows = Vec::new(alloc);
        for i in 0..self.rows.len() {
            let row = read(&self.rows, i);
            rows.push((row.atom, row.low, row.past))?;
        }
        Ok(List::from_vec(rows))
    }

    /// The same atoms again. The two share all that they keep, and each stays as it is when the other is cut. The new one
    /// searches from the root.
    pub fn copy(&self) -> Result<AtomMap, OutOfMemory>
        ensures { IfOk result (λ atoms. atoms ≡ self.now) }
    {
        let rows = self.rows.copy()?;
        let lows = self.lows.copy()?;
        Ok(AtomMap {
            rows,
            lows,
            guide: Guide::new(),
        })
    }
}

/// A guide to the one atom of all addresses.
fn guide_to_one(alloc: Global) -> Guide {
    let mut guide = Guide::new();
    guide.begin(alloc);
    guide.count(0);
    guide
}
