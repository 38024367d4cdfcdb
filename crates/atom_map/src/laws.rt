//! What the definitions of rows come to: laws of atoms. Each function is a law: it does nothing, and its
//! contract says it.

ghost use Rattle.std.specs.Prelude.{◌≡◌, ◌<◌, ◌≤◌, ◌^◌, ◌↔◌, ℕ, List, Option, Some, option_map, length, true, false, slice_index_or};
ghost use Rattle.atom_map.specs.Atoms.{AreAtoms, row_at, cut_rows, part_of, is_boundary, meets};
ghost use Rattle.atom_map.specs.declared.atom_row.AtomRow.{AtomRow};
ghost use Rattle.base.specs.declared.ids.AtomId.{AtomId};

/// Atoms that one of them is cut of are atoms: in order, and each address is of one of them.
pub fn cuts_part_one_row()
    ensures { (rows : List AtomRow) (at : ℕ) (new : AtomId) → AreAtoms rows → at < 2 ^ 32 →
        is_boundary rows at ≡ false → new.0 ≡ length rows → AreAtoms (cut_rows rows at new) }
{}

/// After a cut the atom of each address is the one before, but for the atom that was cut, which is its part.
pub fn cuts_keep_all_other_rows()
    ensures { (rows : List AtomRow) (at : ℕ) (new : AtomId) (a : ℕ) → AreAtoms rows →
        row_at (cut_rows rows at new) a ≡ option_map (part_of at new a) (row_at rows a) }
{}

/// An address is of one atom: that at any place whose bounds it is within.
pub fn addresses_have_one_place()
    ensures { (rows : List AtomRow) (place : ℕ) (a : ℕ) (row : AtomRow) → AreAtoms rows → place < length rows →
        slice_index_or rows place row ≡ row → row.low ≤ a → a < row.past → row_at rows a ≡ Some row }
{}

/// An atom meets an interval exactly where an address is of both.
pub fn meeting_is_sharing()
    ensures { (row : AtomRow) (lo hi : ℕ) → row.low < row.past →
        (meets lo hi row ≡ true) ↔ ((a : ℕ) × (row.low ≤ a) × (a < row.past) × (lo ≤ a) × (a < hi)) }
{}
