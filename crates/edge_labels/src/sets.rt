//! Sets of atoms by code.

ghost use Rattle.std.specs.Prelude.{◌≡◌, ◌+◌, ◌<◌, ◌≤◌, ℕ, List, length, All, IfOk, OnOk, set, slice_index_or};
ghost use Rattle.edge_labels.specs.Rows.{AreJoined, AreLeft, AreReached, AreRowJoined};

use crate::atom_set::AtomSet;
use base::{AtomId, OutOfMemory};
use std::alloc::Global;
use version_pages::Pages;

/// The set of a code.
pub fn set_of(sets: &Pages<AtomSet>, code: u32) -> &AtomSet
    requires { code < length sets.now }
    ensures { (d : List ℕ) → result.now ≡ slice_index_or sets.now code d }
{
    match sets.get(code as u64) {
        Some(set) => set,
        None => unreachable!(),
    }
}

/// Adds an atom to the set of a code.
pub fn join(
    alloc: Global,
    sets: &mut Pages<AtomSet>,
    code: u32,
    atom: AtomId,
) -> Result<(), OutOfMemory>
    requires { code < length sets.old }
    ensures { OnOk result (AreJoined sets.old sets.new code atom.0) }
{
    sets.change(alloc, code as u64, |set: &mut AtomSet| {
        set.insert(alloc, atom)
    })??;
    Ok(())
}

/// Takes an atom out of the set of a code.
pub fn leave(
    alloc: Global,
    sets: &mut Pages<AtomSet>,
    code: u32,
    atom: AtomId,
) -> Result<(), OutOfMemory>
    requires { code < length sets.old }
    ensures { OnOk result (AreLeft sets.old sets.new code atom.0) }
{
    sets.change(alloc, code as u64, |set: &mut AtomSet| {
        set.remove(alloc, atom)
    })??;
    Ok(())
}

/// Adds an atom to the set of each code of a row.
pub fn join_row(
    alloc: Global,
    sets: &mut Pages<AtomSet>,
    row: &[u32],
    atom: AtomId,
) -> Result<(), OutOfMemory>
    requires { All (λ code. code < length sets.old) row.now }
    ensures { OnOk result (AreRowJoined sets.old sets.new row.now atom.0) }
{
    for code in row {
        join(alloc, sets, *code, atom)?;
    }
    Ok(())
}

/// Puts a code in the place of another, which it answers.
pub fn swap(alloc: Global, codes: &mut Pages<u32>, i: u64, code: u32) -> Result<u32, OutOfMemory>
    requires { i < length codes.old }
    ensures old { IfOk result (λ old. (d : ℕ) → old ≡ slice_index_or codes.old i d) }
    ensures new { OnOk result (codes.new ≡ set codes.old i code) }
{
    codes.change(alloc, i, |element: &mut u32| {
        let old = *element;
        *element = code;
        old
    })
}

/// Adds an empty set, if there are not so many.
pub fn reach(alloc: Global, sets: &mut Pages<AtomSet>, len: u64) -> Result<(), OutOfMemory>
    requires few { length sets.old ≤ len }
    requires next { len ≤ length sets.old + 1 }
    ensures { OnOk result (AreReached sets.old sets.new len) }
{
    if sets.len() < len {
        sets.push(alloc, AtomSet::empty())?;
    }
    Ok(())
}
