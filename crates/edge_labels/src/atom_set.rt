//! Sets of atoms.

ghost use Rattle.std.specs.Prelude.{◌≡◌, ◌==◌, ◌&&◌, ◌||◌, not, [], length, OnOk, OnErr, IfOk};
ghost use Rattle.std.specs.List.Sorted.{IsStrictlyIncreasing};
ghost use Rattle.edge_labels.specs.Atoms.{numbers, has_atom, AreAtoms};
ghost use Rattle.edge_labels.specs.Bits.{holds};

use crate::bits::{add_bit, clear_bit, combine, count, list_bits};
use crate::chunk::{Chunk, Operation};
use base::{AtomId, List, OutOfMemory};
use std::alloc::{AllocError, Global};
use std::marker::Model;
use version_pages::{Keyed, Pages};

/// A set of atoms. A contract sees it as the ascending list of their numbers, so that two sets with equal members are
/// equal. The set stands as bits in shared pages: number a is in it where bit a is 1. Bits past the last chunk are 0.
#[derive(Drop)]
pub struct AtomSet {
    chunks: Pages<Chunk>,
}

impl Model for AtomSet {
    ghost use Rattle.std.specs.Prelude.{List, ℕ, length, ◌≤◌};
    ghost use Rattle.edge_labels.specs.Bits.{members};

    ghost Value = { List ℕ };

    ghost view = { λ s. members s.chunks };

    ghost invariant = { λ s. length s.chunks ≤ 8388608 };
}

impl AtomSet {
    /// The set without a member, which takes no memory.
    pub(crate) fn empty() -> Self
        ensures { result ≡ [] }
    {
        AtomSet {
            chunks: Pages::new(),
        }
    }

    /// The set of these atoms, of which some may be there more than once.
    pub fn of(alloc: Global, atoms: &[AtomId]) -> Result<AtomSet, OutOfMemory>
        ensures { IfOk result (λ set. AreAtoms set (has_atom (numbers atoms.now))) }
    {
        let mut set = AtomSet::empty();
        for atom in atoms {
            set.insert(alloc, *atom)?;
        }
        Ok(set)
    }

    /// Adds an atom, if it isn't there. After `OutOfMemory`, for which alone it fails, the set is as before.
    pub(crate) fn insert(&mut self, alloc: Global, atom: AtomId) -> Result<(), OutOfMemory>
        ensures ok { OnOk result (AreAtoms self.new (λ a. (a == atom.0) || has_atom self.old a)) }
        ensures err { OnErr result (self.new ≡ self.old) }
    {
        add_bit(alloc, &mut self.chunks, atom.0)?;
        Ok(())
    }

    /// Takes an atom out, if it is there. After `OutOfMemory`, for which alone it fails, the set is as before.
    pub(crate) fn remove(&mut self, alloc: Global, atom: AtomId) -> Result<(), OutOfMemory>
        ensures ok { OnOk result (AreAtoms self.new (λ a. not (a == atom.0) && has_atom self.old a)) }
        ensures err { OnErr result (self.new ≡ self.old) }
    {
        clear_bit(alloc, &mut self.chunks, atom.0)?;
        Ok(())
    }

    /// What an operation makes of two sets.
    fn combined(
        &self,
        alloc: Global,
        operation: Operation,
        other: &AtomSet,
    ) -> Result<AtomSet, OutOfMemory>
        ensures { IfOk result (λ set. AreAtoms set (λ a. holds operation (has_atom self.now a) (has_atom other.now a))) }
    {
        let chunks = combine(alloc, operation, &self.chunks, &other.chunks)?;
        Ok(AtomSet { chunks })
    }

    /// The atoms of either set.
    pub fn union(&self, alloc: Global, other: &AtomSet) -> Result<AtomSet, OutOfMemory>
        ensures { IfOk result (λ set. AreAtoms set (λ a. has_atom self.now a || has_atom other.now a)) }
    {
        self.combined(alloc, Operation::Union, other)
    }

    /// The atoms of both sets.
    pub fn intersection(&self, alloc: Global, other: &AtomSet) -> Result<AtomSet, OutOfMemory>
        ensures { IfOk result (λ set. AreAtoms set (λ a. has_atom self.now a && has_atom other.now a)) }
    {
        self.combined(alloc, Operation::Intersection, other)
    }

    /// The atoms of this set that the other lacks.
    pub fn difference(&self, alloc: Global, other: &AtomSet) -> Result<AtomSet, OutOfMemory>
        ensures { IfOk result (λ set. AreAtoms set (λ a. has_atom self.now a && not (has_atom other.now a))) }
    {
        self.combined(alloc, Operation::Difference, other)
    }

    /// How many atoms there are. It takes no memory.
    pub fn count(&self) -> u64
        ensures value { result ≡ length self.now }
        ensures ascending { IsStrictlyIncreasing self.now }
    {
        count(&self.chunks)
    }

    /// The atoms, in ascending order.
    pub fn members(&self, alloc: Global) -> Result<List<AtomId>, OutOfMemory>
        ensures value { IfOk result (λ atoms. numbers atoms ≡ self.now) }
        ensures ascending { IsStrictlyIncreasing self.now }
    {
        let atoms = list_bits(alloc, &self.chunks)?;
        Ok(List::from_vec(atoms))
    }

    /// The set itself, whose list is ascending.
    pub(crate) fn ordered(&self) -> &AtomSet
        ensures value { result.now ≡ self.now }
        ensures ascending { IsStrictlyIncreasing self.now }
    {
        let _chunks = &self.chunks;
        self
    }

    /// The same set again, which shares all pages with this one.
    pub fn copy(&self) -> Result<AtomSet, OutOfMemory>
        ensures { IfOk result (λ set. set ≡ self.now) }
    {
        let chunks = self.chunks.copy()?;
        Ok(AtomSet { chunks })
    }
}

impl Clone for AtomSet {
    ghost is_clone = { λ set copy. copy ≡ set };

    fn clone(&self) -> Result<AtomSet, AllocError> {
        match self.copy() {
            Ok(set) => Ok(set),
            Err(OutOfMemory) => Err(AllocError),
        }
    }
}

/// No list of sets is searched: each has the key 0.
impl Keyed for AtomSet {
    ghost use Rattle.std.proofs.Common.{rules};

    ghost key_of = { λ _. 0 };

    ghost clones = { Prim.search rules };

    fn key(&self) -> u64 {
        0
    }
}
