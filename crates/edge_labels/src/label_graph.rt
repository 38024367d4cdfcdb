//! The labels of all routers.

ghost use Rattle.std.specs.Prelude.{◌≡◌, ◌<◌, length, IfOk};
ghost use Rattle.edge_labels.specs.Labels.{inherited, IsLabel, moved};
ghost use Rattle.edge_labels.specs.Rows.{AreFirstSets};
ghost use Rattle.target_rows.specs.Labels.{first_labels, target_at};

use crate::atom_set::AtomSet;
use crate::code_rows::{codes_from, is_same, place_of, push_row, read, row_of};
use crate::sets::{join, join_row, leave, reach, set_of, swap};
use base::{AtomId, OutOfMemory, RouterId, Target};
use std::alloc::Global;
use std::marker::Model;
use target_rows::{CodeBook, Edge, FirstRow, first_row};
use version_pages::Pages;

/// What each router does with each atom, and for each router and target the set of the atoms that have it. A contract
/// sees the number of routers and, for the number of each atom, the targets by router. Each router with a target has a
/// code; for each atom stands a row of codes, and for each code the set of its atoms. A copy is a few counts.
#[derive(Drop)]
pub struct LabelGraph {
    routers: u32,
    atoms: u64,
    codes: Pages<u32>,
    book: CodeBook,
    sets: Pages<AtomSet>,
    none: AtomSet,
}

impl Model for LabelGraph {
    ghost use Rattle.edge_labels.specs.Rows.{AreKept};
    ghost use Rattle.target_rows.specs.Labels.{Labels};
    ghost use Rattle.target_rows.specs.Rows.{labels_of};

    ghost Value = { Labels };

    ghost view = { λ g. labels_of g.routers g.atoms g.codes g.book };

    ghost invariant = { λ g. AreKept g.routers g.atoms g.codes g.book g.sets g.none };
}

impl LabelGraph {
    /// The labels of this number of routers, which have no route for the one atom 0.
    pub fn new(alloc: Global, routers: u32) -> Result<LabelGraph, OutOfMemory>
        ensures { IfOk result (λ graph. graph ≡ first_labels routers) }
    {
        let FirstRow { codes, book } = first_row(alloc, routers)?;
        let sets = first_sets(alloc, routers)?;
        Ok(LabelGraph {
            routers,
            atoms: 1,
            codes,
            book,
            sets,
            none: AtomSet::empty(),
        })
    }

    /// What a router does with an atom. It takes no memory.
    pub fn target(&self, r: RouterId, atom: AtomId) -> Target
        requires router { r.0 < self.now.routers }
        requires atom { atom.0 < length self.now.rows }
        ensures { result ≡ target_at self.now r.0 atom.0 }
    {
        let code = read(&self.codes, place_of(self.routers, r, atom));
        self.book.edge(code).target
    }

    /// A router does something else with an atom. At `OutOfMemory`, for which alone it fails, all is dropped: the sets of
    /// two codes change, and undoing the first change might want memory too.
    pub fn move_atom(
        self,
        alloc: Global,
        r: RouterId,
        atom: AtomId,
        before: Target,
        after: Target,
    ) -> Result<LabelGraph, OutOfMemory>
        requires router { r.0 < self.routers }
        requires atom { atom.0 < length self.rows }
        requires before { target_at self r.0 atom.0 ≡ before }
        ensures { IfOk result (λ graph. graph ≡ moved self r.0 atom.0 after) }
    {
        if is_same(&before, &after) {
            return Ok(self);
        }
        self.change(alloc, r, atom, after)
    }

    /// A router does something else with an atom.
    fn change(
        self,
        alloc: Global,
        r: RouterId,
        atom: AtomId,
        after: Target,
    ) -> Result<LabelGraph, OutOfMemory>
        requires router { r.0 < self.routers }
        requires atom { atom.0 < length self.rows }
        ensures { IfOk result (λ graph. graph ≡ moved self r.0 atom.0 after) }
    {
        let LabelGraph {
            routers,
            atoms,
            mut codes,
            mut book,
            mut sets,
            none,
        } = self;
        let place = place_of(routers, r, atom);
        let edge = Edge {
            router: r.0 as u32,
            target: after,
        };
        let new = book.code_of(alloc, edge)?;
        reach(alloc, &mut sets, book.len())?;
        let old = swap(alloc, &mut codes, place, new)?;
        leave(alloc, &mut sets, old, atom)?;
        join(alloc, &mut sets, new, atom)?;
        Ok(LabelGraph {
            routers,
            atoms,
            codes,
            book,
            sets,
            none,
        })
    }

    /// Adds an atom, with which each router does what it does with an old one. At `OutOfMemory`, for which alone it
    /// fails, all is dropped.
    pub fn inherit(
        self,
        alloc: Global,
        old_atom: AtomId,
        new_atom: AtomId,
    ) -> Result<LabelGraph, OutOfMemory>
        requires there { old_atom.0 < length self.rows }
        requires next { new_atom.0 ≡ length self.rows }
        ensures { IfOk result (λ graph. graph ≡ inherited self old_atom.0) }
    {
        let LabelGraph {
            routers,
            atoms,
            mut codes,
            book,
            mut sets,
            none,
        } = self;
        let from = row_of(routers, old_atom);
        let row = codes_from(alloc, &codes, from, routers)?;
        join_row(alloc, &mut sets, &row, new_atom)?;
        push_row(alloc, &mut codes, &row)?;
        Ok(LabelGraph {
            routers,
            atoms: atoms + 1,
            codes,
            book,
            sets,
            none,
        })
    }

    /// The label of a target at a router: the set of the atoms that have it. It takes no memory.
    pub fn label(&self, r: RouterId, target: Target) -> &AtomSet
        requires { r.0 < self.now.routers }
        ensures { IsLabel self.now r.0 target result.now }
    {
        let edge = Edge {
            router: r.0 as u32,
            target,
        };
        match self.book.find(edge) {
            None => self.none.ordered(),
            Some(code) => set_of(&self.sets, code).ordered(),
        }
    }

    /// The same labels again, which share all that they keep with these.
    pub fn copy(&self) -> Result<LabelGraph, OutOfMemory>
        ensures { IfOk result (λ graph. graph ≡ self.now) }
    {
        Ok(LabelGraph {
            routers: self.routers,
            atoms: self.atoms,
            codes: self.codes.copy()?,
            book: self.book.copy()?,
            sets: self.sets.copy()?,
            none: self.none.copy()?,
        })
    }
}

/// For the first code of each router the set of the one atom 0.
fn first_sets(alloc: Global, routers: u32) -> Result<Pages<AtomSet>, OutOfMemory>
    ensures { IfOk result (λ sets. AreFirstSets routers sets) }
{
    let mut sets = Pages::new();
    for _router in 0..routers {
        sets.push(alloc, AtomSet::of(alloc, &[AtomId(0)])?)?;
    }
    Ok(sets)
}
