//! What each router does with each atom.

ghost use Rattle.std.specs.Prelude.{◌≡◌, ℕ, ◌+◌, ◌<◌, ◌≤◌, ◌^◌, length, slice_index_or, IfOk, OnOk};
ghost use Rattle.base.specs.declared.target.Target.{Target};
ghost use Rattle.target_rows.specs.Labels.{first_labels, moved_run, parted, target_at};
ghost use Rattle.target_rows.specs.Over.{MarksOver};

use crate::chunk_rows::{Column, place_in, start_of, stride};
use crate::code_book::CodeBook;
use crate::code_rows::{FirstRow, first_row};
use crate::codes::Edge;
use crate::over;
use crate::reading::{read_column, read_row};
use crate::split_codes::SplitCodes;
use base::{LinkId, OutOfMemory, RouterId, Target};
use std::alloc::Global;
use std::marker::Model;

/// What each router does with each atom, as a row of codes by the atom's place in the list of all atoms. A contract sees
/// the number of routers and, for each atom in order, the targets by router. Rows stand in the order of addresses, so
/// that a walk over the atoms of a prefix, or over all, reads and writes memory in order. Each router with a target has a
/// code. No set of atoms is kept, so that a move writes one code for each atom, and a cut one row. A row has whole chunks
/// of eight codes: a page has 64 chunks, so few forks stand above each code. A code takes two bytes, and four once one of
/// 65,536 or more was written. A copy is a few counts.
#[derive(Drop)]
pub struct TargetRows {
    routers: u32,
    atoms: u64,
    chunks: SplitCodes,
    book: CodeBook,
}

impl Model for TargetRows {
    ghost use Rattle.target_rows.specs.Labels.{Labels};
    ghost use Rattle.target_rows.specs.ChunkRows.{AreChunkRows, labels_in};

    ghost Value = { Labels };

    ghost view = { λ t. labels_in t.routers t.atoms t.chunks t.book };

    ghost invariant = { λ t. AreChunkRows t.routers t.atoms t.chunks t.book };
}

impl TargetRows {
    /// The rows of this number of routers, which have no route for the one atom 0.
    pub fn new(alloc: Global, routers: u32) -> Result<TargetRows, OutOfMemory>
        ensures { IfOk result (λ rows. rows ≡ first_labels routers) }
    {
        let FirstRow { codes, book } = first_row(alloc, routers)?;
        let chunks = SplitCodes::of(alloc, &codes, routers)?;
        Ok(TargetRows {
            routers,
            atoms: 1,
            chunks,
            book,
        })
    }

    /// What a router does with the atom at a place. It takes no memory.
    pub fn target(&self, r: RouterId, place: u64) -> Target
        requires router { r.0 < self.now.routers }
        requires place { place < length self.now.rows }
        ensures { result ≡ target_at self.now r.0 place }
    {
        let code = self.chunks.code_at(place_in(self.routers, r, place));
        self.book.edge(code).target
    }

    /// What a router does with the atoms at the places from one on, put into `out` from its front: as many as stand in one
    /// page of codes and `out` has room for, one at least. It answers how many. It takes no memory.
    pub fn column(&self, r: RouterId, place: u64, out: &mut [Target]) -> usize
        requires router { r.0 < self.now.routers }
        requires place { place < length self.now.rows }
        requires room { 0 < length out.old }
        ensures some { 0 < result }
        ensures within { result ≤ length out.new }
        ensures inside { place + result ≤ length self.now.rows }
        ensures room { length out.new ≡ length out.old }
        ensures targets { (k : ℕ) → (e : Target) → k < result →
            slice_index_or out.new k e ≡ target_at self.now r.0 (place + k) }
    {
        let at = place_in(self.routers, r, place);
        read_column(
            &self.chunks,
            at,
            stride(self.routers),
            self.book.edges(),
            out,
        )
    }

    /// What each router does with the atom at a place, by router, put into `out`. It takes no memory.
    pub fn row(&self, place: u64, out: &mut [Target])
        requires place { place < length self.now.rows }
        requires wide { length out.old ≡ self.now.routers }
        ensures room { length out.new ≡ length out.old }
        ensures targets { (k : ℕ) → (e : Target) → k < self.now.routers →
            slice_index_or out.new k e ≡ target_at self.now k place }
    {
        let first = start_of(self.routers, place);
        read_row(&self.chunks, first, self.book.edges(), out);
    }

    /// A mark for each router, by its number: it is set where the router goes on over a link at an atom, and may be set
    /// where it once did. It looks at each code once and at no atom. It fails for want of memory alone.
    pub fn routers_over(&self, alloc: Global, link: LinkId) -> Result<Vec<bool>, OutOfMemory>
        ensures { IfOk result (λ marks. MarksOver self.now link marks.items) }
    {
        let marks = over::routers_over(alloc, self.book.edges(), self.routers, link)?;
        Ok(marks)
    }

    /// A router does something else with the atoms at the places from `first` up to, and without, `past`: it goes down
    /// to each page of their codes once. It fails for want of memory alone, and then nothing is said of the rows.
    pub fn move_run(
        &mut self,
        alloc: Global,
        r: RouterId,
        first: u64,
        past: u64,
        after: Target,
    ) -> Result<(), OutOfMemory>
        requires router { r.0 < self.old.routers }
        requires order { first ≤ past }
        requires inside { past ≤ length self.old.rows }
        ensures { OnOk result (self.new ≡ moved_run self.old r.0 first past after) }
    {
        let edge = Edge {
            router: r.0 as u32,
            target: after,
        };
        let code = self.book.code_near(alloc, edge)?;
        let column = Column {
            routers: self.routers,
            r,
            first,
            count: past - first,
        };
        match self.chunks.write_column(alloc, column, code) {
            Ok(()) => Ok(()),
            Err(OutOfMemory) => {
                self.atoms = 0;
                self.chunks = SplitCodes::new();
                Err(OutOfMemory)
            }
        }
    }

    /// As `move_run`, for places at each of which the router does one and the same, which it answers: what it does before
    /// is read and what it does after is written in the same descent. Where that is the same nothing is written.
    pub fn turn_run(
        &mut self,
        alloc: Global,
        r: RouterId,
        first: u64,
        past: u64,
        after: Target,
    ) -> Result<Target, OutOfMemory>
        requires router { r.0 < self.old.routers }
        requires some { first < past }
        requires inside { past ≤ length self.old.rows }
        requires same { (i : ℕ) → first ≤ i → i < past → target_at self.old r.0 i ≡ target_at self.old r.0 first }
        ensures before { IfOk result (λ before. before ≡ target_at self.old r.0 first) }
        ensures moved { OnOk result (self.new ≡ moved_run self.old r.0 first past after) }
    {
        let edge = Edge {
            router: r.0 as u32,
            target: after,
        };
        let code = self.book.code_near(alloc, edge)?;
        let column = Column {
            routers: self.routers,
            r,
            first,
            count: past - first,
        };
        match self.chunks.turn_column(alloc, column, code) {
            Ok(before) => Ok(self.book.edge(before).target),
            Err(OutOfMemory) => {
                self.atoms = 0;
                self.chunks = SplitCodes::new();
                Err(OutOfMemory)
            }
        }
    }

    /// The row at a place comes to stand twice, side by side, as its atom is cut in two. It fails for want of memory
    /// alone, and then the rows may be gone, since a part of a row can't be taken away again.
    pub fn part(&mut self, alloc: Global, place: u64) -> Result<(), OutOfMemory>
        requires place { place < length self.old.rows }
        requires room { length self.old.rows < 2 ^ 32 }
        ensures { OnOk result (self.new ≡ parted self.old place) }
    {
        let from = start_of(self.routers, place);
        let next = start_of(self.routers, place + 1);
        match self.chunks.repeat(alloc, from, stride(self.routers), next) {
            Ok(()) => {
                self.atoms += 1;
                Ok(())
            }
            Err(OutOfMemory) => {
                self.atoms = 0;
                Err(OutOfMemory)
            }
        }
    }

    /// The same rows again, which share all that they keep with these.
    pub fn copy(&self) -> Result<TargetRows, OutOfMemory>
        ensures { IfOk result (λ rows. rows ≡ self.now) }
    {
        Ok(TargetRows {
            routers: self.routers,
            atoms: self.atoms,
            chunks: self.chunks.copy()?,
            book: self.book.copy()?,
        })
    }
}
