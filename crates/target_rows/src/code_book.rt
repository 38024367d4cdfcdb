//! A book of codes.

ghost use Rattle.std.specs.Prelude.{◌≡◌, ℕ, ◌<◌, ◌++◌, ◌∷◌, None, IfOk, IfSome, IsTrue, OnOk, OnErr, length, if◌then◌else◌, Some, []};
ghost use Rattle.std.specs.Arc.{arc_value};
ghost use Rattle.std.specs.BTreeMap.{is_at};
ghost use Rattle.target_rows.specs.declared.codes.Edge.{Edge};
ghost use Rattle.target_rows.specs.contracts.codes.EdgeOrd.TheImpl.{cmp-value};
ghost use Rattle.target_rows.specs.Codes.{code_in, edge_at, IsCoded};

use crate::codes::Edge;
use crate::guesses::Guesses;
use base::OutOfMemory;
use std::alloc::Global;
use std::collections::BTreeMap;
use std::marker::Model;
use std::sync::Arc;

/// The codes of edges, in order of appearance from 0. A contract sees it as the list of the edges by code. A copy is two
/// counts. Where a copy is held, the next edge that is new copies the list and the way from edges to codes, which grow as
/// their number. The guesses say of some edges which code they may have; no clause and no invariant speaks of them.
#[derive(Drop)]
pub struct CodeBook {
    edges: Arc<Vec<Edge>, Global>,
    index: Arc<BTreeMap<Edge, u32>, Global>,
    guesses: Guesses,
}

impl Model for CodeBook {
    ghost use Rattle.std.specs.Prelude.{List};
    ghost use Rattle.std.specs.Arc.{arc_value};
    ghost use Rattle.target_rows.specs.declared.codes.Edge.{Edge};
    ghost use Rattle.target_rows.specs.Codes.{IsIndexed};

    ghost Value = { List Edge };

    ghost view = { λ b. (arc_value b.edges).items };

    ghost invariant = { λ b. IsIndexed (arc_value b.edges).items (arc_value b.index).entries };
}

impl CodeBook {
    /// No codes.
    pub fn new(alloc: Global) -> Result<CodeBook, OutOfMemory>
        ensures { IfOk result (λ book. book ≡ []) }
    {
        let index = Arc::new(alloc, BTreeMap::new(alloc))?;
        let edges = Arc::new(alloc, Vec::new(alloc))?;
        Ok(CodeBook {
            edges,
            index,
            guesses: Guesses::new(),
        })
    }

    /// How many codes there are.
    pub fn len(&self) -> u64
        ensures { result ≡ length self.now }
    {
        self.edges.len() as u64
    }

    /// The edge of a code.
    pub fn edge(&self, code: u32) -> Edge
        requires { code < length self.now }
        ensures { result ≡ edge_at self.now code }
    {
        self.edges[code as usize]
    }

    /// The edges by code.
    pub fn edges(&self) -> &[Edge]
        ensures { result.now ≡ self.now }
    {
        self.edges.as_slice()
    }

    /// The code of an edge, and none where it has none.
    pub fn find(&self, edge: Edge) -> Option<u32>
        ensures found { IfSome result (λ c. (c < length self.now) × (edge_at self.now c ≡ edge)) }
        ensures absent { result ≡ None → (c : ℕ) → c < length self.now → edge_at self.now c ≡ edge → ⊥ }
        ensures once { (c d : ℕ) → c < length self.now → d < length self.now → edge_at self.now c ≡ edge_at self.now d → c ≡ d }
    {
        look_up(&self.index, edge)
    }

    /// The code of an edge, which is a new one where it has none. After `OutOfMemory`, for which alone it fails, the
    /// codes are as before.
    pub fn code_of(&mut self, alloc: Global, edge: Edge) -> Result<u32, OutOfMemory>
        ensures ok { IfOk result (λ code. IsCoded self.old self.new edge code) }
        ensures err { OnErr result (self.new ≡ self.old) }
    {
        if let Some(code) = self.find(edge) {
            return Ok(code);
        }
        self.add(alloc, edge)
    }

    /// The code of an edge, as from `code_of`; a code that was found for such an edge is looked at first, which costs less
    /// than to look the edge up.
    pub fn code_near(&mut self, alloc: Global, edge: Edge) -> Result<u32, OutOfMemory>
        ensures ok { IfOk result (λ code. IsCoded self.old self.new edge code) }
        ensures err { OnErr result (self.new ≡ self.old) }
    {
        let guess = self.guesses.guess(edge);
        if self.is_code_of(guess, edge) {
            return Ok(guess);
        }
        let code = self.code_of(alloc, edge)?;
        self.guesses.keep(alloc, edge, code);
        Ok(code)
    }

    /// Whether a number is the code of an edge.
    fn is_code_of(&self, code: u32, edge: Edge) -> bool
        ensures { IsTrue result → (code < length self.now) × (edge_at self.now code ≡ edge) }
    {
        match self.edges.as_slice().get(code as usize) {
            Some(held) => *held == edge,
            None => false,
        }
    }

    /// Gives an edge that has no code a new one. After `OutOfMemory` the codes are as before.
    fn add(&mut self, alloc: Global, edge: Edge) -> Result<u32, OutOfMemory>
        requires { (c : ℕ) → c < length self.old → edge_at self.old c ≡ edge → ⊥ }
        ensures ok { IfOk result (λ code. IsCoded self.old self.new edge code) }
        ensures err { OnErr result (self.new ≡ self.old) }
    {
        let code = self.len();
        if code > u32::MAX as u64 {
            return Err(OutOfMemory);
        }
        unshare(alloc, &mut self.index)?;
        unshare_edges(alloc, &mut self.edges)?;
        let Some(index) = Arc::get_mut(&mut self.index) else {
            return Err(OutOfMemory);
        };
        let Some(edges) = Arc::get_mut(&mut self.edges) else {
            return Err(OutOfMemory);
        };
        put_in(edges, index, edge, code as u32)?;
        Ok(code as u32)
    }

    /// The same codes again.
    pub fn copy(&self) -> Result<CodeBook, OutOfMemory>
        ensures { IfOk result (λ book. book ≡ self.now) }
    {
        let edges = Arc::try_clone(&self.edges)?;
        let index = Arc::try_clone(&self.index)?;
        Ok(CodeBook {
            edges,
            index,
            guesses: Guesses::new(),
        })
    }
}

/// The code that stands under an edge.
fn look_up(index: &BTreeMap<Edge, u32>, edge: Edge) -> Option<u32>
    ensures { result ≡ code_in index.now.entries edge }
{
    index.get(&edge).copied()
}

/// Puts a code under an edge. After `OutOfMemory` all stands as before.
fn note(index: &mut BTreeMap<Edge, u32>, edge: Edge, code: u32) -> Result<(), OutOfMemory>
    ensures ok { OnOk result ((e : Edge) → code_in index.new.entries e ≡
        (if is_at (cmp-value.it edge) e then Some code else code_in index.old.entries e)) }
    ensures err { OnErr result (index.new.entries ≡ index.old.entries) }
{
    let _before = index.insert(edge, code)?;
    Ok(())
}

/// Takes away what stands under an edge.
fn forget(index: &mut BTreeMap<Edge, u32>, edge: Edge)
    ensures { (e : Edge) → code_in index.new.entries e ≡
        (if is_at (cmp-value.it edge) e then None else code_in index.old.entries e) }
{
    let _code = index.remove(&edge);
}

/// Puts an edge at the end of the list, and a code under it. It is put into the map first, since it can be taken out of
/// that again without memory; so after `OutOfMemory` the list and what stands under edges are as before.
fn put_in(
    edges: &mut Vec<Edge>,
    index: &mut BTreeMap<Edge, u32>,
    edge: Edge,
    code: u32,
) -> Result<(), OutOfMemory>
    requires { code_in index.old.entries edge ≡ None }
    ensures edges { OnOk result (edges.new.items ≡ edges.old.items ++ edge ∷ []) }
    ensures index { OnOk result ((e : Edge) → code_in index.new.entries e ≡
        (if is_at (cmp-value.it edge) e then Some code else code_in index.old.entries e)) }
    ensures same_edges { OnErr result (edges.new.items ≡ edges.old.items) }
    ensures same_index { OnErr result ((e : Edge) → code_in index.new.entries e ≡ code_in index.old.entries e) }
{
    note(index, edge, code)?;
    match edges.push(edge) {
        Ok(()) => Ok(()),
        Err(_) => {
            forget(index, edge);
            Err(OutOfMemory)
        }
    }
}

/// The same map again.
fn copy_index(index: &BTreeMap<Edge, u32>) -> Result<BTreeMap<Edge, u32>, OutOfMemory>
    ensures { IfOk result (λ copy. copy.entries ≡ index.now.entries) }
{
    Ok(index.clone()?)
}

/// Makes a pointer the only one to its map: where somebody else holds it too, this one gets a copy.
fn unshare(alloc: Global, index: &mut Arc<BTreeMap<Edge, u32>, Global>) -> Result<(), OutOfMemory>
    ensures { (arc_value index.new).entries ≡ (arc_value index.old).entries }
{
    if Arc::strong_count(index) != 1 {
        let copy = copy_index(index)?;
        *index = Arc::new(alloc, copy)?;
    }
    Ok(())
}

/// The same edges again.
fn copy_edges(edges: &Vec<Edge>) -> Result<Vec<Edge>, OutOfMemory>
    ensures { IfOk result (λ copy. copy.items ≡ edges.now.items) }
{
    Ok(edges.clone()?)
}

/// Makes a pointer the only one to its list: where somebody else holds it too, this one gets a copy.
fn unshare_edges(alloc: Global, edges: &mut Arc<Vec<Edge>, Global>) -> Result<(), OutOfMemory>
    ensures { (arc_value edges.new).items ≡ (arc_value edges.old).items }
{
    if Arc::strong_count(edges) != 1 {
        let copy = copy_edges(edges)?;
        *edges = Arc::new(alloc, copy)?;
    }
    Ok(())
}
