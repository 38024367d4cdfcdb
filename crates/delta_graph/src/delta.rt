//! The changes of an update.

ghost use Rattle.std.specs.Prelude.{◌≡◌, ◌-◌, ◌<◌, ◌≤◌, [], IsTrue, OnOk, OnErr, IfOk, length, slice_index_or};
ghost use Rattle.base.specs.Delta.{AreChanges, GoesBefore, IsChange};
ghost use Rattle.delta_graph.specs.Joined.{EndsApart, JoinsLeft, JoinsRight};
ghost use Rattle.delta_graph.specs.Pushed.{MeetsNone, IsPushed, MeetNone, AreMerged, runs_of};

use crate::join::{goes_before, goes_on, joined, replace, stands_off};
use base::{Change, List, OutOfMemory, RouterId, Run};
use std::alloc::Global;
use std::marker::Model;

/// The changes of an update, in order of the routers and then of the addresses; touching ones of a router with the
/// same two targets are one. A contract sees them as the list of the changes.
#[derive(Drop)]
pub struct Delta {
    changes: Vec<Change>,
}

impl Model for Delta {
    ghost use Rattle.std.specs.Prelude.{List};
    ghost use Rattle.base.specs.declared.change.Change.{Change};
    ghost use Rattle.base.specs.Delta.{AreChanges};

    ghost Value = { List Change };

    ghost view = { λ d. d.changes.items };

    ghost invariant = { λ d. AreChanges d.changes.items };
}

impl Delta {
    /// No change, which takes no memory.
    pub fn new(alloc: Global) -> Self
        ensures { result ≡ [] }
    {
        Delta {
            changes: Vec::new(alloc),
        }
    }

    /// No change, in the memory of these.
    pub fn emptied(self) -> Self
        ensures { result ≡ [] }
    {
        let Delta { mut changes } = self;
        changes.clear();
        Delta { changes }
    }

    /// The changes, in order.
    pub fn changes(&self) -> &[Change]
        ensures value { result.now ≡ self.now }
        ensures form { AreChanges self.now }
    {
        self.changes.as_slice()
    }

    /// The runs of a router's changes, in order.
    pub fn runs_of(&self, alloc: Global, router: RouterId) -> Result<List<Run>, OutOfMemory>
        ensures { IfOk result (λ runs. runs ≡ runs_of self.now router) }
    {
        let mut runs = Vec::new(alloc);
        for change in &self.changes {
            if change.router.0 == router.0 {
                runs.push(change.run)?;
            }
        }
        Ok(List::from_vec(runs))
    }

    /// How many changes go before one that meets none of them. It looks from the end, since changes mostly come in
    /// order.
    fn place_of(&self, change: &Change) -> usize
        ensures inside { result ≤ length self.now }
        ensures before { 0 < result → GoesBefore (slice_index_or self.now (result - 1) change.now) change.now }
        ensures after { result < length self.now → GoesBefore (slice_index_or self.now result change.now) change.now → ⊥ }
        ensures form { AreChanges self.now }
    {
        let mut place = self.changes.len();
        while place > 0 && !goes_before(&self.changes[place - 1], change) {
            place -= 1;
        }
        place
    }

    /// Adds a change that goes behind all, and goes on from none of them.
    fn push_last(&mut self, change: Change) -> Result<(), OutOfMemory>
        requires change { IsChange change }
        requires apart { MeetsNone self.old change }
        requires behind { EndsApart self.old change }
        ensures ok { OnOk result (IsPushed self.old self.new change) }
        ensures err { OnErr result (self.new ≡ self.old) }
    {
        self.changes.push(change)?;
        Ok(())
    }

    /// Adds a change at its place, joined to those beside it that it goes on from or that go on from it.
    fn put(&mut self, change: Change) -> Result<(), OutOfMemory>
        requires ends { change.run.lo ≤ change.run.hi }
        requires differ { change.before ≡ change.after → ⊥ }
        requires apart { MeetsNone self.old change }
        ensures ok { OnOk result (IsPushed self.old self.new change) }
        ensures err { OnErr result (self.new ≡ self.old) }
    {
        let place = self.place_of(&change);
        let (from, change) = join_left(&self.changes, place, change);
        let (to, change) = join_right(&self.changes, place, change);
        replace(&mut self.changes, from, to, change)?;
        Ok(())
    }

    /// Adds a change. Its run has an address, its two targets differ, and its run meets no kept run of its router. After
    /// `OutOfMemory`, for which alone it fails, the changes are as before.
    pub fn push(&mut self, change: Change) -> Result<(), OutOfMemory>
        requires ends { change.run.lo ≤ change.run.hi }
        requires differ { change.before ≡ change.after → ⊥ }
        requires apart { MeetsNone self.old change }
        ensures ok { OnOk result (IsPushed self.old self.new change) }
        ensures err { OnErr result (self.new ≡ self.old) }
    {
        if is_behind(&self.changes, &change) {
            return self.push_last(change);
        }
        return self.put(change);
    }

    /// The same changes again.
    fn copy(&self, alloc: Global) -> Result<Delta, OutOfMemory>
        ensures value { IfOk result (λ delta. delta ≡ self.now) }
        ensures form { AreChanges self.now }
    {
        let changes = Vec::from_slice(alloc, self.changes.as_slice())?;
        Ok(Delta { changes })
    }

    /// Adds the changes of another list, whose runs meet no kept run of the same router. After `OutOfMemory`, for
    /// which alone it fails, the changes are as before.
    pub fn merge(&mut self, alloc: Global, other: &Delta) -> Result<(), OutOfMemory>
        requires apart { MeetNone self.old other.now }
        ensures ok { OnOk result (AreMerged self.old other.now self.new) }
        ensures err { OnErr result (self.new ≡ self.old) }
    {
        let mut merged = self.copy(alloc)?;
        for change in other.changes() {
            merged.push(*change)?;
        }
        *self = merged;
        Ok(())
    }
}

/// Whether a change goes behind others, and goes on from none of them.
fn is_behind(changes: &[Change], change: &Change) -> bool
    ensures { IsTrue result → EndsApart changes.now change.now }
{
    let count = changes.len();
    if count == 0 {
        return true;
    }
    let last = &changes[count - 1];
    if stands_off(last, change) {
        return true;
    }
    if goes_on(last, change) {
        return false;
    }
    goes_before(last, change)
}

/// A change joined to the one before its place, if it goes on from that one, and from which place on it then stands.
fn join_left(changes: &[Change], place: usize, change: Change) -> (usize, Change)
    requires form { AreChanges changes.now }
    requires sound { IsChange change }
    requires inside { place ≤ length changes.now }
    requires order { 0 < place → GoesBefore (slice_index_or changes.now (place - 1) change) change }
    ensures { JoinsLeft changes.now place change result.0 result.1 }
{
    if place > 0 {
        let last = &changes[place - 1];
        if goes_on(last, &change) {
            return (place - 1, joined(last, &change));
        }
    }
    (place, change)
}

/// A change joined to the one at its place, if that one goes on from it, and up to which place it then stands.
fn join_right(changes: &[Change], place: usize, change: Change) -> (usize, Change)
    requires form { AreChanges changes.now }
    requires sound { IsChange change }
    requires inside { place ≤ length changes.now }
    requires order { place < length changes.now → GoesBefore change (slice_index_or changes.now place change) }
    ensures { JoinsRight changes.now place change result.0 result.1 }
{
    if place < changes.len() {
        let next = &changes[place];
        if goes_on(&change, next) {
            return (place + 1, joined(&change, next));
        }
    }
    (place, change)
}
