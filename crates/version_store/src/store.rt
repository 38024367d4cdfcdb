//! The book of a version lock: a history, and what stands after it.

ghost use Rattle.std.specs.Prelude.{◌≡◌, ◌<◌, ◌≤◌, ◌++◌, ◌∷◌, [], All, IfOk, IfErr, OnOk, OnErr, length};
ghost use Rattle.std.specs.Arc.{arc_value};
ghost use Rattle.version_store.specs.Events.{IsEventOf, IsRefusedPlay, pins, posts};
ghost use Rattle.version_store.specs.Kept.{AreOf, IsTaken};

use crate::history::History;
use crate::play::{Event, play_one};
use crate::snapshot::{Seen, Snapshot};
use crate::standing::empty_standing;
use crate::versions::{next_version, picture_of};
use delta_graph::Delta;
use dn_model::{Entry, List, OutOfMemory, Posted, Topology};
use loop_keeper::KeptLoops;
use net_engine::Version;
use std::alloc::Global;
use std::marker::Model;
use std::mem;
use std::sync::Arc;
use version_lock::{Book, PostRefused};
use version_pages::Pages;

/// A history of a network's entries, with the version after it, the loops of the network then and the changes that its
/// last entry made. A contract sees the basis, that is the network and how many entries it takes at most, and the
/// history.
///
/// A post changes the version and the loops in their own place. Where it finds no memory half way, the history is as
/// before, the version is gone and the loops are of no history: both are made again, update by update, at the next post,
/// and by each snapshot for itself until then.
#[derive(Drop)]
pub struct Store {
    alloc: Global,
    topology: Arc<Topology, Global>,
    limit: u32,
    history: History,
    version: Option<Version>,
    loops: KeptLoops,
    changes: Arc<Delta, Global>,
}

impl Model for Store {
    ghost use Rattle.std.specs.Arc.{arc_value};
    ghost use Rattle.version_store.specs.Kept.{IsKeptOf, Ledger};

    ghost Value = { Ledger };

    ghost view = { λ s. record {
      basis = record { topology = arc_value s.topology; limit = s.limit };
      history = s.history;
    } };

    ghost invariant = { λ s. IsKeptOf (arc_value s.topology) s.limit s.history s.version s.loops (arc_value s.changes) };
}

/// Adds a seat's entry to a history, and puts the changes that it makes in the place of those before, which it hands
/// out. After `OutOfMemory`, for which alone it fails, both are as before.
fn put_with(
    alloc: Global,
    entries: &mut History,
    changes: &mut Delta,
    seat: u32,
    entry: &Entry,
    delta: Delta,
) -> Result<Delta, OutOfMemory>
    ensures entries { OnOk result (entries.new ≡ entries.old ++ record { seat = seat; entry = entry.now } ∷ []) }
    ensures changes { OnOk result (changes.new ≡ delta) }
    ensures same { OnErr result (entries.new ≡ entries.old) }
    ensures kept { OnErr result (changes.new ≡ changes.old) }
{
    let posted = Posted {
        seat,
        entry: *entry,
    };
    entries.push(alloc, posted)?;
    Ok(mem::replace(changes, delta))
}

/// The same where others may hold the changes before, for whom they stay: the new ones then stand beside them, and none are
/// handed out.
fn post_with(
    alloc: Global,
    history: &mut History,
    changes: &mut Arc<Delta, Global>,
    seat: u32,
    entry: &Entry,
    delta: Delta,
) -> Result<Delta, OutOfMemory>
    ensures entries { OnOk result (history.new ≡ history.old ++ record { seat = seat; entry = entry.now } ∷ []) }
    ensures changes { OnOk result (arc_value changes.new ≡ delta) }
    ensures same { OnErr result (history.new ≡ history.old) }
    ensures kept { OnErr result (arc_value changes.new ≡ arc_value changes.old) }
{
    if let Some(own) = Arc::get_mut(changes) {
        return put_with(alloc, history, own, seat, entry, delta);
    }
    let made = Arc::new(alloc, delta)?;
    history.push(
        alloc,
        Posted {
            seat,
            entry: *entry,
        },
    )?;
    *changes = made;
    Ok(Delta::new(alloc))
}

impl Store {
    /// The store of a network before any update, which takes at most `limit` entries. It fails for want of memory
    /// alone.
    pub fn new(
        alloc: Global,
        topology: Arc<Topology, Global>,
        limit: u32,
    ) -> Result<Store, OutOfMemory>
        ensures basis { IfOk result (λ store. store.basis ≡ record { topology = arc_value topology; limit = limit }) }
        ensures empty { IfOk result (λ store. store.history ≡ []) }
    {
        let (version, loops) = empty_standing(alloc, Arc::try_clone(&topology)?)?;
        let changes = Arc::new(alloc, Delta::new(alloc))?;
        Ok(Store {
            alloc,
            topology,
            limit,
            history: History::new(alloc),
            version: Some(version),
            loops,
            changes,
        })
    }

    /// How many entries were posted: as many as the limit at most.
    pub fn len(&self) -> u64
        ensures value { result ≡ length self.now.history }
        ensures few { length self.now.history ≤ self.now.basis.limit }
    {
        // What it holds is below 2^32, and so is the length.
        let _limit = self.limit;
        self.history.len()
    }

    /// The entries of the history, in order, each with the seat that posted it: a list that shares the store's pages, so
    /// that only its last entries are copied. It fails for want of memory alone.
    pub fn posted(&self) -> Result<Pages<Posted>, OutOfMemory>
        ensures entries { IfOk result (λ history. history ≡ self.now.history) }
        ensures few { length self.now.history ≤ self.now.basis.limit }
        ensures own { AreOf self.now.basis.topology self.now.history }
    {
        let _ = &self.version;
        self.history.in_pages(self.alloc)
    }

    /// The same as a list of their own. It fails for want of memory alone.
    pub fn history(&self, alloc: Global) -> Result<List<Posted>, OutOfMemory>
        ensures entries { IfOk result (λ history. history ≡ self.now.history) }
        ensures few { length self.now.history ≤ self.now.basis.limit }
        ensures own { AreOf self.now.basis.topology self.now.history }
    {
        // What it holds is below 2^32, and so is the length.
        let _limit = self.limit;
        self.history.to_list(alloc)
    }

    /// Plays events, of which each entry is one that the store takes, under a seat's number: a snapshot for each Pin, in
    /// order, of the history after the events before it. The first event that is refused ends it, and the history is
    /// then that after the events before that one; `Full` comes exactly where an entry comes to a history that is as
    /// long as the limit.
    pub fn play(
        &mut self,
        alloc: Global,
        seat: u32,
        events: &[Event],
    ) -> Result<Vec<Snapshot>, PostRefused>
        requires { All (IsEventOf self.old.basis.topology) events.now }
        ensures basis { self.new.basis ≡ self.old.basis }
        ensures history { OnOk result (self.new.history ≡ self.old.history ++ posts seat events.now) }
        ensures pins { IfOk result (λ snapshots. snapshots.items ≡ pins self.old seat events.now) }
        ensures few { length self.new.history ≤ self.new.basis.limit }
        ensures refused { IfErr result (IsRefusedPlay self.old self.new seat events.now) }
    {
        let _ = &self.history;
        let mut snapshots = Vec::new(alloc);
        for event in events {
            play_one(self, seat, event, &mut snapshots)?;
        }
        Ok(snapshots)
    }

    /// Adds an entry, and answers how many entries there are then. After `OutOfMemory`, for which alone it fails, the
    /// history is as before.
    fn add(&mut self, seat: u32, entry: &Entry) -> Result<u32, OutOfMemory>
        requires entry { IsTaken self.old.basis.topology entry.now }
        requires room { length self.old.history < self.old.basis.limit }
        ensures basis { self.new.basis ≡ self.old.basis }
        ensures ok { OnOk result (self.new.history
            ≡ self.old.history ++ record { seat = seat; entry = entry.now } ∷ []) }
        ensures number { IfOk result (λ n. n ≡ length self.new.history) }
        ensures err { OnErr result (self.new.history ≡ self.old.history) }
    {
        let taken = self.version.take();
        let (mut version, changes) = next_version(
            self.alloc,
            &self.topology,
            &self.history,
            taken,
            &mut self.loops,
            entry,
        )?;
        let spare = post_with(
            self.alloc,
            &mut self.history,
            &mut self.changes,
            seat,
            entry,
            changes,
        )?;
        version.take_back(spare);
        self.version = Some(version);
        Ok(self.history.len() as u32)
    }
}

impl Book for Store {
    type Snap = Snapshot;

    ghost history = { λ s. s.history };

    ghost basis = { λ s. s.basis };

    ghost shown = { λ s. s.history };

    ghost shown_topology = { λ s. s.topology };

    ghost takes = { λ basis e. IsTaken basis.topology e };

    fn post(&mut self, seat: u32, entry: &Entry) -> Result<u32, PostRefused> {
        let limit = self.limit;
        if self.history.len() >= u64::from(limit) {
            return Err(PostRefused::Full { length: limit });
        }
        match self.add(seat, entry) {
            Ok(number) => Ok(number),
            Err(OutOfMemory) => Err(PostRefused::OutOfMemory),
        }
    }

    fn snap(&self) -> Result<Snapshot, OutOfMemory> {
        let picture = picture_of(
            self.alloc,
            &self.topology,
            &self.history,
            &self.version,
            &self.loops,
        )?;
        let topology = Arc::try_clone(&self.topology)?;
        let history = Arc::new(self.alloc, Seen::of(&self.history))?;
        let changes = Arc::try_clone(&self.changes)?;
        // What it holds is below 2^32, and so is the length.
        let _limit = self.limit;
        let number = self.history.len() as u32;
        Ok(Snapshot::of(topology, history, number, picture, changes))
    }
}
