//! Stores of the network.

use crate::step::{Step, entry_of, network, two_with_pins};
use dn_model::{List, Posted};
use std::alloc::Global;
use std::marker::Model;
use std::process::Abort;
use std::sync::Arc;
use version_lock::{Book, PostRefused};
use version_pages::Pages;
use version_store::{Snapshot, Store};

/// A store of the network.
#[derive(Drop)]
pub struct Trial {
    store: Store,
}

impl Model for Trial {
    ghost use Rattle.store_trials.specs.Line.{IsLine};
    ghost use Rattle.version_store.specs.Kept.{Ledger};

    ghost Value = { Ledger };

    ghost view = { λ t. t.store };

    ghost invariant = { λ t. IsLine t.store.basis.topology };
}

impl Trial {
    /// A store of no entries, which takes at most `limit`.
    pub fn new(rt: &impl Abort, alloc: Global, limit: u32) -> Trial {
        let topology = Arc::new(alloc, network(rt, alloc)).expect(rt, "memory");
        let store = Store::new(alloc, topology, limit).expect(rt, "memory");
        Trial { store }
    }

    /// Posts the entry of a step under a seat.
    pub fn post(&mut self, seat: u32, step: Step) -> Result<u32, PostRefused> {
        self.store.post(seat, &entry_of(step))
    }

    /// A snapshot of what was posted.
    pub fn snap(&self, rt: &impl Abort) -> Snapshot {
        self.store.snap().expect(rt, "memory")
    }

    /// How many entries were posted.
    pub fn len(&self) -> u64 {
        self.store.len()
    }

    /// What was posted, in the store's pages.
    pub fn posted(&self, rt: &impl Abort) -> Pages<Posted> {
        self.store.posted().expect(rt, "memory")
    }

    /// What was posted, as a list.
    pub fn history(&self, rt: &impl Abort, alloc: Global) -> List<Posted> {
        self.store.history(alloc).expect(rt, "memory")
    }

    /// Plays two entries with the history fixed before each, under the seat 3.
    pub fn play(&mut self, alloc: Global) -> Result<Vec<Snapshot>, PostRefused> {
        self.store.play(alloc, 3, &two_with_pins())
    }
}
