//! Events, one after another.

ghost use Rattle.std.specs.Prelude.{◌≡◌, ◌≤◌, ◌++◌, ◌∷◌, [], IfErr, OnOk, OnErr, length};
ghost use Rattle.version_store.specs.Events.{IsEventOf, IsRefusedEvent, pins, posts};
ghost use Rattle.version_store.specs.Kept.{past_of};

use crate::snapshot::Snapshot;
use crate::store::Store;
use dn_model::{Entry, OutOfMemory};
use version_lock::{Book, PostRefused};

/// One event of a network's history.
#[derive(Clone, Copy, Debug, PartialEq, Eq)]
pub enum Event {
    /// An entry joins the history.
    Apply(Entry),
    /// The history so far is fixed for a query.
    Pin,
}

/// Adds a snapshot of the history. After `OutOfMemory`, for which alone it fails, the snapshots are as before.
fn pin(store: &Store, snapshots: &mut Vec<Snapshot>) -> Result<(), OutOfMemory>
    ensures { OnOk result (snapshots.new.items ≡ snapshots.old.items ++ past_of store.now ∷ []) }
{
    snapshots.push(store.snap()?)?;
    Ok(())
}

/// One event is played. Where it is refused the history is as before.
pub(crate) fn play_one(
    store: &mut Store,
    seat: u32,
    event: &Event,
    snapshots: &mut Vec<Snapshot>,
) -> Result<(), PostRefused>
    requires event { IsEventOf store.old.basis.topology event.now }
    requires few { length store.old.history ≤ store.old.basis.limit }
    ensures basis { store.new.basis ≡ store.old.basis }
    ensures history { OnOk result (store.new.history ≡ store.old.history ++ posts seat (event.now ∷ [])) }
    ensures pins { OnOk result (snapshots.new.items ≡ snapshots.old.items ++ pins store.old seat (event.now ∷ [])) }
    ensures same { OnErr result (store.new.history ≡ store.old.history) }
    ensures few { length store.new.history ≤ store.new.basis.limit }
    ensures refused { IfErr result (IsRefusedEvent store.old event.now) }
{
    match event {
        Event::Apply(entry) => match store.post(seat, entry) {
            Ok(_) => Ok(()),
            Err(refused) => Err(refused),
        },
        Event::Pin => match pin(store, snapshots) {
            Ok(()) => Ok(()),
            Err(OutOfMemory) => Err(PostRefused::OutOfMemory),
        },
    }
}
