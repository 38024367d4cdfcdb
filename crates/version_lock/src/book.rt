//! What a version lock keeps: a book, in which entries are posted one after another.

ghost use Rattle.std.specs.Prelude.{◌≡◌, ◌<◌, ◌++◌, ◌∷◌, [], List, length, IfOk, IfErr, OnOk, OnErr};
ghost use Rattle.dn_model.specs.declared.entry.Entry.{Entry as EntryIs};
ghost use Rattle.dn_model.specs.declared.entry.Posted.{Posted};
ghost use Rattle.dn_model.specs.declared.topology.Topology.{Topology};
ghost use Rattle.version_lock.specs.History.{IsRefusedAt};
ghost use Rattle.version_lock.specs.declared.book.Basis.{Basis};

use dn_model::{Entry, Topology};

/// What stays of a book, whatever is posted: the network that its entries are of, and how many entries it takes at most.
pub struct Basis {
    pub topology: Topology,
    pub limit: u32,
}

/// Why an entry was not posted.
#[derive(Clone, Copy, Debug, PartialEq, Eq)]
pub enum PostRefused {
    /// The book has as many entries as it takes: `length` of them.
    Full { length: u32 },
    /// There was no memory.
    OutOfMemory,
}

/// A history of posted entries over a fixed basis. After a refusal the history is as before.
pub trait Book: Send + Drop {
    /// The history as it was when the snapshot was taken.
    type Snap: Drop;

    ghost history: { Self → List Posted };

    ghost basis: { Self → Basis };

    ghost shown: { Self.Snap → List Posted };

    ghost shown_topology: { Self.Snap → Topology };

    ghost takes: { Basis → EntryIs → Type 0 };

    /// Adds an entry under a seat's number, and answers how many entries there are then.
    fn post(&mut self, seat: u32, entry: &Entry) -> Result<u32, PostRefused>
        requires { takes (basis self.old) entry.now }
        ensures basis { basis self.new ≡ basis self.old }
        ensures ok { OnOk result (history self.new ≡ history self.old ++ record { seat = seat; entry = entry.now } ∷ []) }
        ensures number { IfOk result (λ n. n ≡ length (history self.new)) }
        ensures room { OnOk result (length (history self.old) < (basis self.old).limit) }
        ensures err { OnErr result (history self.new ≡ history self.old) }
        ensures full { IfErr result (IsRefusedAt (basis self.old).limit (history self.old)) };

    /// A snapshot of the history so far.
    fn snap(&self) -> Result<Self::Snap, dn_model::OutOfMemory>
        ensures shown { IfOk result (λ s. shown s ≡ history self.now) }
        ensures topology { IfOk result (λ s. shown_topology s ≡ (basis self.now).topology) };
}

/// A snapshot that its caller owns. It holds no turn.
#[derive(Drop)]
pub struct Pinned<B: Book> {
    pub snap: B::Snap,
}
