//! What is published.

ghost use Rattle.std.specs.Prelude.{◌≡◌, List, length, IfOk};
ghost use Rattle.dn_model.specs.declared.entry.Posted.{Posted};
ghost use Rattle.dn_model.specs.declared.topology.Topology.{Topology};

use dn_model::OutOfMemory;

/// A snapshot of a network's history: it stands for the network and the list of the entries that were posted.
pub trait Shot: Sized + Send + Sync + Drop {
    ghost shown: { Self → List Posted };

    ghost shown_topology: { Self → Topology };

    /// How many entries the list has.
    fn number(&self) -> u32
        ensures { result ≡ length (shown self.now) };

    /// Another snapshot of the same network and list.
    fn copy(&self) -> Result<Self, OutOfMemory>
        ensures shown { IfOk result (λ other. shown other ≡ shown self.now) }
        ensures topology { IfOk result (λ other. shown_topology other ≡ shown_topology self.now) };
}
