//! Where jobs run.

ghost use Rattle.std.specs.Prelude.{◌≡◌};

use dn_io::Gate;
use dn_model::Topology;
use std::alloc::Global;
use std::marker::Model;
use version_lock::VersionLock;
use version_store::Store;

/// Where jobs run: what memory comes from, the lock, the lock's network, and the gate of tests. A contract sees the
/// lock.
#[derive(Drop)]
pub struct Site<'a, G: Gate> {
    pub(crate) alloc: Global,
    pub(crate) lock: &'a VersionLock<Store>,
    pub(crate) topology: &'a Topology,
    pub(crate) gate: &'a G,
}

impl<'a, G: Gate> Model for Site<'a, G> {
    ghost use Rattle.std.specs.Prelude.{◌≡◌};
    ghost use Rattle.version_lock.specs.Callers.{Lock};

    ghost Value = { Lock };

    ghost view = { λ s. s.lock.now };

    ghost invariant = { λ s. s.topology.now ≡ s.lock.now.setup.basis.topology };
}

impl<'a, G: Gate> Site<'a, G> {
    /// Over this lock, whose network this is.
    pub fn new(
        alloc: Global,
        lock: &'a VersionLock<Store>,
        topology: &'a Topology,
        gate: &'a G,
    ) -> Site<'a, G>
        requires { topology.now ≡ lock.now.setup.basis.topology }
        ensures { result ≡ lock.now }
    {
        Site {
            alloc,
            lock,
            topology,
            gate,
        }
    }
}
