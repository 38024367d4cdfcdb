//! Snapshots as they are shown to readers that wait for nobody.

use crate::snapshot::Snapshot;
use dn_model::OutOfMemory;
use fast_pins::Shot;

impl Shot for Snapshot {
    ghost shown = { λ s. s.history };

    ghost shown_topology = { λ s. s.topology };

    fn number(&self) -> u32 {
        Snapshot::number(self)
    }

    fn copy(&self) -> Result<Snapshot, OutOfMemory> {
        self.again()
    }
}
