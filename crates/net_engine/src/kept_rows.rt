//! The rows of atoms, with what routers do there while all links are up.

ghost use Rattle.std.specs.Prelude.{◌≡◌, ◌<◌, ◌≤◌, IfOk, length, slice_index_or};
ghost use Rattle.base.specs.Forwarding.{AreForwarding, target_of};
ghost use Rattle.base.specs.declared.forwarding_row.ForwardingRow.{ForwardingRow};
ghost use Rattle.net_engine.specs.Paired.{AreLabelled, rows_with};

use atom_map::Bounds;
use dn_model::{OutOfMemory, RouterId, Run, Target};
use label_view::LabelView;
use std::marker::Model;
use target_rows::TargetRows;

/// What all routers do with all addresses while all links are up, without the routes that say why. A contract sees the
/// number of routers and the rows. It shares with what it is a copy of what the next updates don't change.
#[derive(Drop)]
pub struct KeptRows {
    routers: u32,
    atoms: Bounds,
    labels: TargetRows,
}

impl Model for KeptRows {
    ghost use Rattle.net_engine.specs.Paired.{rows_with};
    ghost use Rattle.net_engine.specs.KeptRows.{AreKeptRows};
    ghost use Rattle.net_engine.specs.Shown.{View};

    ghost Value = { View };

    ghost view = { λ k. record { routers = k.routers; rows = rows_with k.atoms k.labels.rows } };

    ghost invariant = { λ k. AreKeptRows k.routers k.atoms k.labels };
}

impl KeptRows {
    /// What these routers do with these atoms.
    pub fn of(routers: u32, atoms: Bounds, labels: TargetRows) -> KeptRows
        requires labelled { AreLabelled atoms labels }
        requires same { labels.routers ≡ routers }
        requires form { AreForwarding routers (rows_with atoms labels.rows) }
        ensures routers { result.routers ≡ routers }
        ensures rows { result.rows ≡ rows_with atoms labels.rows }
    {
        KeptRows {
            routers,
            atoms,
            labels,
        }
    }

    /// The same again. It fails for want of memory alone.
    pub fn copy(&self) -> Result<KeptRows, OutOfMemory>
        ensures { IfOk result (λ rows. rows ≡ self.now) }
    {
        let atoms = self.atoms.copy()?;
        let labels = self.labels.copy()?;
        Ok(KeptRows {
            routers: self.routers,
            atoms,
            labels,
        })
    }
}

impl LabelView for KeptRows {
    ghost width = { λ k. k.routers };

    ghost rows = { λ k. k.rows };

    fn routers(&self) -> u32 {
        self.routers
    }

    fn atoms(&self) -> u64 {
        self.atoms.count()
    }

    fn bounds(&self, i: u64) -> (u64, u64) {
        self.atoms.bounds(i)
    }

    fn runs(&self, i: u64, out: &mut [Run]) -> usize {
        self.atoms.runs(i, out)
    }

    fn atom_of(&self, a: u32) -> u64 {
        self.atoms.place_of(a)
    }

    fn target(&self, r: RouterId, i: u64) -> Target {
        self.labels.target(r, i)
    }

    fn column(&self, r: RouterId, i: u64, out: &mut [Target]) -> usize {
        self.labels.column(r, i, out)
    }

    fn row(&self, i: u64, out: &mut [Target]) {
        self.labels.row(i, out);
    }
}
