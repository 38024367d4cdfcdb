//! What a version shows.

ghost use Rattle.std.specs.Prelude.{◌≡◌, ◌<◌, ◌≤◌, IfOk, length, slice_index_or};
ghost use Rattle.base.specs.Forwarding.{AreForwarding, target_of};
ghost use Rattle.base.specs.declared.forwarding_row.ForwardingRow.{ForwardingRow};
ghost use Rattle.what_if.specs.Restricted.{rows_without};

use crate::kept_rows::KeptRows;
use crate::link_set::LinkSet;
use dn_model::{OutOfMemory, RouterId, Run, Target};
use label_view::LabelView;
use std::marker::Model;

/// What all routers do with all addresses, as a version has it, without the routes that say why: what queries read. A
/// contract sees the number of routers and the rows. It shares with the version what the next entries don't change. What
/// routers do while all links are up is kept, and the links that are down are put over what is read of it: where none is
/// down nothing is added to a read, and else a look at a link's flag for each target that goes on over one.
#[derive(Drop)]
pub struct Shown {
    kept: KeptRows,
    down: LinkSet,
}

impl Model for Shown {
    ghost use Rattle.net_engine.specs.Shown.{View};
    ghost use Rattle.what_if.specs.Restricted.{rows_without};

    ghost Value = { View };

    ghost view = { λ s. record { routers = s.kept.routers; rows = rows_without s.down s.kept.rows } };
}

impl Shown {
    /// These rows, where these links are down.
    pub(crate) fn of(kept: KeptRows, down: LinkSet) -> Shown
        ensures routers { result.routers ≡ kept.routers }
        ensures rows { result.rows ≡ rows_without down kept.rows }
    {
        Shown { kept, down }
    }

    /// The same again. It fails for want of memory alone.
    pub fn copy(&self) -> Result<Shown, OutOfMemory>
        ensures { IfOk result (λ shown. shown ≡ self.now) }
    {
        let kept = self.kept.copy()?;
        let down = self.down.copy()?;
        Ok(Shown { kept, down })
    }
}

impl LabelView for Shown {
    ghost width = { λ s. s.routers };

    ghost rows = { λ s. s.rows };

    fn routers(&self) -> u32 {
        self.kept.routers()
    }

    fn atoms(&self) -> u64 {
        self.kept.atoms()
    }

    fn bounds(&self, i: u64) -> (u64, u64) {
        self.kept.bounds(i)
    }

    fn runs(&self, i: u64, out: &mut [Run]) -> usize {
        self.kept.runs(i, out)
    }

    fn atom_of(&self, a: u32) -> u64 {
        self.kept.atom_of(a)
    }

    fn target(&self, r: RouterId, i: u64) -> Target {
        self.down.shown(self.kept.target(r, i))
    }

    fn column(&self, r: RouterId, i: u64, out: &mut [Target]) -> usize {
        let count = self.kept.column(r, i, out);
        self.down.put_over(&mut out[..count]);
        count
    }

    fn row(&self, i: u64, out: &mut [Target]) {
        self.kept.row(i, out);
        self.down.put_over(out);
    }
}
