//! A view of rows in a list.

ghost use Rattle.std.specs.Prelude.{◌≡◌, ◌<◌, ◌≤◌, length, slice_index_or};
ghost use Rattle.base.specs.Forwarding.{AreForwarding, row_low, row_past};
ghost use Rattle.base.specs.Rows.{CoverFrom};
ghost use Rattle.base.specs.declared.forwarding_row.ForwardingRow.{ForwardingRow};

use crate::view::LabelView;
use base::{ForwardingRow, List, RouterId, Target};
use std::marker::Model;

/// A view of rows that are in a list. It is small and plain: it finds the row of an address by looking at each.
#[derive(Drop)]
pub struct ListView {
    routers: u32,
    rows: List<ForwardingRow>,
}

impl Model for ListView {
    ghost use Rattle.base.specs.Forwarding.{AreForwarding};
    ghost use Rattle.label_view.specs.Listed.{Listed};

    ghost Value = { Listed };

    ghost view = { λ v. record { routers = v.routers; rows = v.rows } };

    ghost invariant = { λ v. AreForwarding v.routers v.rows };
}

impl ListView {
    /// The view of these rows of so many routers.
    pub fn new(routers: u32, rows: List<ForwardingRow>) -> Self
        requires { AreForwarding routers rows }
        ensures routers { result.routers ≡ routers }
        ensures rows { result.rows ≡ rows }
    {
        ListView { routers, rows }
    }
}

impl LabelView for ListView {
    ghost width = { λ v. v.routers };

    ghost rows = { λ v. v.rows };

    fn routers(&self) -> u32 {
        self.routers
    }

    fn atoms(&self) -> u64 {
        self.rows.len() as u64
    }

    fn bounds(&self, i: u64) -> (u64, u64) {
        let row = &self.rows.as_slice()[i as usize];
        (row.low, row.past)
    }

    fn atom_of(&self, a: u32) -> u64 {
        place_of(self.rows.as_slice(), a) as u64
    }

    fn target(&self, r: RouterId, i: u64) -> Target {
        self.rows.as_slice()[i as usize].targets.as_slice()[r.0 as usize]
    }

    fn column(&self, r: RouterId, i: u64, out: &mut [Target]) -> usize {
        out[0] = self.target(r, i);
        1
    }

    fn row(&self, i: u64, out: &mut [Target]) {
        out.copy_from_slice(self.rows.as_slice()[i as usize].targets.as_slice());
    }
}

/// Which of all rows, by place, has an address.
fn place_of(rows: &[ForwardingRow], a: u32) -> usize
    requires { CoverFrom row_low row_past 0 rows.now }
    ensures inside { result < length rows.now }
    ensures from { (d : ForwardingRow) → (slice_index_or rows.now result d).low ≤ a }
    ensures to { (d : ForwardingRow) → a < (slice_index_or rows.now result d).past }
{
    let mut place = 0;
    'search: while rows[place].past <= a as u64 {
        place += 1;
    }
    place
}
