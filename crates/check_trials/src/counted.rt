//! A view that counts what is read of it.

use base::{RouterId, Target};
use label_view::{LabelView, ListView};
use std::cell::Cell;

/// The rows of a list, with a count of the targets that were read.
#[derive(Drop)]
pub(crate) struct Counted {
    view: ListView,
    looks: Cell<u64>,
}

impl Counted {
    /// None was read yet.
    pub(crate) fn new(view: ListView) -> Self {
        Counted {
            view,
            looks: Cell::new(0),
        }
    }

    /// How many targets were read.
    pub(crate) fn looks(&self) -> u64 {
        self.looks.get()
    }

    fn count(&self, targets: usize) {
        self.looks
            .set(self.looks.get().saturating_add(targets as u64));
    }
}

impl LabelView for Counted {
    ghost width = { λ v. v.view.routers };

    ghost rows = { λ v. v.view.rows };

    fn routers(&self) -> u32 {
        self.view.routers()
    }

    fn atoms(&self) -> u64 {
        self.view.atoms()
    }

    fn bounds(&self, i: u64) -> (u64, u64) {
        self.view.bounds(i)
    }

    fn atom_of(&self, a: u32) -> u64 {
        self.view.atom_of(a)
    }

    fn target(&self, r: RouterId, i: u64) -> Target {
        self.count(1);
        self.view.target(r, i)
    }

    fn column(&self, r: RouterId, i: u64, out: &mut [Target]) -> usize {
        let targets = self.view.column(r, i, out);
        self.count(targets);
        targets
    }

    fn row(&self, i: u64, out: &mut [Target]) {
        self.count(out.len());
        self.view.row(i, out)
    }
}
