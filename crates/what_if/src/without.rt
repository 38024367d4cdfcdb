//! A view with links down.

ghost use Rattle.std.specs.Prelude.{◌≡◌, ℕ, length};
ghost use Rattle.base.specs.Forwarding.{does};
ghost use Rattle.base.specs.Walk.{with_down};
ghost use Rattle.base.specs.declared.ids.RouterId.{RouterId as RouterIs};
ghost use Rattle.label_view.specs.Places.{begin_of};
ghost use Rattle.what_if.specs.Restricted.{rows_without};

use crate::links::{take_links_down, with_links_down};
use base::{LinkId, RouterId, Run, Target};
use label_view::LabelView;
use std::marker::Model;

/// A view of what all routers do where some links are down: what would go on over one of them goes nowhere. Its rows are
/// those of the view that it stands on. It takes no memory.
#[derive(Drop)]
pub struct Without<'a, V> {
    view: &'a V,
    links: &'a [LinkId],
}

impl<'a, V> Model for Without<'a, V> {
    ghost use Rattle.what_if.specs.Restricted.{Restricted};

    ghost Value = { Restricted V };

    ghost view = { λ w. record { view = w.view.now; links = w.links.now } };
}

impl<'a, V: LabelView> Without<'a, V> {
    /// The view with these links down. It has as many routers, the rows have the same bounds, and each router does with
    /// each address what it does in the view, but goes on over none of the links.
    pub fn new(view: &'a V, links: &'a [LinkId]) -> Without<'a, V>
        ensures width { ⟦<Without<'a, V> as LabelView>⟧.width result ≡ V.width view.now }
        ensures atoms { length (⟦<Without<'a, V> as LabelView>⟧.rows result) ≡ length (V.rows view.now) }
        ensures bounds { (i : ℕ) → begin_of (⟦<Without<'a, V> as LabelView>⟧.rows result) i ≡ begin_of (V.rows view.now) i }
        ensures does { (r : RouterIs) (a : ℕ) →
            does (⟦<Without<'a, V> as LabelView>⟧.rows result) r a ≡ with_down links.now (does (V.rows view.now)) r a }
    {
        Without { view, links }
    }
}

impl<'a, V: LabelView> LabelView for Without<'a, V> {
    ghost width = { λ w. V.width w.view };

    ghost rows = { λ w. rows_without w.links (V.rows w.view) };

    fn routers(&self) -> u32 {
        self.view.routers()
    }

    fn atoms(&self) -> u64 {
        self.view.atoms()
    }

    fn bounds(&self, i: u64) -> (u64, u64) {
        self.view.bounds(i)
    }

    fn runs(&self, i: u64, out: &mut [Run]) -> usize {
        self.view.runs(i, out)
    }

    fn atom_of(&self, a: u32) -> u64 {
        self.view.atom_of(a)
    }

    fn target(&self, r: RouterId, i: u64) -> Target {
        with_links_down(self.links, self.view.target(r, i))
    }

    fn column(&self, r: RouterId, i: u64, out: &mut [Target]) -> usize {
        let count = self.view.column(r, i, out);
        take_links_down(self.links, &mut out[..count]);
        count
    }

    fn row(&self, i: u64, out: &mut [Target]) {
        self.view.row(i, out);
        take_links_down(self.links, out);
    }
}
