//! A part of a view's rows as a view of its own.

ghost use Rattle.std.specs.Prelude.{◌≡◌, ℕ, ◌+◌, ◌<◌, ◌≤◌, ◌^◌, nat_lt, if◌then◌else◌, length, slice_index_or};
ghost use Rattle.label_view.specs.Places.{begin_of};
ghost use Rattle.par_scan.specs.Parts.{ShowsPart, part_of};
ghost use Rattle.par_scan.specs.Ranges.{range_begin};

use crate::ranges::Ranges;
use base::{RouterId, Target};
use label_view::LabelView;

/// So many rows of a view from a place on, as a view of as many routers. All other addresses stay where they are: a row
/// before those of the view and one after them cover them. It takes no memory.
#[derive(Drop)]
pub(crate) struct Part<'a, V: LabelView> {
    view: &'a V,
    from: u64,
    count: u64,
    low: u64,
    past: u64,
    ghost few: { from + count ≤ 2 ^ 32 },
    ghost inside: { from + count ≤ length (V.rows view.now) },
    ghost begins: { low ≡ begin_of (V.rows view.now) from },
    ghost ends: { past ≡ begin_of (V.rows view.now) (from + count) },
}

/// The first address of the row at a place, and 2^32 at the place after the last row.
fn begin_at<V: LabelView>(view: &V, place: u64) -> u64
    requires { place ≤ length (V.rows view.now) }
    ensures { result ≡ begin_of (V.rows view.now) place }
{
    if place < view.atoms() {
        return view.bounds(place).0;
    }
    1 << 32
}

impl<'a, V: LabelView> Part<'a, V> {
    /// The rows of a view from a place up to, and without, another.
    pub(crate) fn new(view: &'a V, from: u64, to: u64) -> Part<'a, V>
        requires order { from ≤ to }
        requires inside { to ≤ length (V.rows view.now) }
        ensures width { ⟦<Part<'a, V> as LabelView>⟧.width result ≡ V.width view.now }
        ensures shows { ShowsPart (V.width view.now) (V.rows view.now) (⟦<Part<'a, V> as LabelView>⟧.rows result)
            (begin_of (V.rows view.now) from) (begin_of (V.rows view.now) to) }
    {
        let _form = view.atoms();
        let low = begin_at(view, from);
        let past = begin_at(view, to);
        Part {
            view,
            from,
            count: to - from,
            low,
            past,
        }
    }

    /// The rows of the range with a number.
    pub(crate) fn of_range(view: &'a V, ranges: Ranges, k: u64) -> Part<'a, V>
        requires rows { ranges.rows ≡ length (V.rows view.now) }
        requires number { k < 2 ^ 63 }
        ensures width { ⟦<Part<'a, V> as LabelView>⟧.width result ≡ V.width view.now }
        ensures shows { ShowsPart (V.width view.now) (V.rows view.now) (⟦<Part<'a, V> as LabelView>⟧.rows result)
            (range_begin (V.rows view.now) ranges.size k) (range_begin (V.rows view.now) ranges.size (k + 1)) }
    {
        Part::new(view, ranges.place(k), ranges.place(k + 1))
    }

    /// How many rows stand before those of the view.
    fn before(&self) -> u64
        ensures value { result ≡ (if nat_lt 0 self.now.low then 1 else 0) }
        ensures few { result ≤ 1 }
    {
        if self.low > 0 { 1 } else { 0 }
    }

    /// How many rows stand after those of the view.
    fn after(&self) -> u64
        ensures value { result ≡ (if nat_lt self.now.past (2 ^ 32) then 1 else 0) }
        ensures few { result ≤ 1 }
    {
        if self.past < 1 << 32 { 1 } else { 0 }
    }
}

impl<'a, V: LabelView> LabelView for Part<'a, V> {
    ghost width = { λ p. V.width p.view.now };

    ghost rows = { λ p. part_of (V.width p.view.now) (V.rows p.view.now) p.from p.count };

    fn routers(&self) -> u32 {
        self.view.routers()
    }

    fn atoms(&self) -> u64 {
        let _form = self.view.atoms();
        self.before() + self.count + self.after()
    }

    fn bounds(&self, i: u64) -> (u64, u64) {
        let before = self.before();
        if i < before {
            return (0, self.low);
        }
        if i - before < self.count {
            return self.view.bounds(self.from + (i - before));
        }
        (self.past, 1 << 32)
    }

    fn atom_of(&self, a: u32) -> u64 {
        let _form = self.view.atoms();
        let address = u64::from(a);
        if address < self.low {
            return 0;
        }
        if address < self.past {
            return self.view.atom_of(a) - self.from + self.before();
        }
        self.before() + self.count
    }

    fn target(&self, r: RouterId, i: u64) -> Target {
        let before = self.before();
        if i < before {
            return Target::Local;
        }
        if i - before < self.count {
            return self.view.target(r, self.from + (i - before));
        }
        Target::Local
    }

    fn column(&self, r: RouterId, i: u64, out: &mut [Target]) -> usize {
        let before = self.before();
        if i < before {
            out[0] = Target::Local;
            return 1;
        }
        if i - before < self.count {
            let read = self.view.column(r, self.from + (i - before), out);
            return (read as u64).min(self.count - (i - before)) as usize;
        }
        out[0] = Target::Local;
        1
    }

    fn row(&self, i: u64, out: &mut [Target]) {
        let before = self.before();
        if i < before {
            stay(out);
            return;
        }
        if i - before < self.count {
            self.view.row(self.from + (i - before), out);
            return;
        }
        stay(out);
    }
}

/// Puts in the place of each of these targets that of addresses that stay.
fn stay(targets: &mut [Target])
    ensures { (k : ℕ) → k < length targets.new → slice_index_or targets.new k Target.Local ≡ Target.Local }
{
    for target in targets.iter_mut() {
        *target = Target::Local;
    }
}
