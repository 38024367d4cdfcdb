//! Rows that know how many routers and atoms they have, so that a test asks for what is there and shows nothing first.

ghost use Rattle.std.specs.Prelude.{◌≡◌, ◌+◌, ◌<◌, ◌≤◌, ◌^◌, length};

use dn_model::{RouterId, Target};
use std::alloc::Global;
use std::process::Abort;
use target_rows::TargetRows;

/// A router does something else with the atoms of the places from the first of two up to, and without, the second.
fn turn(
    rt: &impl Abort,
    alloc: Global,
    rows: &mut TargetRows,
    r: u16,
    places: (u64, u64),
    after: Target,
)
    requires router { r < rows.old.routers }
    requires order { places.0 ≤ places.1 }
    requires inside { places.1 ≤ length rows.old.rows }
    ensures routers { rows.new.routers ≡ rows.old.routers }
    ensures atoms { length rows.new.rows ≡ length rows.old.rows }
{
    let (first, past) = places;
    rows.move_run(alloc, RouterId(r), first, past, after)
        .expect(rt, "memory");
}

/// The first atom of the rows is cut in two.
fn cut_first(rt: &impl Abort, alloc: Global, rows: &mut TargetRows)
    requires some { 0 < length rows.old.rows }
    requires room { length rows.old.rows < 2 ^ 32 }
    ensures routers { rows.new.routers ≡ rows.old.routers }
    ensures atoms { length rows.new.rows ≡ length rows.old.rows + 1 }
{
    rows.part(alloc, 0).expect(rt, "memory");
}

/// What some routers do with some atoms, beside the numbers of both. A router or a place that isn't there ends the test.
#[derive(Drop)]
pub struct TrialRows {
    rows: TargetRows,
    routers: u16,
    atoms: u64,
    ghost wide: { rows.routers ≡ routers },
    ghost long: { length rows.rows ≡ atoms },
}

impl TrialRows {
    /// Rows of some routers, none of which has a route for the one atom.
    pub fn new(rt: &impl Abort, alloc: Global, routers: u16) -> Self {
        TrialRows {
            rows: TargetRows::new(alloc, u32::from(routers)).expect(rt, "memory"),
            routers,
            atoms: 1,
        }
    }

    /// How many routers there are.
    pub fn routers(&self) -> u16 {
        self.routers
    }

    /// How many atoms there are.
    pub fn atoms(&self) -> u64 {
        self.atoms
    }

    /// The same rows again.
    pub fn copied(&self, rt: &impl Abort) -> Self {
        TrialRows {
            rows: self.rows.copy().expect(rt, "memory"),
            routers: self.routers,
            atoms: self.atoms,
        }
    }

    /// A router does something else with the atoms of the places from the first of two up to, and without, the second.
    pub fn turn(
        &mut self,
        rt: &impl Abort,
        alloc: Global,
        r: u16,
        places: (u64, u64),
        after: Target,
    ) {
        let (first, past) = places;
        assert!(rt; r < self.routers);
        assert!(rt; first <= past);
        assert!(rt; past <= self.atoms);
        turn(rt, alloc, &mut self.rows, r, (first, past), after);
    }

    /// The first atom is cut in two.
    pub fn cut_first(&mut self, rt: &impl Abort, alloc: Global) {
        assert!(rt; 0 < self.atoms);
        assert!(rt; self.atoms < 1_000_000);
        cut_first(rt, alloc, &mut self.rows);
        self.atoms += 1;
    }

    /// What a router does with the atom at a place.
    pub fn target(&self, rt: &impl Abort, r: u16, place: u64) -> Target {
        assert!(rt; r < self.routers);
        assert!(rt; place < self.atoms);
        self.rows.target(RouterId(r), place)
    }

    /// What a router does with the atoms from a place on is written into the room there is. It answers with how many.
    pub fn column(&self, rt: &impl Abort, r: u16, place: u64, out: &mut [Target]) -> usize {
        assert!(rt; r < self.routers);
        assert!(rt; place < self.atoms);
        assert!(rt; out.len() > 0);
        self.rows.column(RouterId(r), place, out)
    }

    /// What each router does with the atom at a place is written into the room there is, which is just enough.
    pub fn row(&self, rt: &impl Abort, place: u64, out: &mut [Target]) {
        assert!(rt; place < self.atoms);
        assert!(rt; out.len() == usize::from(self.routers));
        self.rows.row(place, out);
    }
}
