//! Atoms with what each router does there and the rules that it has there.

ghost use Rattle.std.specs.Prelude.{◌≡◌, ◌+◌, ◌<◌, ◌≤◌, ◌^◌, ◌∷◌, [], IfOk, OnOk, length, slice_index_or, replicate};
ghost use Rattle.dn_model.specs.Table.{prefix_of_op};
ghost use Rattle.base.specs.Forwarding.{AreForwarding, target_of};
ghost use Rattle.dn_model.specs.Table.{followed};
ghost use Rattle.net_engine.specs.Version.{Atom, first_of, past_of};
ghost use Rattle.net_engine.specs.Looks.{atoms_met};
ghost use Rattle.net_engine.specs.Net.{first_atom};
ghost use Rattle.net_engine.specs.Paired.{rows_with};
ghost use Rattle.net_engine.specs.Seen.{IsPaired, net_in};
ghost use Rattle.net_engine.specs.Walked.{AreUpdated, UpdatesAt};
ghost use Rattle.target_rows.specs.Over.{MarksOver};

use crate::ends::cut_if_new;
use crate::kept_rows::KeptRows;
use crate::relabel::{Aim, reroute};
use crate::router_tables::RouterTables;
use crate::update::Update;
use atom_map::Bounds;
use delta_graph::Delta;
use dn_model::{LinkId, OutOfMemory, RouterId, Run, Target, Way};
use std::alloc::Global;
use std::mem;
use std::sync::ledger::Ledger;
use step_count::Steps;
use target_rows::TargetRows;

/// The atoms of a network, with what each router does there, which stands in the order of the atoms, and each router's
/// routes, by prefix: they say which rules it has at an atom. A contract sees the fields, so that an update that finds no
/// memory half way may leave them as they are then.
#[derive(Drop)]
pub struct Net {
    routers: u32,
    atoms: Bounds,
    labels: TargetRows,
    tables: RouterTables,
    /// The runs of an update, in the memory of those of the one before.
    runs: Vec<Run>,
    /// A delta that is done with, in whose memory the next update tells.
    pub spare: Delta,
    /// The place of the first atom that the last update looked at.
    near: u64,
}

impl Net {
    /// One atom of all addresses, for which none of so many routers has a rule.
    pub fn new(alloc: Global, routers: u32) -> Result<Net, OutOfMemory>
        ensures routers { IfOk result (λ net. net.routers ≡ routers) }
        ensures atoms { IfOk result (λ net. (net_in net).atoms ≡ first_atom routers ∷ []) }
        ensures paired { IfOk result IsPaired }
        ensures tables { IfOk result (λ net. net.tables ≡ replicate routers []) }
    {
        let atoms = Bounds::new(alloc)?;
        let labels = TargetRows::new(alloc, routers)?;
        let tables = RouterTables::new(alloc, routers)?;
        Ok(Net {
            routers,
            atoms,
            labels,
            tables,
            runs: Vec::new(alloc),
            spare: Delta::new(alloc),
            near: 0,
        })
    }

    /// Makes an update of a router, and tells where it does something else than before. Where it puts a route, atoms begin
    /// at the ends of its prefix then: they are cut there where the router and its neighbours had no route of the
    /// prefix, and else begin there already. It fails for want of memory alone, and then nothing is said of it.
    pub fn update<L: Ledger>(
        &mut self,
        alloc: Global,
        update: &Update,
        steps: &mut Steps<L>,
    ) -> Result<Delta, OutOfMemory>
        requires paired { IsPaired self.old }
        requires router { update.now.router.0 < self.old.routers }
        ensures routers { OnOk result (self.new.routers ≡ self.old.routers) }
        ensures paired { OnOk result (IsPaired self.new) }
        ensures tables { OnOk result (UpdatesAt update.now self.old.tables self.new.tables) }
        ensures told { IfOk result (AreUpdated (net_in self.old).atoms (net_in self.new).atoms update.now.table.op) }
        ensures cost { steps.new ≤
            steps.old + 2 + atoms_met (net_in self.old).atoms (prefix_of_op update.now.table.op) }
    {
        let told = self.tables.update(alloc, update, &mut self.runs, steps)?;
        let prefix = update.table.op.prefix();
        let near = cut_if_new(
            alloc,
            &mut self.atoms,
            &mut self.labels,
            told.is_new,
            prefix,
        )?;
        let spare = mem::replace(&mut self.spare, Delta::new(alloc));
        let Some(way) = told.after else {
            return Ok(spare.emptied());
        };
        let after = done_by(way);
        let aim = Aim {
            router: update.router,
            after,
            near,
        };
        let moved = reroute(alloc, &self.atoms, &mut self.labels, &self.runs, aim, spare)?;
        self.near = moved.place;
        Ok(moved.delta)
    }

    /// Takes a delta back, in whose memory the next update tells.
    pub fn take_back(&mut self, delta: Delta)
        ensures { self.new ≡ record self.old { spare = delta } }
    {
        self.spare = delta;
    }

    /// A place near the first atom that the last update looked at.
    pub fn near(&self) -> u64 {
        self.near
    }

    /// The same atoms again.
    pub fn copy(&self, alloc: Global) -> Result<Net, OutOfMemory>
        ensures value { IfOk result (λ net. net_in net ≡ net_in self.now) }
        ensures paired { IfOk result (λ net. IsPaired self.now → IsPaired net) }
        ensures tables { IfOk result (λ net. net.tables ≡ self.now.tables) }
    {
        let atoms = self.atoms.copy()?;
        let labels = self.labels.copy()?;
        let tables = self.tables.copy(alloc)?;
        Ok(Net {
            routers: self.routers,
            atoms,
            labels,
            tables,
            runs: Vec::new(alloc),
            spare: Delta::new(alloc),
            near: 0,
        })
    }

    /// The rows of its atoms, with what each router does there, which share all with it.
    pub fn kept_rows(&self) -> Result<KeptRows, OutOfMemory>
        requires paired { IsPaired self.now }
        requires form { AreForwarding self.now.routers (rows_with self.now.atoms self.now.labels.rows) }
        ensures routers { IfOk result (λ kept. kept.routers ≡ self.now.routers) }
        ensures rows { IfOk result (λ kept. kept.rows ≡ rows_with self.now.atoms self.now.labels.rows) }
    {
        let atoms = self.atoms.copy()?;
        let labels = self.labels.copy()?;
        Ok(KeptRows::of(self.routers, atoms, labels))
    }

    /// A mark for each router that may go on over a link at an atom.
    pub fn routers_over(&self, alloc: Global, link: LinkId) -> Result<Vec<bool>, OutOfMemory>
        ensures { IfOk result (λ marks. MarksOver self.now.labels link marks.items) }
    {
        let marks = self.labels.routers_over(alloc, link)?;
        Ok(marks)
    }

    /// How many routers there are.
    pub fn routers(&self) -> u32
        ensures { result ≡ self.now.routers }
    {
        self.routers
    }

    /// How many atoms there are.
    pub fn count(&self) -> u64
        ensures { result ≡ length (net_in self.now).atoms }
    {
        self.atoms.count()
    }

    /// The place of the atom that has an address: how many atoms go before it.
    pub fn place_of(&self, a: u32) -> u64
        ensures inside { result < length (net_in self.now).atoms }
        ensures from { (d : Atom) → first_of (slice_index_or (net_in self.now).atoms result d) ≤ a }
        ensures to { (d : Atom) → a < past_of (slice_index_or (net_in self.now).atoms result d) }
    {
        self.atoms.place_of(a)
    }

    /// The bounds of the atom at a place: its first address, and the one after its last, which is at most 2^32.
    pub fn bounds(&self, i: u64) -> (u64, u64)
        requires { i < length (net_in self.now).atoms }
        ensures low { (d : Atom) → result.0 ≡ first_of (slice_index_or (net_in self.now).atoms i d) }
        ensures past { (d : Atom) → result.1 ≡ past_of (slice_index_or (net_in self.now).atoms i d) }
    {
        self.atoms.bounds(i)
    }

    /// What a router does with the addresses of the atom at a place. The atom itself is not looked at.
    pub fn target(&self, r: RouterId, i: u64) -> Target
        requires paired { IsPaired self.now }
        requires router { r.0 < self.now.routers }
        requires place { i < length (net_in self.now).atoms }
        ensures { (d : Atom) → result ≡ target_of (slice_index_or (net_in self.now).atoms i d).row r }
    {
        self.labels.target(r, i)
    }

    /// What each router does with the addresses of the atom at a place, by router, put into `out`.
    pub fn row(&self, i: u64, out: &mut [Target])
        requires paired { IsPaired self.now }
        requires place { i < length (net_in self.now).atoms }
        requires wide { length out.old ≡ self.now.routers }
        ensures { (d : Atom) → out.new ≡ (slice_index_or (net_in self.now).atoms i d).row.targets }
    {
        self.labels.row(i, out);
    }
}

/// What a way comes to where there is no next-hop object: one by an object leads nowhere.
fn done_by(way: Way) -> Target
    ensures { result ≡ followed [] way }
{
    match way {
        Way::Straight(target) => target,
        Way::By(_) => Target::NoRoute,
    }
}
