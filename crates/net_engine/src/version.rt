//! A version of a network.

ghost use Rattle.std.specs.Prelude.{◌≡◌, ◌+◌, ◌≤◌, ◌++◌, ◌∷◌, [], List, IfOk, IfSome, length};
ghost use Rattle.std.specs.Arc.{arc_value};
ghost use Rattle.dn_model.specs.LastDelta.{IsDeltaOf};
ghost use Rattle.dn_model.specs.Entry.{IsEntryOf};
ghost use Rattle.net_engine.specs.Followed.{IsFollowed};
ghost use Rattle.net_engine.specs.Version.{KeptStandsFor, forwarding_of};
ghost use Rattle.dn_model.specs.declared.entry.Entry.{Entry as EntryIs};
ghost use Rattle.net_engine.specs.Looks.{IsWithinSteps, atoms_added, atoms_met, prefix_of_entry};

use crate::shown::Shown;
use crate::state::State;
use delta_graph::Delta;
use dn_model::{Entry, OutOfMemory, RouterId, Target, Topology};
use label_view::LabelView;
use std::alloc::Global;
use std::marker::Model;
use std::sync::Arc;
use std::sync::ledger::Ledger;
use step_count::Steps;

/// What all routers do with all addresses after a history of entries: atoms, which are the intervals of addresses
/// between the ends of the prefixes that were set, with what each router does there while all links are up, each router's
/// routes, which say what rules it has there (Delta-net, NSDI 2017), and the links that are down, which are put over what
/// is read of the atoms: an entry of a link writes one flag. A contract sees the topology, the atoms in order, the routes
/// and the links that are down.
///
/// It is one pointer, so that whoever keeps a version hands it on cheaply.
#[derive(Drop)]
pub struct Version {
    state: Box<State, Global>,
}

impl Model for Version {
    ghost use Rattle.net_engine.specs.Version.{Kept};
    ghost use Rattle.net_engine.specs.Seen.{IsSound, kept_in};

    ghost Value = { Kept };

    ghost view = { λ v. kept_in v.state.value };

    ghost invariant = { λ v. IsSound v.state.value };
}

impl Version {
    /// The version of a network before any entry: no router has a route, and no link is down.
    pub fn empty(alloc: Global, t: Arc<Topology, Global>) -> Result<Version, OutOfMemory>
        ensures topology { IfOk result (λ version. version.topology ≡ arc_value t) }
        ensures stands { IfOk result (λ version. KeptStandsFor version []) }
    {
        let state = State::empty(alloc, t)?;
        let state = Box::new(alloc, state)?;
        Ok(Version { state })
    }

    /// The version after one more entry, and where that changes what routers do, with the links that are down then. It
    /// takes the version and changes it in place; at `OutOfMemory`, for which alone it fails, it is dropped.
    ///
    /// A step of an update of routes is a look at one set of rules: the routes that the router has of one prefix, or what it
    /// does above a prefix that has none any more. It takes at most two more than there are atoms that have an address of the
    /// prefix, of which there are as many after the update as before it. Searches, prefixes that are passed over since the
    /// router has no route of them, as where its neighbours have one or it had one, or since they lie within one that was
    /// looked at, and what is read and written at the atoms take no step. A setting adds an atom for each end of the prefix at
    /// which none begins yet, and a clearing adds none.
    ///
    /// A link that goes down or comes up adds no atom. Where it is so already nothing changes, and no step is taken; else
    /// an atom takes a step, at which the routers that may go on over the link are looked at.
    pub fn advance<L: Ledger>(
        self,
        alloc: Global,
        entry: &Entry,
        steps: &mut Steps<L>,
    ) -> Result<(Version, Delta), OutOfMemory>
        requires entry { IsEntryOf self.topology entry.now }
        requires followed { IsFollowed entry.now }
        ensures topology { IfOk result (λ made. made.0.topology ≡ self.topology) }
        ensures stands { IfOk result (λ made. (history : List EntryIs) → KeptStandsFor self history
            → KeptStandsFor made.0 (history ++ entry.now ∷ [])) }
        ensures delta { IfOk result (λ made. (history : List EntryIs) → KeptStandsFor self history
            → IsDeltaOf self.topology (history ++ entry.now ∷ []) made.1) }
        ensures added { IfOk result (λ made.
            length made.0.atoms ≡ length self.atoms + atoms_added self.atoms entry.now) }
        ensures met { IfOk result (λ made. IfSome (prefix_of_entry entry.now) (λ p.
            atoms_met made.0.atoms p ≡ atoms_met self.atoms p)) }
        ensures cost { IsWithinSteps self.atoms entry.now steps.old steps.new }
    {
        let Version { mut state } = self;
        let delta = state.advance(alloc, entry, steps)?;
        Ok((Version { state }, delta))
    }

    /// The version after one more entry, and where that changes what routers do. This version stands as it is. The two
    /// share what the entry doesn't change. Its steps are those of `advance`.
    pub fn apply<L: Ledger>(
        &self,
        alloc: Global,
        entry: &Entry,
        steps: &mut Steps<L>,
    ) -> Result<(Version, Delta), OutOfMemory>
        requires entry { IsEntryOf self.now.topology entry.now }
        requires followed { IsFollowed entry.now }
        ensures topology { IfOk result (λ made. made.0.topology ≡ self.now.topology) }
        ensures stands { IfOk result (λ made. (history : List EntryIs) → KeptStandsFor self.now history
            → KeptStandsFor made.0 (history ++ entry.now ∷ [])) }
        ensures delta { IfOk result (λ made. (history : List EntryIs) → KeptStandsFor self.now history
            → IsDeltaOf self.now.topology (history ++ entry.now ∷ []) made.1) }
        ensures added { IfOk result (λ made.
            length made.0.atoms ≡ length self.now.atoms + atoms_added self.now.atoms entry.now) }
        ensures met { IfOk result (λ made. IfSome (prefix_of_entry entry.now) (λ p.
            atoms_met made.0.atoms p ≡ atoms_met self.now.atoms p)) }
        ensures cost { IsWithinSteps self.now.atoms entry.now steps.old steps.new }
    {
        self.copy(alloc)?.advance(alloc, entry, steps)
    }

    /// Takes a delta back that `advance` gave, in whose memory a next update tells. The version is as before.
    pub fn take_back(&mut self, delta: Delta)
        ensures { self.new ≡ self.old }
    {
        self.state.net.take_back(delta);
    }

    /// A place near the row at which the last update of routes began: whoever looks at what it changed looks there first. No
    /// clause says what it is, since any place does.
    pub fn near(&self) -> u64 {
        self.state.net.near()
    }

    /// What queries read of it, which shares all with it. It fails for want of memory alone.
    pub fn shown(&self) -> Result<Shown, OutOfMemory>
        ensures routers { IfOk result (λ shown. shown.routers ≡ length self.now.topology.routers) }
        ensures rows { IfOk result (λ shown. shown.rows ≡ forwarding_of self.now) }
    {
        let kept = self.state.net.kept_rows()?;
        let down = self.state.down.copy()?;
        Ok(Shown::of(kept, down))
    }

    /// The same version again.
    pub fn copy(&self, alloc: Global) -> Result<Version, OutOfMemory>
        ensures { IfOk result (λ version. version ≡ self.now) }
    {
        let state = self.state.copy(alloc)?;
        let state = Box::new(alloc, state)?;
        Ok(Version { state })
    }
}

impl LabelView for Version {
    ghost width = { λ v. length v.topology.routers };

    ghost rows = { λ v. forwarding_of v };

    fn routers(&self) -> u32 {
        self.state.net.routers()
    }

    fn atoms(&self) -> u64 {
        self.state.net.count()
    }

    fn bounds(&self, i: u64) -> (u64, u64) {
        self.state.net.bounds(i)
    }

    fn atom_of(&self, a: u32) -> u64 {
        self.state.net.place_of(a)
    }

    fn target(&self, r: RouterId, i: u64) -> Target {
        self.state.down.shown(self.state.net.target(r, i))
    }

    fn column(&self, r: RouterId, i: u64, out: &mut [Target]) -> usize {
        out[0] = self.target(r, i);
        1
    }

    fn row(&self, i: u64, out: &mut [Target]) {
        self.state.net.row(i, out);
        self.state.down.put_over(out);
    }
}
