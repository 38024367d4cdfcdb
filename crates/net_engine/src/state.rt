//! What a version keeps.

ghost use Rattle.std.specs.Prelude.{◌≡◌, ◌+◌, ◌≤◌, [], IfOk, OnOk, length};
ghost use Rattle.std.specs.Arc.{arc_value};
ghost use Rattle.dn_model.specs.Entry.{IsEntryOf};
ghost use Rattle.dn_model.specs.Table.{prefix_of_op};
ghost use Rattle.net_engine.specs.Followed.{IsFollowed};
ghost use Rattle.net_engine.specs.LinkSet.{AreAlikeBut};
ghost use Rattle.net_engine.specs.Updates.{IsOwnUpdate};
ghost use Rattle.net_engine.specs.Version.{KeptStandsFor};
ghost use Rattle.net_engine.specs.Looks.{IsWithinSteps, atoms_met};
ghost use Rattle.net_engine.specs.Seen.{IsSound, kept_in};
ghost use Rattle.net_engine.specs.Walked.{AreTold, IsAdvanced, IsLinkTurned, IsUpdated, with_links};

use crate::link_set::LinkSet;
use crate::link_turn::{Turn, turn_changes};
use crate::net::Net;
use crate::told::shown_changes;
use crate::update::{Update, update_of};
use delta_graph::Delta;
use dn_model::{Entry, LinkId, OutOfMemory, Topology};
use std::alloc::Global;
use std::mem;
use std::sync::Arc;
use std::sync::ledger::Ledger;
use step_count::Steps;

/// What a version keeps: the topology, the atoms, with what each router does there while all links are up, each router's
/// routes, and the links that are down. A contract sees the fields, so that an entry that finds no memory half way may
/// leave them as they are then.
#[derive(Drop)]
pub struct State {
    topology: Arc<Topology, Global>,
    pub net: Net,
    pub down: LinkSet,
}

impl State {
    /// What is kept of a network before any entry: no router has a route, and no link is down.
    pub fn empty(alloc: Global, t: Arc<Topology, Global>) -> Result<State, OutOfMemory>
        ensures topology { IfOk result (λ state. (kept_in state).topology ≡ arc_value t) }
        ensures stands { IfOk result (λ state. KeptStandsFor (kept_in state) []) }
        ensures sound { IfOk result IsSound }
    {
        let routers = t.router_count();
        let net = Net::new(alloc, routers)?;
        let down = LinkSet::new(alloc)?;
        Ok(State {
            topology: t,
            net,
            down,
        })
    }

    /// Makes an update of one of the routers. Where it puts a route, atoms begin at the ends of its prefix then.
    fn update<L: Ledger>(
        &mut self,
        alloc: Global,
        update: &Update,
        steps: &mut Steps<L>,
    ) -> Result<Delta, OutOfMemory>
        requires sound { IsSound self.old }
        requires own { IsOwnUpdate (kept_in self.old).topology update.now }
        ensures made { IfOk result (λ delta. IsUpdated (kept_in self.old) (kept_in self.new) update.now delta) }
        ensures sound { OnOk result (IsSound self.new) }
        ensures cost { steps.new ≤
            steps.old + 2 + atoms_met (kept_in self.old).atoms (prefix_of_op update.now.table.op) }
    {
        let told = self.net.update(alloc, update, steps)?;
        let delta = shown_changes(alloc, told, &self.down)?;
        Ok(delta)
    }

    /// What is shown otherwise once these links are down, which are those that are but for this one. It is told in the
    /// memory of changes that are done with.
    fn changes_to<L: Ledger>(
        &self,
        alloc: Global,
        link: LinkId,
        after: &LinkSet,
        told: Delta,
        steps: &mut Steps<L>,
    ) -> Result<Delta, OutOfMemory>
        requires sound { IsSound self.now }
        requires none { told ≡ [] }
        requires alike { AreAlikeBut self.now.down after.now link }
        ensures changes { IfOk result (AreTold (kept_in self.now) (with_links (kept_in self.now) after.now)) }
        ensures cost { steps.new ≤ steps.old + length (kept_in self.now).atoms }
    {
        let rows = self.net.kept_rows()?;
        let marks = self.net.routers_over(alloc, link)?;
        let turn = Turn {
            before: &self.down,
            after,
            link,
        };
        turn_changes(&rows, &marks, &turn, told, steps)
    }

    /// A link goes down or comes up. Where it is so already nothing changes.
    fn turn_link<L: Ledger>(
        &mut self,
        alloc: Global,
        link: LinkId,
        down: bool,
        steps: &mut Steps<L>,
    ) -> Result<Delta, OutOfMemory>
        requires sound { IsSound self.old }
        ensures made { IfOk result (λ delta. IsLinkTurned (kept_in self.old) (kept_in self.new) link down delta) }
        ensures sound { OnOk result (IsSound self.new) }
        ensures cost { steps.new ≤ steps.old + length (kept_in self.old).atoms }
    {
        if self.down.has(link) == down {
            return Ok(Delta::new(alloc));
        }
        let after = self.down.with(alloc, link, down)?;
        let spare = mem::replace(&mut self.net.spare, Delta::new(alloc));
        let delta = self.changes_to(alloc, link, &after, spare.emptied(), steps)?;
        self.down = after;
        Ok(delta)
    }

    /// Makes the next entry of the history, and tells where that changes what routers do. It fails for want of memory
    /// alone, and then nothing is said of it.
    pub fn advance<L: Ledger>(
        &mut self,
        alloc: Global,
        entry: &Entry,
        steps: &mut Steps<L>,
    ) -> Result<Delta, OutOfMemory>
        requires sound { IsSound self.old }
        requires entry { IsEntryOf (kept_in self.old).topology entry.now }
        requires followed { IsFollowed entry.now }
        ensures made { IfOk result (IsAdvanced (kept_in self.old) (kept_in self.new) entry.now) }
        ensures sound { OnOk result (IsSound self.new) }
        ensures cost { IsWithinSteps (kept_in self.old).atoms entry.now steps.old steps.new }
    {
        match *entry {
            Entry::Route { router, op, .. } => {
                let update = update_of(&self.topology, router, op);
                self.update(alloc, &update, steps)
            }
            Entry::Link { link, down, .. } => self.turn_link(alloc, link, down, steps),
        }
    }

    /// The same again.
    pub fn copy(&self, alloc: Global) -> Result<State, OutOfMemory>
        requires { IsSound self.now }
        ensures value { IfOk result (λ state. kept_in state ≡ kept_in self.now) }
        ensures sound { IfOk result IsSound }
    {
        let topology = Arc::try_clone(&self.topology)?;
        let net = self.net.copy(alloc)?;
        let down = self.down.copy()?;
        Ok(State {
            topology,
            net,
            down,
        })
    }
}
