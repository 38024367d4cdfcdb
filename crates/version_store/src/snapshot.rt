//! A snapshot of a history.

ghost use Rattle.std.specs.Prelude.{◌≡◌, ◌+◌, ◌*◌, ◌<◌, ◌≤◌, ◌^◌, [], IfOk, IfErr, None, OnOk, length};
ghost use Rattle.std.specs.Arc.{arc_value};
ghost use Rattle.dn_model.specs.Answer.{IsAnswer};
ghost use Rattle.dn_model.specs.LastDelta.{IsDeltaOf};
ghost use Rattle.dn_model.specs.Entry.{entries};
ghost use Rattle.dn_model.specs.Query.{unknown_of};
ghost use Rattle.net_engine.specs.Version.{Kept, KeptStandsFor, forwarding_of};
ghost use Rattle.dn_model.specs.declared.query.Ask.TheVariants.{Loops};
ghost use Rattle.row_answers.specs.Looks.{most_looks};
ghost use Rattle.version_store.specs.Asked.{IsAskRefusal};
ghost use Rattle.version_store.specs.Kept.{IsPictureOf};
ghost use Rattle.version_store.specs.Prefixes.{most_rows, prefixes_set};

use crate::asking::{AskRefused, refusal_of};
use crate::history::History;
use crate::picture::Picture;
use delta_graph::Delta;
use dn_model::{Answer, OutOfMemory, Query, Topology};
use std::alloc::Global;
use std::marker::Model;
use std::snapshot;
use std::sync::Arc;
use std::sync::ledger::Ledger;
use std::thread::Threads;
use step_count::Steps;

/// A history as contracts see it. It has no bytes, and stands behind a count so that a copy of a snapshot has the same.
pub(crate) type Seen = snapshot::Snapshot<History>;

/// A snapshot of a network's history: it answers queries over the history as it was, whatever came later. A contract
/// sees the network and that history.
///
/// It keeps how many entries the history had, what all routers did with all addresses after it, the loops of the network
/// then and the changes that its last entry made; no entries and no routes, which no query reads. It shares what it keeps
/// with the store that it was taken of, as far as nothing was posted there since, and with other snapshots.
#[derive(Drop)]
pub struct Snapshot {
    topology: Arc<Topology, Global>,
    history: Arc<Seen, Global>,
    number: u32,
    picture: Picture,
    changes: Arc<Delta, Global>,
}

impl Model for Snapshot {
    ghost use Rattle.std.specs.Arc.{arc_value};
    ghost use Rattle.version_store.specs.Kept.{IsPastOf, Past};

    ghost Value = { Past };

    ghost view = { λ s. record { topology = arc_value s.topology; history = (arc_value s.history).value } };

    ghost invariant = { λ s. IsPastOf (arc_value s.topology) (arc_value s.history).value s.number s.picture
        (arc_value s.changes) };
}

impl Snapshot {
    /// The snapshot of a history, by its picture and the changes that its last entry made.
    pub(crate) fn of(
        topology: Arc<Topology, Global>,
        history: Arc<Seen, Global>,
        number: u32,
        picture: Picture,
        changes: Arc<Delta, Global>,
    ) -> Snapshot
        requires number { number ≡ length (arc_value history).value }
        requires picture { IsPictureOf (arc_value topology) (entries (arc_value history).value) picture }
        requires changes { IsDeltaOf (arc_value topology) (entries (arc_value history).value) (arc_value changes) }
        ensures topology { result.topology ≡ arc_value topology }
        ensures history { result.history ≡ (arc_value history).value }
    {
        Snapshot {
            topology,
            history,
            number,
            picture,
            changes,
        }
    }

    /// The same again, which shares all that this one keeps. It fails for want of memory alone.
    pub(crate) fn again(&self) -> Result<Snapshot, OutOfMemory>
        ensures { IfOk result (λ snapshot. snapshot ≡ self.now) }
    {
        let topology = Arc::try_clone(&self.topology)?;
        let history = Arc::try_clone(&self.history)?;
        let picture = self.picture.copy()?;
        let changes = Arc::try_clone(&self.changes)?;
        Ok(Snapshot::of(topology, history, self.number, picture, changes))
    }

    /// How many entries the history had.
    pub fn number(&self) -> u32
        ensures { result ≡ length self.now.history }
    {
        self.number
    }

    /// How many rows, which are atoms, the version of the history has: as many as any version that stands for it, which
    /// are at most two for each different prefix that it ever set, and one more. It takes no memory.
    pub fn atoms(&self) -> u64
        ensures rows { (version : Kept) → KeptStandsFor version (entries self.now.history)
            → result ≡ length (forwarding_of version) }
        ensures few { result ≤ most_rows (entries self.now.history) }
    {
        self.picture.atoms()
    }

    /// The answer to a query over the history. It waits for nobody. A name that the topology doesn't have is told
    /// exactly where there is one, and then the first, left to right; no memory is taken for that.
    ///
    /// A step is a look at what one router does with the addresses of one row. `loops` with no link taken as down is
    /// told from what is kept, and takes none. Of anything else rows are looked at, of which there are at most two for
    /// each different prefix that the history ever set, and one more: for a path at most as often as there are routers,
    /// for the changes of an update not at all, and for all else at most once for each router in each row.
    pub fn answer<L: Ledger>(
        &self,
        alloc: Global,
        query: &Query,
        steps: &mut Steps<L>,
    ) -> Result<Answer, AskRefused>
        ensures answer { IfOk result (IsAnswer self.now.topology (entries self.now.history) query.now) }
        ensures known { OnOk result (unknown_of self.now.topology query.now ≡ None) }
        ensures refused { IfErr result (IsAskRefusal (unknown_of self.now.topology query.now)) }
        ensures kept { query.now.ask ≡ Loops → query.now.without ≡ [] → steps.new ≡ steps.old }
        ensures looks { steps.new ≤ steps.old + most_looks query.now.ask (most_rows (entries self.now.history))
            (length self.now.topology.routers) }
        ensures cost { steps.new ≤ steps.old + (2 * prefixes_set (entries self.now.history) + 1)
            * length self.now.topology.routers }
    {
        self.check_names(query)?;
        let changes = self.changes.changes();
        match self
            .picture
            .answer(alloc, &self.topology, changes, query, steps)
        {
            Ok(answer) => Ok(answer),
            Err(OutOfMemory) => Err(AskRefused::OutOfMemory),
        }
    }

    /// The same answers and refusals, by as many threads as there are processors for `reach` and `blackholes`, and for
    /// `loops` where a link is taken as down; all else is done as `answer` does it. Where no thread can be made, the
    /// caller's own does the work. It waits for no other caller, and doesn't count its steps.
    pub fn answer_wide(
        &self,
        rt: &(impl Threads + Sync),
        alloc: Global,
        query: &Query,
    ) -> Result<Answer, AskRefused>
        ensures answer { IfOk result (IsAnswer self.now.topology (entries self.now.history) query.now) }
        ensures known { OnOk result (unknown_of self.now.topology query.now ≡ None) }
        ensures refused { IfErr result (IsAskRefusal (unknown_of self.now.topology query.now)) }
    {
        self.check_names(query)?;
        let changes = self.changes.changes();
        match self
            .picture
            .answer_wide(rt, alloc, &self.topology, changes, query)
        {
            Ok(answer) => Ok(answer),
            Err(OutOfMemory) => Err(AskRefused::OutOfMemory),
        }
    }

    /// Refuses a query with a name that the topology doesn't have, by the first one, left to right.
    fn check_names(&self, query: &Query) -> Result<(), AskRefused>
        ensures known { OnOk result (unknown_of self.now.topology query.now ≡ None) }
        ensures refused { IfErr result (IsAskRefusal (unknown_of self.now.topology query.now)) }
    {
        if let Some(unknown) = query.unknown(&self.topology) {
            return Err(refusal_of(unknown));
        }
        Ok(())
    }
}
