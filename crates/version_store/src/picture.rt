//! What queries read of what stands after a history.

ghost use Rattle.std.specs.Prelude.{◌≡◌, ◌+◌, ◌≤◌, [], List, IfOk, IsFalse, IsTrue, None, length};
ghost use Rattle.dn_model.specs.Answer.{IsAnswer};
ghost use Rattle.dn_model.specs.Query.{Question, unknown_of};
ghost use Rattle.dn_model.specs.declared.entry.Entry.{Entry as EntryIs};
ghost use Rattle.dn_model.specs.declared.query.Ask.TheVariants.{Loops};
ghost use Rattle.dn_model.specs.declared.topology.Topology.{Topology as TopologyIs};
ghost use Rattle.row_answers.specs.Looks.{most_looks};
ghost use Rattle.row_answers.specs.Shown.{AreToldIf};
ghost use Rattle.version_store.specs.Kept.{IsPictureOf};

use dn_model::{Answer, Ask, Change, OutOfMemory, Query, Topology};
use label_view::LabelView;
use loop_keeper::KeptLoops;
use net_engine::Shown;
use std::alloc::Global;
use std::sync::ledger::Ledger;
use std::thread::Threads;
use step_count::Steps;

/// What all routers do with all addresses after a history, and the loops of the network then. The routes that say why are
/// not in it.
#[derive(Drop)]
pub(crate) struct Picture {
    pub(crate) rows: Shown,
    pub(crate) loops: KeptLoops,
}

/// Whether the loops of the network are asked for, with no link taken as down.
fn asks_for_loops(query: &Query) -> bool
    ensures ask { IsTrue result → query.now.ask ≡ Loops }
    ensures none { IsTrue result → query.now.without ≡ [] }
    ensures other { IsFalse result → query.now.ask ≡ Loops → query.now.without ≡ [] → ⊥ }
{
    match query.ask() {
        Ask::Loops => query.without().is_empty(),
        _ => false,
    }
}

impl Picture {
    /// The same again. It fails for want of memory alone.
    pub(crate) fn copy(&self) -> Result<Picture, OutOfMemory>
        ensures { IfOk result (λ picture. picture ≡ self.now) }
    {
        let rows = self.rows.copy()?;
        let loops = self.loops.copy()?;
        Ok(Picture { rows, loops })
    }

    /// The answer to a query whose names the topology has, by the picture of a history, of which the changes that
    /// its last entry made are given. `loops` without `without` is told from what is kept, and no row is looked at.
    pub(crate) fn answer<L: Ledger>(
        &self,
        alloc: Global,
        topology: &Topology,
        changes: &[Change],
        query: &Query,
        steps: &mut Steps<L>,
    ) -> Result<Answer, OutOfMemory>
        requires known { unknown_of topology.now query.now ≡ None }
        requires wide { self.now.rows.routers ≡ length topology.now.routers }
        ensures answer { IfOk result (λ answer. (history : List EntryIs) → IsPictureOf topology.now history self.now →
            AreToldIf topology.now history changes.now query.now.ask →
            IsAnswer topology.now history query.now answer) }
        ensures kept { query.now.ask ≡ Loops → query.now.without ≡ [] → steps.new ≡ steps.old }
        ensures looks { steps.new ≤ steps.old + most_looks query.now.ask (length self.now.rows.rows)
            self.now.rows.routers }
    {
        if asks_for_loops(query) {
            return self.kept_loops(alloc);
        }
        row_answers::answer(alloc, topology, &self.rows, changes, query, steps)
    }

    /// The same answer, by as many threads as there are processors where many rows are looked at.
    pub(crate) fn answer_wide(
        &self,
        rt: &(impl Threads + Sync),
        alloc: Global,
        topology: &Topology,
        changes: &[Change],
        query: &Query,
    ) -> Result<Answer, OutOfMemory>
        requires known { unknown_of topology.now query.now ≡ None }
        requires wide { self.now.rows.routers ≡ length topology.now.routers }
        ensures { IfOk result (λ answer. (history : List EntryIs) → IsPictureOf topology.now history self.now →
            AreToldIf topology.now history changes.now query.now.ask →
            IsAnswer topology.now history query.now answer) }
    {
        if asks_for_loops(query) {
            return self.kept_loops(alloc);
        }
        row_answers::answer_wide(rt, alloc, topology, &self.rows, changes, query)
    }

    /// The answer to `loops` without `without`: it is told from what is kept, and no row is looked at.
    fn kept_loops(&self, alloc: Global) -> Result<Answer, OutOfMemory>
        ensures { IfOk result (λ answer. (t : TopologyIs) → (history : List EntryIs) → (q : Question) → q.ask ≡ Loops →
            q.without ≡ [] → IsPictureOf t history self.now → IsAnswer t history q answer) }
    {
        let cycles = self.loops.answer(alloc)?;
        Ok(Answer::Loops(cycles))
    }

    /// How many rows it has. It takes no memory.
    pub(crate) fn atoms(&self) -> u64
        ensures { result ≡ length self.now.rows.rows }
    {
        self.rows.atoms()
    }
}
