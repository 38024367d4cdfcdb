//! The cycles of a network, kept from update to update.

ghost use Rattle.std.specs.Prelude.{◌≡◌, ℕ, ◌+◌, ◌*◌, ◌≤◌, [], OnOk, IfOk};
ghost use Rattle.base.specs.Cycles.{AreCycles};
ghost use Rattle.base.specs.Delta.{AreChanges, IsDelta};
ghost use Rattle.base.specs.Forwarding.{does};
ghost use Rattle.base.specs.declared.ids.RouterId.{RouterId as Router};
ghost use Rattle.base.specs.declared.target.Target.{Target as TargetIs};
ghost use Rattle.loop_keeper.specs.Edits.{AreEdited};
ghost use Rattle.loop_keeper.specs.Finding.{AllInside};
ghost use Rattle.loop_keeper.specs.Kept.{AreKept, AreSegments, IsLoopFree};
ghost use Rattle.loop_keeper.specs.Looks.{rows_met};

use crate::answer::cycles_of;
use crate::changed::find_all;
use crate::editing::{are_met, put_all_in, take_all_out};
use crate::finding::Search;
use crate::found::Found;
use crate::segment::Segment;
use base::{Change, Cycle, List, OutOfMemory, RouterId};
use delta_graph::Delta;
use label_view::LabelView;
use std::alloc::Global;
use std::marker::Model;
use std::sync::ledger::Ledger;
use step_count::Steps;
use version_pages::Pages;

/// The cycles of a network, by segments of addresses. A contract sees the list of them.
///
/// A copy is one count. A change works in place where nobody else holds a page of segments, and copies the pages on its
/// way where somebody does: what a copy holds stays. Where an update finds no cycle, and changes no router of a kept one,
/// nothing is copied. A segment without a cycle stands only behind one with some, so that where no address loops any more
/// there is none.
#[derive(Drop)]
pub struct KeptLoops {
    segments: Pages<Segment>,
    /// The memory in which the last update followed ways.
    path: Option<Vec<RouterId>>,
}

impl Model for KeptLoops {
    ghost use Rattle.std.specs.Prelude.{List};
    ghost use Rattle.std.specs.Coded.{coded_list};
    ghost use Rattle.loop_keeper.specs.Kept.{Kept, kept_code};

    ghost Value = { List Kept };

    ghost coded = { coded_list kept_code };

    ghost view = { λ k. k.segments };
}

/// The memory of a path, if there is one, or none yet.
fn path_in(alloc: Global, held: Option<Vec<RouterId>>) -> Vec<RouterId> {
    match held {
        Some(path) => path,
        None => Vec::new(alloc),
    }
}

impl KeptLoops {
    /// Of a network in which no address goes round, as of one without routes. It takes no memory.
    pub fn empty() -> KeptLoops
        ensures none { result ≡ [] }
        ensures kept { (does_so : Router → ℕ → TargetIs) → IsLoopFree does_so → AreKept does_so result }
    {
        KeptLoops {
            segments: Pages::new(),
            path: None,
        }
    }

    /// The same again, which shares all with this one. It fails for want of memory alone.
    pub fn copy(&self) -> Result<KeptLoops, OutOfMemory>
        ensures { IfOk result (λ loops. loops ≡ self.now) }
    {
        let segments = self.segments.copy()?;
        Ok(KeptLoops {
            segments,
            path: None,
        })
    }

    /// Takes the runs of changes out, and puts in what was found.
    fn change(
        &mut self,
        alloc: Global,
        changes: &[Change],
        found: Vec<Found>,
    ) -> Result<(), OutOfMemory>
        requires changes { AreChanges changes.now }
        requires found { AllInside found.items }
        ensures { OnOk result (AreSegments self.old → AreEdited changes.now found.items self.old self.new) }
    {
        take_all_out(alloc, &mut self.segments, changes)?;
        put_all_in(alloc, &mut self.segments, found)
    }

    /// Keeps the loops of a network through an update, from what it did before it to what the rows of the view say,
    /// where `delta` is what changed. It works in place, and follows only rows that meet a run of the delta, each
    /// once: from the router of the change from hop to hop, or at all routers where runs of several meet. Where changes of
    /// one router lie close together, what the router that they go on to does is read up to 16 rows at a time, of which no
    /// steps are counted: a row in which it goes on to nobody is not followed. The first row is asked for near a place:
    /// any place does. After `OutOfMemory` what is kept is of neither.
    pub fn advance<V: LabelView, L: Ledger>(
        &mut self,
        alloc: Global,
        view: &V,
        delta: &Delta,
        near: u64,
        steps: &mut Steps<L>,
    ) -> Result<(), OutOfMemory>
        ensures kept { OnOk result ((before : Router → ℕ → TargetIs) → AreKept before self.old
            → IsDelta before (does (V.rows view.now)) delta.now → AreKept (does (V.rows view.now)) self.new) }
        ensures cost { steps.new ≤ steps.old + V.width view.now * rows_met (V.rows view.now) delta.now }
    {
        let changes = delta.changes();
        let path = path_in(alloc, self.path.take());
        let search = find_all(alloc, view, changes, near, path, steps)?;
        let Search { found, path } = search;
        self.path = Some(path);
        if found.is_empty() && !are_met(&self.segments, changes) {
            return Ok(());
        }
        return self.change(alloc, changes, found);
    }

    /// What `advance` makes of a copy.
    pub fn after<V: LabelView, L: Ledger>(
        &self,
        alloc: Global,
        view: &V,
        delta: &Delta,
        steps: &mut Steps<L>,
    ) -> Result<KeptLoops, OutOfMemory>
        ensures kept { IfOk result (λ loops. (before : Router → ℕ → TargetIs) → AreKept before self.now
            → IsDelta before (does (V.rows view.now)) delta.now → AreKept (does (V.rows view.now)) loops) }
        ensures cost { steps.new ≤ steps.old + V.width view.now * rows_met (V.rows view.now) delta.now }
    {
        let mut loops = self.copy()?;
        loops.advance(alloc, view, delta, 0, steps)?;
        Ok(loops)
    }

    /// The cycles in which addresses go round for ever, by least address, then by first router, each with its least
    /// address and the number of all that go round it. It goes over the segments and not over addresses.
    pub fn answer(&self, alloc: Global) -> Result<List<Cycle>, OutOfMemory>
        ensures { IfOk result (λ cycles. (does_so : Router → ℕ → TargetIs) → AreKept does_so self.now
            → AreCycles does_so cycles) }
    {
        cycles_of(alloc, &self.segments)
    }
}
