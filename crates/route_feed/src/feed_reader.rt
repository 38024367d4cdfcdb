//! The reader of a device's feed.

ghost use Rattle.std.specs.Prelude.{◌≡◌, ℕ, ◌+◌, ◌<◌, ◌≤◌, ◌^◌, List, [], ◌++◌, length, Option, None, Some, IfOk, IsOkAnd, OnErr, false};
ghost use Rattle.dn_io.specs.Told.{with_front};
ghost use Rattle.feed_model.specs.Frames.{IsFrameFront};
ghost use Rattle.feed_model.specs.Steps.{FrameStep};
ghost use Rattle.dn_model.specs.declared.topology.Topology.{Topology};
ghost use Rattle.route_feed.specs.FeedReader.{Reader, IsAt, IsOutcome, FaultsAt, told_then, told_so_far, end_of, IsReadersEnd, Advances, AreOpsOf, AreOwnOps};

use crate::device::{Device, look_up};
use crate::feed_step::FeedStep;
use crate::frame_step::hand_out;
use crate::intake::Intake;
use crate::workspace::Workspace;
use dn_io::Source;
use dn_model::{List, Op, OutOfMemory, RouterId, Topology};
use feed_model::{FeedEnd, FeedTold};
use std::alloc::Global;
use std::marker::Model;

/// Reads a device's feed frame by frame, and counts what it tells. A contract sees it as a `Reader`.
#[derive(Drop)]
pub struct FeedReader<S: Source> {
    intake: Intake<S>,
    told: FeedTold,
    /// The numbers of the device's tables, looked up before the first frame; a device has its main one at least.
    tables: List<u32>,
    /// No clause speaks of it.
    workspace: Workspace,
}

impl<S: Source> Model for FeedReader<S> {
    ghost use Rattle.std.specs.Prelude.{◌≡◌, ◌≤◌, ◌++◌, ◌^◌, None};
    ghost use Rattle.route_feed.specs.Intake.{taken};
    ghost use Rattle.route_feed.specs.FeedReader.{Reader, IsReadersEnd};

    ghost Value = { Reader S };

    ghost view = { λ r. record {
      source = r.intake.source;
      limit = r.intake.limit;
      passed = r.intake.passed;
      held = r.intake.held ++ r.intake.pending;
      told = r.told;
      tables = r.tables;
    } };

    ghost invariant = { λ r. (r.intake.limit ≤ 2 ^ 30) × IsReadersEnd r.told.end × (r.told.end ≡ None → taken r.intake ≤ r.intake.limit) × (r.told.updates ≤ r.intake.passed) × (r.told.skipped ≤ r.intake.passed) };
}

/// The answer that tells an end.
fn answer_of(end: FeedEnd) -> FeedStep
    requires { IsReadersEnd (Some end) }
    ensures { end_of result ≡ Some end }
{
    match end {
        FeedEnd::End => FeedStep::End,
        FeedEnd::CutShort { offset } => FeedStep::CutShort { offset },
        FeedEnd::Lost { offset, cause } => FeedStep::Lost { offset, cause },
        FeedEnd::TooLong => FeedStep::TooLong,
        FeedEnd::Faulted => FeedStep::Faulted,
        FeedEnd::Full => unreachable!(),
    }
}

/// Tells an end, and answers it.
fn end_with(told: &mut FeedTold, end: FeedEnd) -> FeedStep
    requires { IsReadersEnd (Some end) }
    ensures answer { end_of result ≡ Some end }
    ensures told { told.new ≡ record told.old { end = Some end } }
{
    told.end = Some(end);
    answer_of(end)
}

impl<S: Source> FeedReader<S> {
    /// The reader of this device's feed, which has this number and of which `limit` bytes are looked at. It takes no
    /// memory, and reads nothing yet.
    pub fn new(
        alloc: Global,
        source: S,
        router: RouterId,
        feed_no: u32,
        limit: u64,
    ) -> FeedReader<S>
        requires some { 1 ≤ limit }
        requires most { limit ≤ 2 ^ 30 }
        requires fresh { S.faults source ≡ 0 }
        ensures start { result ≡ record {
          source = source;
          limit = limit;
          passed = 0;
          held = [];
          told = told_so_far feed_no router [];
          tables = [];
        } }
        ensures at { (t : Topology) (bytes : List ℕ) → S.left source ≡ Some bytes → IsAt t result (S.left result.source) bytes [] }
    {
        FeedReader {
            intake: Intake::new(alloc, source, limit),
            told: FeedTold {
                feed_no,
                router,
                updates: 0,
                skipped: 0,
                refused: List::new(alloc),
                end: None,
            },
            tables: List::new(alloc),
            workspace: Workspace::new(alloc),
        }
    }

    /// What the next frame of the feed comes to, or how the feed ends. The end is answered again at every later
    /// call, also where no memory is left. All calls are given one topology, which has the reader's router.
    ///
    /// # Errors
    ///
    /// `OutOfMemory`, before the end alone; no byte is lost then, and the call can be made again.
    pub fn next_frame(
        &mut self,
        alloc: Global,
        topology: &Topology,
    ) -> Result<FeedStep, OutOfMemory>
        requires { self.old.told.router.0 < length topology.now.routers }
        ensures outcome { (bytes : List ℕ) (steps : List FrameStep) → IsAt topology.now self.old (S.left self.old.source) bytes steps →
            IsOutcome topology.now result self.new (S.left self.new.source) bytes steps }
        ensures again { (end : FeedEnd) → self.old.told.end ≡ Some end → (self.new ≡ self.old) × IsOkAnd result (λ step. end_of step ≡ Some end) }
        ensures told { self.old.told.end ≡ None → self.new.told ≡ told_then self.old.told result }
        ensures faults { self.old.told.end ≡ None → FaultsAt result (S.faults self.old.source) (S.faults self.new.source) }
        ensures advances { IfOk result (λ step. Advances step self.old self.new) }
        ensures within { IfOk result (AreOpsOf topology.now) }
        ensures own { IfOk result (AreOwnOps topology.now self.old.told.router) }
        ensures limit { self.new.limit ≡ self.old.limit }
        ensures router { self.new.told.router ≡ self.old.told.router }
        ensures feed_no { self.new.told.feed_no ≡ self.old.told.feed_no }
        ensures stays { S.place self.new.source ≡ S.place self.old.source }
    {
        if let Some(end) = self.told.end {
            return Ok(answer_of(end));
        }
        match self.intake.fill()? {
            Some(end) => Ok(end_with(&mut self.told, end)),
            None => {
                look_up(alloc, &mut self.tables, topology, self.told.router)?;
                let device = Device {
                    topology,
                    router: self.told.router,
                    tables: self.tables.as_slice(),
                };
                hand_out(
                    alloc,
                    &mut self.intake,
                    &mut self.told,
                    &device,
                    &mut self.workspace,
                )
            }
        }
    }

    /// Takes back the updates of a frame that were handed out, for their memory: the next frame's may stand there.
    pub fn take_back(&mut self, ops: List<(RouterId, Op)>)
        ensures { self.new ≡ self.old }
    {
        let _ = &self.intake;
        self.workspace.keep_ops(ops);
    }

    /// Whether the next answer wants more bytes of the source, for which `next_frame` may wait. After an end none does,
    /// nor where the bytes held begin with a whole frame, or with a header that loses the framing.
    #[tactic(auto, using(crate::proofs::ReaderLemmas::front_before))]
    pub fn wants_more(&self) -> bool
        ensures ended { (end : FeedEnd) → self.now.told.end ≡ Some end → result ≡ false }
        ensures enough { result ≡ false → self.now.told.end ≡ None → IsFrameFront self.now.held → ⊥ }
    {
        self.told.end.is_none() && self.intake.wants_more()
    }

    /// What is told of the feed so far.
    pub fn told(&self) -> &FeedTold
        ensures { result.now ≡ self.now.told }
    {
        &self.told
    }

    /// The source, with the bytes that were not read, and what is told.
    pub fn into_parts(self) -> (S, FeedTold)
        ensures source { result.0 ≡ self.source }
        ensures told { result.1 ≡ self.told }
    {
        let FeedReader { intake, told, .. } = self;
        (intake.into_source(), told)
    }
}
