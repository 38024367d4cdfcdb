//! A feed of a job.

ghost use Rattle.std.specs.Prelude.{◌≡◌, ◌+◌, ◌<◌, length, List, ◌++◌, IfOk, OnErr, OnOk, Some, None, IsTrue};
ghost use Rattle.feed_model.specs.Steps.{FrameStep, updates};
ghost use Rattle.feed_model.specs.declared.feed_told.FeedEnd.{FeedEnd as EndIs};
ghost use Rattle.dn_model.specs.declared.topology.Topology.{Topology as TopologyIs};
ghost use Rattle.route_feed.specs.FeedReader.{Reader, end_of, AreOpsOf, Advances};
ghost use Rattle.feed_threads.specs.Feeds.{HandsOut, handed_out, told_with};

use dn_io::Source;
use dn_model::{OutOfMemory, Topology};
use feed_model::{FeedEnd, FeedTold};
use route_feed::{FeedReader, FeedStep};
use std::alloc::Global;
use std::marker::Model;

/// A feed of a job: its reader, and, where a full history refused one of its updates, how many of them it had taken.
#[derive(Drop)]
pub(crate) struct Feed<S: Source> {
    pub(crate) reader: FeedReader<S>,
    pub(crate) kept: Option<u64>,
}

impl<S: Source> Model for Feed<S> {
    ghost use Rattle.feed_threads.specs.Feeds.{Feed};

    ghost Value = { Feed S };

    ghost view = { λ f. record { reader = f.reader; kept = f.kept } };
}

impl<S: Source> Feed<S> {
    /// Whether a job that takes its next frame may wait for bytes.
    pub(crate) fn waits(&self) -> bool
        ensures { IsTrue result → self.now.kept ≡ None }
    {
        self.kept.is_none() && self.reader.wants_more()
    }

    /// The source, with the bytes that were not read, and what is told.
    pub(crate) fn into_parts(self) -> (S, FeedTold)
        ensures source { result.0 ≡ self.reader.source }
        ensures told { result.1 ≡ told_with self.kept self.reader.told }
    {
        let Feed { reader, kept } = self;
        let (source, mut told) = reader.into_parts();
        if let Some(updates) = kept {
            told.updates = updates;
            told.end = Some(FeedEnd::Full);
        }
        (source, told)
    }
}

/// What a reader's next frame comes to, or how its feed ends.
pub(crate) fn next_step<S: Source>(
    alloc: Global,
    topology: &Topology,
    reader: &mut FeedReader<S>,
) -> Result<FeedStep, OutOfMemory>
    requires { reader.old.told.router.0 < length topology.now.routers }
    ensures handed { IfOk result (λ step. (start : Reader S) (steps : List FrameStep) →
        HandsOut topology.now S.left S.faults S.place start reader.old steps →
        HandsOut topology.now S.left S.faults S.place start reader.new (steps ++ handed_out step)) }
    ensures waits { OnErr result ((start : Reader S) (steps : List FrameStep) →
        HandsOut topology.now S.left S.faults S.place start reader.old steps →
        HandsOut topology.now S.left S.faults S.place start reader.new steps) }
    ensures end { IfOk result (λ step. reader.new.told.end ≡ end_of step) }
    ensures again { (end : EndIs) → reader.old.told.end ≡ Some end → (reader.new ≡ reader.old)
        × IfOk result (λ step. end_of step ≡ Some end) }
    ensures counted { IfOk result (λ step. reader.new.told.updates ≡ reader.old.told.updates + length
        (updates (handed_out step))) }
    ensures advances { IfOk result (λ step. Advances step reader.old reader.new) }
    ensures within { IfOk result (AreOpsOf topology.now) }
    ensures limit { reader.new.limit ≡ reader.old.limit }
    ensures router { reader.new.told.router ≡ reader.old.told.router }
    ensures feed_no { reader.new.told.feed_no ≡ reader.old.told.feed_no }
{
    reader.next_frame(alloc, topology)
}
