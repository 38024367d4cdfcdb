//! The whole report of a run, or the text that stands in its place.

ghost use Rattle.std.specs.Prelude.{◌≡◌, ◌≤◌, ◌++◌, [], IfOk, OnOk, OnErr, unwrap_or};
ghost use Rattle.dn_io.specs.Told.{with_end};
ghost use Rattle.dn_io.specs.Faults.{Rose};
ghost use Rattle.dn_model.specs.Entry.{entries};
ghost use Rattle.std.specs.Arc.{arc_value};
ghost use Rattle.dn_formats.specs.Report.{report};
ghost use Rattle.run_report.specs.Written.{HasFront};

use crate::feeds::push_feeds;
use crate::history::push_count;
use crate::jobs::push_jobs;
use crate::rest::Rest;
use crate::writer::write_text;
use dn_formats::{JobTold, push_bytes};
use dn_io::{Failed, Sink};
use dn_model::{OutOfMemory, Posted, Topology};
use feed_model::FeedTold;
use std::alloc::Global;
use std::marker::Model;
use std::sync::Arc;
use version_pages::Pages;

/// What a run prints: its report, or a text in place of one. A contract sees it as the bytes of the whole text. The lines
/// of a report's history are made as they are written, so that they never stand in memory all at once.
#[derive(Drop)]
pub struct Report {
    first: Vec<u8>,
    rest: Option<Rest>,
}

impl Model for Report {
    ghost use Rattle.std.specs.Prelude.{List, ℕ, [], ◌++◌, unwrap_or};

    ghost Value = { List ℕ };

    ghost view = { λ r. r.first.items ++ unwrap_or r.rest [] };
}

impl Report {
    /// This text, in place of a report. It takes no memory.
    pub fn of_text(text: Vec<u8>) -> Report
        ensures { result ≡ text.items }
    {
        Report {
            first: text,
            rest: None,
        }
    }

    /// The whole report: the feeds in order, the history, and the jobs in order. A router or link that the topology
    /// hasn't has an empty name.
    ///
    /// # Errors
    ///
    /// `OutOfMemory` alone.
    pub fn new(
        alloc: Global,
        topology: &Arc<Topology, Global>,
        feeds: &[FeedTold],
        history: Pages<Posted>,
        jobs: &[JobTold],
    ) -> Result<Report, OutOfMemory>
        ensures { IfOk result (λ r. r ≡ report (arc_value topology.now) feeds.now (entries history) jobs.now) }
    {
        let mut first = Vec::new(alloc);
        push_feeds(&mut first, topology, feeds)?;
        push_count(&mut first, &history)?;
        let mut last = Vec::new(alloc);
        push_jobs(&mut last, topology, jobs)?;
        push_bytes(&mut last, b"done\n")?;
        let rest = Rest::new(alloc, Arc::try_clone(topology)?, history, last)?;
        Ok(Report {
            first,
            rest: Some(rest),
        })
    }

    /// Writes the whole text: after a write that takes a part, the rest is written by another. It takes no memory.
    ///
    /// # Errors
    ///
    /// `Failed` at the first write that fails, which the sink counts; a part of the text, from its first byte on, may
    /// have been written by then.
    pub fn write<K: Sink>(self, sink: &mut K) -> Result<(), Failed>
        ensures written { OnOk result (K.written sink.new ≡ with_end (K.written sink.old) self) }
        ensures same_count { OnOk result (K.faults sink.new ≡ K.faults sink.old) }
        ensures rises { OnErr result (Rose (K.faults sink.old) (K.faults sink.new)) }
        ensures front { OnErr result (HasFront (K.written sink.old) (K.written sink.new) self) }
        ensures never_falls { K.faults sink.old ≤ K.faults sink.new }
    {
        let Report { first, rest } = self;
        write_text(sink, first.as_slice())?;
        write_rest(sink, rest)
    }
}

/// Writes what a report has behind its history's head; a text in place of a report has nothing there.
#[tactic(auto, using(crate::proofs::Fronts::with_end_nothing))]
fn write_rest<K: Sink>(sink: &mut K, rest: Option<Rest>) -> Result<(), Failed>
    ensures written { OnOk result (K.written sink.new ≡ with_end (K.written sink.old) (unwrap_or rest [])) }
    ensures same_count { OnOk result (K.faults sink.new ≡ K.faults sink.old) }
    ensures rises { OnErr result (Rose (K.faults sink.old) (K.faults sink.new)) }
    ensures front { OnErr result (HasFront (K.written sink.old) (K.written sink.new) (unwrap_or rest [])) }
    ensures never_falls { K.faults sink.old ≤ K.faults sink.new }
{
    match rest {
        None => Ok(()),
        Some(rest) => rest.write(sink),
    }
}
