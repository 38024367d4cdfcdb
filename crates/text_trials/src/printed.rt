//! What trials of reports share: a report is written to a sink in memory.

ghost use Rattle.std.specs.Prelude.{◌≤◌};

use dn_formats::JobTold;
use dn_io::{Failed, MemSink};
use dn_model::{Posted, Topology};
use feed_model::FeedTold;
use run_report::Report;
use std::alloc::Global;
use std::process::Abort;
use std::sync::Arc;
use version_pages::Pages;

/// A sink that takes at most `step` bytes per write, of which these fail.
pub(crate) fn sink_by(rt: &impl Abort, alloc: Global, step: usize, fails: &[u64]) -> MemSink
    requires { 1 ≤ step }
{
    MemSink::new(
        alloc,
        step,
        Vec::from_slice(alloc, fails).expect(rt, "memory"),
    )
}

/// The report of these, ready to be written.
pub(crate) fn report_of(
    rt: &impl Abort,
    alloc: Global,
    topology: Topology,
    feeds: &[FeedTold],
    history: &Pages<Posted>,
    jobs: &[JobTold],
) -> Report {
    let topology = Arc::new(alloc, topology).expect(rt, "memory");
    let history = history.copy().expect(rt, "memory");
    Report::new(alloc, &topology, feeds, history, jobs).expect(rt, "memory")
}

/// The sink to which a report was written, which takes all of it.
pub(crate) fn printed(rt: &impl Abort, alloc: Global, report: Report) -> MemSink {
    let mut sink = sink_by(rt, alloc, usize::MAX, &[]);
    let result: Result<(), Failed> = report.write(&mut sink);
    assert!(rt; result.is_ok());
    sink
}
