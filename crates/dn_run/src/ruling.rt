//! What a run comes to, with the text that it prints.

ghost use Rattle.std.specs.Prelude.{◌≡◌, ◌&&◌, ◌==◌, length, IfOk};
ghost use Rattle.std.specs.Arc.{arc_value};
ghost use Rattle.dn_formats.specs.Report.{report};
ghost use Rattle.dn_model.specs.Entry.{entries};
ghost use Rattle.dn_run.specs.Ending.{ending_of};
ghost use Rattle.dn_run.specs.Run.{IsLine, verdict_of, ended_well, is_faulted, some_faulted, all_well};

use crate::status::Verdict;
use dn_formats::{ErrorLine, JobTold};
use dn_model::{OutOfMemory, Posted, Topology};
use feed_model::{FeedEnd, FeedTold};
use run_report::{Report, error_line};
use std::alloc::Global;
use std::sync::Arc;
use version_pages::Pages;

/// What a run comes to, and the text that is printed.
#[derive(Drop)]
pub struct Ruling {
    pub verdict: Verdict,
    pub text: Report,
}

/// The ruling of a refusal: its error line.
pub fn refusal(alloc: Global, verdict: Verdict, error: ErrorLine) -> Result<Ruling, OutOfMemory>
    ensures { IsLine (ending_of result) verdict error }
{
    let line = error_line(alloc, error)?;
    Ok(Ruling {
        verdict,
        text: Report::of_text(line),
    })
}

/// Whether a feed ended well, at its own end.
fn has_ended_well(end: Option<FeedEnd>) -> bool
    ensures { result ≡ ended_well end }
{
    matches!(end, Some(FeedEnd::End))
}

/// Whether reading a feed failed.
fn has_faulted(end: Option<FeedEnd>) -> bool
    ensures { result ≡ is_faulted end }
{
    matches!(end, Some(FeedEnd::Faulted))
}

/// Whether reading some feed failed.
fn has_fault(tolds: &[FeedTold]) -> bool
    ensures { result ≡ some_faulted tolds.now }
{
    tolds.iter().any(|told| has_faulted(told.end))
}

/// Whether a feed ended well, with no frame refused.
fn is_well(told: &FeedTold) -> bool
    ensures { result ≡ (ended_well told.now.end && (length told.now.refused == 0)) }
{
    has_ended_well(told.end) && told.refused.is_empty()
}

/// Whether every feed ended well, with no frame refused.
fn are_well(tolds: &[FeedTold]) -> bool
    ensures { result ≡ all_well tolds.now }
{
    tolds.iter().all(|told| is_well(told))
}

/// What a run comes to whose feeds told this.
fn verdict(tolds: &[FeedTold]) -> Verdict
    ensures { result ≡ verdict_of tolds.now }
{
    if has_fault(tolds) {
        return Verdict::ReadFault;
    }
    if are_well(tolds) {
        Verdict::Done
    } else {
        Verdict::Refusals
    }
}

/// The ruling of a run that came to its report.
pub fn reported(
    alloc: Global,
    topology: &Arc<Topology, Global>,
    feeds: &[FeedTold],
    history: Pages<Posted>,
    jobs: &[JobTold],
) -> Result<Ruling, OutOfMemory>
    ensures verdict { IfOk result (λ ruling. ruling.verdict ≡ verdict_of feeds.now) }
    ensures text { IfOk result (λ ruling. ruling.text ≡ report (arc_value topology.now) feeds.now (entries history)
        jobs.now) }
{
    let text = Report::new(alloc, topology, feeds, history, jobs)?;
    Ok(Ruling {
        verdict: verdict(feeds),
        text,
    })
}
