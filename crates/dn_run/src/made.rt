//! The run over the generated input.

ghost use Rattle.std.specs.Prelude.{◌≡◌, ◌∷◌, [], ℕ, List, IfOk};
ghost use Rattle.base.specs.declared.cycle.Cycle.{Cycle};
ghost use Rattle.dn_run.specs.Made.{IsMade, IsMadeRun, TellsCycles, told_cycles};
ghost use Rattle.dn_run.specs.MadeReaders.{made_readers, reader_of};
ghost use Rattle.dn_run.specs.WordsRefused.{CanBeMade};

use crate::feeds::FEED_LIMIT;
use crate::jobs::{Rooms, Work, run_jobs};
use crate::ring::{made_script, made_topology};
use crate::ruling::Ruling;
use crate::status::Verdict;
use crate::summary::summary_text;
use dn_formats::{JobTold, Outcome, Text, Told};
use dn_io::{Gate, SureSource};
use dn_model::{Answer, Cycle, OutOfMemory, RouterId};
use made_input::{MadeInput, make_input};
use route_feed::FeedReader;
use run_report::Report;
use std::alloc::Global;
use std::sync::{Arc, Wait};
use std::thread::Threads;

/// The reader of a router's generated feed.
fn reader(alloc: Global, router: u16, feed: Text) -> FeedReader<SureSource>
    ensures { result ≡ reader_of router feed }
{
    let source = SureSource::new(feed.into_vec());
    let number = u32::from(router) + 1;
    FeedReader::new(alloc, source, RouterId(router), number, FEED_LIMIT)
}

/// Readers of the generated feeds, in order.
#[tactic(auto, using(crate::proofs::MadeLemmas::of_feeds))]
fn readers(alloc: Global, n: u32) -> Result<Vec<FeedReader<SureSource>>, OutOfMemory>
    requires { CanBeMade n }
    ensures { IfOk result (λ readers. readers.items ≡ made_readers n) }
{
    let MadeInput { feeds, .. } = make_input(alloc, n)?;
    let mut readers = Vec::with_capacity(alloc, feeds.len())?;
    for feed in feeds.into_vec() {
        let router = readers.len() as u16;
        readers.push_reserved(reader(alloc, router, feed));
    }
    Ok(readers)
}

/// Runs the script over the generated input of so many updates, and tells what its job came to.
fn run_made<G: Gate, R: Threads + Wait + Sync>(
    rt: &R,
    alloc: Global,
    n: u32,
    gate: &G,
) -> Result<Vec<JobTold>, OutOfMemory>
    requires { CanBeMade n }
    ensures { IfOk result (λ told. IsMadeRun n told.items) }
{
    let topology = Arc::new(alloc, made_topology(alloc)?)?;
    let scripts = Vec::from_array(alloc, [made_script(alloc)?])?;
    let readers = readers(alloc, n)?;
    let rooms = Rooms::new(alloc, readers.len())?;
    let work = Work {
        topology: &topology,
        scripts,
        readers,
    };
    let (done, _sources) = run_jobs(rt, alloc, work, rooms, gate);
    Ok(done?.jobs)
}

/// The cycles that the one job told.
fn cycles_of(told: &[JobTold]) -> &[Cycle]
    requires { TellsCycles told.now }
    ensures { (pin : ℕ) (cycles : List Cycle) → told.now ≡ told_cycles pin cycles ∷ [] → result.now ≡ cycles }
{
    let [job] = told else {
        unreachable!();
    };
    let [query] = job.told.as_slice() else {
        unreachable!();
    };
    let Told::Asked { outcome, .. } = query else {
        unreachable!();
    };
    let Outcome::Answered { answer, .. } = outcome else {
        unreachable!();
    };
    let Answer::Loops(cycles) = answer else {
        unreachable!();
    };
    cycles.as_slice()
}

/// Runs over the generated input of so many updates, which is kept in memory, and sums up the cycles that there are at
/// the end.
pub fn make<G: Gate, R: Threads + Wait + Sync>(
    rt: &R,
    alloc: Global,
    n: u32,
    gate: &G,
) -> Result<Ruling, OutOfMemory>
    requires { CanBeMade n }
    ensures { IfOk result (λ ruling. (ruling.verdict ≡ Verdict.Done) × IsMade n ruling.text) }
{
    let told = run_made(rt, alloc, n, gate)?;
    let text = summary_text(alloc, n, cycles_of(told.as_slice()))?;
    Ok(Ruling {
        verdict: Verdict::Done,
        text: Report::of_text(text),
    })
}
