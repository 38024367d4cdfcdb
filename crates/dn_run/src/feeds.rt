//! The feeds of a run: opened in order, read by the jobs, and given back.

ghost use Rattle.std.specs.Prelude.{◌≡◌, ◌+◌, ◌<◌, ◌≤◌, ◌∷◌, ◌^◌, [], ℕ, List};
ghost use Rattle.std.specs.Prelude.{length, map, IfOk, IsErr, MatchOption, MatchResult, Option, vec_capacity};
ghost use Rattle.std.specs.Arc.{arc_value};
ghost use Rattle.dn_formats.specs.Report.{report};
ghost use Rattle.dn_model.specs.Entry.{entries};
ghost use Rattle.dn_run.specs.Ending.{ending_of};
ghost use Rattle.dn_run.specs.Feeds.{AreLeft, Opens, opened, some_rose};
ghost use Rattle.dn_run.specs.Jobs.{routers_of_readers, scripts_of};
ghost use Rattle.dn_run.specs.PartsRead.{feed_texts};
ghost use Rattle.dn_run.specs.Run.{IsRunOf, verdict_of};
ghost use Rattle.dn_run.specs.Stage.{is_fault};
ghost use Rattle.dn_run.specs.Work.{HaveRoom, IsReady};

use crate::jobs::{JobsDone, Rooms, Work, into_sources, run_jobs};
use crate::parts::FeedPart;
use crate::ruling::{Ruling, refusal, reported};
use crate::status::Verdict;
use dn_formats::ErrorLine;
use dn_io::{Gate, Source, World, WorldRefused};
use dn_model::{OutOfMemory, RouterId, Topology};
use route_feed::FeedReader;
use std::alloc::Global;
use std::sync::{Arc, Wait};
use std::thread::Threads;

/// At most this many bytes of a feed are looked at.
pub const FEED_LIMIT: u64 = 1073741824;

/// The report of what the jobs came to.
fn report_jobs(
    alloc: Global,
    topology: &Arc<Topology, Global>,
    done: Result<JobsDone, OutOfMemory>,
) -> Result<Ruling, OutOfMemory>
    ensures { MatchResult done
        (λ jobs. IfOk result (λ ruling. (ruling.verdict ≡ verdict_of jobs.feeds.items)
        × (ruling.text ≡ report (arc_value topology.now) jobs.feeds.items (entries jobs.history) jobs.jobs.items)))
        (λ e. IsErr result) }
{
    let JobsDone {
        history,
        feeds,
        jobs,
    } = done?;
    reported(alloc, topology, feeds.as_slice(), history, jobs.as_slice())
}

/// Runs the jobs over the feeds, which are all open, and makes the report. The sources come back in order.
fn run_readers<S: Source, G: Gate, R: Threads + Wait + Sync>(
    rt: &R,
    alloc: Global,
    work: Work<'_, S>,
    rooms: Rooms<S>,
    gate: &G,
) -> (Result<Ruling, OutOfMemory>, Vec<S>)
    requires ready { IsReady S.faults work [] }
    requires room { HaveRoom (length work.readers.items) rooms }
    ensures same { map S.place result.1.items ≡ map (λ r. S.place r.source) work.entry.readers.items }
    ensures ran { IfOk result.0 (λ ruling. (files : List (Option (List ℕ)))
        → AreLeft S.left work.entry.readers.items files
        → IsRunOf (arc_value work.entry.topology.now) (routers_of_readers work.entry.readers.items)
        (scripts_of work.entry.scripts.items) (opened S.faults S.left files result.1.items)
        ruling.verdict ruling.text) }
    ensures faults { IfOk result.0 (λ ruling. some_rose S.faults result.1.items ≡ is_fault ruling.verdict) }
{
    let topology = work.topology;
    let (done, sources) = run_jobs(rt, alloc, work, rooms, gate);
    (report_jobs(alloc, topology, done), sources)
}

/// A run while its feeds are opened: what its jobs are over, so far, the room for what comes back of all its feeds, and
/// the feeds that are still to be opened, with the router of each.
pub struct Opening<'a, S: Source> {
    pub work: Work<'a, S>,
    pub rooms: Rooms<S>,
    pub feeds: &'a [FeedPart],
    pub routers: &'a [RouterId],
}

/// The first of the feeds with its router, and the feeds and routers behind it; nothing where there is none.
fn first_feed<'a>(
    feeds: &'a [FeedPart],
    routers: &'a [RouterId],
) -> Option<(&'a FeedPart, RouterId, &'a [FeedPart], &'a [RouterId])>
    requires { length routers.now ≡ length feeds.now }
    ensures { MatchOption result ((feeds.now ≡ []) × (routers.now ≡ []))
        (λ p. (feeds.now ≡ p.0.now ∷ p.2.now) × (routers.now ≡ p.1 ∷ p.3.now)) }
{
    match (feeds, routers) {
        ([feed, later @ ..], [router, others @ ..]) => Some((feed, *router, later, others)),
        _ => None,
    }
}

/// Opens the feeds that are still to be opened, runs the jobs over all, and gives those feeds back. The sources of the
/// readers before come back in order.
pub fn from_feeds<W: World, G: Gate, R: Threads + Wait + Sync>(
    rt: &R,
    alloc: Global,
    opening: Opening<'_, W::Src>,
    world: &mut W,
    gate: &G,
) -> (Result<Ruling, OutOfMemory>, Vec<W::Src>)
    requires calls { length (W.calls world.old) + length opening.feeds.now ≤ 2 ^ 32 }
    requires as_many { length opening.routers.now ≡ length opening.feeds.now }
    requires ready { IsReady W.Src.faults opening.work opening.routers.now }
    requires reserved { length opening.work.readers.items + length opening.feeds.now
        ≤ vec_capacity opening.work.readers }
    requires room { HaveRoom (length opening.work.readers.items + length opening.feeds.now) opening.rooms }
    ensures same { map W.Src.place result.1.items ≡ map (λ r. W.Src.place r.source) opening.entry.work.readers.items }
    ensures opens { Opens (arc_value opening.entry.work.topology.now) W.Src.faults W.Src.left (W.files world.old)
        opening.entry.routers.now (scripts_of opening.entry.work.scripts.items) opening.entry.work.readers.items
        result.1.items (map feed_texts opening.entry.feeds.now) (W.calls world.old) (W.calls world.new)
        (ending_of result.0) }
    ensures same_files { W.files world.new ≡ W.files world.old }
{
    let Opening {
        work,
        rooms,
        feeds,
        routers,
    } = opening;
    let Some((feed, router, later, others)) = first_feed(feeds, routers) else {
        return run_readers(rt, alloc, work, rooms, gate);
    };
    match world.source_of(feed.file.as_str()) {
        Ok(source) => {
            let number = work.readers.len() as u32 + 1;
            let mut work = work;
            let reader = FeedReader::new(alloc, source, router, number, FEED_LIMIT);
            work.readers.push_reserved(reader);
            let opening = Opening {
                work,
                rooms,
                feeds: later,
                routers: others,
            };
            let (ruling, mut sources) = from_feeds(rt, alloc, opening, world, gate);
            let Some(source) = sources.pop() else {
                return (ruling, sources);
            };
            world.give_back(source);
            (ruling, sources)
        }
        Err(WorldRefused::Failed) => {
            let line = ErrorLine::ReadPart { part: feed.part };
            let ruling = refusal(alloc, Verdict::ReadFault, line);
            (ruling, into_sources(work.readers, rooms.sources))
        }
        Err(WorldRefused::OutOfMemory) => {
            (Err(OutOfMemory), into_sources(work.readers, rooms.sources))
        }
    }
}
