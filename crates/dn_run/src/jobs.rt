//! The jobs of a run, side by side: one for each script, and one for each feed that no script takes.

ghost use Rattle.std.specs.Prelude.{◌≡◌, ◌≤◌, ◌<◌, ◌+◌, ◌++◌, ◌∷◌, ◌||◌, []};
ghost use Rattle.std.specs.Prelude.{length, map, vec_capacity, All, IfOk};
ghost use Rattle.std.specs.Arc.{arc_value};
ghost use Rattle.std.specs.List.{flat_map, list_any};
ghost use Rattle.std.specs.List.Sorted.{IsPermutation};
ghost use Rattle.feed_threads.specs.AllJobs.{AreNumberedApart, told_by};
ghost use Rattle.feed_threads.specs.Jobs.{AreApart, IsFresh as IsUnread};
ghost use Rattle.dn_run.specs.Deal.{readers_of};
ghost use Rattle.dn_run.specs.Feeds.{sources_of};
ghost use Rattle.dn_run.specs.Jobs.{HasRun, scripts_of};
ghost use Rattle.dn_run.specs.Work.{HaveRoom, IsReady};
ghost use Rattle.dn_run.specs.Ran.{ListRan, RanAs, back_tag, reader_tag};
ghost use Rattle.dn_run.specs.Limits.{history_limit};

use crate::backs::{append, in_order, part_backs};
use crate::deal::{Undealt, deal};
use crate::untaken::MOST_JOBS;
use dn_formats::{JobTold, Script};
use dn_io::{Gate, Source};
use dn_model::{OutOfMemory, Posted, Topology};
use feed_model::FeedTold;
use feed_threads::{JobDone, JobList, run_history};
use route_feed::FeedReader;
use std::alloc::Global;
use std::sync::{Arc, Wait};
use std::thread::Threads;
use version_pages::Pages;
use version_store::Store;

/// A history has at most so many entries: a position in it has 32 bits.
const HISTORY_LIMIT: u32 = 4294967295;

/// What the jobs of a run came to: the history that they made, what is told of each feed, and what is told of each job.
#[derive(Drop)]
pub struct JobsDone {
    pub history: Pages<Posted>,
    pub feeds: Vec<FeedTold>,
    pub jobs: Vec<JobTold>,
}

/// What the jobs of a run are over: its network, its scripts, and a reader of each feed.
#[derive(Drop)]
pub struct Work<'a, S: Source> {
    pub topology: &'a Arc<Topology, Global>,
    pub scripts: Vec<Script>,
    pub readers: Vec<FeedReader<S>>,
}

/// The sources of readers, into room that they have, in order.
pub fn into_sources<S: Source>(readers: Vec<FeedReader<S>>, room: Vec<S>) -> Vec<S>
    requires empty { room.items ≡ [] }
    requires room { length readers.items ≤ vec_capacity room }
    ensures { result.items ≡ sources_of readers.items }
{
    let mut sources = room;
    for reader in readers {
        let (source, _told) = reader.into_parts();
        sources.push_reserved(source);
    }
    sources
}

/// Empty lists with room for all that comes back of a run's jobs, so that every source comes back whatever happens: for
/// the sources, for these with what is told of their feeds, for what is told of the feeds, and of the jobs.
#[derive(Drop)]
pub struct Rooms<S: Source> {
    pub sources: Vec<S>,
    pub backs: Vec<(S, FeedTold)>,
    pub feeds: Vec<FeedTold>,
    pub jobs: Vec<JobTold>,
}

impl<S: Source> Rooms<S> {
    /// Room for so many feeds, and for as many jobs as a run may have.
    pub fn new(alloc: Global, feeds: usize) -> Result<Rooms<S>, OutOfMemory>
        ensures { IfOk result (HaveRoom feeds) }
    {
        Ok(Rooms {
            sources: Vec::with_capacity(alloc, feeds)?,
            backs: Vec::with_capacity(alloc, feeds)?,
            feeds: Vec::with_capacity(alloc, feeds)?,
            jobs: Vec::with_capacity(alloc, MOST_JOBS)?,
        })
    }
}

/// What jobs came to: their sources, one job after another, what is told of each, and whether one wanted memory.
#[derive(Drop)]
struct Gathered<S: Source> {
    backs: Vec<(S, FeedTold)>,
    jobs: Vec<JobTold>,
    wanted_memory: bool,
}

impl<S: Source> Gathered<S> {
    /// With what one more job came to.
    fn with(self, done: JobDone<S>) -> Gathered<S>
        requires backs { length self.backs.items + length done.feeds.items ≤ vec_capacity self.backs }
        requires jobs { length self.jobs.items < vec_capacity self.jobs }
        ensures backs { result.backs.items ≡ self.backs.items ++ done.feeds.items }
        ensures jobs { result.jobs.items ≡ self.jobs.items ++ told_by done ∷ [] }
        ensures wanted { result.wanted_memory ≡ (self.wanted_memory || done.wanted_memory) }
        ensures backs_room { vec_capacity result.backs ≡ vec_capacity self.backs }
        ensures jobs_room { vec_capacity result.jobs ≡ vec_capacity self.jobs }
    {
        let Gathered {
            backs,
            jobs,
            wanted_memory,
        } = self;
        let wanted_memory = wanted_memory || done.wanted_memory;
        let JobDone {
            number,
            told,
            feeds,
            ..
        } = done;
        let mut jobs = jobs;
        jobs.push_reserved(JobTold { number, told });
        Gathered {
            backs: append(backs, feeds),
            jobs,
            wanted_memory,
        }
    }
}

/// What jobs came to, into its room.
fn gather<S: Source>(
    dones: Vec<JobDone<S>>,
    backs: Vec<(S, FeedTold)>,
    jobs: Vec<JobTold>,
) -> Gathered<S>
    requires empty { (backs.items ≡ []) × (jobs.items ≡ []) }
    requires backs { length (flat_map (λ done. done.feeds.items) dones.items) ≤ vec_capacity backs }
    requires jobs { length dones.items ≤ vec_capacity jobs }
    ensures backs { result.backs.items ≡ flat_map (λ done. done.feeds.items) dones.items }
    ensures jobs { result.jobs.items ≡ map told_by dones.items }
    ensures wanted { result.wanted_memory ≡ list_any (λ done. done.wanted_memory) dones.items }
{
    let mut gathered = Gathered {
        backs,
        jobs,
        wanted_memory: false,
    };
    for done in dones {
        gathered = gathered.with(done);
    }
    gathered
}

/// An empty store over a run's topology.
fn new_store(alloc: Global, topology: &Arc<Topology, Global>) -> Result<Store, OutOfMemory>
    ensures basis { IfOk result (λ store. store.basis
        ≡ record { topology = arc_value topology.now; limit = history_limit }) }
    ensures empty { IfOk result (λ store. store.history ≡ []) }
{
    Store::new(alloc, Arc::try_clone(topology)?, HISTORY_LIMIT)
}

/// The sources of jobs that aren't run.
fn give_back_jobs<S: Source>(
    alloc: Global,
    list: JobList<S>,
    backs: Vec<(S, FeedTold)>,
) -> Vec<(S, FeedTold)>
    requires empty { backs.items ≡ [] }
    requires room { length (readers_of list) ≤ vec_capacity backs }
    ensures tags { map (back_tag S.place) result.items ≡ map (reader_tag S.place) (readers_of list) }
{
    Undealt {
        jobs: list.into_jobs(),
        some: Vec::new(alloc),
        others: Vec::new(alloc),
    }
    .give_back(backs)
}

/// Runs jobs over an empty history. In any case their sources come back, in the order of the jobs.
fn run_list<S: Source, G: Gate, R: Threads + Wait + Sync>(
    rt: &R,
    alloc: Global,
    topology: &Arc<Topology, Global>,
    list: JobList<S>,
    rooms: (Vec<(S, FeedTold)>, Vec<JobTold>),
    gate: &G,
) -> (
    Result<(Pages<Posted>, Vec<JobTold>), OutOfMemory>,
    Vec<(S, FeedTold)>,
)
    requires few { length list ≤ 64 }
    requires fresh { All (λ job. All (IsUnread (arc_value topology.now) S.faults) job.feeds) list }
    requires apart { All (λ job. AreApart job.feeds) list }
    requires numbers { AreNumberedApart list }
    requires empty { (rooms.0.items ≡ []) × (rooms.1.items ≡ []) }
    requires backs { length (readers_of list) ≤ vec_capacity rooms.0 }
    requires jobs { length list ≤ vec_capacity rooms.1 }
    ensures ran { IfOk result.0 (λ made. ListRan (arc_value topology.now) S.left S.faults S.place list result.1.items
        made.0 made.1.items) }
    ensures tags { map (back_tag S.place) result.1.items ≡ map (reader_tag S.place) (readers_of list) }
{
    let (backs, jobs) = rooms;
    let Ok(store) = new_store(alloc, topology) else {
        return (Err(OutOfMemory), give_back_jobs(alloc, list, backs));
    };
    let (store, dones) = match run_history(rt, alloc, store, gate, topology, list) {
        Ok(ran) => ran,
        Err(list) => return (Err(OutOfMemory), give_back_jobs(alloc, list, backs)),
    };
    let Gathered {
        backs,
        jobs,
        wanted_memory,
    } = gather(dones, backs, jobs);
    if wanted_memory {
        return (Err(OutOfMemory), backs);
    }
    match store.posted() {
        Ok(history) => (Ok((history, jobs)), backs),
        Err(e) => (Err(e), backs),
    }
}

/// Deals readers to jobs and runs these. In any case all sources come back, in some order.
fn run_dealt<S: Source, G: Gate, R: Threads + Wait + Sync>(
    rt: &R,
    alloc: Global,
    work: Work<'_, S>,
    rooms: (Vec<(S, FeedTold)>, Vec<JobTold>),
    gate: &G,
) -> (
    Result<(Pages<Posted>, Vec<JobTold>), OutOfMemory>,
    Vec<(S, FeedTold)>,
)
    requires ready { IsReady S.faults work [] }
    requires empty { (rooms.0.items ≡ []) × (rooms.1.items ≡ []) }
    requires room { (length work.readers.items ≤ vec_capacity rooms.0) × (64 ≤ vec_capacity rooms.1) }
    ensures ran { IfOk result.0 (λ made. RanAs (arc_value work.entry.topology.now) S.left S.faults
        work.entry.readers.items result.1.items made.0 (scripts_of work.entry.scripts.items) made.1.items) }
    ensures tags { IsPermutation (map (reader_tag S.place) work.entry.readers.items)
        (map (back_tag S.place) result.1.items) }
    ensures count { length result.1.items ≡ length work.entry.readers.items }
{
    let Work {
        topology,
        scripts,
        readers,
    } = work;
    match deal(alloc, scripts, readers) {
        Ok(list) => run_list(rt, alloc, topology, list, rooms, gate),
        Err(undealt) => (Err(OutOfMemory), undealt.give_back(rooms.0)),
    }
}

/// Runs the jobs of a run side by side: the scripts' in order, and then one for each feed that no script takes. Jobs
/// count from 1. Each feed is read to its end, and in any case its source comes back, in the order of the readers.
///
/// A script's job does its lines in order, and then takes the rest of each feed that they name, in the order in which
/// they first take it.
///
/// # Errors
///
/// `OutOfMemory`, where a job wanted memory, or where it was wanting before any job began.
pub fn run_jobs<S: Source, G: Gate, R: Threads + Wait + Sync>(
    rt: &R,
    alloc: Global,
    work: Work<'_, S>,
    rooms: Rooms<S>,
    gate: &G,
) -> (Result<JobsDone, OutOfMemory>, Vec<S>)
    requires ready { IsReady S.faults work [] }
    requires room { HaveRoom (length work.readers.items) rooms }
    ensures ran { IfOk result.0 (λ done. HasRun (arc_value work.entry.topology.now) S.left S.faults
        work.entry.readers.items result.1.items done.feeds.items done.history (scripts_of work.entry.scripts.items)
        done.jobs.items) }
    ensures same { map S.place result.1.items ≡ map (λ r. S.place r.source) work.entry.readers.items }
{
    let Rooms {
        sources,
        backs,
        feeds,
        jobs,
    } = rooms;
    let (made, backs) = run_dealt(rt, alloc, work, (backs, jobs), gate);
    let (sources, feeds) = part_backs(in_order(backs), sources, feeds);
    match made {
        Ok((history, jobs)) => (
            Ok(JobsDone {
                history,
                feeds,
                jobs,
            }),
            sources,
        ),
        Err(e) => (Err(e), sources),
    }
}
