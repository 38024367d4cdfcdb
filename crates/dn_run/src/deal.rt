//! The readers of feeds, dealt out to jobs.

ghost use Rattle.std.specs.Prelude.{◌≡◌, ◌<◌, ◌≤◌, ◌+◌, ◌++◌, ◌∷◌, [], length, map, filter, IfOk, IfErr};
ghost use Rattle.std.specs.Prelude.{vec_capacity};
ghost use Rattle.std.specs.List.{flat_map};
ghost use Rattle.std.specs.List.Sorted.{IsPermutation};
ghost use Rattle.feed_threads.specs.Jobs.{lines_of};
ghost use Rattle.dn_run.specs.Deal.{left_by_lines, left_over, own_tasks, readers_of, script_tasks, takes_reader};
ghost use Rattle.dn_run.specs.Deal.{tasks_of, unread_back};
ghost use Rattle.dn_run.specs.Jobs.{scripts_of};

use crate::backs::{append, append_readers};
use crate::untaken::{MOST_JOBS, takes_feed};
use dn_formats::{Line, Script};
use dn_io::Source;
use feed_model::FeedTold;
use feed_threads::{Job, JobList};
use route_feed::FeedReader;
use std::alloc::Global;

/// The jobs and the readers that are left where memory was wanting.
#[derive(Drop)]
pub struct Undealt<S: Source> {
    pub jobs: Vec<Job<S>>,
    pub some: Vec<FeedReader<S>>,
    pub others: Vec<FeedReader<S>>,
}

/// Jobs, and the readers that they leave.
#[derive(Drop)]
struct Dealt<S: Source> {
    jobs: Vec<Job<S>>,
    left: Vec<FeedReader<S>>,
}

/// The readers whose feeds lines take, and the others, each in order, into their room.
fn part_readers<S: Source>(
    lines: &[Line],
    readers: Vec<FeedReader<S>>,
    mine: Vec<FeedReader<S>>,
    others: Vec<FeedReader<S>>,
) -> (Vec<FeedReader<S>>, Vec<FeedReader<S>>)
    requires empty { (mine.items ≡ []) × (others.items ≡ []) }
    requires mine { length readers.items ≤ vec_capacity mine }
    requires others { length readers.items ≤ vec_capacity others }
    ensures mine { result.0.items ≡ filter (takes_reader lines.now) readers.items }
    ensures others { result.1.items ≡ left_by_lines lines.now readers.items }
{
    let mut mine = mine;
    let mut others = others;
    for reader in readers {
        if takes_feed(lines, reader.told().router) {
            mine.push_reserved(reader);
        } else {
            others.push_reserved(reader);
        }
    }
    (mine, others)
}

/// Adds the job of a script, or of a feed that no script takes, to those before it.
fn add_job<S: Source>(
    alloc: Global,
    jobs: Vec<Job<S>>,
    script: Option<Script>,
    mine: Vec<FeedReader<S>>,
    others: Vec<FeedReader<S>>,
) -> Result<Dealt<S>, Undealt<S>>
    requires room { length jobs.items + 1 ≤ vec_capacity jobs }
    requires few { length jobs.items ≤ 64 }
    ensures jobs { IfOk result (λ d. d.jobs.items ≡ jobs.items
        ++ record { number = length jobs.items + 1; lines = lines_of script; feeds = mine.items } ∷ []) }
    ensures left { IfOk result (λ d. d.left.items ≡ others.items) }
    ensures room { IfOk result (λ d. vec_capacity d.jobs ≡ vec_capacity jobs) }
    ensures back { IfErr result (λ u. (u.jobs.items ≡ jobs.items) × (u.some.items ≡ mine.items)
        × (u.others.items ≡ others.items)) }
{
    let number = jobs.len() as u32 + 1;
    match Job::new(alloc, number, script, mine) {
        Ok(job) => {
            let mut jobs = jobs;
            jobs.push_reserved(job);
            Ok(Dealt { jobs, left: others })
        }
        Err(some) => Err(Undealt { jobs, some, others }),
    }
}

/// Deals a script the readers of the feeds that it takes.
fn deal_script<S: Source>(
    alloc: Global,
    script: Script,
    dealt: Dealt<S>,
) -> Result<Dealt<S>, Undealt<S>>
    requires room { length dealt.jobs.items + 1 ≤ vec_capacity dealt.jobs }
    requires few { length dealt.jobs.items ≤ 64 }
    ensures jobs { IfOk result (λ d. d.jobs.items ≡ dealt.jobs.items
        ++ record {
          number = length dealt.jobs.items + 1;
          lines = script.lines;
          feeds = filter (takes_reader script.lines) dealt.left.items;
        } ∷ []) }
    ensures left { IfOk result (λ d. d.left.items ≡ left_by_lines script.lines dealt.left.items) }
    ensures room { IfOk result (λ d. vec_capacity d.jobs ≡ vec_capacity dealt.jobs) }
    ensures back { IfErr result (λ u. IsPermutation (readers_of dealt.jobs.items ++ dealt.left.items)
        (readers_of u.jobs.items ++ (u.some.items ++ u.others.items))) }
{
    let Dealt { jobs, left } = dealt;
    let Ok(mine) = Vec::with_capacity(alloc, left.len()) else {
        return Err(Undealt {
            jobs,
            some: Vec::new(alloc),
            others: left,
        });
    };
    let Ok(others) = Vec::with_capacity(alloc, left.len()) else {
        return Err(Undealt {
            jobs,
            some: Vec::new(alloc),
            others: left,
        });
    };
    let (mine, others) = part_readers(script.lines.as_slice(), left, mine, others);
    add_job(alloc, jobs, Some(script), mine, others)
}

/// Deals scripts, in order, the readers of the feeds that each takes.
fn deal_scripts<S: Source>(
    alloc: Global,
    scripts: Vec<Script>,
    dealt: Dealt<S>,
) -> Result<Dealt<S>, Undealt<S>>
    requires none { dealt.jobs.items ≡ [] }
    requires few { length scripts.items ≤ 64 }
    requires room { length scripts.items ≤ vec_capacity dealt.jobs }
    ensures jobs { IfOk result (λ d. d.jobs.items ≡ script_tasks 1 (scripts_of scripts.items) dealt.left.items) }
    ensures left { IfOk result (λ d. d.left.items ≡ left_over (scripts_of scripts.items) dealt.left.items) }
    ensures room { IfOk result (λ d. vec_capacity d.jobs ≡ vec_capacity dealt.jobs) }
    ensures back { IfErr result (λ u. IsPermutation dealt.left.items (readers_of u.jobs.items
        ++ (u.some.items ++ u.others.items))) }
{
    let mut dealt = dealt;
    for script in scripts {
        dealt = deal_script(alloc, script, dealt)?;
    }
    Ok(dealt)
}

/// Deals the first of the readers that are left to a job of its own.
fn deal_own<S: Source>(alloc: Global, dealt: Dealt<S>) -> Result<Dealt<S>, Undealt<S>>
    requires some { 0 < length dealt.left.items }
    requires few { length dealt.jobs.items ≤ 64 }
    requires room { length dealt.jobs.items + 1 ≤ vec_capacity dealt.jobs }
    ensures jobs { IfOk result (λ d. d.jobs.items ++ own_tasks (length d.jobs.items + 1) d.left.items ≡ dealt.jobs.items
        ++ own_tasks (length dealt.jobs.items + 1) dealt.left.items) }
    ensures readers { IfOk result (λ d. readers_of d.jobs.items ++ d.left.items ≡ readers_of dealt.jobs.items
        ++ dealt.left.items) }
    ensures more { IfOk result (λ d. length d.jobs.items ≡ length dealt.jobs.items + 1) }
    ensures fewer { IfOk result (λ d. length d.left.items + 1 ≡ length dealt.left.items) }
    ensures room { IfOk result (λ d. vec_capacity d.jobs ≡ vec_capacity dealt.jobs) }
    ensures back { IfErr result (λ u. readers_of u.jobs.items ++ (u.some.items ++ u.others.items)
        ≡ readers_of dealt.jobs.items ++ dealt.left.items) }
{
    let Dealt { jobs, left } = dealt;
    let mut left = left;
    let Ok(mut mine) = Vec::with_capacity(alloc, 1) else {
        return Err(Undealt {
            jobs,
            some: Vec::new(alloc),
            others: left,
        });
    };
    mine.push_reserved(left.remove(0));
    add_job(alloc, jobs, None, mine, left)
}

/// Deals each reader that is left to a job of its own.
fn deal_owns<S: Source>(alloc: Global, dealt: Dealt<S>) -> Result<Vec<Job<S>>, Undealt<S>>
    requires few { length dealt.jobs.items + length dealt.left.items ≤ 64 }
    requires room { length dealt.jobs.items + length dealt.left.items ≤ vec_capacity dealt.jobs }
    ensures jobs { IfOk result (λ jobs. jobs.items ≡ dealt.jobs.items ++ own_tasks (length dealt.jobs.items + 1)
        dealt.left.items) }
    ensures back { IfErr result (λ u. readers_of u.jobs.items ++ (u.some.items ++ u.others.items)
        ≡ readers_of dealt.jobs.items ++ dealt.left.items) }
{
    let mut dealt = dealt;
    while !dealt.left.is_empty() {
        dealt = deal_own(alloc, dealt)?;
    }
    Ok(dealt.jobs)
}

/// The jobs of a run: one for each script, in order, with the readers of the feeds that it takes, and then one for each
/// reader that is left. Jobs count from 1.
///
/// # Errors
///
/// Where memory is wanting the readers come back, some of them in jobs.
pub fn deal<S: Source>(
    alloc: Global,
    scripts: Vec<Script>,
    readers: Vec<FeedReader<S>>,
) -> Result<JobList<S>, Undealt<S>>
    requires few { length scripts.items + length (left_over (scripts_of scripts.items) readers.items) ≤ 64 }
    ensures jobs { IfOk result (λ list. list ≡ tasks_of (scripts_of scripts.items) readers.items) }
    ensures back { IfErr result (λ u. IsPermutation readers.items (readers_of u.jobs.items
        ++ (u.some.items ++ u.others.items))) }
{
    let Ok(jobs) = Vec::with_capacity(alloc, MOST_JOBS) else {
        return Err(Undealt {
            jobs: Vec::new(alloc),
            some: Vec::new(alloc),
            others: readers,
        });
    };
    let dealt = Dealt {
        jobs,
        left: readers,
    };
    let dealt = deal_scripts(alloc, scripts, dealt)?;
    let jobs = deal_owns(alloc, dealt)?;
    match JobList::new(alloc, jobs) {
        Ok(list) => Ok(list),
        Err(jobs) => Err(Undealt {
            jobs,
            some: Vec::new(alloc),
            others: Vec::new(alloc),
        }),
    }
}

/// The sources of jobs that aren't run behind others, for which there is room.
fn append_jobs<S: Source>(backs: Vec<(S, FeedTold)>, jobs: Vec<Job<S>>) -> Vec<(S, FeedTold)>
    requires { length backs.items + length (readers_of jobs.items) ≤ vec_capacity backs }
    ensures items { result.items ≡ backs.items ++ map unread_back (readers_of jobs.items) }
    ensures room { vec_capacity result ≡ vec_capacity backs }
{
    let mut backs = backs;
    for job in jobs {
        backs = append(backs, job.into_sources());
    }
    backs
}

impl<S: Source> Undealt<S> {
    /// The sources of all readers, with what is told of their feeds, into room that they have.
    pub fn give_back(self, room: Vec<(S, FeedTold)>) -> Vec<(S, FeedTold)>
        requires empty { room.items ≡ [] }
        requires room { length (readers_of self.jobs.items ++ (self.some.items ++ self.others.items))
            ≤ vec_capacity room }
        ensures { result.items ≡ map unread_back (readers_of self.jobs.items
            ++ (self.some.items ++ self.others.items)) }
    {
        let Undealt { jobs, some, others } = self;
        let backs = append_jobs(room, jobs);
        let backs = append_readers(backs, some);
        append_readers(backs, others)
    }
}
