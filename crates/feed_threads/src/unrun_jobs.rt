//! Jobs that aren't run, whose sources come back.

ghost use Rattle.std.specs.Prelude.{◌≡◌, length, map};
ghost use Rattle.std.specs.Prelude.{vec_capacity};
ghost use Rattle.std.specs.List.{AllZip};
ghost use Rattle.feed_threads.specs.Beside.{IsNotRun};
ghost use Rattle.feed_threads.specs.Jobs.{back_of};
ghost use Rattle.feed_threads.specs.Room.{HasRoom};

use crate::job::{Job, JobDone, JobList};
use crate::one_job::give_back;
use dn_io::Source;
use dn_model::List;
use feed_model::FeedTold;
use std::alloc::Global;

impl<S: Source> Job<S> {
    /// The sources of a job that isn't run, in order, with what is told of their feeds.
    pub fn into_sources(self) -> Vec<(S, FeedTold)>
        ensures { result.items ≡ map (λ r. (r.source, r.told)) self.feeds }
    {
        let Job { feeds, room, .. } = self;
        give_back(feeds, room)
    }
}

impl<S: Source> JobList<S> {
    /// The jobs, in order.
    pub fn into_jobs(self) -> Vec<Job<S>>
        ensures { result.items ≡ self }
    {
        let JobList { jobs, .. } = self;
        jobs
    }
}

/// What a job comes to that isn't run for want of memory.
pub(crate) fn not_run<S: Source>(alloc: Global, job: Job<S>) -> JobDone<S>
    ensures { IsNotRun job result }
{
    let number = job.number;
    JobDone {
        number,
        told: List::new(alloc),
        feeds: job.into_sources(),
        wanted_memory: true,
    }
}

/// The same of jobs, in order.
pub(crate) fn none_run<S: Source>(
    alloc: Global,
    jobs: Vec<Job<S>>,
    room: Vec<JobDone<S>>,
) -> Vec<JobDone<S>>
    requires { HasRoom (length jobs.items) room }
    ensures dones { AllZip IsNotRun jobs.items result.items }
    ensures room { vec_capacity result ≡ vec_capacity room }
{
    let mut dones = room;
    for job in jobs {
        dones.push_reserved(not_run(alloc, job));
    }
    dones
}
