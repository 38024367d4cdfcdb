//! Jobs over a history of their own.

ghost use Rattle.std.specs.Prelude.{◌≡◌, ◌<◌, ◌≤◌, ◌^◌, All, [], length, IfOk, IfErr};
ghost use Rattle.feed_threads.specs.AllJobs.{AllRan, AreNumberedApart};
ghost use Rattle.feed_threads.specs.Jobs.{AreApart, IsFresh};

use crate::all_jobs::run_jobs;
use crate::job::{JobDone, JobList};
use crate::site::Site;
use dn_io::{Gate, Source};
use dn_model::Topology;
use std::alloc::Global;
use std::sync::Wait;
use std::thread::Threads;
use version_lock::VersionLock;
use version_store::Store;

/// How many numbers a lock needs for these jobs: one for each, and one at least.
fn numbers_for<S: Source>(jobs: &JobList<S>) -> u32
    requires few { length jobs.now < 2 ^ 32 }
    ensures some { 0 < result }
    ensures enough { length jobs.now ≤ result }
{
    let count = jobs.jobs.len() as u32;
    if count == 0 { 1 } else { count }
}

/// Runs jobs side by side over an empty store, and gives back the store with their history, and what the jobs came to,
/// in order. Where none of them wanted memory, the history is a shuffle of what it took of their feeds and link lines,
/// each job's entries stand there in the job's order, each query is answered over the first entries of it, and each
/// link line is told with its entry's position.
///
/// # Errors
///
/// Where memory is wanting for the lock nothing is run: the jobs come back, and the store is dropped.
pub fn run_history<S: Source, G: Gate, R: Threads + Wait + Sync>(
    rt: &R,
    alloc: Global,
    store: Store,
    gate: &G,
    topology: &Topology,
    jobs: JobList<S>,
) -> Result<(Store, Vec<JobDone<S>>), JobList<S>>
    requires empty { store.history ≡ [] }
    requires topology { topology.now ≡ store.basis.topology }
    requires few { length jobs < 2 ^ 32 }
    requires fresh { All (λ job. All (IsFresh topology.now S.faults) job.feeds) jobs }
    requires apart { All (λ job. AreApart job.feeds) jobs }
    requires numbers { AreNumberedApart jobs }
    ensures basis { IfOk result (λ ran. ran.0.basis ≡ store.basis) }
    ensures ran { IfOk result (λ ran. AllRan topology.now S.left S.faults S.place store.basis.limit jobs ran.0.history
        ran.1.items) }
    ensures back { IfErr result (λ back. back ≡ jobs) }
{
    let numbers = numbers_for(&jobs);
    let Ok((lock, seat)) = VersionLock::new(alloc, store, numbers) else {
        return Err(jobs);
    };
    let site = Site::new(alloc, &lock, topology, gate);
    let (seat, dones) = run_jobs(rt, &site, seat, jobs);
    let store = lock.close(seat);
    let _length = store.len();
    Ok((store, dones))
}
