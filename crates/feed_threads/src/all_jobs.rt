//! Jobs side by side.

ghost use Rattle.std.specs.Prelude.{◌≡◌, length};
ghost use Rattle.std.specs.Prelude.{vec_capacity};
ghost use Rattle.std.specs.Thread.{IsSync};
ghost use Rattle.feed_threads.specs.Runs.{AllRun, AreReady, IsReadyBatch, MayRun, RanJob};

use crate::job::{Job, JobDone, JobList};
use crate::one_job::run_job;
use crate::one_writer::{only_applying, run_beside};
use crate::site::Site;
use dn_io::{Gate, Source};
use std::sync::Wait;
use std::thread::{Threads, join};
use version_lock::Seat;

/// Jobs, and room for what they come to.
#[derive(Drop)]
pub(crate) struct Batch<S: Source> {
    pub(crate) jobs: Vec<Job<S>>,
    pub(crate) room: Vec<JobDone<S>>,
}

/// Runs the jobs of a batch side by side, and gives back the seat and what the jobs came to, in order.
///
/// The last job goes to a thread of its own, with the last of the seat's numbers, and the others are run likewise.
/// Where it is the only one, `by_all` says whether it may ask by all processors.
fn run_batch<S: Source, G: Gate, R: Threads + Wait + Sync>(
    rt: &R,
    site: &Site<'_, G>,
    seat: Seat,
    batch: Batch<S>,
    by_all: bool,
) -> (Seat, Vec<JobDone<S>>)
    requires batch { IsReadyBatch site.now S.faults seat batch }
    requires crosses { IsSync R.row × IsSync G.row }
    ensures all { AllRun site.now S.left S.faults S.place seat batch.jobs.items result.0 result.1.items }
    ensures count { length result.1.items ≡ length batch.jobs.items }
    ensures room { vec_capacity result.1 ≡ vec_capacity batch.room }
{
    let Batch { jobs, room } = batch;
    let mut jobs = jobs;
    let mut dones = room;
    let mut seat = seat;
    let Some(last) = jobs.pop() else {
        return (seat, dones);
    };
    let _number = seat.number();
    if jobs.is_empty() {
        let (seat, done) = run_job(rt, site, seat, last, by_all);
        dones.push_reserved(done);
        return (seat, dones);
    }
    let (alloc, lock, topology, gate) = (site.alloc, site.lock, site.topology, site.gate);
    let other = lock.split(&mut seat, 1);
    let others = Batch { jobs, room: dones };
    let (before, after) = join(
        rt,
        move || -> (Seat, Vec<JobDone<S>>)
            requires { IsSync R.row × IsSync G.row × (topology.now ≡ lock.now.setup.basis.topology)
                × IsReadyBatch lock.now S.faults seat others }
            ensures { AllRun lock.entry.now S.left S.faults S.place seat others.jobs.items result.0 result.1.items
                × (length result.1.items ≡ length others.jobs.items)
                × (vec_capacity result.1 ≡ vec_capacity others.room) }
        {
            let site = Site::new(alloc, lock, topology, gate);
            run_batch(rt, &site, seat, others, false)
        },
        move || -> (Seat, JobDone<S>)
            requires { (topology.now ≡ lock.now.setup.basis.topology) × MayRun lock.now S.faults other last }
            ensures { RanJob lock.entry.now S.left S.faults S.place other result.0 last result.1 }
        {
            let site = Site::new(alloc, lock, topology, gate);
            run_job(rt, &site, other, last, false)
        },
    );
    let (mut seat, mut dones) = before;
    let (other, done) = after;
    lock.join(&mut seat, other);
    dones.push_reserved(done);
    (seat, dones)
}

/// Runs jobs side by side. Where one of them alone applies, the others pin what it shows, and wait for nobody. A job
/// asks by all processors where it is the only one, and else by its own thread.
pub fn run_jobs<S: Source, G: Gate, R: Threads + Wait + Sync>(
    rt: &R,
    site: &Site<'_, G>,
    seat: Seat,
    jobs: JobList<S>,
) -> (Seat, Vec<JobDone<S>>)
    requires jobs { AreReady site.now S.faults seat jobs }
    ensures { AllRun site.now S.left S.faults S.place seat jobs result.0 result.1.items }
{
    let JobList { jobs, room } = jobs;
    let alone = jobs.len() == 1;
    let applying = only_applying(jobs.as_slice());
    let batch = Batch { jobs, room };
    match applying {
        Some(at) => run_beside(rt, site, seat, batch, at),
        None => run_batch(rt, site, seat, batch, alone),
    }
}
