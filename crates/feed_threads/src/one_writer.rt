//! A run of which one job alone applies: the others read what it shows, and wait for nobody.

ghost use Rattle.std.specs.Prelude.{◌≡◌, ◌+◌, ◌<◌, ◌^◌, ◌++◌, All, IfSome, IsSome, IsTrue, None, [], drop, length};
ghost use Rattle.std.specs.Prelude.{take, vec_capacity};
ghost use Rattle.version_lock.specs.Callers.{IsSeatOf};
ghost use Rattle.feed_threads.specs.Beside.{HasWrittenTaken, MayRunParted, MayWrite, RanBeside, UsesAll};
ghost use Rattle.feed_threads.specs.Readers.{AllRead, MayRead};
ghost use Rattle.feed_threads.specs.Reads.{ReadsAlone};
ghost use Rattle.feed_threads.specs.Runs.{AllRun, IsReadyBatch, MayRun};

use crate::all_jobs::Batch;
use crate::desk::Shown;
use crate::job::{Job, JobDone};
use crate::one_job::run_shown;
use crate::reader_job::{Read, reads_alone};
use crate::reader_jobs::{Readers, confirm_all, dones_of, run_readers};
use crate::shown_readers::{ShownReaders, show_readers};
use crate::site::Site;
use crate::unrun_jobs::{none_run, not_run};
use dn_io::{Gate, Source};
use dn_model::{OutOfMemory, Topology};
use std::alloc::Global;
use std::sync::Wait;
use std::thread::{Threads, join_mut};
use version_lock::{Seat, VersionLock};
use version_store::Store;

/// Whether each of these jobs reads alone.
fn all_read_alone<S: Source>(jobs: &[Job<S>]) -> bool
    ensures { IsTrue result → All ReadsAlone jobs.now }
{
    for job in jobs {
        if !reads_alone(job) {
            return false;
        }
    }
    true
}

/// The place of the one job that applies, where there are others and each of them reads alone.
pub(crate) fn only_applying<S: Source>(jobs: &[Job<S>]) -> Option<usize>
    ensures place { IfSome result (λ at. at < length jobs.now) }
    ensures others { IfSome result (λ at. 1 < length jobs.now) }
    ensures alone { IfSome result (λ at. All ReadsAlone (take at jobs.now ++ drop (at + 1) jobs.now)) }
{
    if jobs.len() < 2 {
        return None;
    }
    let at = jobs.iter().position(|job| !reads_alone(job))?;
    if all_read_alone(&jobs[..at]) && all_read_alone(&jobs[at + 1..]) {
        Some(at)
    } else {
        None
    }
}

/// Has the seat use each number of its span.
fn use_all(lock: &VersionLock<Store>, seat: &mut Seat)
    requires lock { IsSeatOf lock.now seat.old }
    requires more { 1 < seat.old.span }
    ensures { UsesAll seat.old seat.new }
{
    let others = seat.span() - 1;
    let other = lock.split(seat, others);
    lock.join(seat, other);
}

/// The one job that applies, its seat, and by what it shows what it applies. It isn't `Drop`, since a publisher is to
/// be ended.
pub(crate) struct Writer<S: Source> {
    pub(crate) seat: Seat,
    pub(crate) shown: Shown,
    pub(crate) job: Job<S>,
}

/// Runs the job that applies. It stands where it can be taken from, since a closure can't own what is not `Drop`.
fn run_writer<S: Source, G: Gate, R: Threads + Wait + Sync>(
    rt: &R,
    site: &Site<'_, G>,
    writer: &mut Option<Writer<S>>,
) -> (Seat, Shown, JobDone<S>)
    requires some { IsSome writer.old }
    requires writer { IfSome writer.old (MayWrite site.now S.faults) }
    ensures { HasWrittenTaken site.now S.left S.faults S.place writer.old writer.new result }
{
    match writer.take() {
        Some(Writer { seat, shown, job }) => run_shown(rt, site, seat, shown, job, false),
        None => unreachable!(),
    }
}

/// Ends what was taken: nothing is left there.
fn end_taken<S: Source>(writer: Option<Writer<S>>)
    requires { writer ≡ None }
{
    let None = writer else {
        unreachable!();
    };
}

/// Runs the jobs that read, likewise.
fn run_reading<S: Source, G: Gate, R: Threads + Sync>(
    rt: &R,
    alloc: Global,
    gate: &G,
    topology: &Topology,
    reading: &mut Option<Readers<S>>,
) -> Vec<Read<S>>
    requires some { IsSome reading.old }
    requires reading { IfSome reading.old (MayRead topology.now) }
    ensures read { IfSome reading.old
        (λ b. AllRead topology.now b.readers.items b.jobs.items result.items) }
    ensures count { IfSome reading.old (λ b. length result.items ≡ length b.jobs.items) }
{
    match reading.take() {
        Some(reading) => run_readers(rt, alloc, gate, topology, reading),
        None => unreachable!(),
    }
}

/// Runs the job that applies in this thread, and beside it those that read.
fn run_both<S: Source, G: Gate, R: Threads + Wait + Sync>(
    rt: &R,
    site: &Site<'_, G>,
    topology: &Topology,
    writer: &mut Option<Writer<S>>,
    reading: &mut Option<Readers<S>>,
) -> (Vec<Read<S>>, (Seat, Shown, JobDone<S>))
    requires some { IsSome writer.old × IsSome reading.old }
    requires writer { IfSome writer.old (MayWrite site.now S.faults) }
    requires reading { IfSome reading.old (MayRead topology.now) }
    ensures writer { HasWrittenTaken site.now S.left S.faults S.place writer.old writer.new result.1 }
    ensures read { IfSome reading.old
        (λ b. AllRead topology.now b.readers.items b.jobs.items result.0.items) }
    ensures count { IfSome reading.old (λ b. length result.0.items ≡ length b.jobs.items) }
{
    let alloc = site.alloc;
    let gate = site.gate;
    join_mut(
        rt,
        &mut || -> Vec<Read<S>>
            requires { IsSome reading.now × IfSome reading.now (MayRead topology.now) }
            ensures { IfSome reading.entry.now
                (λ b. AllRead topology.entry.now b.readers.items b.jobs.items result.items)
                × IfSome reading.entry.now (λ b. length result.items ≡ length b.jobs.items) }
        { run_reading(rt, alloc, gate, topology, reading) },
        &mut || -> (Seat, Shown, JobDone<S>)
            requires { IsSome writer.now × IfSome writer.now (MayWrite site.now S.faults) }
            ensures { HasWrittenTaken site.entry.now S.left S.faults S.place writer.entry.now writer.exit.now
                result }
        { run_writer(rt, site, writer) },
    )
}

/// The job that applies and the jobs that read, each of these with its reader, and room for what all come to. It isn't
/// `Drop`, as its writer isn't.
pub(crate) struct Parted<S: Source> {
    pub(crate) writer: Writer<S>,
    pub(crate) reading: Readers<S>,
    pub(crate) room: Vec<JobDone<S>>,
}

/// Runs the job that applies beside those that read, and ends the publisher.
fn run_parted<S: Source, G: Gate, R: Threads + Wait + Sync>(
    rt: &R,
    site: &Site<'_, G>,
    parted: Parted<S>,
) -> (Seat, JobDone<S>, Vec<JobDone<S>>)
    requires parted { MayRunParted site.now S.faults parted }
    ensures ran { RanBeside site.now S.left S.faults S.place parted.writer.seat parted.writer.job
        parted.reading.jobs.items result }
    ensures room { vec_capacity result.2 ≡ vec_capacity parted.room }
{
    let Parted {
        writer,
        reading,
        room,
    } = parted;
    let mut writer = Some(writer);
    let mut reading = Some(reading);
    let (reads, (seat, shown, done)) = run_both(rt, site, site.topology, &mut writer, &mut reading);
    end_taken(writer);
    let Some(publisher) = shown else {
        unreachable!();
    };
    let mut publisher = publisher;
    confirm_all(&mut publisher, reads.as_slice());
    publisher.close(rt);
    (seat, done, dones_of(reads, room))
}

/// Runs the job that applies beside those of a batch, which read. Where memory is wanting for their readers no job is
/// run, and each wants memory.
fn run_with<S: Source, G: Gate, R: Threads + Wait + Sync>(
    rt: &R,
    site: &Site<'_, G>,
    seat: Seat,
    job: Job<S>,
    batch: Batch<S>,
) -> (Seat, JobDone<S>, Vec<JobDone<S>>)
    requires job { MayRun site.now S.faults seat job }
    requires alone { All ReadsAlone batch.jobs.items }
    requires few { length batch.jobs.items < 2 ^ 32 }
    requires empty { batch.room.items ≡ [] }
    requires room { length batch.jobs.items < vec_capacity batch.room }
    ensures ran { RanBeside site.now S.left S.faults S.place seat job batch.jobs.items result }
    ensures room { vec_capacity result.2 ≡ vec_capacity batch.room }
{
    let mut seat = seat;
    let alloc = site.alloc;
    let Batch { jobs, room } = batch;
    let count = jobs.len();
    let Ok(reads) = Vec::with_capacity(alloc, count) else {
        return (seat, not_run(alloc, job), none_run(alloc, jobs, room));
    };
    match show_readers(rt, site, &mut seat, count as u32) {
        Ok(ShownReaders { publisher, readers }) => {
            let parted = Parted {
                writer: Writer {
                    seat,
                    shown: Some(publisher),
                    job,
                },
                reading: Readers {
                    jobs,
                    readers,
                    room: reads,
                },
                room,
            };
            run_parted(rt, site, parted)
        }
        Err(OutOfMemory) => (seat, not_run(alloc, job), none_run(alloc, jobs, room)),
    }
}

/// Runs jobs of which the one at a place alone applies, and gives back the seat and what the jobs came to, in order.
pub(crate) fn run_beside<S: Source, G: Gate, R: Threads + Wait + Sync>(
    rt: &R,
    site: &Site<'_, G>,
    seat: Seat,
    batch: Batch<S>,
    at: usize,
) -> (Seat, Vec<JobDone<S>>)
    requires batch { IsReadyBatch site.now S.faults seat batch }
    requires place { at < length batch.jobs.items }
    requires others { 1 < length batch.jobs.items }
    requires alone { All ReadsAlone (take at batch.jobs.items ++ drop (at + 1) batch.jobs.items) }
    ensures { AllRun site.now S.left S.faults S.place seat batch.jobs.items result.0 result.1.items }
{
    let mut seat = seat;
    let Batch { jobs, room } = batch;
    let mut jobs = jobs;
    let _number = seat.number();
    let applying = jobs.remove(at);
    use_all(site.lock, &mut seat);
    let others = Batch { jobs, room };
    let (seat, done, dones) = run_with(rt, site, seat, applying, others);
    let mut dones = dones;
    match dones.insert(at, done) {
        Ok(()) => (seat, dones),
        Err(_) => unreachable!(),
    }
}
