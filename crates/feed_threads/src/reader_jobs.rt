//! Jobs of queries alone, side by side, each with a reader of its own.

ghost use Rattle.std.specs.Prelude.{◌≡◌, All, length, map};
ghost use Rattle.std.specs.Prelude.{vec_capacity};
ghost use Rattle.std.specs.Thread.{IsSync};
ghost use mathlib.Core.List.{IsPrefix};
ghost use Rattle.fast_pins.specs.Known.{published};
ghost use Rattle.feed_threads.specs.Readers.{AllRead, HasReadBy, MayRead};
ghost use Rattle.feed_threads.specs.Reads.{ReadsAlone};
ghost use Rattle.feed_threads.specs.Room.{HasRoom};

use crate::job::{Job, JobDone};
use crate::reader_job::{Read, read_job};
use dn_io::{Gate, Source};
use dn_model::Topology;
use fast_pins::{FastReader, Publisher};
use std::alloc::Global;
use std::thread::{Threads, join};
use version_store::Snapshot;

/// Jobs of queries alone, a reader for each, and room for what they come to.
#[derive(Drop)]
pub(crate) struct Readers<S: Source> {
    pub(crate) jobs: Vec<Job<S>>,
    pub(crate) readers: Vec<FastReader<Snapshot>>,
    pub(crate) room: Vec<Read<S>>,
}

/// Runs jobs of queries alone side by side, and gives back their readers and what the jobs came to, in order.
///
/// The last job goes to a thread of its own, and the others are run likewise.
pub(crate) fn run_readers<S: Source, G: Gate, R: Threads + Sync>(
    rt: &R,
    alloc: Global,
    gate: &G,
    topology: &Topology,
    batch: Readers<S>,
) -> Vec<Read<S>>
    requires batch { MayRead topology.now batch }
    requires crosses { IsSync R.row × IsSync G.row }
    ensures read { AllRead topology.now batch.readers.items batch.jobs.items result.items }
    ensures count { length result.items ≡ length batch.jobs.items }
    ensures room { vec_capacity result ≡ vec_capacity batch.room }
{
    let Readers {
        jobs,
        readers,
        room,
    } = batch;
    let mut jobs = jobs;
    let mut readers = readers;
    let mut reads = room;
    let Some(job) = jobs.pop() else {
        return reads;
    };
    let Some(reader) = readers.pop() else {
        unreachable!();
    };
    if jobs.is_empty() {
        reads.push_reserved(read_job(rt, alloc, gate, topology, reader, job));
        return reads;
    }
    let others = Readers {
        jobs,
        readers,
        room: reads,
    };
    let (before, last) = join(
        rt,
        move || -> Vec<Read<S>>
            requires { IsSync R.row × IsSync G.row × MayRead topology.now others }
            ensures { AllRead topology.entry.now others.readers.items others.jobs.items result.items
                × (length result.items ≡ length others.jobs.items) × (vec_capacity result ≡ vec_capacity others.room) }
        { run_readers(rt, alloc, gate, topology, others) },
        move || -> Read<S>
            requires { (reader.topology ≡ topology.now) × ReadsAlone job }
            ensures { HasReadBy topology.entry.now reader job result }
        { read_job(rt, alloc, gate, topology, reader, job) },
    );
    let mut reads = before;
    reads.push_reserved(last);
    reads
}

/// Shows that what each of these readers knows was published: what it pinned last is a beginning of what is published
/// last.
pub(crate) fn confirm_all<S: Source>(publisher: &mut Publisher<Snapshot>, reads: &[Read<S>])
    requires own { All (λ r. r.reader.origin ≡ publisher.old.origin) reads.now }
    ensures same { publisher.new ≡ publisher.old }
    ensures begins { All (λ r. IsPrefix (published r.reader) (published publisher.old)) reads.now }
{
    for read in reads {
        publisher.confirm(&read.reader);
    }
}

/// What jobs came to, without their readers.
pub(crate) fn dones_of<S: Source>(reads: Vec<Read<S>>, room: Vec<JobDone<S>>) -> Vec<JobDone<S>>
    requires { HasRoom (length reads.items) room }
    ensures dones { result.items ≡ map (λ r. r.done) reads.items }
    ensures room { vec_capacity result ≡ vec_capacity room }
{
    let mut dones = room;
    for read in reads {
        let Read { reader: _, done } = read;
        dones.push_reserved(done);
    }
    dones
}
