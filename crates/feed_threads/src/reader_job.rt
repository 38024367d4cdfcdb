//! A job of queries alone, which pins what the job that applies shows.

ghost use Rattle.std.specs.Prelude.{◌≡◌, ◌∷◌, [], All, IfOk, OnOk, OnErr, Some, IsTrue};
ghost use Rattle.dn_model.specs.Query.{unknown_of};
ghost use Rattle.fast_pins.specs.Known.{published};
ghost use Rattle.feed_threads.specs.Readers.{HasReadBy};
ghost use Rattle.feed_threads.specs.Reads.{IsAsk, PinsOn, ReadsAlone, TellsRead, TellsReadFront};
ghost use Rattle.feed_threads.specs.Tells.{Adds, IsOutcomeNow};

use crate::ask::outcome_over;
use crate::job::{Job, JobDone};
use crate::one_job::{give_back, lines_of_script};
use dn_formats::{Line, Outcome, Told};
use dn_io::{Gate, Point, Source};
use dn_model::{List, OutOfMemory, Query, Topology};
use fast_pins::FastReader;
use std::alloc::Global;
use std::marker::Model;
use std::thread::Threads;
use version_store::Snapshot;

/// What a job of queries alone works with: the network, the gate of tests, and the job's number. A contract sees the
/// network.
#[derive(Drop)]
struct Bench<'a, G: Gate> {
    alloc: Global,
    topology: &'a Topology,
    gate: &'a G,
    job: u32,
}

impl<'a, G: Gate> Model for Bench<'a, G> {
    ghost use Rattle.dn_model.specs.declared.topology.Topology.{Topology};

    ghost Value = { Topology };

    ghost view = { λ b. b.topology.now };
}

impl<'a, G: Gate> Bench<'a, G> {
    /// The outcome of a query over the snapshot that the reader pins; or the query's first unknown name, without a pin.
    fn outcome<R: Threads + Sync>(
        &self,
        rt: &R,
        reader: &mut FastReader<Snapshot>,
        query: &Query,
    ) -> Result<Outcome, OutOfMemory>
        requires topology { reader.old.topology ≡ self.now }
        ensures pins { PinsOn reader.old reader.new }
        ensures good { IfOk result (IsOutcomeNow self.now (published reader.new) query.now) }
    {
        if let Some(unknown) = query.unknown(self.topology) {
            return Ok(Outcome::Unknown(unknown));
        }
        let snapshot = reader.pin()?;
        self.gate.at(self.job, Point::AfterPin);
        let outcome = outcome_over(rt, self.alloc, &snapshot, query, false)?;
        self.gate.at(self.job, Point::AfterAnswer);
        Ok(outcome)
    }

    /// Asks a query, and adds what is told of it.
    fn ask<R: Threads + Sync>(
        &self,
        rt: &R,
        reader: &mut FastReader<Snapshot>,
        line: u32,
        query: &Query,
        told: &mut List<Told>,
    ) -> Result<(), OutOfMemory>
        requires topology { reader.old.topology ≡ self.now }
        ensures pins { PinsOn reader.old reader.new }
        ensures told { OnOk result (Adds told.old told.new line query.now
            (IsOutcomeNow self.now (published reader.new) query.now)) }
        ensures err { OnErr result (told.new ≡ told.old) }
    {
        let outcome = self.outcome(rt, reader, query)?;
        let query = query.copy(self.alloc)?;
        told.push(Told::Asked {
            line,
            query,
            outcome,
        })
    }

    /// Does lines that ask, in order.
    fn do_lines<R: Threads + Sync>(
        &self,
        rt: &R,
        reader: &mut FastReader<Snapshot>,
        lines: &[Line],
        told: &mut List<Told>,
    ) -> Result<(), OutOfMemory>
        requires topology { reader.old.topology ≡ self.now }
        requires asks { All IsAsk lines.now }
        requires none { told.old ≡ [] }
        ensures pins { PinsOn reader.old reader.new }
        ensures done { OnOk result (TellsRead self.now (published reader.old) (published reader.new) lines.now
            told.new) }
        ensures front { TellsReadFront self.now (published reader.old) (published reader.new) lines.now told.new }
    {
        for line in lines {
            match line {
                Line::Take { .. } => unreachable!(),
                Line::Link { .. } => unreachable!(),
                Line::Ask { line, query } => self.ask(rt, reader, *line, query.get(), told)?,
            }
        }
        Ok(())
    }
}

/// Whether all of these lines ask.
fn all_ask(lines: &[Line]) -> bool
    ensures { IsTrue result → All IsAsk lines.now }
{
    for line in lines {
        match line {
            Line::Take { .. } => return false,
            Line::Link { .. } => return false,
            Line::Ask { .. } => {}
        }
    }
    true
}

/// Whether a job reads alone: it has a script, takes no feed, and all its lines ask.
pub(crate) fn reads_alone<S: Source>(job: &Job<S>) -> bool
    ensures { IsTrue result → ReadsAlone job.now }
{
    match &job.script {
        Some(script) => job.feeds.is_empty() && all_ask(script.lines.as_slice()),
        None => false,
    }
}

/// A reader, and what its job came to.
#[derive(Drop)]
pub(crate) struct Read<S: Source> {
    pub(crate) reader: FastReader<Snapshot>,
    pub(crate) done: JobDone<S>,
}

/// Runs a job of queries alone, over what its reader pins, and gives the reader back. It waits for nobody.
pub(crate) fn read_job<S: Source, G: Gate, R: Threads + Sync>(
    rt: &R,
    alloc: Global,
    gate: &G,
    topology: &Topology,
    reader: FastReader<Snapshot>,
    job: Job<S>,
) -> Read<S>
    requires topology { reader.topology ≡ topology.now }
    requires alone { ReadsAlone job }
    ensures { HasReadBy topology.now reader job result }
{
    let Job {
        number,
        script,
        feeds,
        room,
    } = job;
    let mut reader = reader;
    let bench = Bench {
        alloc,
        topology,
        gate,
        job: number,
    };
    let mut told = List::new(alloc);
    let done = bench.do_lines(rt, &mut reader, lines_of_script(&script), &mut told);
    let done = JobDone {
        number,
        told,
        feeds: give_back(feeds, room),
        wanted_memory: done.is_err(),
    };
    Read { reader, done }
}
