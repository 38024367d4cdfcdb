//! The program: from the words of the command line to what was written.

ghost use Rattle.std.specs.Prelude.{◌≡◌, ◌<◌, ◌≤◌, [], ℕ, length, map, All, IsTrue};
ghost use Rattle.std.specs.Arc.{arc_value};
ghost use Rattle.std.specs.String.{string_bytes};
ghost use Rattle.dn_io.specs.Calls.{names_of};
ghost use Rattle.base.specs.Lists.{all_differ};
ghost use Rattle.dn_run.specs.Ending.{ending_of};
ghost use Rattle.dn_run.specs.Jobs.{AreFewJobs, AreFit, scripts_of, same_router};
ghost use Rattle.dn_run.specs.PartsRead.{feed_texts};
ghost use Rattle.dn_run.specs.Exit.{ByVerdict, exit_of};
ghost use Rattle.dn_run.specs.Run.{IsDue, IsWritten, IsFinished, names_of_run, names_of_words, feed_files};
ghost use Rattle.dn_run.specs.Stage.{Stage, AsksFor, AnswersCalls, CountsWrites};
ghost use Rattle.dn_run.specs.Stops.{from_feeds as feeds_due, from_run as run_due, from_words as words_due};
ghost use Rattle.dn_run.specs.WordsRefused.{run_texts};

use crate::feeds::{Opening, from_feeds};
use crate::input::{Input, read_input};
use crate::jobs::{Rooms, Work};
use crate::made::make;
use crate::ruling::{Ruling, refusal};
use crate::status::{Status, Verdict};
use crate::stop::Stop;
use crate::words::{Command, RunCommand, WordsRefused, read_words};
use dn_formats::ErrorLine;
use dn_io::{Gate, Sink, World};
use dn_model::OutOfMemory;
use std::alloc::Global;
use std::sync::Wait;
use std::thread::Threads;

/// Opens the feeds of an input, and runs the jobs over them.
fn run_input<W: World, G: Gate, R: Threads + Wait + Sync>(
    rt: &R,
    alloc: Global,
    input: Input,
    world: &mut W,
    gate: &G,
) -> Result<Ruling, OutOfMemory>
    requires as_many { length input.routers.items ≡ length input.feeds.items }
    requires few { length input.feeds.items ≤ 64 }
    requires jobs { AreFewJobs (scripts_of input.scripts.items) input.routers.items }
    requires fit_scripts { AreFit (scripts_of input.scripts.items) }
    requires known { All (λ r. r.0 < length (arc_value input.topology).routers) input.routers.items }
    requires apart { IsTrue (all_differ same_router input.routers.items) }
    requires room { length (W.calls world.old) ≤ 65 }
    ensures { Stage (W.calls world.old) (W.calls world.new) (feed_files (map feed_texts input.feeds.items))
        (ending_of result)
        (feeds_due (W.files world.old) (arc_value input.topology) input.routers.items
        (scripts_of input.scripts.items) (map feed_texts input.feeds.items) (ending_of result)) }
{
    let Input {
        topology,
        scripts,
        feeds,
        routers,
    } = input;
    let readers = Vec::with_capacity(alloc, feeds.len())?;
    let rooms = Rooms::new(alloc, feeds.len())?;
    let work = Work {
        topology: &topology,
        scripts,
        readers,
    };
    let opening = Opening {
        work,
        rooms,
        feeds: feeds.as_slice(),
        routers: routers.as_slice(),
    };
    let (ruling, _none) = from_feeds(rt, alloc, opening, world, gate);
    ruling
}

/// What a run over files comes to.
fn run_files<W: World, G: Gate, R: Threads + Wait + Sync>(
    rt: &R,
    alloc: Global,
    command: &RunCommand,
    world: &mut W,
    gate: &G,
) -> Result<Ruling, OutOfMemory>
    requires fresh { W.calls world.old ≡ [] }
    ensures { Stage [] (W.calls world.new) (names_of_run (run_texts command.now)) (ending_of result)
        (run_due (run_texts command.now) (W.files world.old) (ending_of result)) }
{
    match read_input(alloc, command, world) {
        Ok(input) => run_input(rt, alloc, input, world, gate),
        Err(Stop::Line(verdict, line)) => refusal(alloc, verdict, line),
        Err(Stop::OutOfMemory) => Err(OutOfMemory),
    }
}

/// What these words come to.
fn rule<W: World, G: Gate, R: Threads + Wait + Sync>(
    rt: &R,
    alloc: Global,
    words: &[String],
    world: &mut W,
    gate: &G,
) -> Result<Ruling, OutOfMemory>
    requires fresh { W.calls world.old ≡ [] }
    ensures { Stage [] (W.calls world.new) (names_of_words (map string_bytes words.now)) (ending_of result)
        (words_due (map string_bytes words.now) (W.files world.old) (ending_of result)) }
{
    match read_words(alloc, words) {
        Ok(Command::Run(command)) => run_files(rt, alloc, &command, world, gate),
        Ok(Command::Make(n)) => make(rt, alloc, n, gate),
        Err(WordsRefused::BadWords) => refusal(alloc, Verdict::BadWords, ErrorLine::Words),
        Err(WordsRefused::OutOfMemory) => Err(OutOfMemory),
    }
}

/// Writes what a run came to, and tells its status.
fn finish<K: Sink>(sink: &mut K, ruling: Ruling) -> Status
    ensures done { IsFinished ruling.verdict ruling.text (exit_of result) (K.written sink.old) (K.written sink.new) }
    ensures counts { CountsWrites (exit_of result) (K.faults sink.old) (K.faults sink.new) }
    ensures not_memory { result ≡ Status.OutOfMemory → ⊥ }
{
    let Ruling { verdict, text } = ruling;
    match text.write(sink) {
        Ok(()) => status_of(verdict),
        Err(_) => Status::WriteFault,
    }
}

/// The status of a verdict whose text was written whole.
fn status_of(verdict: Verdict) -> Status
    ensures { exit_of result ≡ ByVerdict verdict }
{
    match verdict {
        Verdict::Done => Status::Done,
        Verdict::Refusals => Status::Refusals,
        Verdict::BadWords => Status::BadWords,
        Verdict::BadTopology => Status::BadTopology,
        Verdict::BadScript => Status::BadScript,
        Verdict::ReadFault => Status::ReadFault,
    }
}

/// Runs the program over the words of the command line, the program's name first: `run TOPOLOGY [ROUTER=FEED |
/// @SCRIPT]..` or `make N`. Reads the files from the world, and writes one report, or one error line, to the sink.
/// `make` makes its input, of 1 to 1,000,000 updates, asks the world for nothing, and writes a summary of three lines.
///
/// The world was asked for no name yet, and no write of the sink has failed yet.
pub fn run<W: World, K: Sink, G: Gate, R: Threads + Wait + Sync>(
    rt: &R,
    alloc: Global,
    words: &[String],
    world: &mut W,
    sink: &mut K,
    gate: &G,
) -> Status
    requires fresh_world { W.calls world.old ≡ [] }
    requires fresh_sink { K.faults sink.old ≡ 0 }
    // What was written is what is due by the words, the files' bytes and what became of each file that was asked for.
    ensures headline { IsWritten (IsDue (map string_bytes words.now) (W.files world.old) (W.calls world.new))
        (exit_of result) (K.written sink.old) (K.written sink.new) }
    // The names of the words are asked for in order: all of them at the statuses 0 and 1, else the first of them.
    ensures names { AsksFor (exit_of result) (names_of (W.calls world.new))
        (names_of_words (map string_bytes words.now)) }
    // Every source was given back, and one failed exactly where the status says so.
    ensures files { AnswersCalls (exit_of result) (W.calls world.new) }
    // A write failed exactly where the status says so, and nothing was written where memory was wanted.
    ensures writes { CountsWrites (exit_of result) (K.faults sink.old) (K.faults sink.new) }
    ensures nothing { result ≡ Status.OutOfMemory → K.written sink.new ≡ K.written sink.old }
{
    match rule(rt, alloc, words, world, gate) {
        Ok(ruling) => finish(sink, ruling),
        Err(OutOfMemory) => Status::OutOfMemory,
    }
}
