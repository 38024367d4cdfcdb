//! Runs that meet no fault of a file or of the sink.

ghost use Rattle.std.specs.Prelude.{◌≡◌, [], None, Some, map};
ghost use Rattle.std.specs.String.{string_bytes};
ghost use Rattle.dn_io.specs.Calls.{names_of};
ghost use Rattle.dn_io.specs.Worlds.{sure_files};
ghost use Rattle.dn_run.specs.Exit.{exit_of};
ghost use Rattle.dn_run.specs.Run.{IsDue, IsWritten, names_of_words};
ghost use Rattle.dn_run.specs.Stage.{AnswersCalls, AsksFor};

use crate::program::run;
use crate::status::Status;
use dn_io::{Gate, SureSink, SureWorld};
use std::alloc::Global;
use std::sync::Wait;
use std::thread::Threads;

/// Runs the program over files in memory and a sink, neither of which ever fails, and tells its status. No such run
/// ends with a fault of reading or of writing; all else is as `run` promises. The sink keeps nothing of what is
/// written.
///
/// The world was asked for no name yet.
pub fn run_surely<G: Gate, R: Threads + Wait + Sync>(
    rt: &R,
    alloc: Global,
    words: &[String],
    world: &mut SureWorld,
    gate: &G,
) -> Status
    requires { world.old.calls ≡ [] }
    ensures headline { IsWritten (IsDue (map string_bytes words.now) (Some (sure_files world.old)) world.new.calls)
        (exit_of result) None None }
    ensures no_read_fault { result ≡ Status.ReadFault → ⊥ }
    ensures no_write_fault { result ≡ Status.WriteFault → ⊥ }
    ensures names { AsksFor (exit_of result) (names_of world.new.calls) (names_of_words (map string_bytes words.now)) }
    ensures files { AnswersCalls (exit_of result) world.new.calls }
{
    let mut sink = SureSink;
    let status = run(rt, alloc, words, world, &mut sink, gate);
    let _calls = world.calls();
    status
}
