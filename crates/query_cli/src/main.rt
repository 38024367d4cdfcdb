//! The program `deltanet`: the real files and standard output, and the words of the command line.
#![tactic(auto)]

mod fault_count;
mod file_source;
mod file_world;
mod out_sink;
#[cfg(test)]
mod same;
#[cfg(test)]
mod tests;
mod words;

use crate::file_world::FileWorld;
use crate::out_sink::OutSink;
use crate::words::words;
use dn_io::NoGate;
use dn_run::{Status, run};
use std::io;
use std::process::ExitCode;

fn main(rt: HostRuntime) -> ExitCode {
    let mut world = FileWorld::new(rt.alloc(), &rt);
    let mut sink = OutSink::new(io::writer(&rt));
    let status = match words(&rt) {
        Ok(words) => run(
            &rt,
            rt.alloc(),
            words.as_slice(),
            &mut world,
            &mut sink,
            &NoGate,
        ),
        Err(_) => Status::OutOfMemory,
    };
    ExitCode::from(status.number())
}
