//! What trials of VRFs and marks share: whole runs of the ring with more in its topology, and a feed of `r1` whose frames
//! tell of 10.0.0.0/8.

ghost use Rattle.std.specs.Prelude.{◌≤◌, All};

use crate::whole_run::{RING, add_file, compare, file, frame_of, run_parts, text};
use dn_io::{MemFile, NoGate};
use dn_run::Status;
use std::alloc::Global;
use std::process::Abort;
use std::sync::Wait;
use std::thread::Threads;

/// The number of main tables.
pub(crate) const MAIN: u8 = 254;

/// A frame that sets the route over interface `oif`, with this metric, in this table.
pub(crate) fn set_in(table: u8, metric: u8, oif: u8) -> [u8; 64] {
    let mut frame = frame_of([10, 0, 0, 0], 8, metric, oif);
    frame[24] = table;
    frame
}

/// A frame that deletes the route with this metric from this table.
pub(crate) fn clear_in(table: u8, metric: u8) -> [u8; 48] {
    [
        1, 1, 0, 48, 44, 0, 0, 0, 25, 0, 1, 0, 0, 0, 0, 0, 0, 0, 0, 0, 2, 8, 0, 0, table, 11, 0, 1,
        0, 0, 0, 0, 8, 0, 1, 0, 10, 0, 0, 0, 8, 0, 6, 0, metric, 0, 0, 0,
    ]
}

/// A run over the ring: what stands in the topology's text after it, the feed, and the script.
#[derive(Clone, Copy)]
pub(crate) struct Given<'a> {
    pub(crate) more: &'a str,
    pub(crate) feed: &'a [&'a [u8]],
    pub(crate) script: &'a str,
}

/// The files of a run: `topology`, `f1` and `script`.
fn files(rt: &impl Abort, alloc: Global, given: Given<'_>) -> Vec<MemFile>
    ensures { All (λ file. 1 ≤ file.step) result.items }
{
    let mut topology = text(rt, alloc, RING);
    topology.push_str(given.more).expect(rt, "memory");
    let mut feed = Vec::new(alloc);
    for frame in given.feed {
        feed.extend_from_slice(frame).expect(rt, "memory");
    }
    let script = given.script.as_bytes();
    let mut files = Vec::new(alloc);
    add_file(
        rt,
        &mut files,
        file(rt, alloc, "topology", topology.as_bytes()),
    );
    add_file(rt, &mut files, file(rt, alloc, "f1", feed.as_slice()));
    add_file(rt, &mut files, file(rt, alloc, "script", script));
    files
}

/// A run of these parts comes to this status and text.
pub(crate) fn compare_parts<R: Abort + Threads + Wait + Sync>(
    rt: &R,
    alloc: Global,
    parts: &[&str],
    given: Given<'_>,
    status: Status,
    want: &str,
) {
    let run = run_parts(rt, alloc, parts, files(rt, alloc, given), &NoGate);
    compare(rt, &run, status, want);
}

/// A run of the feed and the script ends well, with this text.
pub(crate) fn compare_run<R: Abort + Threads + Wait + Sync>(
    rt: &R,
    alloc: Global,
    given: Given<'_>,
    want: &str,
) {
    let parts = ["r1=f1", "@script"];
    compare_parts(rt, alloc, &parts, given, Status::Done, want);
}
