//! Whole runs over sources and sinks in memory that fail, or take and give a byte at a time, against reports worked out by
//! hand.

ghost use Rattle.std.specs.Prelude.{◌≡◌, ◌≤◌, All};

use crate::whole_run::{
    RING, TAKE_ALL, USUAL, WholeRun, add_file, compare, file, file_by, run_into, set_frame, texts,
    whole_sink,
};
use dn_io::{MemFile, MemSink, NoGate};
use dn_run::Status;
use std::alloc::Global;
use std::process::Abort;
use std::sync::Wait;
use std::thread::Threads;

/// Runs the usual words over a topology, the usual script and a feed, into this sink.
fn run_usual<R: Abort + Threads + Wait + Sync>(
    rt: &R,
    alloc: Global,
    topology: MemFile,
    feed: MemFile,
    sink: MemSink,
) -> WholeRun
    requires topology { 1 ≤ topology.step }
    requires feed { 1 ≤ feed.step }
    requires sink { sink.plan.faults ≡ 0 }
{
    let words = texts(rt, alloc, &USUAL);
    let mut files = Vec::new(alloc);
    add_file(rt, &mut files, topology);
    let script = file(rt, alloc, "script", TAKE_ALL.as_bytes());
    add_file(rt, &mut files, script);
    add_file(rt, &mut files, feed);
    run_into(rt, alloc, words, files, sink, &NoGate)
}

/// A run of the usual words, over the ring and this feed of `r1`, into this sink, comes to this status and text.
fn compare_feed_into<R: Abort + Threads + Wait + Sync>(
    rt: &R,
    alloc: Global,
    feed: MemFile,
    sink: MemSink,
    status: Status,
    text: &str,
)
    requires feed { 1 ≤ feed.step }
    requires sink { sink.plan.faults ≡ 0 }
{
    let topology = file(rt, alloc, "topology", RING.as_bytes());
    let run = run_usual(rt, alloc, topology, feed, sink);
    compare(rt, &run, status, text);
}

const FIRST_PATH: &str = "feed 1 r1 updates 1 skipped 0 refused 0 end
history 1
1 feed 1 r1 set 10.0.0.0/8 metric 20 to r2 by a
job 1
line 2 at 1 path r1 10.1.2.3
hops r1 r2
end noroute
done
";

#[test]
fn tells_of_a_path_byte_by_byte(rt: HostRuntime) {
    let alloc = rt.alloc();
    let feed = file_by(&rt, alloc, "f1", &set_frame(0, 8, 2), 1, &[]);
    let sink = MemSink::new(alloc, 1, Vec::new(alloc));
    compare_feed_into(&rt, alloc, feed, sink, Status::Done, FIRST_PATH);
}

#[test]
fn stops_where_the_sink_fails(rt: HostRuntime) {
    let alloc = rt.alloc();
    let feed = file(&rt, alloc, "f1", &set_frame(0, 8, 2));
    let fails = Vec::from_slice(alloc, &[2]).expect(&rt, "memory");
    let sink = MemSink::new(alloc, 16, fails);
    compare_feed_into(
        &rt,
        alloc,
        feed,
        sink,
        Status::WriteFault,
        "feed 1 r1 update",
    );
}

const FAILED_FEED: &str = "feed 1 r1 updates 1 skipped 0 refused 0 readfault
history 1
1 feed 1 r1 set 10.0.0.0/8 metric 20 to r2 by a
job 1
line 2 at 1 path r1 10.1.2.3
hops r1 r2
end noroute
done
";

#[test]
fn a_feed_that_fails_ends_alone(rt: HostRuntime) {
    let alloc = rt.alloc();
    let feed = file_by(&rt, alloc, "f1", &set_frame(0, 8, 2), 64, &[2]);
    compare_feed_into(
        &rt,
        alloc,
        feed,
        whole_sink(alloc),
        Status::ReadFault,
        FAILED_FEED,
    );
}

#[test]
fn a_topology_that_fails_is_told(rt: HostRuntime) {
    let alloc = rt.alloc();
    let topology = file_by(&rt, alloc, "topology", RING.as_bytes(), 4096, &[1]);
    let feed = file(&rt, alloc, "f1", &set_frame(0, 8, 2));
    let sink = whole_sink(alloc);
    let run = run_usual(&rt, alloc, topology, feed, sink);
    compare(&rt, &run, Status::ReadFault, "error read topology\n");
}
