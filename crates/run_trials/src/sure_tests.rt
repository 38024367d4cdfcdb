//! A run that meets no fault, and the numbers of statuses.

use crate::same::same;
use crate::whole_run::{RING, TAKE_ALL, USUAL, set_frame, text, texts};
use dn_io::{NoGate, SureFile, SureWorld};
use dn_run::{Status, run_surely};
use std::alloc::Global;
use std::process::Abort;
use std::sync::Wait;
use std::thread::Threads;

/// All but the last byte.
fn but_the_last(bytes: &[u8]) -> &[u8] {
    match bytes {
        [front @ .., _] => front,
        [] => bytes,
    }
}

/// A file of a world without faults.
fn sure_file(rt: &impl Abort, alloc: Global, name: &str, bytes: &[u8]) -> SureFile {
    SureFile {
        name: text(rt, alloc, name),
        bytes: Vec::from_slice(alloc, bytes).expect(rt, "memory"),
    }
}

/// The status of a run over the ring, a script and this feed of `r1`.
fn status_of<R: Abort + Threads + Wait + Sync>(rt: &R, alloc: Global, feed: &[u8]) -> Status {
    let files = [
        sure_file(rt, alloc, "topology", RING.as_bytes()),
        sure_file(rt, alloc, "script", TAKE_ALL.as_bytes()),
        sure_file(rt, alloc, "f1", feed),
    ];
    let files = Vec::from_array(alloc, files).expect(rt, "memory");
    let words = texts(rt, alloc, &USUAL);
    let mut world = SureWorld::new(alloc, files);
    run_surely(rt, alloc, words.as_slice(), &mut world, &NoGate)
}

/// The run over this feed ends with this status, which has this number.
fn compare_status<R: Abort + Threads + Wait + Sync>(
    rt: &R,
    alloc: Global,
    feed: &[u8],
    want: Status,
    number: u8,
) {
    let status = status_of(rt, alloc, feed);
    same(rt, &status, &want);
    same(rt, &status.number(), &number);
}

#[test]
fn a_run_without_faults(rt: HostRuntime) {
    let alloc = rt.alloc();
    let frame = set_frame(0, 8, 2);
    compare_status(&rt, alloc, &frame, Status::Done, 0);
    compare_status(&rt, alloc, but_the_last(&frame), Status::Refusals, 1);
}
