//! Words of the command line that no run on real files has: none at all, and a file with an empty name.

use crate::whole_run::{RING, add_file, compare, file, run_into, texts, whole_sink};
use dn_io::NoGate;
use dn_run::Status;
use std::alloc::Global;
use std::process::Abort;
use std::sync::Wait;
use std::thread::Threads;

/// The file `topology` has other routers than the one with the empty name, which has the ring.
fn compare_words<R: Abort + Threads + Wait + Sync>(
    rt: &R,
    alloc: Global,
    words: &[&str],
    status: Status,
    text: &str,
) {
    let mut files = Vec::new(alloc);
    let other = file(rt, alloc, "topology", b"routers = [\"r-1\"]\n");
    add_file(rt, &mut files, other);
    add_file(rt, &mut files, file(rt, alloc, "", RING.as_bytes()));
    add_file(rt, &mut files, file(rt, alloc, "f", &[]));
    let words = texts(rt, alloc, words);
    let run = run_into(rt, alloc, words, files, whole_sink(alloc), &NoGate);
    compare(rt, &run, status, text);
}

const FEED_OF_R1: &str = "feed 1 r1 updates 0 skipped 0 refused 0 end
history 0
job 1
done
";

#[test]
fn reads_no_words_and_an_empty_name(rt: HostRuntime) {
    let alloc = rt.alloc();
    compare_words(&rt, alloc, &[], Status::BadWords, "error words\n");
    let words = ["deltanet", "run", ""];
    compare_words(&rt, alloc, &words, Status::Done, "history 0\ndone\n");
    let words = ["deltanet", "run", "", "r1=f"];
    compare_words(&rt, alloc, &words, Status::Done, FEED_OF_R1);
}
