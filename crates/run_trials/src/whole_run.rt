//! What trials of whole runs share: a network, frames, files in memory, and a run over them.

ghost use Rattle.std.specs.Prelude.{◌≡◌, ◌≤◌, All};

use dn_io::{Gate, MemFile, MemSink, MemWorld};
use dn_run::{Status, run};
use std::alloc::{AllocError, Global};
use std::process::Abort;
use std::sync::Wait;
use std::thread::Threads;

/// Three routers in a ring: each has an edge at its interface 1, and links at 2 and 3.
pub(crate) const RING: &str = "routers = [\"r1\", \"r2\", \"r3\"]
[[link]]
name = \"a\"
ends = [\"r1:2\", \"r2:2\"]
[[link]]
name = \"b\"
ends = [\"r2:3\", \"r3:2\"]
[[link]]
name = \"c\"
ends = [\"r3:3\", \"r1:3\"]
[[edge]]
at = \"r1:1\"
[[edge]]
at = \"r2:1\"
[[edge]]
at = \"r3:1\"
";

/// Takes the feed of `r1`, and asks for a path.
pub(crate) const TAKE_ALL: &str = "take r1 all\npath r1 10.1.2.3\n";

/// The words of a run with a feed of `r1` and a script.
pub(crate) const USUAL: [&str; 5] = ["deltanet", "run", "topology", "r1=f1", "@script"];

/// A frame that sets a prefix over interface `oif`, with this metric and the gateway 192.0.2.1.
pub(crate) fn frame_of(base: [u8; 4], len: u8, metric: u8, oif: u8) -> [u8; 64] {
    let [a, b, c, d] = base;
    [
        1, 1, 0, 64, 60, 0, 0, 0, 24, 0, 1, 5, 0, 0, 0, 0, 0, 0, 0, 0, 2, len, 0, 0, 254, 11, 0, 1,
        0, 0, 0, 0, 8, 0, 1, 0, a, b, c, d, 8, 0, 5, 0, 192, 0, 2, 1, 8, 0, 4, 0, oif, 0, 0, 0, 8,
        0, 6, 0, metric, 0, 0, 0,
    ]
}

/// A frame that sets 10.`second`.0.0 of this length over interface `oif`, with metric 20.
pub(crate) fn set_frame(second: u8, len: u8, oif: u8) -> [u8; 64] {
    frame_of([10, second, 0, 0], len, 20, oif)
}

/// A text in memory.
pub(crate) fn text(rt: &impl Abort, alloc: Global, text: &str) -> String {
    String::from_str(alloc, text).expect(rt, "memory")
}

/// Texts in memory, in order.
pub(crate) fn texts(rt: &impl Abort, alloc: Global, words: &[&str]) -> Vec<String> {
    let mut texts = Vec::new(alloc);
    for word in words {
        texts.push(text(rt, alloc, word)).expect(rt, "memory");
    }
    texts
}

/// Adds to a text.
pub(crate) fn add(rt: &impl Abort, text: &mut String, more: Result<String, AllocError>) {
    let more = more.expect(rt, "memory");
    text.push_str(more.as_str()).expect(rt, "memory");
}

/// The number that a word is, or 0.
pub(crate) fn number_of(word: Option<&str>) -> u32 {
    match word {
        Some(word) => word.parse::<u32>().unwrap_or(0),
        None => 0,
    }
}

/// A file that gives `step` bytes at a time, of which these reads fail.
pub(crate) fn file_by(
    rt: &impl Abort,
    alloc: Global,
    name: &str,
    bytes: &[u8],
    step: usize,
    fails: &[u64],
) -> MemFile
    requires { 1 ≤ step }
    ensures { 1 ≤ result.step }
{
    MemFile {
        name: text(rt, alloc, name),
        bytes: Vec::from_slice(alloc, bytes).expect(rt, "memory"),
        step,
        fails: Vec::from_slice(alloc, fails).expect(rt, "memory"),
    }
}

/// A file whose reads give much at a time and never fail.
pub(crate) fn file(rt: &impl Abort, alloc: Global, name: &str, bytes: &[u8]) -> MemFile
    ensures { 1 ≤ result.step }
{
    file_by(rt, alloc, name, bytes, 4096, &[])
}

/// Adds a file, each of which gives some bytes at a time.
pub(crate) fn add_file(rt: &impl Abort, files: &mut Vec<MemFile>, file: MemFile)
    requires files { All (λ file. 1 ≤ file.step) files.old.items }
    requires file { 1 ≤ file.step }
    ensures { All (λ file. 1 ≤ file.step) files.new.items }
{
    files.push(file).expect(rt, "memory");
}

/// A sink that takes much at a time and never fails.
pub(crate) fn whole_sink(alloc: Global) -> MemSink
    ensures { result.plan.faults ≡ 0 }
{
    MemSink::new(alloc, 4096, Vec::new(alloc))
}

/// A run that was made: its words, its status and what it wrote.
#[derive(Drop)]
pub(crate) struct WholeRun {
    pub(crate) words: Vec<String>,
    pub(crate) status: Status,
    pub(crate) written: Vec<u8>,
}

/// Runs these words over these files, into this sink. A gate may hold the jobs.
pub(crate) fn run_into<R: Abort + Threads + Wait + Sync, G: Gate>(
    rt: &R,
    alloc: Global,
    words: Vec<String>,
    files: Vec<MemFile>,
    mut sink: MemSink,
    gate: &G,
) -> WholeRun
    requires files { All (λ file. 1 ≤ file.step) files.items }
    requires sink { sink.plan.faults ≡ 0 }
{
    let mut world = MemWorld::new(alloc, files, Vec::new(alloc));
    let status = run(rt, alloc, words.as_slice(), &mut world, &mut sink, gate);
    let written = Vec::from_slice(alloc, sink.written()).expect(rt, "memory");
    WholeRun {
        words,
        status,
        written,
    }
}

/// The words of a run of the file `topology` with these parts.
pub(crate) fn words_with(rt: &impl Abort, alloc: Global, parts: &[&str]) -> Vec<String> {
    let mut words = texts(rt, alloc, &["deltanet", "run", "topology"]);
    for part in parts {
        words.push(text(rt, alloc, part)).expect(rt, "memory");
    }
    words
}

/// Runs the file `topology` with these parts over these files. A gate may hold the jobs.
pub(crate) fn run_parts<R: Abort + Threads + Wait + Sync, G: Gate>(
    rt: &R,
    alloc: Global,
    parts: &[&str],
    files: Vec<MemFile>,
    gate: &G,
) -> WholeRun
    requires files { All (λ file. 1 ≤ file.step) files.items }
{
    let words = words_with(rt, alloc, parts);
    run_into(rt, alloc, words, files, whole_sink(alloc), gate)
}

/// A run came to this status and wrote this text.
pub(crate) fn compare(rt: &impl Abort, run: &WholeRun, status: Status, text: &str) {
    assert_eq!(rt; run.status, status, "of {:?}", run.words);
    assert_eq!(rt;
        run.written.as_slice(),
        text.as_bytes(),
        "of {:?}: {text}",
        run.words
    );
}

/// So many of the last bytes, or all of them.
fn last_bytes(bytes: &[u8], count: usize) -> &[u8] {
    if count <= bytes.len() {
        &bytes[bytes.len() - count..]
    } else {
        bytes
    }
}

/// A run came to this status and wrote a text with this end.
pub(crate) fn compare_tail(rt: &impl Abort, run: &WholeRun, status: Status, tail: &str) {
    assert_eq!(rt; run.status, status, "of {:?}", run.words);
    let last = last_bytes(run.written.as_slice(), tail.len());
    assert_eq!(rt; last, tail.as_bytes(), "of {:?}: {tail}", run.words);
}
