//! Generic callers, as the crates above are, and the objects in memory through them.

ghost use Rattle.std.specs.Prelude.{◌≡◌, ◌+◌, ◌<◌, ◌≤◌, ◌^◌, [], length, IfOk, OnOk, IfSome, Some};
ghost use Rattle.dn_io.specs.Calls.{NoneOut};
ghost use Rattle.dn_io.specs.Files.{bytes_of};
ghost use Rattle.dn_io.specs.Told.{with_front, NothingLeft};

use crate::same::{same, same_list};
use dn_io::{
    CallBook, Gate, MemFile, MemSink, MemSource, MemWorld, NoGate, Point, Sink, Source, SureFile,
    SureSink, SureWorld, World, WorldRefused,
};
use std::alloc::Global;
use std::process::Abort;

#[derive(Debug, Drop)]
enum NotRead {
    Failed,
    OutOfMemory,
}

/// Reads what comes next, at most four bytes, onto the end of `out`, and says how many came.
fn read_some<S: Source>(source: &mut S, out: &mut Vec<u8>) -> Result<usize, NotRead>
    ensures all { OnOk result
        (with_front out.old.items (S.left source.old) ≡ with_front out.new.items (S.left source.new)) }
    ensures end { IfOk result (λ n. n ≡ 0 → NothingLeft (S.left source.new)) }
    ensures count { OnOk result (S.faults source.new ≡ S.faults source.old) }
    ensures place { S.place source.new ≡ S.place source.old }
{
    let mut piece = [0u8; 4];
    match source.read(&mut piece) {
        Ok(n) => match out.extend_from_slice(&piece[..n]) {
            Ok(()) => Ok(n),
            Err(_) => Err(NotRead::OutOfMemory),
        },
        Err(_) => Err(NotRead::Failed),
    }
}

/// Reads a source to its end, or 1,000 pieces of it.
fn read_all<S: Source>(alloc: Global, source: &mut S) -> Result<Option<Vec<u8>>, NotRead>
    ensures all { IfOk result (λ found. IfSome found (λ all. IfSome (S.left source.old) (λ bytes. all.items ≡ bytes))) }
    ensures place { S.place source.new ≡ S.place source.old }
{
    let mut all = Vec::new(alloc);
    for _ in 0..1000 {
        if read_some(source, &mut all)? == 0 {
            return Ok(Some(all));
        }
    }
    Ok(None)
}

/// Opens a file of a world, reads it and gives it back.
#[tactic(auto, using(dn_io::proofs::CallsLemmas::handed))]
fn read_file<W: World>(alloc: Global, world: &mut W, name: &str) -> Result<Option<Vec<u8>>, NotRead>
    requires { length (W.calls world.old) < 2 ^ 32 }
    ensures all { IfOk result (λ found. IfSome found (λ all.
        IfSome (W.files world.old) (λ files. bytes_of files name.now ≡ Some all.items))) }
    ensures back { NoneOut (W.calls world.old) → NoneOut (W.calls world.new) }
    ensures asked { length (W.calls world.new) ≤ length (W.calls world.old) + 1 }
{
    match world.source_of(name) {
        Ok(mut source) => {
            let read = read_all(alloc, &mut source);
            world.give_back(source);
            read
        }
        Err(WorldRefused::Failed) => Err(NotRead::Failed),
        Err(WorldRefused::OutOfMemory) => Err(NotRead::OutOfMemory),
    }
}

/// Writes once, and says how many bytes were taken; 99 where the sink failed.
fn write_once<K: Sink>(sink: &mut K, piece: &[u8]) -> usize {
    sink.write(piece).unwrap_or(99)
}

/// Reads once, and says how many bytes came; 99 where the source failed.
fn read_once<S: Source>(source: &mut S, buf: &mut [u8]) -> usize {
    source.read(buf).unwrap_or(99)
}

/// Its bound alone says that what it takes may cross threads; none is started.
fn crosses<T: Send + Sync>(_value: &T) {}

fn passes<G: Gate>(gate: &G) {
    gate.at(1, Point::BeforeApply);
}

/// Numbers of calls.
fn numbers(rt: &impl Abort, alloc: Global, numbers: &[u64]) -> Vec<u64> {
    Vec::from_slice(alloc, numbers).expect(rt, "memory")
}

fn text_of(rt: &impl Abort, alloc: Global, text: &[u8]) -> Vec<u8> {
    Vec::from_slice(alloc, text).expect(rt, "memory")
}

/// A read at a buffer of five bytes, of which it may fill so many, gives this number and leaves these in it.
fn compare_read<S: Source>(rt: &impl Abort, source: &mut S, room: usize, count: usize, want: &[u8])
    requires { room ≤ 5 }
{
    let mut buf = [b'-'; 5];
    same(rt, &read_once(source, &mut buf[..room]), &count);
    same_list(rt, buf.as_slice(), want);
}

/// What is left of a source, and how often it has failed.
fn compare_source(rt: &impl Abort, source: &MemSource, left: &[u8], faults: u64) {
    same_list(rt, source.left(), left);
    same(rt, &source.faults(), &faults);
}

#[test]
fn a_source_gives_steps_and_fails_where_it_is_told(rt: HostRuntime) {
    let alloc = rt.alloc();
    let bytes = text_of(&rt, alloc, b"abcdefg");
    let mut source = MemSource::new(bytes, 3, numbers(&rt, alloc, &[2]));
    crosses(&source);
    compare_read(&rt, &mut source, 5, 3, b"abc--");
    compare_read(&rt, &mut source, 5, 99, b"-----");
    compare_source(&rt, &source, b"defg", 1);
    compare_read(&rt, &mut source, 2, 2, b"de---");
    compare_read(&rt, &mut source, 5, 2, b"fg---");
    compare_read(&rt, &mut source, 5, 0, b"-----");
    compare_source(&rt, &source, b"", 1);
}

fn compare_write<K: Sink>(rt: &impl Abort, sink: &mut K, piece: &[u8], count: usize) {
    same(rt, &write_once(sink, piece), &count);
}

/// What a sink took, and how often it has failed.
fn compare_sink(rt: &impl Abort, sink: &MemSink, written: &[u8], faults: u64) {
    same_list(rt, sink.written(), written);
    same(rt, &sink.faults(), &faults);
}

#[test]
fn a_sink_takes_steps_and_fails_where_it_is_told(rt: HostRuntime) {
    let alloc = rt.alloc();
    let mut sink = MemSink::new(alloc, 4, numbers(&rt, alloc, &[2]));
    crosses(&sink);
    compare_write(&rt, &mut sink, b"report", 4);
    compare_write(&rt, &mut sink, b"rt", 99);
    compare_sink(&rt, &sink, b"repo", 1);
    compare_write(&rt, &mut sink, b"rt", 2);
    compare_write(&rt, &mut sink, b"", 0);
    compare_sink(&rt, &sink, b"report", 1);
    let mut sure = SureSink;
    crosses(&sure);
    compare_write(&rt, &mut sure, b"report", 6);
    passes(&NoGate);
    crosses(&NoGate);
}

/// A file of which a read gives at most `step` bytes, and fails at these calls.
fn mem_file(
    rt: &impl Abort,
    alloc: Global,
    name: &str,
    bytes: &[u8],
    step: usize,
    fails: &[u64],
) -> MemFile
    requires { 1 ≤ step }
    ensures { result.step ≡ step }
{
    MemFile {
        name: String::from_str(alloc, name).expect(rt, "memory"),
        bytes: text_of(rt, alloc, bytes),
        step,
        fails: numbers(rt, alloc, fails),
    }
}

/// A world of two files, which fails at these calls.
fn world_of(
    rt: &impl Abort,
    alloc: Global,
    first: MemFile,
    second: MemFile,
    fails: &[u64],
) -> MemWorld
    requires first { 1 ≤ first.step }
    requires second { 1 ≤ second.step }
    ensures { result.calls ≡ [] }
{
    let mut files = Vec::new(alloc);
    files.push(first).expect(rt, "memory");
    files.push(second).expect(rt, "memory");
    MemWorld::new(alloc, files, numbers(rt, alloc, fails))
}

/// A file of a world has these bytes.
fn compare_file<W: World>(rt: &impl Abort, alloc: Global, world: &mut W, name: &str, want: &[u8])
    requires { length (W.calls world.old) < 2 ^ 32 }
    ensures { length (W.calls world.new) ≤ length (W.calls world.old) + 1 }
{
    match read_file(alloc, world, name) {
        Ok(Some(all)) => same_list(rt, all.as_slice(), want),
        _ => panic!(rt; "not read"),
    }
}

/// A file of a world isn't read.
fn compare_failed<W: World>(rt: &impl Abort, alloc: Global, world: &mut W, name: &str)
    requires { length (W.calls world.old) < 2 ^ 32 }
    ensures { length (W.calls world.new) ≤ length (W.calls world.old) + 1 }
{
    assert!(rt; matches!(read_file(alloc, world, name), Err(NotRead::Failed)));
}

/// The calls of `a_world_takes_back_what_it_hands_out`.
fn compare_calls(rt: &impl Abort, calls: &CallBook) {
    assert_eq!(rt; calls.len(), 4);
    same(rt, &calls.name(1), &"bad");
    assert!(rt; !calls.is_out(0) && !calls.has_failed(0));
    same(rt, &calls.left(0), &Some(b"".as_slice()));
    assert!(rt; !calls.is_out(1) && calls.has_failed(1));
    same(rt, &calls.left(1), &Some(b"es".as_slice()));
    assert!(rt; calls.has_failed(2) && calls.has_failed(3));
    same(rt, &calls.left(3), &None);
}

#[test]
fn a_world_takes_back_what_it_hands_out(rt: HostRuntime) {
    let alloc = rt.alloc();
    let good = mem_file(&rt, alloc, "good", b"routes", 4, &[]);
    let bad = mem_file(&rt, alloc, "bad", b"routes", 4, &[2]);
    let mut world = world_of(&rt, alloc, good, bad, &[4]);
    crosses(&world);
    compare_file(&rt, alloc, &mut world, "good", b"routes");
    compare_failed(&rt, alloc, &mut world, "bad");
    compare_failed(&rt, alloc, &mut world, "none");
    compare_failed(&rt, alloc, &mut world, "good");
    compare_calls(&rt, world.calls());
}

#[test]
fn an_earlier_file_hides_a_later_one(rt: HostRuntime) {
    let alloc = rt.alloc();
    let earlier = mem_file(&rt, alloc, "f", b"earlier", 1, &[]);
    let later = mem_file(&rt, alloc, "f", b"later", 1, &[]);
    let mut world = world_of(&rt, alloc, earlier, later, &[]);
    match world.source_of("f") {
        Ok(source) => same_list(&rt, source.left(), b"earlier"),
        Err(_) => panic!(rt; "not opened"),
    }
    compare_file(&rt, alloc, &mut world, "f", b"earlier");
}

/// The calls of `a_sure_world_has_every_name`.
fn compare_sure_calls(rt: &impl Abort, calls: &CallBook) {
    assert_eq!(rt; calls.len(), 2);
    assert!(rt; !calls.is_out(0) && !calls.has_failed(0));
    assert!(rt; !calls.is_out(1) && !calls.has_failed(1));
}

/// A world of one file, `f`.
fn sure_world_of(rt: &impl Abort, alloc: Global, bytes: &[u8]) -> SureWorld
    ensures { result.calls ≡ [] }
{
    let mut files = Vec::new(alloc);
    files
        .push(SureFile {
            name: String::from_str(alloc, "f").expect(rt, "memory"),
            bytes: text_of(rt, alloc, bytes),
        })
        .expect(rt, "memory");
    SureWorld::new(alloc, files)
}

#[test]
fn a_sure_world_has_every_name(rt: HostRuntime) {
    let alloc = rt.alloc();
    let mut world = sure_world_of(&rt, alloc, b"routes");
    crosses(&world);
    compare_file(&rt, alloc, &mut world, "f", b"routes");
    compare_file(&rt, alloc, &mut world, "g", b"");
    compare_sure_calls(&rt, world.calls());
}
