//! Streams in pieces, lost headers, and written frames.

ghost use Rattle.std.specs.Prelude.{◌≡◌, ◌+◌, ◌<◌, ◌≤◌, ◌^◌, length};

use crate::same::{same, same_list};
use dn_model::OutOfMemory;
use fpm_frame::{Cutter, Finish, Next, write_frame};
use std::alloc::Global;
use std::process::Abort;

/// What a stream was cut into: each frame, and then how it ended.
#[derive(Debug, PartialEq, Drop)]
enum Cut {
    Frame(u64, u8, Vec<u8>),
    Ended(Finish),
    Lost(u64, u8),
}

/// Takes the frame at the front, if one stands there.
fn take_frame(alloc: Global, cutter: &mut Cutter, cuts: &mut Vec<Cut>) -> Result<bool, OutOfMemory>
    ensures count { cutter.new.offset + length cutter.new.held ≡ cutter.old.offset + length cutter.old.held }
{
    match cutter.next() {
        Next::Frame {
            offset,
            kind,
            payload,
        } => {
            let payload = Vec::from_slice(alloc, payload)?;
            cuts.push(Cut::Frame(offset, kind, payload))?;
            cutter.pass();
            Ok(true)
        }
        _ => Ok(false),
    }
}

/// Takes all frames that stand at the front; a test has fewer than ten.
fn take_frames(alloc: Global, cutter: &mut Cutter, cuts: &mut Vec<Cut>) -> Result<(), OutOfMemory>
    ensures count { cutter.new.offset + length cutter.new.held ≡ cutter.old.offset + length cutter.old.held }
{
    for _ in 0..10 {
        if !take_frame(alloc, cutter, cuts)? {
            return Ok(());
        }
    }
    Ok(())
}

/// How the stream stands after its frames.
fn take_end(cutter: &Cutter, cuts: &mut Vec<Cut>) -> Result<(), OutOfMemory> {
    match cutter.next() {
        Next::Frame { .. } => {}
        Next::More => cuts.push(Cut::Ended(cutter.finish()))?,
        Next::Lost { offset, cause } => cuts.push(Cut::Lost(offset, cause))?,
    }
    Ok(())
}

/// The stream in one piece.
fn cut_whole(alloc: Global, stream: &[u8]) -> Result<Vec<Cut>, OutOfMemory>
    requires { length stream.now < 2 ^ 63 }
{
    let mut cutter = Cutter::new(alloc);
    let mut cuts = Vec::new(alloc);
    cutter.feed(stream)?;
    take_frames(alloc, &mut cutter, &mut cuts)?;
    take_end(&cutter, &mut cuts)?;
    Ok(cuts)
}

/// The stream byte by byte.
fn cut_bytes(alloc: Global, stream: &[u8]) -> Result<Vec<Cut>, OutOfMemory>
    requires { length stream.now < 2 ^ 63 }
{
    let mut cutter = Cutter::new(alloc);
    let mut cuts = Vec::new(alloc);
    for i in 0..stream.len() {
        cutter.feed(&stream[i..i + 1])?;
        take_frames(alloc, &mut cutter, &mut cuts)?;
    }
    take_end(&cutter, &mut cuts)?;
    Ok(cuts)
}

/// A stream in one piece is cut into these.
fn compare_whole(rt: &impl Abort, alloc: Global, stream: &[u8], want: &Vec<Cut>)
    requires { length stream.now < 2 ^ 63 }
{
    let cuts = cut_whole(alloc, stream).expect(rt, "memory");
    same(rt, &cuts, want);
}

/// A stream byte by byte is cut into these.
fn compare_bytes(rt: &impl Abort, alloc: Global, stream: &[u8], want: &Vec<Cut>)
    requires { length stream.now < 2 ^ 63 }
{
    let cuts = cut_bytes(alloc, stream).expect(rt, "memory");
    same(rt, &cuts, want);
}

/// One more cut that is wanted.
fn push(rt: &impl Abort, cuts: &mut Vec<Cut>, cut: Cut) {
    cuts.push(cut).expect(rt, "memory");
}

/// A frame of kind 2 without payload, an empty one of kind 1, and one of six bytes.
fn three_frames(rt: &impl Abort, alloc: Global) -> Vec<Cut> {
    let mut cuts = Vec::new(alloc);
    push(rt, &mut cuts, Cut::Frame(0, 2, Vec::new(alloc)));
    push(rt, &mut cuts, Cut::Frame(4, 1, Vec::new(alloc)));
    let payload = Vec::from_slice(alloc, b"abcdef").expect(rt, "memory");
    push(rt, &mut cuts, Cut::Frame(8, 1, payload));
    cuts
}

/// These three frames, and the front of a further one.
const STREAM: [u8; 22] = [
    1, 2, 0, 4, 1, 1, 0, 4, 1, 1, 0, 10, 97, 98, 99, 100, 101, 102, 1, 1, 0, 5,
];

#[test]
fn cuts_frames_however_fed(rt: HostRuntime) {
    let alloc = rt.alloc();
    let mut wanted = three_frames(&rt, alloc);
    push(
        &rt,
        &mut wanted,
        Cut::Ended(Finish::CutShort { offset: 18 }),
    );
    compare_whole(&rt, alloc, &STREAM, &wanted);
    compare_bytes(&rt, alloc, &STREAM, &wanted);
}

#[test]
fn ends_after_whole_frames(rt: HostRuntime) {
    let alloc = rt.alloc();
    let mut wanted = three_frames(&rt, alloc);
    push(&rt, &mut wanted, Cut::Ended(Finish::End));
    compare_whole(&rt, alloc, &STREAM[..18], &wanted);
    compare_bytes(&rt, alloc, &STREAM[..18], &wanted);
}

/// After a lost header nothing is read as a frame.
#[test]
fn reads_no_frame_after_a_lost_header(rt: HostRuntime) {
    let alloc = rt.alloc();
    let mut wanted = Vec::new(alloc);
    push(&rt, &mut wanted, Cut::Frame(0, 1, Vec::new(alloc)));
    push(&rt, &mut wanted, Cut::Lost(4, 15));
    compare_bytes(&rt, alloc, &[1, 1, 0, 4, 0, 1, 1, 0, 4], &wanted);
}

/// The frame of a kind with a payload, as it is written.
fn compare_written(rt: &impl Abort, alloc: Global, kind: u8, payload: &[u8], want: &[u8])
    requires { length payload.now ≤ 65531 }
{
    let frame = write_frame(alloc, kind, payload).expect(rt, "memory");
    same_list(rt, frame.as_slice(), want);
}

#[test]
fn writes_frames(rt: HostRuntime) {
    let alloc = rt.alloc();
    compare_written(&rt, alloc, 2, b"", &[1, 2, 0, 4]);
    compare_written(&rt, alloc, 1, b"abc", &[1, 1, 0, 7, 97, 98, 99]);
}

/// Its bound alone says that what it takes, and gives back, may cross threads; none is started.
fn crosses<T: Send + Sync>(value: T) -> T
    ensures { result ≡ value }
{
    value
}

/// That cutters may cross threads is said by the bound of `crosses`: no thread is started here, and what counts is that
/// the call is proved. A cutter that nothing was fed to ends.
#[test]
fn cutters_are_send_and_sync(rt: HostRuntime) {
    let alloc = rt.alloc();
    let cutter = crosses(Cutter::new(alloc));
    let mut cuts = Vec::new(alloc);
    take_end(&cutter, &mut cuts).expect(&rt, "memory");
    let mut wanted = Vec::new(alloc);
    push(&rt, &mut wanted, Cut::Ended(Finish::End));
    same(&rt, &cuts, &wanted);
}
