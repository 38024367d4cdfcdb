//! Feeds of `r1` in a triangle of three routers: what their frames come to, and how they end.

ghost use Rattle.std.specs.Prelude.{◌≡◌, ◌<◌, ◌≤◌, ◌^◌, length};

use crate::frames::{CHANGE_TEN, SET_IPV6, SET_MULTIPATH, SET_TEN, bytes_of};
use crate::same::{same, same_list};
use crate::test_network::{FIRST, triangle};
use dn_io::{MemSource, Source};
use dn_model::Topology;
use feed_model::{FeedEnd, FeedTold};
use route_feed::{FeedReader, FeedStep};
use std::alloc::Global;
use std::process::Abort;

/// What a reader answered: the number of its updates and of messages passed over, a refusal, or an end.
#[derive(Clone, Copy, Debug, PartialEq)]
enum Seen {
    Counts(usize, u32),
    Refused(u64, u32, u8),
    Ended(FeedEnd),
}

fn see(step: &FeedStep) -> Seen {
    match step {
        FeedStep::Ops(ops, skipped) => Seen::Counts(ops.len(), *skipped),
        FeedStep::Refused { offset, at, cause } => Seen::Refused(*offset, *at, *cause),
        FeedStep::End => Seen::Ended(FeedEnd::End),
        FeedStep::CutShort { offset } => Seen::Ended(FeedEnd::CutShort { offset: *offset }),
        FeedStep::Lost { offset, cause } => Seen::Ended(FeedEnd::Lost {
            offset: *offset,
            cause: *cause,
        }),
        FeedStep::TooLong => Seen::Ended(FeedEnd::TooLong),
        FeedStep::Faulted => Seen::Ended(FeedEnd::Faulted),
    }
}

/// The next answer of a reader.
fn next_seen<S: Source>(
    rt: &impl Abort,
    alloc: Global,
    reader: &mut FeedReader<S>,
    topology: &Topology,
) -> Seen
    requires { reader.old.told.router.0 < length topology.now.routers }
    ensures { reader.new.told.router ≡ reader.old.told.router }
{
    see(&reader.next_frame(alloc, topology).expect(rt, "memory"))
}

/// The first three answers of a reader.
fn first_answers<S: Source>(
    rt: &impl Abort,
    alloc: Global,
    reader: &mut FeedReader<S>,
    topology: &Topology,
) -> [Seen; 3]
    requires { reader.old.told.router.0 < length topology.now.routers }
    ensures { reader.new.told.router ≡ reader.old.told.router }
{
    let first = next_seen(rt, alloc, reader, topology);
    let second = next_seen(rt, alloc, reader, topology);
    let third = next_seen(rt, alloc, reader, topology);
    [first, second, third]
}

/// A source of these bytes, of which a read gives at most `step`, where reads fail at these calls.
fn source_of(rt: &impl Abort, alloc: Global, bytes: &[u8], step: usize, fails: &[u64]) -> MemSource
    requires { 1 ≤ step }
    ensures { result.plan.faults ≡ 0 }
{
    let bytes = Vec::from_slice(alloc, bytes).expect(rt, "memory");
    MemSource::new(
        bytes,
        step,
        Vec::from_slice(alloc, fails).expect(rt, "memory"),
    )
}

/// What a reader of a feed of `r1` answers first to these bytes, of which `limit` are looked at and a read gives at
/// most `step`, where reads fail at these calls.
fn answers_of(
    rt: &impl Abort,
    alloc: Global,
    bytes: &[u8],
    step: usize,
    fails: &[u64],
    limit: u64,
) -> [Seen; 3]
    requires step { 1 ≤ step }
    requires some { 1 ≤ limit }
    requires most { limit ≤ 2 ^ 30 }
{
    let topology = triangle(rt, alloc);
    let source = source_of(rt, alloc, bytes, step, fails);
    let mut reader = FeedReader::new(alloc, source, FIRST, 1, limit);
    first_answers(rt, alloc, &mut reader, &topology)
}

/// The feed's end, after these answers.
const END: Seen = Seen::Ended(FeedEnd::End);

/// The next frame of a feed has so many updates, which the reader gets back; one that is refused has none.
fn compare_count<S: Source>(
    rt: &impl Abort,
    alloc: Global,
    reader: &mut FeedReader<S>,
    topology: &Topology,
    want: usize,
)
    requires { reader.old.told.router.0 < length topology.now.routers }
    ensures { reader.new.told.router ≡ reader.old.told.router }
{
    match reader.next_frame(alloc, topology).expect(rt, "memory") {
        FeedStep::Ops(ops, _) => {
            same(rt, &ops.len(), &want);
            reader.take_back(ops);
        }
        _ => same(rt, &0, &want),
    }
}

#[test]
fn a_frame_may_stand_where_the_one_before_stood(rt: HostRuntime) {
    let alloc = rt.alloc();
    let topology = triangle(&rt, alloc);
    let bytes = bytes_of(
        &rt,
        alloc,
        &[&CHANGE_TEN, &SET_TEN, &SET_MULTIPATH, &CHANGE_TEN],
    );
    let source = MemSource::new(bytes, 4096, Vec::new(alloc));
    let mut reader = FeedReader::new(alloc, source, FIRST, 1, 1000);
    compare_count(&rt, alloc, &mut reader, &topology, 2);
    compare_count(&rt, alloc, &mut reader, &topology, 1);
    compare_count(&rt, alloc, &mut reader, &topology, 0);
    compare_count(&rt, alloc, &mut reader, &topology, 2);
}

/// A route to be deleted, and then one whose interface isn't there: of such a frame nothing is handed out or counted.
#[test]
fn a_refused_frame_leaves_no_update(rt: HostRuntime) {
    let alloc = rt.alloc();
    let topology = triangle(&rt, alloc);
    let mut unknown = CHANGE_TEN;
    unknown[96] = 9;
    let bytes = bytes_of(&rt, alloc, &[&unknown, &SET_TEN]);
    let source = MemSource::new(bytes, 64, Vec::new(alloc));
    let mut reader = FeedReader::new(alloc, source, FIRST, 1, 1000);
    let found = first_answers(&rt, alloc, &mut reader, &topology);
    let want = [Seen::Refused(0, 44, 13), Seen::Counts(1, 0), END];
    same(&rt, &found, &want);
    same(&rt, &reader.told().updates, &1);
    same(&rt, &reader.told().refused.len(), &1);
}

/// What a feed comes to of which so many bytes are looked at.
fn compare_limit(rt: &impl Abort, alloc: Global, bytes: &[u8], limit: u64, want: [Seen; 3])
    requires some { 1 ≤ limit }
    requires most { limit ≤ 2 ^ 30 }
{
    same(rt, &answers_of(rt, alloc, bytes, 64, &[], limit), &want);
}

#[test]
fn a_feed_ends_at_its_limit(rt: HostRuntime) {
    let alloc = rt.alloc();
    let one = Seen::Counts(1, 0);
    let long = Seen::Ended(FeedEnd::TooLong);
    compare_limit(&rt, alloc, &SET_TEN, 64, [one, END, END]);
    compare_limit(&rt, alloc, &SET_TEN, 63, [long, long, long]);
    let twice = bytes_of(&rt, alloc, &[&SET_TEN, &SET_TEN]);
    compare_limit(&rt, alloc, twice.as_slice(), 64, [one, long, long]);
}

#[test]
fn a_fault_comes_after_whole_frames(rt: HostRuntime) {
    let alloc = rt.alloc();
    let twice = bytes_of(&rt, alloc, &[&SET_TEN, &SET_TEN]);
    let faulted = Seen::Ended(FeedEnd::Faulted);
    let want = [Seen::Counts(1, 0), faulted, faulted];
    let found = answers_of(&rt, alloc, twice.as_slice(), 100, &[2], 1000);
    same(&rt, &found, &want);
}

/// What is told of the feed of `what_is_told_and_given_back`.
fn compare_told(rt: &impl Abort, told: &FeedTold) {
    let end = FeedEnd::Lost {
        offset: 192,
        cause: 15,
    };
    same(rt, &told.end, &Some(end));
    same(rt, &told.feed_no, &3);
    same(rt, &told.updates, &2);
    same(rt, &told.skipped, &1);
    same(rt, &told.refused.len(), &1);
}

#[test]
fn what_is_told_and_given_back(rt: HostRuntime) {
    let alloc = rt.alloc();
    let topology = triangle(&rt, alloc);
    let feed = bytes_of(
        &rt,
        alloc,
        &[&CHANGE_TEN, &SET_IPV6, &SET_MULTIPATH, &[2, 7]],
    );
    let source = MemSource::new(feed, 64, Vec::new(alloc));
    let mut reader = FeedReader::new(alloc, source, FIRST, 3, 193);
    first_answers(&rt, alloc, &mut reader, &topology);
    first_answers(&rt, alloc, &mut reader, &topology);
    compare_told(&rt, reader.told());
    let (source, told) = reader.into_parts();
    same_list(&rt, source.left(), &[7]);
    compare_told(&rt, &told);
}
