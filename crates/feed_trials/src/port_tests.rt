//! One reader of two networks, in which an interface means different things: where it was found in the one doesn't
//! mislead in the other.

ghost use Rattle.std.specs.Prelude.{◌≡◌, ◌<◌, length};

use crate::frames::SET_TEN;
use crate::same::same;
use crate::test_network::{FIRST, SECOND, THIRD, one_link, triangle};
use dn_io::{MemSource, Source};
use dn_model::{LinkId, Op, Target, Topology};
use route_feed::{FeedReader, FeedStep};
use std::alloc::Global;
use std::process::Abort;

/// Frames that set 10.0.0.0/8 by a gateway, each at its interface.
fn frames_at(rt: &impl Abort, alloc: Global, interfaces: &[u8]) -> Vec<u8> {
    let mut bytes = Vec::new(alloc);
    for interface in interfaces {
        let mut frame = SET_TEN;
        frame[52] = *interface;
        bytes.extend_from_slice(&frame).expect(rt, "memory");
    }
    bytes
}

/// The target that the next frame sets at `r1`, and None where it is refused.
fn next_target<S: Source>(
    rt: &impl Abort,
    alloc: Global,
    reader: &mut FeedReader<S>,
    topology: &Topology,
) -> Option<Target>
    requires { reader.old.told.router.0 < length topology.now.routers }
    ensures { reader.new.told.router ≡ reader.old.told.router }
{
    match reader.next_frame(alloc, topology).expect(rt, "memory") {
        FeedStep::Ops(ops, _) => match ops.as_slice() {
            [(router, Op::Set { target, .. })] if *router == FIRST => Some(*target),
            _ => None,
        },
        _ => None,
    }
}

/// Four frames at these interfaces of `r1` set these targets, read in the triangle and in the network of one link by
/// turns.
fn compare_targets(rt: &impl Abort, alloc: Global, interfaces: &[u8], want: [Option<Target>; 4]) {
    let triangle = triangle(rt, alloc);
    let one_link = one_link(rt, alloc);
    let source = MemSource::new(frames_at(rt, alloc, interfaces), 4096, Vec::new(alloc));
    let mut reader = FeedReader::new(alloc, source, FIRST, 1, 1000);
    let first = next_target(rt, alloc, &mut reader, &triangle);
    let second = next_target(rt, alloc, &mut reader, &one_link);
    let third = next_target(rt, alloc, &mut reader, &triangle);
    let fourth = next_target(rt, alloc, &mut reader, &one_link);
    same(rt, &[first, second, third, fourth], &want);
}

#[test]
fn an_interface_of_two_networks(rt: HostRuntime) {
    let alloc = rt.alloc();
    // an edge, and unknown
    let edge = Some(Target::Exit(1));
    compare_targets(&rt, alloc, &[1, 1, 1, 1], [edge, None, edge, None]);
    // the first link of both, to another router
    let to_second = Some(Target::To(SECOND, LinkId(0)));
    let to_third = Some(Target::To(THIRD, LinkId(0)));
    let want = [to_second, to_third, to_second, to_third];
    compare_targets(&rt, alloc, &[2, 2, 2, 2], want);
    // the end of a link, and an edge
    let to_third = Some(Target::To(THIRD, LinkId(2)));
    let edge = Some(Target::Exit(3));
    compare_targets(&rt, alloc, &[3, 3, 3, 3], [to_third, edge, to_third, edge]);
}

#[test]
fn interfaces_noted_at_one_place(rt: HostRuntime) {
    let alloc = rt.alloc();
    // 66 is noted where 2 is, 67 where 3 is, and neither is an interface
    let to_second = Some(Target::To(SECOND, LinkId(0)));
    compare_targets(&rt, alloc, &[2, 66, 66, 67], [to_second, None, None, None]);
    let to_third = Some(Target::To(THIRD, LinkId(2)));
    let edge = Some(Target::Exit(3));
    compare_targets(&rt, alloc, &[3, 3, 67, 3], [to_third, edge, None, edge]);
}
