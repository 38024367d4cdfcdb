//! Feeds of devices with VRFs: to which router each update goes, and which interfaces its route may leave by.

ghost use Rattle.std.specs.Prelude.{◌<◌};

use crate::frames::SET_TEN;
use crate::routes::{Said, frame_of};
use crate::same::{same, same_list};
use crate::test_network::{FIRST, SECOND, two_devices};
use dn_io::MemSource;
use dn_model::{LinkId, Op, Prefix, RouterId, Target};
use route_feed::{FeedReader, FeedStep};
use std::alloc::Global;
use std::process::Abort;

/// The VRFs: table 10 of `r1`, table 10 of `r2`, and table 1034 of `r1`.
const FIRST_VRF: RouterId = RouterId(2);

const SECOND_VRF: RouterId = RouterId(3);

const WIDE_VRF: RouterId = RouterId(4);

/// The links: between `r1` and `r2`, between the first VRF and `r2`, and between `r1` and that VRF.
const A: LinkId = LinkId(0);

const D: LinkId = LinkId(1);

const E: LinkId = LinkId(2);

/// What the first frame of a device's feed comes to.
fn first_step(rt: &impl Abort, alloc: Global, device: RouterId, feed: &[u8]) -> FeedStep
    requires { device.0 < 5 }
{
    let topology = two_devices(rt, alloc);
    let bytes = Vec::from_slice(alloc, feed).expect(rt, "memory");
    let source = MemSource::new(bytes, 4096, Vec::new(alloc));
    let mut reader = FeedReader::new(alloc, source, device, 1, 10_000);
    reader.next_frame(alloc, &topology).expect(rt, "memory")
}

/// The first frame of a device's feed has these updates and passes so many messages over.
fn compare_updates(
    rt: &impl Abort,
    alloc: Global,
    device: RouterId,
    feed: &[u8],
    want: &[(RouterId, Op)],
    passed: u32,
)
    requires { device.0 < 5 }
{
    match first_step(rt, alloc, device, feed) {
        FeedStep::Ops(updates, skipped) => {
            same_list(rt, updates.as_slice(), want);
            same(rt, &skipped, &passed);
        }
        _ => panic!(rt; "no updates"),
    }
}

/// A frame that says these in a device's feed has these updates and passes so many messages over.
fn compare_said(
    rt: &impl Abort,
    alloc: Global,
    device: RouterId,
    said: &[Said],
    want: &[(RouterId, Op)],
    passed: u32,
)
    requires { device.0 < 5 }
{
    let feed = frame_of(rt, alloc, said);
    compare_updates(rt, alloc, device, feed.as_slice(), want, passed);
}

/// 10.0.0.0/8 with metric 20 goes there.
fn set(router: RouterId, target: Target) -> (RouterId, Op) {
    let prefix = Prefix::new(0x0a00_0000, 8);
    let op = Op::Set {
        prefix,
        metric: 20,
        target,
    };
    (router, op)
}

/// 10.0.0.0/8 with metric 20 is deleted.
fn clear(router: RouterId) -> (RouterId, Op) {
    let prefix = Prefix::new(0x0a00_0000, 8);
    let metric = Some(20);
    (router, Op::Clear { prefix, metric })
}

/// Updates stand in the order of their messages, each with the router of its table. A message of a table that the device
/// has none of is passed over, also where its interface isn't there.
#[test]
fn a_frame_of_several_tables(rt: HostRuntime) {
    let said = [
        (10, Some(3)),
        (99, Some(2)),
        (254, Some(2)),
        (1034, Some(6)),
        (10, None),
        (11, Some(77)),
        (254, None),
        (255, None),
        (1034, None),
    ];
    let want = [
        set(FIRST_VRF, Target::To(SECOND, D)),
        set(FIRST, Target::To(SECOND, A)),
        set(WIDE_VRF, Target::Exit(6)),
        clear(FIRST_VRF),
        clear(FIRST),
        clear(WIDE_VRF),
    ];
    compare_said(&rt, rt.alloc(), FIRST, &said, &want, 3);
}

/// An interface is looked for among all of the device's, whichever of its routers has it in the topology. Of a link
/// between two of these, a route through its far end goes to its own router.
#[test]
fn a_route_may_leave_by_the_interface_of_another_table(rt: HostRuntime) {
    let said = [
        (10, Some(2)),
        (254, Some(3)),
        (10, Some(6)),
        (254, Some(6)),
        (254, Some(4)),
        (10, Some(5)),
        (254, Some(5)),
        (10, Some(4)),
        (1034, Some(4)),
    ];
    let want = [
        set(FIRST_VRF, Target::To(SECOND, A)),
        set(FIRST, Target::To(SECOND, D)),
        set(FIRST_VRF, Target::Exit(6)),
        set(FIRST, Target::Exit(6)),
        set(FIRST, Target::To(FIRST_VRF, E)),
        set(FIRST_VRF, Target::To(FIRST, E)),
        set(FIRST, Target::To(FIRST, E)),
        set(FIRST_VRF, Target::To(FIRST_VRF, E)),
        set(WIDE_VRF, Target::To(FIRST_VRF, E)),
    ];
    compare_said(&rt, rt.alloc(), FIRST, &said, &want, 0);
}

/// A table's number is that of the device whose feed it stands in.
#[test]
fn two_devices_have_tables_of_one_number(rt: HostRuntime) {
    let alloc = rt.alloc();
    let said = [(10, Some(2)), (1034, Some(2)), (10, Some(3)), (254, None)];
    let want = [
        set(FIRST_VRF, Target::To(SECOND, A)),
        set(WIDE_VRF, Target::To(SECOND, A)),
        set(FIRST_VRF, Target::To(SECOND, D)),
        clear(FIRST),
    ];
    compare_said(&rt, alloc, FIRST, &said, &want, 0);
    let want = [
        set(SECOND_VRF, Target::To(FIRST, A)),
        set(SECOND_VRF, Target::To(FIRST_VRF, D)),
        clear(SECOND),
    ];
    compare_said(&rt, alloc, SECOND, &said, &want, 1);
}

/// The table with the number 0 is the device's main one.
#[test]
fn a_message_of_no_table_is_of_the_main_one(rt: HostRuntime) {
    let mut frame = SET_TEN;
    frame[24] = 0;
    let want = [set(FIRST, Target::To(SECOND, A))];
    compare_updates(&rt, rt.alloc(), FIRST, &frame, &want, 0);
}

/// A route of a VRF whose interface isn't the device's: none of the frame's updates is handed out.
#[test]
fn an_interface_of_no_router_of_the_device(rt: HostRuntime) {
    let alloc = rt.alloc();
    let said = [(254, Some(2)), (99, Some(9)), (10, Some(9)), (10, None)];
    let feed = frame_of(&rt, alloc, &said);
    let step = first_step(&rt, alloc, FIRST, feed.as_slice());
    let FeedStep::Refused { offset, at, cause } = step else {
        panic!(rt; "not refused");
    };
    same(&rt, &(offset, at, cause), &(0, 120, 13));
}
