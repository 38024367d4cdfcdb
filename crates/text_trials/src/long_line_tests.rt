//! The report's lines of entries with the longest names and numbers, of every kind of entry.

use crate::printed::{printed, report_of};
use dn_model::{DropKind, Entry, LinkId, Op, Posted, Prefix, RouterId, Target, Topology};
use std::alloc::Global;
use std::process::Abort;
use topology::read_topology;
use version_pages::Pages;

const FIRST: RouterId = RouterId(0);

const SECOND: RouterId = RouterId(1);

const LINK: LinkId = LinkId(0);

/// Two routers and a link whose names have 32 bytes, as many as a name may have.
const LONG_NAMES: &str =
    "routers = [\"a-router-whose-name-has-32-bytes\", \"b-router-whose-name-has-32-bytes\"]
[[link]]
name = \"the-link-whose-name-has-32-bytes\"
ends = [\"a-router-whose-name-has-32-bytes:2\", \"b-router-whose-name-has-32-bytes:2\"]
";

/// The network with the long names.
fn network(rt: &impl Abort, alloc: Global) -> Topology {
    read_topology(alloc, LONG_NAMES.as_bytes())
        .ok()
        .expect(rt, "a topology")
}

/// An update of the first router's feed.
fn update(op: Op) -> Entry {
    Entry::Route {
        router: FIRST,
        feed_no: u32::MAX,
        op,
    }
}

/// The update that sets the longest prefix with the greatest metric to a target.
fn set(target: Target) -> Entry {
    update(Op::Set {
        prefix: Prefix::new(u32::MAX, 32),
        metric: u32::MAX,
        target,
    })
}

/// The update that clears the longest prefix, of one metric or of all.
fn clear(metric: Option<u32>) -> Entry {
    update(Op::Clear {
        prefix: Prefix::new(u32::MAX, 32),
        metric,
    })
}

/// An object of the greatest number that leads to a target.
fn object(target: Target) -> Entry {
    update(Op::Object {
        id: u32::MAX,
        target,
    })
}

/// The link goes down or comes up, by a line of the job of the greatest number.
fn link(down: bool) -> Entry {
    Entry::Link {
        job: u32::MAX,
        link: LINK,
        down,
    }
}

/// The route of the longest prefix by the object of the greatest number.
fn set_by_object() -> Entry {
    update(Op::SetBy {
        prefix: Prefix::new(u32::MAX, 32),
        metric: u32::MAX,
        id: u32::MAX,
    })
}

/// The report of a history of these entries alone is this text.
fn compare_lines(rt: &impl Abort, alloc: Global, entries: &[Entry], want: &str) {
    let topology = network(rt, alloc);
    let mut history = Pages::new();
    for entry in entries {
        let posted = Posted {
            seat: 0,
            entry: *entry,
        };
        history.push(alloc, posted).expect(rt, "memory");
    }
    let report = report_of(rt, alloc, topology, &[], &history, &[]);
    let sink = printed(rt, alloc, report);
    assert_eq!(rt; sink.written(), want.as_bytes(), "{want}");
}

#[test]
fn prints_the_longest_lines_of_each_target(rt: HostRuntime) {
    let entries = [
        set(Target::NoRoute),
        set(Target::Dropped(DropKind::Blackhole)),
        set(Target::Dropped(DropKind::Unreachable)),
        set(Target::Dropped(DropKind::Prohibit)),
        set(Target::Local),
        set(Target::Exit(u32::MAX)),
        set(Target::OnLink(u32::MAX)),
        set(Target::To(SECOND, LINK)),
        set(Target::LinkDown(LINK)),
    ];
    let want = "history 9\n\
1 feed 4294967295 a-router-whose-name-has-32-bytes set 255.255.255.255/32 metric 4294967295 noroute\n\
2 feed 4294967295 a-router-whose-name-has-32-bytes set 255.255.255.255/32 metric 4294967295 dropped blackhole\n\
3 feed 4294967295 a-router-whose-name-has-32-bytes set 255.255.255.255/32 metric 4294967295 dropped unreachable\n\
4 feed 4294967295 a-router-whose-name-has-32-bytes set 255.255.255.255/32 metric 4294967295 dropped prohibit\n\
5 feed 4294967295 a-router-whose-name-has-32-bytes set 255.255.255.255/32 metric 4294967295 local\n\
6 feed 4294967295 a-router-whose-name-has-32-bytes set 255.255.255.255/32 metric 4294967295 exit 4294967295\n\
7 feed 4294967295 a-router-whose-name-has-32-bytes set 255.255.255.255/32 metric 4294967295 onlink 4294967295\n\
8 feed 4294967295 a-router-whose-name-has-32-bytes set 255.255.255.255/32 metric 4294967295 \
to b-router-whose-name-has-32-bytes by the-link-whose-name-has-32-bytes\n\
9 feed 4294967295 a-router-whose-name-has-32-bytes set 255.255.255.255/32 metric 4294967295 \
linkdown the-link-whose-name-has-32-bytes\n\
done\n";
    compare_lines(&rt, rt.alloc(), &entries, want);
}

#[test]
fn prints_the_longest_lines_of_other_entries(rt: HostRuntime) {
    let entries = [
        clear(None),
        clear(Some(u32::MAX)),
        set_by_object(),
        object(Target::To(SECOND, LINK)),
        update(Op::NoObject { id: u32::MAX }),
        link(true),
        link(false),
    ];
    let want = "history 7\n\
1 feed 4294967295 a-router-whose-name-has-32-bytes clear 255.255.255.255/32\n\
2 feed 4294967295 a-router-whose-name-has-32-bytes clear 255.255.255.255/32 metric 4294967295\n\
3 feed 4294967295 a-router-whose-name-has-32-bytes set 255.255.255.255/32 metric 4294967295 by object 4294967295\n\
4 feed 4294967295 a-router-whose-name-has-32-bytes object 4294967295 \
to b-router-whose-name-has-32-bytes by the-link-whose-name-has-32-bytes\n\
5 feed 4294967295 a-router-whose-name-has-32-bytes noobject 4294967295\n\
6 job 4294967295 down the-link-whose-name-has-32-bytes\n\
7 job 4294967295 up the-link-whose-name-has-32-bytes\n\
done\n";
    compare_lines(&rt, rt.alloc(), &entries, want);
}

/// Metrics at each number of digits, and on both sides of where it grows.
#[test]
fn prints_numbers_of_each_length(rt: HostRuntime) {
    let entries = [
        clear(Some(0)),
        clear(Some(9)),
        clear(Some(10)),
        clear(Some(99)),
        clear(Some(100)),
        clear(Some(999)),
        clear(Some(1_000)),
        clear(Some(10_005)),
        clear(Some(100_050)),
        clear(Some(999_999)),
        clear(Some(1_000_000)),
        clear(Some(70_000_001)),
    ];
    let want = "history 12\n\
1 feed 4294967295 a-router-whose-name-has-32-bytes clear 255.255.255.255/32 metric 0\n\
2 feed 4294967295 a-router-whose-name-has-32-bytes clear 255.255.255.255/32 metric 9\n\
3 feed 4294967295 a-router-whose-name-has-32-bytes clear 255.255.255.255/32 metric 10\n\
4 feed 4294967295 a-router-whose-name-has-32-bytes clear 255.255.255.255/32 metric 99\n\
5 feed 4294967295 a-router-whose-name-has-32-bytes clear 255.255.255.255/32 metric 100\n\
6 feed 4294967295 a-router-whose-name-has-32-bytes clear 255.255.255.255/32 metric 999\n\
7 feed 4294967295 a-router-whose-name-has-32-bytes clear 255.255.255.255/32 metric 1000\n\
8 feed 4294967295 a-router-whose-name-has-32-bytes clear 255.255.255.255/32 metric 10005\n\
9 feed 4294967295 a-router-whose-name-has-32-bytes clear 255.255.255.255/32 metric 100050\n\
10 feed 4294967295 a-router-whose-name-has-32-bytes clear 255.255.255.255/32 metric 999999\n\
11 feed 4294967295 a-router-whose-name-has-32-bytes clear 255.255.255.255/32 metric 1000000\n\
12 feed 4294967295 a-router-whose-name-has-32-bytes clear 255.255.255.255/32 metric 70000001\n\
done\n";
    compare_lines(&rt, rt.alloc(), &entries, want);
}
