//! What trials of reports share: a network of three routers, histories of it, and the text of its report.

use crate::printed::{printed, report_of};
use dn_formats::JobTold;
use dn_model::{Entry, LinkId, Op, Posted, Prefix, RouterId, Topology};
use feed_model::FeedTold;
use std::alloc::Global;
use std::process::Abort;
use topology::read_topology;
use version_pages::Pages;

pub(crate) const FIRST: RouterId = RouterId(0);

pub(crate) const SECOND: RouterId = RouterId(1);

pub(crate) const THIRD: RouterId = RouterId(2);

const TRIANGLE: &str = "routers = [\"r1\", \"r2\", \"r3\"]
[[link]]
name = \"a\"
ends = [\"r1:2\", \"r2:2\"]
[[link]]
name = \"b\"
ends = [\"r2:3\", \"r3:2\"]
[[link]]
name = \"c\"
ends = [\"r3:3\", \"r1:3\"]
[[edge]]
at = \"r1:1\"
[[edge]]
at = \"r2:1\"
[[edge]]
at = \"r3:1\"
";

/// Three routers in a triangle.
pub(crate) fn triangle(rt: &impl Abort, alloc: Global) -> Topology {
    read_topology(alloc, TRIANGLE.as_bytes())
        .ok()
        .expect(rt, "a topology")
}

/// An update of r1's feed.
pub(crate) fn update(op: Op) -> Entry {
    Entry::Route {
        router: FIRST,
        feed_no: 1,
        op,
    }
}

/// The update that clears 10.0.0.0/8, of one metric or of all.
pub(crate) fn clear_ten(metric: Option<u32>) -> Entry {
    update(Op::Clear {
        prefix: Prefix::new(0x0a00_0000, 8),
        metric,
    })
}

/// Link b goes down or comes up, by a line of job 2.
pub(crate) fn link_entry(down: bool) -> Entry {
    Entry::Link {
        job: 2,
        link: LinkId(1),
        down,
    }
}

/// A history of these entries.
pub(crate) fn history(rt: &impl Abort, alloc: Global, entries: &[Entry]) -> Pages<Posted> {
    let mut history = Pages::new();
    for entry in entries {
        let posted = Posted {
            seat: 0,
            entry: *entry,
        };
        history.push(alloc, posted).expect(rt, "memory");
    }
    history
}

/// The report of these is this text.
pub(crate) fn compare_report(
    rt: &impl Abort,
    alloc: Global,
    feeds: &[FeedTold],
    history: &Pages<Posted>,
    jobs: &[JobTold],
    want: &str,
) {
    let topology = triangle(rt, alloc);
    let report = report_of(rt, alloc, topology, feeds, history, jobs);
    let sink = printed(rt, alloc, report);
    assert_eq!(rt; sink.written(), want.as_bytes(), "{want}");
}
