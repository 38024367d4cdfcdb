//! Whole runs over routers that are marked or not, against reports worked out by hand.

use crate::ring_run::{Given, MAIN, clear_in, compare_parts, compare_run, set_in};
use crate::whole_run::{add, text};
use dn_run::Status;
use std::alloc::Global;
use std::process::Abort;
use std::sync::Wait;
use std::thread::Threads;

/// The device `r1` is marked, and has a VRF.
const DEVICE: &str = "[[router]]
name = \"r1\"
replace = \"prefix\"
[[vrf]]
router = \"r1\"
table = 10
name = \"v1\"
";

/// A VRF of `r1` is marked.
const VRF: &str = "[[router]]
name = \"v1\"
replace = \"prefix\"
[[vrf]]
router = \"r1\"
table = 10
name = \"v1\"
";

/// The report of a run whose feed sets the route twice and then deletes the second one of this router, which then does
/// this.
fn report_of(rt: &impl Abort, alloc: Global, router: &str, after: &str) -> String {
    let mut report = text(
        rt,
        alloc,
        "feed 1 r1 updates 3 skipped 0 refused 0 end\nhistory 3\n",
    );
    let entries = format!(in alloc;
        "1 feed 1 {router} set 10.0.0.0/8 metric 20 to r2 by a
2 feed 1 {router} set 10.0.0.0/8 metric 5 to r3 by c
3 feed 1 {router} clear 10.0.0.0/8 metric 5
"
    );
    add(rt, &mut report, entries);
    let change = format!(in alloc;
        "job 1\nline 2 at 3 delta\n{router} 10.0.0.0-10.255.255.255 to r3 by c -> {after}\ndone\n"
    );
    add(rt, &mut report, change);
    report
}

/// Two routes of one prefix are set in a table, and the second one is deleted: this router then does this.
fn compare_after<R: Abort + Threads + Wait + Sync>(
    rt: &R,
    alloc: Global,
    more: &str,
    table: u8,
    router: &str,
    after: &str,
) {
    let given = Given {
        more,
        feed: &[
            &set_in(table, 20, 2),
            &set_in(table, 5, 3),
            &clear_in(table, 5),
        ],
        script: "take r1 all\ndelta\n",
    };
    let report = report_of(rt, alloc, router, after);
    compare_run(rt, alloc, given, report.as_str());
}

/// On a marked router the second route took the first one's place. A device's mark isn't its VRF's, nor a VRF's its
/// device's.
#[test]
fn a_marked_router_replaces_by_prefix(rt: HostRuntime) {
    let alloc = rt.alloc();
    compare_after(&rt, alloc, DEVICE, MAIN, "r1", "noroute");
    compare_after(&rt, alloc, DEVICE, 10, "v1", "to r2 by a");
    compare_after(&rt, alloc, VRF, 10, "v1", "noroute");
    compare_after(&rt, alloc, VRF, MAIN, "r1", "to r2 by a");
}

/// A device is marked twice, the second time as it is anyway.
const TWICE: &str = "[[router]]
name = \"r1\"
replace = \"prefix\"
[[router]]
name = \"r1\"
";

#[test]
fn a_router_is_marked_once(rt: HostRuntime) {
    let given = Given {
        more: TWICE,
        feed: &[],
        script: "",
    };
    let line = "error topology router 2 12 TwiceMarked\n";
    compare_parts(&rt, rt.alloc(), &[], given, Status::BadTopology, line);
}
