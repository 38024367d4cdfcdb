//! Whole runs over a device with a VRF, against reports worked out by hand.

use crate::ring_run::{Given, MAIN, compare_parts, compare_run, set_in};
use dn_run::Status;
use std::alloc::Global;
use std::process::Abort;
use std::sync::Wait;
use std::thread::Threads;

/// The VRF `v1` of `r1`, and a link from it to `r2`.
const VRF_TO_R2: &str = "[[vrf]]
router = \"r1\"
table = 10
name = \"v1\"
[[link]]
name = \"d\"
ends = [\"v1:5\", \"r2:5\"]
";

/// The same VRF, and a link from its device to it.
const VRF_BESIDE: &str = "[[vrf]]
router = \"r1\"
table = 10
name = \"v1\"
[[link]]
name = \"d\"
ends = [\"r1:5\", \"v1:6\"]
";

/// The same VRF with an interface that its device has.
const VRF_ON_LINK: &str = "[[vrf]]
router = \"r1\"
table = 10
name = \"v1\"
[[edge]]
at = \"v1:2\"
";

const PATHS: &str = "take r1 all
path v1 10.1.2.3
path r1 10.1.2.3
";

const OF_VRF: &str = "feed 1 r1 updates 1 skipped 0 refused 0 end
history 1
1 feed 1 v1 set 10.0.0.0/8 metric 20 to r2 by d
job 1
line 2 at 1 path v1 10.1.2.3
hops v1 r2
end noroute
line 3 at 1 path r1 10.1.2.3
hops r1
end noroute
done
";

const OF_NO_VRF: &str = "feed 1 r1 updates 0 skipped 1 refused 0 end
history 0
job 1
line 2 path v1 10.1.2.3
unknown router v1
line 3 at 0 path r1 10.1.2.3
hops r1
end noroute
done
";

/// A route of a table goes to the device's VRF of that table. Where the device has none it is passed over.
#[test]
fn a_route_of_a_vrf(rt: HostRuntime) {
    let alloc = rt.alloc();
    let given = Given {
        more: VRF_TO_R2,
        feed: &[&set_in(10, 20, 5)],
        script: PATHS,
    };
    compare_run(&rt, alloc, given, OF_VRF);
    compare_run(&rt, alloc, Given { more: "", ..given }, OF_NO_VRF);
}

const USES: &str = "take r1 all
uses d
uses a
path r1 10.1.2.3
path v1 10.1.2.3
";

const USED: &str = "feed 1 r1 updates 2 skipped 0 refused 0 end
history 2
1 feed 1 r1 set 10.0.0.0/8 metric 20 to r2 by d
2 feed 1 v1 set 10.0.0.0/8 metric 20 to r2 by a
job 1
line 2 at 2 uses d
from v1
none
from r2
none
line 3 at 2 uses a
from r1
none
from r2
none
line 4 at 2 path r1 10.1.2.3
hops r1 r2
end noroute
line 5 at 2 path v1 10.1.2.3
hops v1 r2
end noroute
done
";

/// A device's route by an interface of its VRF, and the other way round. What a link is used for is asked of the two
/// routers at its ends alone.
#[test]
fn routes_by_the_interface_of_another_table(rt: HostRuntime) {
    let given = Given {
        more: VRF_TO_R2,
        feed: &[&set_in(MAIN, 20, 5), &set_in(10, 20, 2)],
        script: USES,
    };
    compare_run(&rt, rt.alloc(), given, USED);
}

const ROUND: &str = "take r1 all
path v1 10.1.2.3
path r1 10.1.2.3
loops
uses d
blackholes v1
down d
loops
delta
";

const ROUND_AT_ONE: &str = "feed 1 r1 updates 2 skipped 0 refused 0 end
history 3
1 feed 1 v1 set 10.0.0.0/8 metric 20 to v1 by d
2 feed 1 r1 set 10.0.0.0/8 metric 20 to v1 by d
3 job 1 down d
job 1
line 2 at 2 path v1 10.1.2.3
hops v1 v1 v1 v1 v1
end loop
line 3 at 2 path r1 10.1.2.3
hops r1 v1 v1 v1 v1
end loop
line 4 at 2 loops
cycle v1 least 10.0.0.0 addresses 16777216
line 5 at 2 uses d
from r1
10.0.0.0-10.255.255.255
from v1
10.0.0.0-10.255.255.255
line 6 at 2 blackholes v1
at v1 noroute
0.0.0.0-9.255.255.255
11.0.0.0-255.255.255.255
line 7 at 3 down d
line 8 at 3 loops
none
line 9 at 3 delta
r1 10.0.0.0-10.255.255.255 to v1 by d -> linkdown d
v1 10.0.0.0-10.255.255.255 to v1 by d -> linkdown d
done
";

/// A route of a VRF by its device's end of the link between them comes back to the VRF: a cycle of one router.
#[test]
fn a_cycle_of_one_router(rt: HostRuntime) {
    let given = Given {
        more: VRF_BESIDE,
        feed: &[&set_in(10, 20, 5), &set_in(MAIN, 20, 5)],
        script: ROUND,
    };
    compare_run(&rt, rt.alloc(), given, ROUND_AT_ONE);
}

/// A run of these parts with this in the topology, where the script takes a feed of `v1`, is refused so.
fn compare_error<R: Abort + Threads + Wait + Sync>(
    rt: &R,
    alloc: Global,
    parts: &[&str],
    more: &str,
    status: Status,
    line: &str,
) {
    let given = Given {
        more,
        feed: &[],
        script: "take r1 all\ntake v1 all\n",
    };
    compare_parts(rt, alloc, parts, given, status, line);
}

/// A VRF has no feed. Its interfaces are its device's.
#[test]
fn what_is_no_vrfs(rt: HostRuntime) {
    let alloc = rt.alloc();
    let parts = ["r1=f1", "v1=f1", "@script"];
    let line = "error part 2 UnknownRouter\n";
    compare_error(&rt, alloc, &parts, VRF_TO_R2, Status::BadWords, line);
    let parts = ["r1=f1", "@script"];
    let line = "error script 2 line 2 2 TakeUnknown\n";
    compare_error(&rt, alloc, &parts, VRF_TO_R2, Status::BadScript, line);
    let line = "error topology edge 4 7 EndTwice\n";
    compare_error(&rt, alloc, &parts, VRF_ON_LINK, Status::BadTopology, line);
}
