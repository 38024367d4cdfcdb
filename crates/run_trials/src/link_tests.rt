//! Whole runs with lines that say that a link goes down or comes up, against reports worked out by hand.

ghost use Rattle.std.specs.Prelude.{◌≤◌, All};

use crate::whole_run::{RING, add_file, compare, compare_tail, file, run_parts, set_frame};
use dn_io::{MemFile, NoGate};
use dn_run::Status;
use std::alloc::Global;
use std::process::Abort;
use std::sync::Wait;
use std::thread::Threads;

/// The ring, a script, and a feed of each router, which sets 10.0.0.0/8 over one of its interfaces.
fn files(rt: &impl Abort, alloc: Global, script: &str, interfaces: [u8; 3]) -> Vec<MemFile>
    ensures { All (λ file. 1 ≤ file.step) result.items }
{
    let [first, second, third] = interfaces;
    let mut files = Vec::new(alloc);
    add_file(rt, &mut files, file(rt, alloc, "topology", RING.as_bytes()));
    add_file(rt, &mut files, file(rt, alloc, "script", script.as_bytes()));
    add_file(
        rt,
        &mut files,
        file(rt, alloc, "f1", &set_frame(0, 8, first)),
    );
    add_file(
        rt,
        &mut files,
        file(rt, alloc, "f2", &set_frame(0, 8, second)),
    );
    add_file(
        rt,
        &mut files,
        file(rt, alloc, "f3", &set_frame(0, 8, third)),
    );
    files
}

/// The way from r1 to r3, where it leaves the network, by these parts and this script: the run writes this text.
fn compare_way<R: Abort + Threads + Wait + Sync>(
    rt: &R,
    alloc: Global,
    parts: &[&str],
    script: &str,
    text: &str,
) {
    let files = files(rt, alloc, script, [2, 3, 1]);
    let run = run_parts(rt, alloc, parts, files, &NoGate);
    compare(rt, &run, Status::Done, text);
}

/// The parts of a run with all three feeds.
const ALL: [&str; 4] = ["r1=f1", "r2=f2", "r3=f3", "@script"];

const FAIL: &str = "take r1 all
take r2 all
take r3 all
down b
reach r1 r3
delta
up b
delta
";

const FAILED: &str = "feed 1 r1 updates 1 skipped 0 refused 0 end
feed 2 r2 updates 1 skipped 0 refused 0 end
feed 3 r3 updates 1 skipped 0 refused 0 end
history 5
1 feed 1 r1 set 10.0.0.0/8 metric 20 to r2 by a
2 feed 2 r2 set 10.0.0.0/8 metric 20 to r3 by b
3 feed 3 r3 set 10.0.0.0/8 metric 20 exit 1
4 job 1 down b
5 job 1 up b
job 1
line 4 at 4 down b
line 5 at 4 reach r1 r3
none
line 6 at 4 delta
r2 10.0.0.0-10.255.255.255 to r3 by b -> linkdown b
line 7 at 5 up b
line 8 at 5 delta
r2 10.0.0.0-10.255.255.255 linkdown b -> to r3 by b
done
";

#[test]
fn a_link_fails_and_comes_back(rt: HostRuntime) {
    compare_way(&rt, rt.alloc(), &ALL, FAIL, FAILED);
}

const TWICE: &str = "take r1 all
take r2 all
take r3 all
up b
delta
down b
delta
down b
delta
up b
delta
up b
delta
";

const TOLD_TWICE: &str = "feed 1 r1 updates 1 skipped 0 refused 0 end
feed 2 r2 updates 1 skipped 0 refused 0 end
feed 3 r3 updates 1 skipped 0 refused 0 end
history 8
1 feed 1 r1 set 10.0.0.0/8 metric 20 to r2 by a
2 feed 2 r2 set 10.0.0.0/8 metric 20 to r3 by b
3 feed 3 r3 set 10.0.0.0/8 metric 20 exit 1
4 job 1 up b
5 job 1 down b
6 job 1 down b
7 job 1 up b
8 job 1 up b
job 1
line 4 at 4 up b
line 5 at 4 delta
none
line 6 at 5 down b
line 7 at 5 delta
r2 10.0.0.0-10.255.255.255 to r3 by b -> linkdown b
line 8 at 6 down b
line 9 at 6 delta
none
line 10 at 7 up b
line 11 at 7 delta
r2 10.0.0.0-10.255.255.255 linkdown b -> to r3 by b
line 12 at 8 up b
line 13 at 8 delta
none
done
";

/// A line that says of a link what it is already is an entry, which changes nothing: a link that was never down comes
/// up, one that is down goes down, and one that is up comes up.
#[test]
fn a_line_that_changes_nothing_is_an_entry(rt: HostRuntime) {
    compare_way(&rt, rt.alloc(), &ALL, TWICE, TOLD_TWICE);
}

const EARLY: &str = "down b
delta
take r2 all
delta
path r2 10.0.0.1
up b
delta
path r2 10.0.0.1
";

const TOLD_EARLY: &str = "feed 1 r2 updates 1 skipped 0 refused 0 end
history 3
1 job 1 down b
2 feed 1 r2 set 10.0.0.0/8 metric 20 to r3 by b
3 job 1 up b
job 1
line 1 at 1 down b
line 2 at 1 delta
none
line 4 at 2 delta
r2 10.0.0.0-10.255.255.255 noroute -> linkdown b
line 5 at 2 path r2 10.0.0.1
hops r2
end linkdown b
line 6 at 3 up b
line 7 at 3 delta
r2 10.0.0.0-10.255.255.255 linkdown b -> to r3 by b
line 8 at 3 path r2 10.0.0.1
hops r2 r3
end noroute
done
";

/// A route over a link that went down before it came goes nowhere until the link comes up.
#[test]
fn a_route_comes_over_a_failed_link(rt: HostRuntime) {
    let parts = ["r2=f2", "@script"];
    compare_way(&rt, rt.alloc(), &parts, EARLY, TOLD_EARLY);
}

const UNKNOWN: &str = "down zz
loops
up zz
down b
up r1
up b
";

const TOLD_UNKNOWN: &str = "history 2
1 job 1 down b
2 job 1 up b
job 1
line 1 down zz
unknown link zz
line 2 at 0 loops
none
line 3 up zz
unknown link zz
line 4 at 1 down b
line 5 up r1
unknown link r1
line 6 at 2 up b
done
";

/// A line of a link that the network hasn't makes no entry, and the job goes on.
#[test]
fn a_job_goes_on_after_an_unknown_link(rt: HostRuntime) {
    compare_way(&rt, rt.alloc(), &["@script"], UNKNOWN, TOLD_UNKNOWN);
}

const BESIDE: &str = "take r1 all
take r2 all
take r3 all
without b reach r1 r3
down a
without b reach r2 r3
without a reach r2 r3
without b path r1 10.0.0.1
up a
without a reach r1 r3
without b path r1 10.0.0.1
down b
without b path r1 10.0.0.1
path r1 10.0.0.1
uses b
blackholes r1
without a blackholes r1
";

const TOLD_BESIDE: &str = "
history 6
1 feed 1 r1 set 10.0.0.0/8 metric 20 to r2 by a
2 feed 2 r2 set 10.0.0.0/8 metric 20 to r3 by b
3 feed 3 r3 set 10.0.0.0/8 metric 20 exit 1
4 job 1 down a
5 job 1 up a
6 job 1 down b
job 1
line 4 at 3 without b reach r1 r3
none
line 5 at 4 down a
line 6 at 4 without b reach r2 r3
none
line 7 at 4 without a reach r2 r3
10.0.0.0-10.255.255.255
line 8 at 4 without b path r1 10.0.0.1
hops r1
end linkdown a
line 9 at 5 up a
line 10 at 5 without a reach r1 r3
none
line 11 at 5 without b path r1 10.0.0.1
hops r1 r2
end linkdown b
line 12 at 6 down b
line 13 at 6 without b path r1 10.0.0.1
hops r1 r2
end linkdown b
line 14 at 6 path r1 10.0.0.1
hops r1 r2
end linkdown b
line 15 at 6 uses b
from r2
none
from r3
none
line 16 at 6 blackholes r1
at r1 noroute
0.0.0.0-9.255.255.255
11.0.0.0-255.255.255.255
at r2 linkdown b
10.0.0.0-10.255.255.255
line 17 at 6 without a blackholes r1
at r1 noroute
0.0.0.0-9.255.255.255
11.0.0.0-255.255.255.255
at r1 linkdown a
10.0.0.0-10.255.255.255
done
";

/// These feeds with this script: the run writes a text with this end.
fn compare_end<R: Abort + Threads + Wait + Sync>(
    rt: &R,
    alloc: Global,
    script: &str,
    interfaces: [u8; 3],
    tail: &str,
) {
    let files = files(rt, alloc, script, interfaces);
    let run = run_parts(rt, alloc, &ALL, files, &NoGate);
    compare_tail(rt, &run, Status::Done, tail);
}

/// Links that are down and links that a query leaves out are out together, and a query's stay so for that query alone.
#[test]
fn a_query_leaves_out_more_links(rt: HostRuntime) {
    compare_end(&rt, rt.alloc(), BESIDE, [2, 3, 1], TOLD_BESIDE);
}

const ROUND: &str = "take r1 all
take r2 all
take r3 all
loops
down b
loops
without b loops
up b
loops
without b loops
down c
down a
loops
up c
loops
up a
loops
";

const TOLD_ROUND: &str = "
history 9
1 feed 1 r1 set 10.0.0.0/8 metric 20 to r2 by a
2 feed 2 r2 set 10.0.0.0/8 metric 20 to r3 by b
3 feed 3 r3 set 10.0.0.0/8 metric 20 to r1 by c
4 job 1 down b
5 job 1 up b
6 job 1 down c
7 job 1 down a
8 job 1 up c
9 job 1 up a
job 1
line 4 at 3 loops
cycle r1 r2 r3 least 10.0.0.0 addresses 16777216
line 5 at 4 down b
line 6 at 4 loops
none
line 7 at 4 without b loops
none
line 8 at 5 up b
line 9 at 5 loops
cycle r1 r2 r3 least 10.0.0.0 addresses 16777216
line 10 at 5 without b loops
none
line 11 at 6 down c
line 12 at 7 down a
line 13 at 7 loops
none
line 14 at 8 up c
line 15 at 8 loops
none
line 16 at 9 up a
line 17 at 9 loops
cycle r1 r2 r3 least 10.0.0.0 addresses 16777216
done
";

/// A cycle is there while all its links are up.
#[test]
fn a_cycle_goes_and_comes_with_its_links(rt: HostRuntime) {
    compare_end(&rt, rt.alloc(), ROUND, [2, 3, 3], TOLD_ROUND);
}
