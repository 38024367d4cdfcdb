//! Whole runs of two scripts, whose jobs a gate holds.

ghost use Rattle.std.specs.Prelude.{◌≤◌, All};

use crate::held_gate::HeldGate;
use crate::read_gate::ReadGate;
use crate::shown_gate::ShownGate;
use crate::whole_run::{RING, WholeRun, add_file, compare, file, run_parts, set_frame};
use dn_io::{Gate, MemFile};
use dn_run::Status;
use std::alloc::Global;
use std::process::Abort;
use std::sync::Wait;
use std::thread::Threads;

/// The scripts of a run, in the files `s1` and `s2`.
type Scripts<'a> = [&'a str; 2];

/// The ring, these scripts, and a feed `f1` of one update.
fn files(rt: &impl Abort, alloc: Global, scripts: Scripts<'_>) -> Vec<MemFile>
    ensures { All (λ file. 1 ≤ file.step) result.items }
{
    let [first, second] = scripts;
    let mut files = Vec::new(alloc);
    add_file(rt, &mut files, file(rt, alloc, "topology", RING.as_bytes()));
    add_file(rt, &mut files, file(rt, alloc, "s1", first.as_bytes()));
    add_file(rt, &mut files, file(rt, alloc, "s2", second.as_bytes()));
    add_file(rt, &mut files, file(rt, alloc, "f1", &set_frame(0, 8, 2)));
    files
}

/// Runs these parts over these scripts. A gate may hold the jobs.
fn run_scripts<R: Abort + Threads + Wait + Sync, G: Gate>(
    rt: &R,
    alloc: Global,
    parts: &[&str],
    scripts: Scripts<'_>,
    gate: &G,
) -> WholeRun {
    run_parts(rt, alloc, parts, files(rt, alloc, scripts), gate)
}

const HELD_PIN: &str = "feed 1 r1 updates 1 skipped 0 refused 0 end
history 1
1 feed 1 r1 set 10.0.0.0/8 metric 20 to r2 by a
job 1
line 1 at 0 path r1 10.1.2.3
hops r1
end noroute
line 2 at 1 path r1 10.1.2.3
hops r1 r2
end noroute
job 2
line 2 at 1 loops
none
done
";

/// Job 1 has a pin before the only update, and its answer after another job had applied it, pinned it and was answered.
/// Its second pin shows the update, of which nobody told it.
#[test]
fn held_pin(rt: HostRuntime) {
    let alloc = rt.alloc();
    let scripts = [
        "path r1 10.1.2.3\npath r1 10.1.2.3\n",
        "take r1 all\nloops\n",
    ];
    let parts = ["r1=f1", "@s1", "@s2"];
    let gate = HeldGate::new();
    let run = run_scripts(&rt, alloc, &parts, scripts, &gate);
    assert!(rt; !gate.wait.ran_out(), "a job waited in vain");
    compare(&rt, &run, Status::Done, HELD_PIN);
}

const SHOWN_LATE: &str = "feed 1 r1 updates 1 skipped 0 refused 0 end
history 1
1 feed 1 r1 set 10.0.0.0/8 metric 20 to r2 by a
job 1
line 1 at 0 path r1 10.1.2.3
hops r1
end noroute
line 2 at 0 path r1 10.1.2.3
hops r1
end noroute
job 2
done
";

/// A job that reads alone beside the one that applies pins what that one shows. Between the only update and its showing
/// both of its pins are at 0; a pin at the lock would have the update.
#[test]
fn a_reader_pins_what_is_shown(rt: HostRuntime) {
    let alloc = rt.alloc();
    let scripts = ["path r1 10.1.2.3\npath r1 10.1.2.3\n", "take r1 all\n"];
    let parts = ["r1=f1", "@s1", "@s2"];
    let gate = ReadGate::new();
    let run = run_scripts(&rt, alloc, &parts, scripts, &gate);
    assert!(rt; !gate.wait.ran_out(), "a job waited in vain");
    compare(&rt, &run, Status::Done, SHOWN_LATE);
}

const SHOWN_LINKS: &str = "history 2
1 job 2 down b
2 job 2 up b
job 1
line 1 at 0 path r1 10.1.2.3
hops r1
end noroute
line 2 at 0 delta
none
line 3 at 1 delta
none
job 2
line 1 at 1 down b
line 2 at 2 up b
done
";

/// A job of links alone shows each entry to a job that reads alone before it makes the next one.
#[test]
fn a_reader_pins_each_link_line_that_is_shown(rt: HostRuntime) {
    let alloc = rt.alloc();
    let scripts = ["path r1 10.1.2.3\ndelta\ndelta\n", "down b\nup b\n"];
    let parts = ["@s1", "@s2"];
    let gate = ShownGate::new();
    let run = run_scripts(&rt, alloc, &parts, scripts, &gate);
    assert!(rt; !gate.wait.ran_out(), "a job waited in vain");
    compare(&rt, &run, Status::Done, SHOWN_LINKS);
}

const SHOWN_BEFORE_A_QUERY: &str = "feed 1 r1 updates 1 skipped 0 refused 0 end
history 1
1 feed 1 r1 set 10.0.0.0/8 metric 20 to r2 by a
job 1
line 1 at 0 path r1 10.1.2.3
hops r1
end noroute
line 2 at 0 path r1 10.1.2.3
hops r1
end noroute
line 3 at 1 path r1 10.1.2.3
hops r1 r2
end noroute
job 2
line 2 at 1 loops
none
done
";

/// A job that applies shows its update to a job that reads alone before it has an answer to a query of its own.
#[test]
fn a_reader_pins_what_is_shown_before_a_query(rt: HostRuntime) {
    let alloc = rt.alloc();
    let scripts = [
        "path r1 10.1.2.3\npath r1 10.1.2.3\npath r1 10.1.2.3\n",
        "take r1 1\nloops\n",
    ];
    let parts = ["r1=f1", "@s1", "@s2"];
    let gate = ShownGate::new();
    let run = run_scripts(&rt, alloc, &parts, scripts, &gate);
    assert!(rt; !gate.wait.ran_out(), "a job waited in vain");
    compare(&rt, &run, Status::Done, SHOWN_BEFORE_A_QUERY);
}
