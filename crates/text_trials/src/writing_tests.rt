//! Writing a report to a sink that takes parts and fails, and the report of a long history.

use crate::printed::{printed, report_of, sink_by};
use crate::same::same;
use crate::triangle::{clear_ten, triangle};
use dn_io::Failed;
use dn_model::Posted;
use run_report::Report;
use std::alloc::Global;
use std::process::Abort;
use version_pages::Pages;

/// A history of so many equal updates.
fn long_history(rt: &impl Abort, alloc: Global, count: u32) -> Pages<Posted> {
    let mut history = Pages::new();
    for _ in 0..count {
        let posted = Posted {
            seat: 0,
            entry: clear_ten(None),
        };
        history.push(alloc, posted).expect(rt, "memory");
    }
    history
}

/// The lines are `history 100001`, `I feed 1 r1 clear 10.0.0.0/8` and `done`: 28 bytes for each entry besides its number,
/// and 488,901 digits of numbers.
#[test]
fn prints_a_long_history(rt: HostRuntime) {
    let alloc = rt.alloc();
    let history = long_history(&rt, alloc, 100_001);
    let report = report_of(&rt, alloc, triangle(&rt, alloc), &[], &history, &[]);
    let sink = printed(&rt, alloc, report);
    same(&rt, &sink.written().len(), &3_288_949);
}

/// The report of a history of so many equal updates, made line by line.
fn long_report(rt: &impl Abort, alloc: Global, count: u32) -> String {
    let mut want = format!(in alloc; "history {count}\n").expect(rt, "memory");
    for number in 0..count {
        let line = format!(in alloc; "{} feed 1 r1 clear 10.0.0.0/8\n", u64::from(number) + 1);
        let line = line.expect(rt, "memory");
        want.push_str(line.as_str()).expect(rt, "memory");
    }
    want.push_str("done\n").expect(rt, "memory");
    want
}

/// The lines of the history are more than are written at once.
#[test]
fn writes_a_long_history_byte_by_byte(rt: HostRuntime) {
    let alloc = rt.alloc();
    let history = long_history(&rt, alloc, 5_000);
    let report = report_of(&rt, alloc, triangle(&rt, alloc), &[], &history, &[]);
    let mut sink = sink_by(&rt, alloc, 1, &[]);
    assert!(rt; report.write(&mut sink).is_ok());
    let want = long_report(&rt, alloc, 5_000);
    assert!(rt; sink.written() == want.as_bytes());
    same(&rt, &sink.faults(), &0);
}

/// A write in the middle of the history fails: what was written is a front of the report.
#[test]
fn stops_in_the_history(rt: HostRuntime) {
    let alloc = rt.alloc();
    let history = long_history(&rt, alloc, 5_000);
    let report = report_of(&rt, alloc, triangle(&rt, alloc), &[], &history, &[]);
    let mut sink = sink_by(&rt, alloc, 1_000, &[100]);
    assert!(rt; matches!(report.write(&mut sink), Err(Failed)));
    let want = long_report(&rt, alloc, 5_000);
    assert!(rt; sink.written().len() > 66_000);
    assert!(rt; want.as_bytes().starts_with(sink.written()));
    same(&rt, &sink.faults(), &1);
}

const REPORT: &str = "feed 1 r1 updates 1 skipped 0 refused 0 end
history 1
1 feed 1 r1 set 10.0.0.0/8 metric 20 to r2 by a
done
";

/// This text in place of a report.
fn text_report(rt: &impl Abort, alloc: Global, text: &str) -> Report {
    Report::of_text(Vec::from_slice(alloc, text.as_bytes()).expect(rt, "memory"))
}

#[test]
fn writes_all_by_parts(rt: HostRuntime) {
    let alloc = rt.alloc();
    let mut sink = sink_by(&rt, alloc, 16, &[]);
    assert!(rt; text_report(&rt, alloc, REPORT).write(&mut sink).is_ok());
    assert!(rt; sink.written() == REPORT.as_bytes());
    same(&rt, &sink.faults(), &0);
}

#[test]
fn stops_at_a_failed_write(rt: HostRuntime) {
    let alloc = rt.alloc();
    let mut sink = sink_by(&rt, alloc, 16, &[2]);
    assert!(rt;
        matches!(
            text_report(&rt, alloc, REPORT).write(&mut sink),
            Err(Failed)
        )
    );
    assert!(rt; sink.written() == b"feed 1 r1 update".as_slice());
    same(&rt, &sink.faults(), &1);
}
