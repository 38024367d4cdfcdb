//! What trials of texts that are no topologies share.

use dn_formats::{ErrorLine, TopoRefused};
use run_report::error_line;
use std::alloc::Global;
use std::process::Abort;
use topology::read_topology;

/// A text is no topology, of which a run prints this.
pub(crate) fn compare_refused(rt: &impl Abort, alloc: Global, text: &str, want: &str) {
    let Err(TopoRefused::Fault(fault)) = read_topology(alloc, text.as_bytes()) else {
        panic!(rt; "a topology: {text}");
    };
    let line = error_line(alloc, ErrorLine::Topology(fault)).expect(rt, "memory");
    let want = format!(in alloc; "error topology {want}\n").expect(rt, "memory");
    assert_eq!(rt; line.as_slice(), want.as_bytes(), "{text}");
}

/// Texts with this front and these ends: of each a run prints this.
pub(crate) fn compare_all_refused(
    rt: &impl Abort,
    alloc: Global,
    front: &str,
    cases: &[(&str, &str)],
) {
    for (end, want) in cases {
        let text = format!(in alloc; "{front}{end}").expect(rt, "memory");
        compare_refused(rt, alloc, text.as_str(), want);
    }
}
