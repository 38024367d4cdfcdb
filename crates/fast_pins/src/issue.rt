//! What is noted of each publication.

use dn_model::{List, Posted, Topology};

/// One publication. No value of it is made.
pub struct Issue {
    /// The line that it is of. A publisher has one line.
    pub line: u64,
    /// The right by which the next one of the line is added.
    pub next: u64,
    pub topology: Topology,
    pub list: List<Posted>,
}

/// Which publisher something is of. No value of it is made.
pub struct Origin {
    pub number: u64,
    pub log_name: u64,
    pub cells_name: u64,
    pub line: u64,
}
