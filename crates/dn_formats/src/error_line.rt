//! The lines that say why there is no report.

use crate::topology_fault::TopoFault;

/// Why a run prints no report. Parts are the words after the topology's, counted from 1.
#[derive(Clone, Copy, Debug, PartialEq, Eq)]
pub enum ErrorLine {
    /// The words of the command line are none that the program takes.
    Words,
    /// This part is neither a feed, as `ROUTER=FILE`, nor a script, as `@FILE`.
    BadPart { part: u32 },
    /// This part is a feed or a script more than a run takes.
    TooManyParts { part: u32 },
    /// This part names no device of the topology: no router, or a VRF, which has no feed.
    UnknownRouter { part: u32 },
    /// An earlier part is a feed of the device that this part names.
    RouterTwice { part: u32 },
    /// The scripts, and the feeds that no script takes, are more jobs than a run takes.
    TooManyJobs,
    /// The topology is refused, with its first fault.
    Topology(TopoFault),
    /// The script that this part names is refused, with the line of its first fault, from 1, or 0 for the whole, and
    /// the number of the cause in the module `script_cause`.
    Script { part: u32, line: u32, cause: u8 },
    /// The topology's file couldn't be read.
    ReadTopology,
    /// The file of a script or a feed, which this part names, couldn't be read.
    ReadPart { part: u32 },
}
