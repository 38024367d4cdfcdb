//! Frames of the forwarding plane manager, version 1, cut out of a stream that comes in pieces, and written.
//!
//! Source: FRR's `fpm/fpm.h`, the FPM message header: version, type and length in network byte order, then the payload.
#![tactic(auto)]

mod cutter;
mod write;

pub use cutter::{Cutter, Finish, Next};
pub use write::write_frame;
