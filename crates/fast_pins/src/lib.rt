//! Pins that wait for nobody: one publisher shows snapshots of a growing history, and readers pin the one that is shown
//! without a lock.
//!
//! Readers take the shown snapshot from two copies, of which the publisher changes the one that nobody reads. That
//! what they take was published, and which of two was published later, they know by a book that exists in the proofs
//! alone: the publisher notes each list there in one step.
#![tactic(auto)]

mod edition;
mod issue;
mod law;
mod press;
mod publisher;
mod reader;
mod shelf;
mod shot;

pub use issue::Origin;
pub use publisher::{FastPins, Publisher};
pub use reader::{FastReader, Mark};
pub use shot::Shot;
