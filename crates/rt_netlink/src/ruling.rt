//! Why a message says no route.

use feed_model::Skip;

/// What becomes of a message that says no route here.
#[derive(Clone, Copy, Debug, PartialEq, Eq)]
pub enum Ruling {
    /// It is refused, by a cause of the module `frame_cause` of `feed_model`.
    Refuses(u8),
    /// It is passed over.
    Skips(Skip),
}
