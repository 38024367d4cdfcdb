//! How calls of the outside refuse.

/// A call of a source, a sink or a gate to the outside that did not come about.
/// The object that answers it counts it.
#[derive(Clone, Copy, PartialEq, Eq, Debug, Drop)]
pub struct Failed;

/// Why a world hands out no source.
#[derive(Clone, Copy, PartialEq, Eq, Debug, Drop)]
pub enum WorldRefused {
    /// The name could not be opened. The world keeps it among its calls as refused.
    Failed,
    /// Memory was refused. The world is as it was.
    OutOfMemory,
}
