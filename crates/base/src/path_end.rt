//! How walks end.

use crate::target::Target;

/// How a walk ends.
#[derive(Clone, Copy, Debug, PartialEq, Eq)]
pub enum PathEnd {
    /// At the last router, which does this with the address; it is no `To`.
    At(Target),
    /// As many hops as the topology has routers were made, so some router stands twice in the walk.
    Loop,
}
