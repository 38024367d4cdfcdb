//! Changes of what a router does.

use crate::ids::RouterId;
use crate::run::Run;
use crate::target::Target;

/// A run of addresses with which a router does something else after an update than before it.
#[derive(Clone, Copy, Debug, PartialEq, Eq)]
pub struct Change {
    pub router: RouterId,
    pub run: Run,
    pub before: Target,
    pub after: Target,
}
