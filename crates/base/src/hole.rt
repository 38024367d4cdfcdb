//! Black holes.

use crate::ids::RouterId;
use crate::list::List;
use crate::run::Run;
use crate::target::Target;

/// Where walks end without a way on: the last router, the cause (`NoRoute`, `Dropped` or `LinkDown`), and the runs of
/// the addresses that end there by it.
#[derive(Drop)]
pub struct Hole {
    pub router: RouterId,
    pub cause: Target,
    pub runs: List<Run>,
}
