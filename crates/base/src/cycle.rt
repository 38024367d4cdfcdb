//! Cycles of routers.

use crate::ids::RouterId;
use crate::list::List;

/// A cycle of routers, each of which sends some addresses on to the next and the last one back to the first.
#[derive(Drop)]
pub struct Cycle {
    /// The routers; the first one is the first of them in the topology's order.
    pub routers: List<RouterId>,
    /// The least address that goes round.
    pub least: u32,
    /// How many addresses go round: 1 to 2^32.
    pub addresses: u64,
}
