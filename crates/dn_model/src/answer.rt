//! Answers.

use base::{Change, Cycle, Hole, List, PathEnd, RouterId, Run};

/// The answer to a query. Runs are in order, and no two of one list touch.
#[derive(Drop)]
pub enum Answer {
    /// The routers of the walk in order, the first one included, and how it ends.
    Path { hops: List<RouterId>, end: PathEnd },
    /// The runs of the addresses that were asked for.
    Runs(List<Run>),
    /// The runs of the addresses that the first end of the link sends over it, and of those that the second end sends.
    Uses(List<Run>, List<Run>),
    /// The cycles, by least address, then by first router.
    Loops(List<Cycle>),
    /// The black holes, by router; of one router `NoRoute` first, then those that drop (blackhole, unreachable,
    /// prohibit), then the links that are down in their order.
    Holes(List<Hole>),
    /// The changes that the last update made, by router, then address; touching runs of one router with the same two
    /// targets are one.
    Delta(List<Change>),
}
