//! Cycles that rows show.

use base::{List, RouterId};

/// A cycle that all addresses from `low` up to, and without, `past` go round.
#[derive(Drop)]
pub(crate) struct Found {
    pub(crate) routers: List<RouterId>,
    pub(crate) low: u64,
    pub(crate) past: u64,
}
