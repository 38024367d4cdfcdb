//! What all routers do with an interval of addresses.

use crate::list::List;
use crate::target::Target;

/// What each router does with the addresses from `low` up to, and without, `past`, which is at most 2^32. It is the same
/// for all of them.
#[derive(Drop)]
pub struct ForwardingRow {
    /// The first address.
    pub low: u64,
    /// The address after the last.
    pub past: u64,
    /// What each router does with them, by the router's number.
    pub targets: List<Target>,
}
