//! Addresses that fall at one place.

use base::{RouterId, Target};
use label_view::runs::RunList;

/// The addresses whose walks end at a router without a way on, by one cause.
#[derive(Drop)]
pub struct Fall {
    /// The last router of the walks.
    pub router: RouterId,
    /// What it does with the addresses: `NoRoute`, `Dropped` or `LinkDown`.
    pub cause: Target,
    /// The addresses, from the rows so far.
    pub runs: RunList,
}
