//! What one router does with the addresses of many rows.

use base::{RouterId, Target};

/// How many rows' targets are read at once, at most.
pub const PAGE: usize = 64;

/// What a router does with the addresses of rows side by side, from the one at a place on: a target for each row.
#[derive(Clone, Copy)]
pub struct Column<'a> {
    /// The router.
    pub router: RouterId,
    /// The place of the first row.
    pub from: u64,
    /// The targets, row by row.
    pub targets: &'a [Target],
}

/// Rows side by side: those from the one at a place up to, and without, the one at another.
#[derive(Clone, Copy)]
pub struct Rows {
    /// The place of the first row.
    pub from: u64,
    /// The place after the last row's.
    pub past: u64,
}
