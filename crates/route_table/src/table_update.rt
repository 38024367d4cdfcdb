//! An update of a routing table.

use dn_model::{TableOp, Way};

/// An update of a routing table, and how its router replaces routes.
#[derive(Clone, Copy, Debug, PartialEq, Eq)]
pub struct TableUpdate {
    pub op: TableOp,
    /// Whether a route that is put takes the place of all routes of its prefix, and not of the one with its metric alone.
    pub alone: bool,
}

/// What an update of one of several tables comes to.
#[derive(Clone, Copy, Debug, PartialEq, Eq)]
pub struct Told {
    /// What is done at the own addresses of its prefix after it; nothing where the table does the same everywhere.
    pub after: Option<Way>,
    /// Whether it put a route of a prefix of which none of the tables had one.
    pub is_new: bool,
}
