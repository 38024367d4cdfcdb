//! What the payload of a frame says: its netlink messages, one by one.

use crate::raw_object::RawObject;
use crate::raw_route::RawRoute;
use dn_model::List;

/// What the messages of a payload say, up to the first one that is refused. `refused` is None where none is.
#[derive(Drop)]
pub struct Payload {
    pub items: List<Item>,
    pub refused: Option<Refused>,
}

/// A message that is refused: where it begins, in bytes from the payload's start, and why, by the numbers of the
/// module `frame_cause`.
#[derive(Clone, Copy, Debug, PartialEq, Eq)]
pub struct Refused {
    pub at: u32,
    pub cause: u8,
}

/// A message that is not refused: where it begins, in bytes from the payload's start, and what it says.
#[derive(Clone, Copy, Debug, PartialEq, Eq)]
pub struct Item {
    pub at: u32,
    pub what: ItemKind,
}

/// What a message says.
#[derive(Clone, Copy, Debug, PartialEq, Eq)]
pub enum ItemKind {
    /// An IPv4 route of a table that is read, which is set or deleted.
    Route(RawRoute),
    /// A next-hop object that is set or deleted. No payload says one yet.
    Object(RawObject),
    /// Nothing that is read, so that it is passed over.
    Skipped(Skip),
}

/// Why a message is passed over.
#[derive(Clone, Copy, Debug, PartialEq, Eq)]
pub enum Skip {
    /// It neither sets nor deletes a route.
    OtherType,
    /// The route is of another family than IPv4.
    OtherFamily,
    /// The route is of a table that isn't read: neither the main one nor one of those that the reader was given.
    OtherTable,
}
