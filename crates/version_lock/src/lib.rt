//! One version lock over any book: callers apply entries and pin snapshots, and there is one history.
//!
//! A caller holds a seat, which knows a beginning of the history. Two words say whether the turn is taken and how many
//! entries were applied; one slot holds the book while the turn is free.
#![tactic(auto)]

mod book;
mod lock;
mod parts;
mod plays;
mod seat;
mod shelved;
mod turn;
mod view;

pub use book::{Basis, Book, Pinned, PostRefused};
pub use lock::VersionLock;
pub use seat::{Note, Seat};
