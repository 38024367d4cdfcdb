//! What the report prints of feeds.

use dn_model::{List, RouterId};

/// A refused frame: where it begins in the feed, where the refused message begins in its payload, and the cause, by its
/// number in the module `frame_cause`.
#[derive(Clone, Copy, Debug, PartialEq, Eq)]
pub struct RefusedFrame {
    pub offset: u64,
    pub at: u32,
    pub cause: u8,
}

/// How a feed ended.
#[derive(Clone, Copy, Debug, PartialEq, Eq)]
pub enum FeedEnd {
    /// Nothing is left of it.
    End,
    /// It ends inside the frame that begins at this offset.
    CutShort { offset: u64 },
    /// At this offset stands no frame's header, for this cause: `BAD_VERSION` or `BAD_FRAME_LENGTH` of `frame_cause`.
    Lost { offset: u64, cause: u8 },
    /// It is longer than the limit.
    TooLong,
    /// The history was full at one of its updates.
    Full,
    /// Reading it failed.
    Faulted,
}

/// What is told of a feed. Feeds count from 1. `updates` counts the updates of its accepted frames, as far as the history
/// took them, `skipped` the messages that accepted frames passed over; `end` is None until it has ended.
#[derive(Drop)]
pub struct FeedTold {
    pub feed_no: u32,
    pub router: RouterId,
    pub updates: u64,
    pub skipped: u64,
    pub refused: List<RefusedFrame>,
    pub end: Option<FeedEnd>,
}
