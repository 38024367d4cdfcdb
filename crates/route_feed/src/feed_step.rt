//! The answers of a feed's reader.

use dn_model::{List, Op, RouterId};

/// What a reader of a feed answers.
#[derive(Drop)]
pub enum FeedStep {
    /// The next frame is accepted: its updates, in order, each with the router whose table it changes, and how many
    /// messages it passed over.
    Ops(List<(RouterId, Op)>, u32),
    /// The next frame is refused: where it begins in the feed, where its first refused message begins in its payload,
    /// and the cause, a number of the module `frame_cause` of `feed_model`. None of its updates is handed out.
    Refused { offset: u64, at: u32, cause: u8 },
    /// Nothing is left of the feed.
    End,
    /// The feed ends inside the frame that begins at this offset.
    CutShort { offset: u64 },
    /// At this offset stands no frame's header: 15 for another version than 1, 16 for a length below 4.
    Lost { offset: u64, cause: u8 },
    /// The feed is longer than the limit.
    TooLong,
    /// The source failed.
    Faulted,
}
