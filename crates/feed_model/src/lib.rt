//! What a feed is made of and what its bytes mean: frames, attributes, messages, payloads, feeds, what each frame comes
//! to, and the causes for which one is refused. The types stand here, the definitions in `specs/`.
//!
//! What a network does stands in `dn_model`, on which this crate stands; readers of feeds stand on this one.
#![tactic(auto)]

mod feed_told;
pub mod frame_cause;
mod laws;
mod payload;
mod raw_object;
mod raw_route;

pub use feed_told::{FeedEnd, FeedTold, RefusedFrame};
pub use laws::{
    failed_feeds_have_one_reading, feeds_have_one_reading, frame_causes_have_their_numbers,
    payloads_are_unique,
};
pub use payload::{Item, ItemKind, Payload, Refused, Skip};
pub use raw_object::RawObject;
pub use raw_route::{MAIN_TABLE, RawRoute, RouteKind};
