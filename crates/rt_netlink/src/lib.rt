//! Netlink's messages of routes: what the payload of a frame says, and the message of a route.
//!
//! Source: rtnetlink(7), netlink(7), RFC 3549, linux/rtnetlink.h. What is refused and what is skipped is the
//! project's own profile.
#![tactic(auto)]

mod attributes;
mod message;
mod numbers;
mod read;
mod route_message;
mod ruling;
mod write;

pub use feed_model::{Item, ItemKind, MAIN_TABLE, Payload, RawRoute, Refused, RouteKind, Skip};
pub use read::{NextMessage, next_message, read_payload};
pub use write::write_route;
