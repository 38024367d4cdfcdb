//! The feed of a device, frame by frame: what FRR sends to its forwarding plane manager, as updates of its table and
//! its VRFs'.
//!
//! A feed is a stream of frames (`fpm_frame`), each with messages of rtnetlink(7) (`rt_netlink`). A frame is applied
//! whole or not at all: where one of its messages is refused, none of its updates is handed out, and the frames after
//! it are read on.
#![tactic(auto)]

mod device;
mod feed_reader;
mod feed_step;
mod frame_step;
mod intake;
mod port_hints;
mod route_op;
mod workspace;

pub use feed_reader::FeedReader;
pub use feed_step::FeedStep;
