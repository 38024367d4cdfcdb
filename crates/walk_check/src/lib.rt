//! Following addresses hop by hop: the way of one, and which of all come to a router or go over a link.
#![tactic(auto)]

mod arrivals;
mod link_use;
mod way;

pub use arrivals::reach;
pub use link_use::uses;
pub use way::path;
