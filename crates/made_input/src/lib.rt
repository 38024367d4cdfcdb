//! The generated input of `make N`: a ring of eight routers, N updates dealt out to their feeds, and one script that takes
//! all of them and asks for loops. So large runs need no recorded feed.
#![tactic(auto)]

mod made;
mod network;
mod updates;

pub use made::{MadeInput, make_input};
