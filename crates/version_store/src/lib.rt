//! A history of route updates with the version of the network after it and its loops, which keep up with every entry,
//! and snapshots of it, which answer queries over the history as it was, whatever is posted later.
#![tactic(auto)]

mod asking;
mod history;
mod picture;
mod play;
mod shot;
mod snapshot;
mod standing;
mod store;
mod versions;

pub use asking::AskRefused;
pub use play::Event;
pub use snapshot::Snapshot;
pub use store::Store;
