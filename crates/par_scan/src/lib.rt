//! Checks of all rows by as many threads as there are processors: the rows are cut into ranges, each range is checked
//! as a view of its own, and what the ranges answer is put together.
#![tactic(auto)]

mod cycles;
mod hole_order;
mod hole_pieces;
mod holes;
mod more_runs;
mod one_thread;
mod part;
mod ranges;
mod reached;

pub use cycles::loops;
pub use holes::blackholes;
pub use reached::reach;
