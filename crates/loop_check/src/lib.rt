//! Loops: the cycles of routers in which addresses go round for ever, found row by row, and the order in which cycles
//! are told.
#![tactic(auto)]

mod cycle_order;
mod cycle_pieces;
mod cycle_runs;
mod cycles;
mod first_order;
mod follow;
mod row;
mod share;
mod walk;

pub use cycle_order::{are_same_routers, push_cycle, sort_cycles};
pub use cycle_pieces::join_cycles;
pub use cycles::loops;
pub use row::cycles_of_atom;
