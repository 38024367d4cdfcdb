//! The loops of a network, kept from update to update (as in Delta-net, NSDI 2017): for segments of addresses
//! the cycles that they go round. After an update only the rows that meet what changed are followed.
#![tactic(auto)]

mod ahead;
mod answer;
mod changed;
mod editing;
mod finding;
mod following;
mod found;
mod in_turn;
mod kept_cycle;
mod kept_loops;
mod segment;
mod stretch;
mod together;
mod whole;

pub use kept_loops::KeptLoops;
