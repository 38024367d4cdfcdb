//! The changes that an update makes: per router, the runs of addresses whose target is another one after it than
//! before it (the delta-graph of Delta-net, NSDI 2017).
#![tactic(auto)]

mod delta;
mod join;

pub use delta::Delta;
