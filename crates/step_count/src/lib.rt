//! Counts of steps, which take no bytes: what a query or an update looks at.
#![tactic(auto)]

mod steps;

pub use steps::Steps;
