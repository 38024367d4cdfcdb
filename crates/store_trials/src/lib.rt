//! Trials of `version_store`: what snapshots answer, whatever is posted later, beside the plain evaluator.
#![tactic(auto)]

#[cfg(test)]
mod course;
#[cfg(test)]
mod growth_tests;
#[cfg(test)]
mod questions;
#[cfg(test)]
mod same;
#[cfg(test)]
mod step;
#[cfg(test)]
mod store_tests;
#[cfg(test)]
mod trial;
