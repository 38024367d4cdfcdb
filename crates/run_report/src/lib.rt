//! The report of a run, the line that stands in its place where there is none, and writing it to a sink.
#![tactic(auto)]

mod entry;
mod errors;
mod feeds;
mod history;
mod jobs;
mod line;
mod report;
mod rest;
mod writer;

pub use errors::error_line;
pub use report::Report;
