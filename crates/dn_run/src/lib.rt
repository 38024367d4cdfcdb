//! The whole run of the program: words, topology, scripts, feeds, jobs, report.
#![tactic(auto)]

mod backs;
mod deal;
mod feeds;
mod files;
mod input;
mod jobs;
mod laws;
mod load;
mod made;
mod parts;
mod program;
mod ring;
mod routers;
mod ruling;
mod status;
mod stop;
mod summary;
mod sure;
mod untaken;
mod words;

pub use laws::{reports_tell_one_history, runs_have_one_verdict};
pub use program::run;
pub use status::Status;
pub use sure::run_surely;
