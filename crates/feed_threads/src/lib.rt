//! Jobs over one version lock: each takes the feeds that it alone has, takes links down and up, and asks its script's
//! queries over snapshots.
#![tactic(auto)]

mod all_jobs;
mod ask;
mod desk;
mod feed;
mod feed_by_router;
mod history;
mod job;
mod link_line;
mod one_job;
mod one_writer;
mod reader_job;
mod reader_jobs;
mod shown_readers;
mod site;
mod take;
mod unrun_jobs;
mod work;

pub use all_jobs::run_jobs;
pub use history::run_history;
pub use job::{Job, JobDone, JobList};
pub use one_job::run_job;
pub use site::Site;
