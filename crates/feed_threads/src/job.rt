//! Jobs, and what they come to.

ghost use Rattle.std.specs.Prelude.{◌≡◌, ◌≤◌, [], List, length, map, IfOk, IfErr, vec_len};
ghost use Rattle.std.specs.Prelude.{vec_capacity};
ghost use Rattle.feed_threads.specs.Jobs.{lines_of, unread};

use crate::feed::Feed;
use dn_formats::{Script, Told};
use dn_io::Source;
use dn_model::List;
use feed_model::FeedTold;
use route_feed::FeedReader;
use std::alloc::Global;
use std::marker::Model;

/// A job: its number, its script, if it has one, and the readers of the feeds that it alone takes. It has the memory
/// that its sources need to come back. A contract sees it as a `Task`.
#[derive(Drop)]
pub struct Job<S: Source> {
    pub(crate) number: u32,
    pub(crate) script: Option<Script>,
    pub(crate) feeds: Vec<Feed<S>>,
    pub(crate) room: Vec<(S, FeedTold)>,
}

impl<S: Source> Model for Job<S> {
    ghost use Rattle.std.specs.Prelude.{◌≡◌, ◌≤◌, [], length, map};
    ghost use Rattle.std.specs.Prelude.{vec_capacity};
    ghost use Rattle.feed_threads.specs.Jobs.{Task, lines_of, unread};

    ghost Value = { Task S };

    ghost view = { λ j. record {
      number = j.number;
      lines = lines_of j.script;
      feeds = map (λ f. f.reader) j.feeds.items;
    } };

    ghost invariant = { λ j. (j.feeds.items ≡ map (λ f. unread f.reader) j.feeds.items) × (j.room.items ≡ [])
        × (length j.feeds.items ≤ vec_capacity j.room) };
}

/// What a job came to. Where it wanted memory it ended there: it tells of the first queries and link lines of its
/// script, and its feeds may have given more than the history took of them.
#[derive(Drop)]
pub struct JobDone<S: Source> {
    pub number: u32,
    /// What is told of the script's queries and link lines, in order.
    pub told: List<Told>,
    /// Each feed's source, with the bytes that were not read, and what is told of the feed, in order.
    pub feeds: Vec<(S, FeedTold)>,
    pub wanted_memory: bool,
}

/// Puts readers where they have room, in order.
fn unread_all<S: Source>(readers: Vec<FeedReader<S>>, feeds: Vec<Feed<S>>) -> Vec<Feed<S>>
    requires empty { feeds.items ≡ [] }
    requires room { length readers.items ≤ vec_capacity feeds }
    ensures { result.items ≡ map unread readers.items }
{
    let mut feeds = feeds;
    for reader in readers {
        feeds.push_reserved(Feed { reader, kept: None });
    }
    feeds
}

impl<S: Source> Job<S> {
    /// A job of this number, with a script or none, that takes the feeds of these readers.
    ///
    /// # Errors
    ///
    /// Where memory is wanting the readers come back.
    pub fn new(
        alloc: Global,
        number: u32,
        script: Option<Script>,
        readers: Vec<FeedReader<S>>,
    ) -> Result<Job<S>, Vec<FeedReader<S>>>
        ensures job { IfOk result (λ job. job ≡ record {
          number = number;
          lines = lines_of script;
          feeds = readers.items;
        }) }
        ensures back { IfErr result (λ back. back.items ≡ readers.items) }
    {
        let Ok(feeds) = Vec::with_capacity(alloc, readers.len()) else {
            return Err(readers);
        };
        let Ok(room) = Vec::with_capacity(alloc, readers.len()) else {
            return Err(readers);
        };
        Ok(Job {
            number,
            script,
            feeds: unread_all(readers, feeds),
            room,
        })
    }
}

/// Jobs, with room for what they come to. A contract sees them as a list.
#[derive(Drop)]
pub struct JobList<S: Source> {
    pub(crate) jobs: Vec<Job<S>>,
    pub(crate) room: Vec<JobDone<S>>,
}

impl<S: Source> Model for JobList<S> {
    ghost use Rattle.std.specs.Prelude.{◌≡◌, ◌≤◌, [], List, length};
    ghost use Rattle.std.specs.Prelude.{vec_capacity};
    ghost use Rattle.feed_threads.specs.Jobs.{Task};

    ghost Value = { List (Task S) };

    ghost view = { λ l. l.jobs.items };

    ghost invariant = { λ l. (l.room.items ≡ []) × (length l.jobs.items ≤ vec_capacity l.room) };
}

impl<S: Source> JobList<S> {
    /// These jobs, in order.
    ///
    /// # Errors
    ///
    /// Where memory is wanting the jobs come back.
    pub fn new(alloc: Global, jobs: Vec<Job<S>>) -> Result<JobList<S>, Vec<Job<S>>>
        ensures jobs { IfOk result (λ list. list ≡ jobs.items) }
        ensures back { IfErr result (λ back. back.items ≡ jobs.items) }
    {
        match Vec::with_capacity(alloc, jobs.len()) {
            Ok(room) => Ok(JobList { jobs, room }),
            Err(_) => Err(jobs),
        }
    }
}
