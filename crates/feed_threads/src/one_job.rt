//! One job, from its beginning to its end.

ghost use Rattle.std.specs.Prelude.{◌≡◌, length, map};
ghost use Rattle.feed_threads.specs.Jobs.{back_of, lines_of};
ghost use Rattle.feed_threads.specs.Room.{HasRoom};
ghost use Rattle.feed_threads.specs.Runs.{MayRun, RanJob};
ghost use Rattle.feed_threads.specs.Shown.{IsShown, ShowsOn};

use crate::desk::{Desk, Shown};
use crate::feed::Feed;
use crate::job::{Job, JobDone};
use crate::site::Site;
use crate::work::Work;
use dn_formats::{Line, Script};
use dn_io::{Gate, Source};
use dn_model::List;
use feed_model::FeedTold;
use std::sync::Wait;
use std::thread::Threads;
use version_lock::Seat;

/// The sources of feeds and what is told of each, in order.
pub(crate) fn give_back<S: Source>(
    feeds: Vec<Feed<S>>,
    room: Vec<(S, FeedTold)>,
) -> Vec<(S, FeedTold)>
    requires room { HasRoom (length feeds.items) room }
    ensures { result.items ≡ map back_of feeds.items }
{
    let mut backs = room;
    for feed in feeds {
        backs.push_reserved(feed.into_parts());
    }
    backs
}

/// The lines of a script, if there is one.
pub(crate) fn lines_of_script(script: &Option<Script>) -> &[Line]
    ensures { result.now ≡ lines_of script.now }
{
    match script {
        Some(script) => script.lines.as_slice(),
        None => &[],
    }
}

/// Runs a job, and shows what it applies to the jobs that read alone, where there are such.
pub(crate) fn run_shown<S: Source, G: Gate, R: Threads + Wait + Sync>(
    rt: &R,
    site: &Site<'_, G>,
    seat: Seat,
    shown: Shown,
    job: Job<S>,
    by_all: bool,
) -> (Seat, Shown, JobDone<S>)
    requires job { MayRun site.now S.faults seat job }
    requires shown { IsShown site.now.setup.basis.topology seat.seen shown }
    ensures ran { RanJob site.now S.left S.faults S.place seat result.0 job result.2 }
    ensures shows { ShowsOn site.now.setup.basis.topology result.0.seen shown result.1 }
{
    let Job {
        number,
        script,
        feeds,
        room,
    } = job;
    let desk = Desk::new(site, number, by_all);
    let told = List::new(site.alloc);
    let lines = lines_of_script(&script);
    let mut work = Work {
        number,
        seat,
        shown,
        feeds,
        told,
    };
    let ended = work.do_all(rt, &desk, lines);
    let Work {
        number: _,
        seat,
        shown,
        feeds,
        told,
    } = work;
    let done = JobDone {
        number,
        told,
        feeds: give_back(feeds, room),
        wanted_memory: ended.is_err(),
    };
    (seat, shown, done)
}

/// Runs a job: its script's lines in order, and then the rest of its feeds. Its entries bear the seat's number. The
/// seat comes back.
///
/// Frames are decoded with no turn of the lock held, and a query is answered after its pin. It returns once the lock
/// has given it each turn that it asked for. Every source comes back, in any case. `by_all` says whether it may ask by
/// all processors, as where no other job runs beside it.
pub fn run_job<S: Source, G: Gate, R: Threads + Wait + Sync>(
    rt: &R,
    site: &Site<'_, G>,
    seat: Seat,
    job: Job<S>,
    by_all: bool,
) -> (Seat, JobDone<S>)
    requires job { MayRun site.now S.faults seat job }
    ensures { RanJob site.now S.left S.faults S.place seat result.0 job result.1 }
{
    let (seat, shown, done) = run_shown(rt, site, seat, None, job, by_all);
    if let Some(publisher) = shown {
        publisher.close(rt);
    }
    (seat, done)
}
