//! Lines of links at a history that is full, against what was worked out by hand.

ghost use Rattle.std.specs.Prelude.{◌≡◌, All, length};
ghost use Rattle.feed_threads.specs.AllJobs.{AreNumberedApart};
ghost use Rattle.feed_threads.specs.Jobs.{AreApart, IsFresh};

use crate::history_tests::{compare_end, compare_job, job, job_list, reader, run_over};
use crate::same::same;
use crate::whole_run::RING;
use dn_formats::{Script, Told};
use dn_io::{MemSource, Source};
use dn_model::{Entry, LinkId, RouterId, Topology};
use feed_model::FeedEnd;
use feed_threads::JobList;
use query_lang::{push_told, read_script};
use route_feed::FeedReader;
use std::alloc::Global;
use std::process::Abort;
use topology::read_topology;
use version_store::Store;

/// The ring.
fn ring(rt: &impl Abort, alloc: Global) -> Topology
    ensures { length result.routers ≡ 3 }
{
    let ring = read_topology(alloc, RING.as_bytes());
    let ring = ring.ok().expect(rt, "a topology");
    assert!(rt; ring.router_count() == 3);
    ring
}

/// The script that this text is, in a run with a feed of r1.
fn script(rt: &impl Abort, alloc: Global, text: &str) -> Script {
    let ring = ring(rt, alloc);
    let script = read_script(alloc, text.as_bytes(), &ring, &[RouterId(0)], &[]);
    script.ok().expect(rt, "a script")
}

/// One job of a script, without feeds.
fn job_alone(
    rt: &impl Abort,
    alloc: Global,
    topology: &Topology,
    script: Script,
) -> JobList<MemSource>
    ensures fresh { All (λ job. All (IsFresh topology.now ⟦<MemSource as Source>⟧.faults) job.feeds) result }
    ensures routers { All (λ job. AreApart job.feeds) result }
    ensures numbers { AreNumberedApart result }
    ensures count { length result ≡ 1 }
{
    let job = job(rt, alloc, 1, Some(script), Vec::new(alloc));
    let jobs = Vec::from_array(alloc, [job]).expect(rt, "memory");
    job_list(rt, alloc, jobs)
}

/// One job of a script and a feed of r1 with three updates.
fn job_with_feed(
    rt: &impl Abort,
    alloc: Global,
    topology: &Topology,
    script: Script,
) -> JobList<MemSource>
    requires { length topology.now.routers ≡ 3 }
    ensures fresh { All (λ job. All (IsFresh topology.now ⟦<MemSource as Source>⟧.faults) job.feeds) result }
    ensures routers { All (λ job. AreApart job.feeds) result }
    ensures numbers { AreNumberedApart result }
    ensures count { length result ≡ 1 }
{
    let feed: FeedReader<MemSource> = reader(rt, alloc, topology, 0, 1, 3);
    let feeds = Vec::from_array(alloc, [feed]).expect(rt, "memory");
    let job = job(rt, alloc, 1, Some(script), feeds);
    let jobs = Vec::from_array(alloc, [job]).expect(rt, "memory");
    job_list(rt, alloc, jobs)
}

/// What is told is printed as this text.
fn compare_told(rt: &impl Abort, alloc: Global, tolds: &[Told], want: &str) {
    let ring = ring(rt, alloc);
    let mut text = Vec::new(alloc);
    for told in tolds {
        push_told(&mut text, &ring, told).expect(rt, "memory");
    }
    assert_eq!(rt; text.as_slice(), want.as_bytes(), "{want}");
}

/// A store has so many entries, of which the last one says that job 1 took the first link down.
fn compare_last(rt: &impl Abort, alloc: Global, store: &Store, count: usize) {
    let history = store.history(alloc).expect(rt, "memory");
    same(rt, &history.as_slice().len(), &count);
    let [.., last] = history.as_slice() else {
        panic!(rt; "an entry");
    };
    let down = Entry::Link {
        job: 1,
        link: LinkId(0),
        down: true,
    };
    same(rt, &last.entry, &down);
}

const LINES: &str = "down a
up a
loops
up zz
down b
delta
";

const FULL: &str = "line 1 at 1 down a
line 2 full up a
line 3 at 1 loops
none
line 4 up zz
unknown link zz
line 5 full down b
line 6 at 1 delta
none
";

/// The history takes one of three entries, and the job goes on.
#[test]
fn a_full_history_takes_no_line_of_a_link(rt: HostRuntime) {
    let alloc = rt.alloc();
    let topology = ring(&rt, alloc);
    let jobs = job_alone(&rt, alloc, &topology, script(&rt, alloc, LINES));
    let (store, dones) = run_over(&rt, alloc, 1, topology, jobs);
    compare_last(&rt, alloc, &store, 1);
    compare_job(&rt, dones.as_slice(), 1, 0);
    assert!(rt; dones.len() == 1);
    compare_told(&rt, alloc, dones[0].told.as_slice(), FULL);
}

const NOTHING: &str = "line 1 full down a
line 2 full up a
line 3 at 0 loops
none
line 4 up zz
unknown link zz
line 5 full down b
line 6 at 0 delta
none
";

/// A history that may have no entry.
#[test]
fn a_history_without_room_takes_no_line_of_a_link(rt: HostRuntime) {
    let alloc = rt.alloc();
    let topology = ring(&rt, alloc);
    let jobs = job_alone(&rt, alloc, &topology, script(&rt, alloc, LINES));
    let (store, dones) = run_over(&rt, alloc, 0, topology, jobs);
    assert!(rt; store.len() == 0);
    compare_job(&rt, dones.as_slice(), 1, 0);
    assert!(rt; dones.len() == 1);
    compare_told(&rt, alloc, dones[0].told.as_slice(), NOTHING);
}

const TAKES: &str = "take r1 1
down a
take r1 1
up a
path r1 10.0.0.1
";

const TAKEN: &str = "line 2 at 2 down a
line 4 full up a
line 5 at 2 path r1 10.0.0.1
hops r1
end linkdown a
";

/// The history takes an update and a line of a link, then none of either.
#[test]
fn a_full_history_takes_neither_updates_nor_lines_of_links(rt: HostRuntime) {
    let alloc = rt.alloc();
    let topology = ring(&rt, alloc);
    let jobs = job_with_feed(&rt, alloc, &topology, script(&rt, alloc, TAKES));
    let (store, dones) = run_over(&rt, alloc, 2, topology, jobs);
    compare_last(&rt, alloc, &store, 2);
    compare_job(&rt, dones.as_slice(), 1, 0);
    assert!(rt; dones.len() == 1);
    compare_end(&rt, &dones[0], 0, 1, FeedEnd::Full);
    compare_told(&rt, alloc, dones[0].told.as_slice(), TAKEN);
}
