//! Jobs over one history, against what was worked out by hand. In which order the entries of different jobs come is
//! left open, so what each job made is looked at for itself.

ghost use Rattle.std.specs.Prelude.{◌≡◌, ◌<◌, ◌∷◌, [], IsTrue, length, All};
ghost use Rattle.std.specs.Arc.{arc_value};
ghost use Rattle.version_store.specs.Kept.{IsTaken};
ghost use Rattle.base.specs.Name.{is_name_text};
ghost use Rattle.dn_model.specs.declared.topology.Topology.{Topology as TopologyIs};
ghost use Rattle.feed_threads.specs.AllJobs.{AreNumberedApart};
ghost use Rattle.feed_threads.specs.Jobs.{AreApart, IsFresh};

use crate::same::same;
use crate::whole_run::set_frame;
use dn_formats::{Asked, Line, Outcome, Script, Told};
use dn_io::{MemSource, NoGate, Source};
use dn_model::{Ask, Entry, List, Name, Op, Posted, Prefix, Query, RouterId, Target, Topology};
use feed_model::FeedEnd;
use feed_threads::{Job, JobDone, JobList, run_history};
use route_feed::FeedReader;
use std::alloc::Global;
use std::process::Abort;
use std::sync::{Arc, Wait};
use std::thread::Threads;
use topology::read_topology;
use version_lock::{Book, PostRefused};
use version_store::Store;

/// Three routers without links, each with an edge at its interface 2.
const NETWORK: &str = "routers = [\"r1\", \"r2\", \"r3\"]
[[edge]]
at = \"r1:2\"
[[edge]]
at = \"r2:2\"
[[edge]]
at = \"r3:2\"
";

/// That network.
fn network(rt: &impl Abort, alloc: Global) -> Topology
    ensures { length result.routers ≡ 3 }
{
    let network = read_topology(alloc, NETWORK.as_bytes());
    let network = network.ok().expect(rt, "a topology");
    assert!(rt; network.router_count() == 3);
    network
}

/// The bytes of a feed with so many updates, of the prefixes 10.0.0.0/16, 10.1.0.0/16 and so on.
fn feed_bytes(rt: &impl Abort, alloc: Global, count: u8) -> Vec<u8> {
    let mut bytes = Vec::new(alloc);
    for second in 0..count {
        let frame = set_frame(second, 16, 2);
        bytes.extend_from_slice(&frame).expect(rt, "memory");
    }
    bytes
}

/// The reader of a feed with so many updates.
pub(crate) fn reader(
    rt: &impl Abort,
    alloc: Global,
    topology: &Topology,
    router: u16,
    feed_no: u32,
    count: u8,
) -> FeedReader<MemSource>
    requires { router < length topology.now.routers }
    ensures fresh { IsFresh topology.now ⟦<MemSource as Source>⟧.faults result }
    ensures router { result.told.router ≡ record { 0 = router } }
    ensures number { result.told.feed_no ≡ feed_no }
{
    let bytes = feed_bytes(rt, alloc, count);
    let source = MemSource::new(bytes, 64, Vec::new(alloc));
    FeedReader::new(alloc, source, RouterId(router), feed_no, 1 << 20)
}

/// A line that takes so many frames of a router's feed.
fn take_line(line: u32, router: u16, count: u32) -> Line {
    Line::Take {
        line,
        router: RouterId(router),
        count: Some(count),
    }
}

/// A line that asks for the path of 10.0.0.1 from a router.
fn path_line(rt: &impl Abort, alloc: Global, line: u32, router: &[u8]) -> Line
    requires { IsTrue (is_name_text router.now) }
{
    let router = Name::from_text(alloc, router).expect(rt, "memory");
    let query = Query::of(alloc, Ask::Path(router, 0x0A00_0001));
    Line::Ask {
        line,
        query: Asked::new(alloc, query).expect(rt, "memory"),
    }
}

/// Adds a line.
fn add_line(rt: &impl Abort, lines: &mut List<Line>, line: Line) {
    lines.push(line).expect(rt, "memory");
}

/// Two frames of r2's feed, a path, a frame of r1's, a path, and one from a router that isn't there.
fn script(rt: &impl Abort, alloc: Global) -> Script {
    let mut lines = List::new(alloc);
    add_line(rt, &mut lines, take_line(1, 1, 2));
    add_line(rt, &mut lines, path_line(rt, alloc, 2, b"r1"));
    add_line(rt, &mut lines, take_line(3, 0, 1));
    add_line(rt, &mut lines, path_line(rt, alloc, 4, b"r1"));
    add_line(rt, &mut lines, path_line(rt, alloc, 5, b"r9"));
    Script { lines }
}

/// A job of these readers.
pub(crate) fn job(
    rt: &impl Abort,
    alloc: Global,
    number: u32,
    script: Option<Script>,
    readers: Vec<FeedReader<MemSource>>,
) -> Job<MemSource>
    ensures number { result.number ≡ number }
    ensures feeds { result.feeds ≡ readers.items }
{
    match Job::new(alloc, number, script, readers) {
        Ok(job) => job,
        Err(_) => panic!(rt; "memory"),
    }
}

/// These jobs.
pub(crate) fn job_list(
    rt: &impl Abort,
    alloc: Global,
    jobs: Vec<Job<MemSource>>,
) -> JobList<MemSource>
    ensures { result ≡ jobs.items }
{
    match JobList::new(alloc, jobs) {
        Ok(list) => list,
        Err(_) => panic!(rt; "memory"),
    }
}

/// A job of a script, over two feeds.
fn job_of_two(
    rt: &impl Abort,
    alloc: Global,
    number: u32,
    script: Script,
    readers: [FeedReader<MemSource>; 2],
) -> Job<MemSource>
    ensures number { result.number ≡ number }
    ensures feeds { result.feeds ≡ readers }
{
    let readers = Vec::from_array(alloc, readers).expect(rt, "memory");
    job(rt, alloc, number, Some(script), readers)
}

/// A job without a script, over one feed.
fn job_of_one(
    rt: &impl Abort,
    alloc: Global,
    number: u32,
    reader: FeedReader<MemSource>,
) -> Job<MemSource>
    ensures number { result.number ≡ number }
    ensures feeds { result.feeds ≡ reader ∷ [] }
{
    let readers = Vec::from_array(alloc, [reader]).expect(rt, "memory");
    job(rt, alloc, number, None, readers)
}

/// A script's job over the feeds of r1 and r2, with three updates each, and a job of r3's feed with four.
fn two_jobs(rt: &impl Abort, alloc: Global, topology: &Topology) -> JobList<MemSource>
    requires { length topology.now.routers ≡ 3 }
    ensures fresh { All (λ job. All (IsFresh topology.now ⟦<MemSource as Source>⟧.faults) job.feeds) result }
    ensures routers { All (λ job. AreApart job.feeds) result }
    ensures numbers { AreNumberedApart result }
    ensures count { length result ≡ 2 }
{
    let first = reader(rt, alloc, topology, 0, 1, 3);
    let second = reader(rt, alloc, topology, 1, 2, 3);
    let third = reader(rt, alloc, topology, 2, 3, 4);
    let taken = job_of_two(rt, alloc, 1, script(rt, alloc), [first, second]);
    let alone = job_of_one(rt, alloc, 2, third);
    let jobs = Vec::from_array(alloc, [taken, alone]).expect(rt, "memory");
    job_list(rt, alloc, jobs)
}

/// One job without a script, of a feed of three updates.
fn one_job(rt: &impl Abort, alloc: Global, topology: &Topology) -> JobList<MemSource>
    requires { length topology.now.routers ≡ 3 }
    ensures fresh { All (λ job. All (IsFresh topology.now ⟦<MemSource as Source>⟧.faults) job.feeds) result }
    ensures routers { All (λ job. AreApart job.feeds) result }
    ensures numbers { AreNumberedApart result }
    ensures count { length result ≡ 1 }
{
    let job = job_of_one(rt, alloc, 1, reader(rt, alloc, topology, 0, 1, 3));
    let jobs = Vec::from_array(alloc, [job]).expect(rt, "memory");
    job_list(rt, alloc, jobs)
}

/// A store of this network, with this limit.
fn store(rt: &impl Abort, alloc: Global, topology: &Arc<Topology, Global>, limit: u32) -> Store
    ensures basis { result.basis ≡ record { topology = arc_value topology.now; limit = limit } }
    ensures empty { result.history ≡ [] }
{
    let topology = Arc::try_clone(topology).expect(rt, "memory");
    Store::new(alloc, topology, limit).expect(rt, "memory")
}

/// The store of these jobs, which had this limit, and what the jobs came to.
pub(crate) fn run_over<R: Abort + Threads + Wait + Sync>(
    rt: &R,
    alloc: Global,
    limit: u32,
    topology: Topology,
    jobs: JobList<MemSource>,
) -> (Store, Vec<JobDone<MemSource>>)
    requires three { length topology.routers ≡ 3 }
    requires fresh { All (λ job. All (IsFresh topology ⟦<MemSource as Source>⟧.faults) job.feeds) jobs }
    requires routers { All (λ job. AreApart job.feeds) jobs }
    requires numbers { AreNumberedApart jobs }
    requires count { length jobs < 3 }
    ensures { length result.0.basis.topology.routers ≡ 3 }
{
    let topology = Arc::new(alloc, topology).expect(rt, "memory");
    let store = store(rt, alloc, &topology, limit);
    match run_history(rt, alloc, store, &NoGate, &topology, jobs) {
        Ok(ran) => ran,
        Err(_) => panic!(rt; "memory"),
    }
}

/// The numbers of the feeds of which a history's entries came, of these feeds alone.
fn feeds_among(rt: &impl Abort, alloc: Global, history: &[Posted], feeds: &[u32]) -> Vec<u32> {
    let mut among = Vec::new(alloc);
    for posted in history {
        match posted.entry {
            Entry::Route { feed_no, .. } => {
                if feeds.contains(&feed_no) {
                    among.push(feed_no).expect(rt, "memory");
                }
            }
            Entry::Link { .. } => {}
        }
    }
    among
}

/// The entries of these feeds stand in this order in a store's history.
fn compare_order(rt: &impl Abort, alloc: Global, store: &Store, feeds: &[u32], want: &[u32]) {
    let history = store.history(alloc).expect(rt, "memory");
    let among = feeds_among(rt, alloc, history.as_slice(), feeds);
    assert_eq!(rt; among.as_slice(), want, "feeds {feeds:?}");
}

/// There are so many jobs, and the one at this place has the next number and wanted no memory.
pub(crate) fn compare_job(rt: &impl Abort, dones: &[JobDone<MemSource>], count: usize, at: usize) {
    assert!(rt; at < count && dones.len() == count, "job {at} of {count}");
    same(rt, &(dones[at].number as usize), &(at + 1));
    assert!(rt; !dones[at].wanted_memory, "job {at}");
}

/// A job's feed came back with so many updates and this end.
pub(crate) fn compare_end(
    rt: &impl Abort,
    done: &JobDone<MemSource>,
    at: usize,
    updates: u64,
    end: FeedEnd,
) {
    assert!(rt; at < done.feeds.len(), "feed {at}");
    let told = &done.feeds[at].1;
    assert_eq!(rt; told.updates, updates, "feed {at}");
    assert!(rt; told.end == Some(end), "feed {at}");
}

/// A query was answered after at least `least` and at most `most` entries.
fn compare_pin(rt: &impl Abort, told: &Told, least: u32, most: u32) {
    let Told::Asked {
        outcome: Outcome::Answered { number, .. },
        ..
    } = *told
    else {
        panic!(rt; "an answer");
    };
    assert!(rt;
        least <= number && number <= most,
        "{least} to {most}: {number}"
    );
}

/// A query has an unknown name.
fn is_of_unknown_name(told: &Told) -> bool {
    match told {
        Told::Asked { outcome, .. } => matches!(outcome, Outcome::Unknown(_)),
        Told::Linked { .. } => false,
    }
}

/// Three queries were told: two with a pin, at which the job had two and three of its six entries while another made up
/// to four, and one of an unknown name.
fn compare_told(rt: &impl Abort, tolds: &[Told]) {
    let [first, second, third] = tolds else {
        panic!(rt; "three queries");
    };
    compare_pin(rt, first, 2, 6);
    compare_pin(rt, second, 3, 7);
    assert!(rt; is_of_unknown_name(third));
}

#[test]
fn two_jobs_share_a_history(rt: HostRuntime) {
    let alloc = rt.alloc();
    let topology = network(&rt, alloc);
    let jobs = two_jobs(&rt, alloc, &topology);
    let (store, dones) = run_over(&rt, alloc, 100, topology, jobs);
    compare_order(&rt, alloc, &store, &[1, 2], &[2, 2, 1, 2, 1, 1]);
    compare_order(&rt, alloc, &store, &[3], &[3, 3, 3, 3]);
    compare_job(&rt, dones.as_slice(), 2, 0);
    compare_job(&rt, dones.as_slice(), 2, 1);
    assert!(rt; dones.len() == 2);
    compare_end(&rt, &dones[0], 1, 3, FeedEnd::End);
    compare_told(&rt, dones[0].told.as_slice());
}

/// The third update of `reader`'s feeds.
fn third_update() -> Entry
    ensures { (t : TopologyIs) → length t.routers ≡ 3 → IsTaken t result }
{
    Entry::Route {
        router: RouterId(0),
        feed_no: 1,
        op: Op::Set {
            prefix: Prefix::new(0x0A02_0000, 16),
            metric: 20,
            target: Target::Exit(2),
        },
    }
}

/// A store with two entries and no room refuses the third update.
fn compare_full(rt: &impl Abort, store: &mut Store)
    requires { length store.old.basis.topology.routers ≡ 3 }
{
    let refused = store.post(0, &third_update());
    same(rt, &refused, &Err(PostRefused::Full { length: 2 }));
}

/// The history takes two of three updates, and the feed's end is that it was full.
#[test]
fn a_full_history_ends_a_feed(rt: HostRuntime) {
    let alloc = rt.alloc();
    let topology = network(&rt, alloc);
    let jobs = one_job(&rt, alloc, &topology);
    let (mut store, dones) = run_over(&rt, alloc, 2, topology, jobs);
    compare_full(&rt, &mut store);
    compare_order(&rt, alloc, &store, &[1, 2, 3], &[1, 1]);
    compare_job(&rt, dones.as_slice(), 1, 0);
    assert!(rt; dones.len() == 1);
    compare_end(&rt, &dones[0], 0, 2, FeedEnd::Full);
}
