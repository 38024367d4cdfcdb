//! What a trial of jobs side by side runs: a ring of eight routers, a feed for each, and five scripts, by a seed.

ghost use Rattle.std.specs.Prelude.{◌≤◌, All};
ghost use Rattle.dn_model.specs.Entry.{IsEntryOf, IsTargetOf};

use crate::whole_run::{add, add_file, file, file_by, frame_of, text, words_with};
use dn_io::MemFile;
use dn_model::{Entry, LinkId, Op, Port, Prefix, RouterId, Target, Topology, port};
use std::alloc::{AllocError, Global};
use std::process::Abort;

/// Each router of the ring has a feed, of so many updates.
pub(crate) const FEEDS: u32 = 8;

pub(crate) const UPDATES: u32 = 6;

/// The feeds that each script takes. Each other feed is a job of its own.
pub(crate) const TAKEN: [&[u32]; 5] = [&[1, 2], &[4, 3], &[5], &[], &[]];

pub(crate) const UNTAKEN: [u32; 3] = [6, 7, 8];

/// Each script has so many lines.
const LINES: u32 = 8;

/// A number that looks drawn, below 2^16.
fn drawn(seed: u32, first: u32, second: u32) -> u32 {
    let mixed = seed.wrapping_mul(31).wrapping_add(first);
    let mixed = mixed.wrapping_mul(0x9E37_79B1).wrapping_add(second);
    mixed.wrapping_mul(0x85EB_CA6B) >> 16
}

/// The text of the ring: link `li` goes from interface 2 of `mi` to interface 3 of the next router, and each router has
/// an edge at interface 1.
pub(crate) fn ring_text(rt: &impl Abort, alloc: Global) -> String {
    let mut ring = text(rt, alloc, "routers = [");
    for router in 0..FEEDS {
        add(rt, &mut ring, format!(in alloc; "\"m{router}\", "));
    }
    add(rt, &mut ring, format!(in alloc; "]\n"));
    for router in 0..FEEDS {
        let next = (router + 1) % FEEDS;
        let link = format!(in alloc;
            "[[link]]\nname = \"l{router}\"\nends = [\"m{router}:2\", \"m{next}:3\"]\n"
        );
        add(rt, &mut ring, link);
    }
    for router in 0..FEEDS {
        add(
            rt,
            &mut ring,
            format!(in alloc; "[[edge]]\nat = \"m{router}:1\"\n"),
        );
    }
    ring
}

/// A feed's bytes: each update sets one of three prefixes over an interface.
fn feed_bytes(rt: &impl Abort, alloc: Global, seed: u32, feed: u32) -> Vec<u8> {
    let mut bytes = Vec::new(alloc);
    for nth in 0..UPDATES {
        let chance = drawn(seed, feed, nth);
        let second = (chance % 3) as u8;
        let oif = (1 + chance / 3 % 3) as u8;
        let frame = frame_of([10, second, 0, 0], 16, 20, oif);
        bytes.extend_from_slice(&frame).expect(rt, "memory");
    }
    bytes
}

/// What a route through a router's interface with a gateway does.
fn through(topology: &Topology, router: RouterId, index: u32) -> Target
    ensures { IsTargetOf topology.now result }
{
    match port(topology, router, index) {
        Some(Port::Link { far, link, .. }) => Target::To(far, link),
        Some(Port::Edge) => Target::Exit(index),
        None => Target::OnLink(index),
    }
}

/// One of three prefixes.
fn prefix(number: u32) -> Prefix {
    match number {
        0 => Prefix::new(0x0A00_0000, 16),
        1 => Prefix::new(0x0A01_0000, 16),
        _ => Prefix::new(0x0A02_0000, 16),
    }
}

/// The update of a feed that comes after so many others of it.
fn entry(rt: &impl Abort, topology: &Topology, seed: u32, feed: u32, nth: u32) -> Entry
    ensures { IsEntryOf topology.now result }
{
    assert!(rt; 0 < feed && feed <= topology.router_count());
    let router = RouterId((feed - 1) as u16);
    let chance = drawn(seed, feed, nth);
    Entry::Route {
        router,
        feed_no: feed,
        op: Op::Set {
            prefix: prefix(chance % 3),
            metric: 20,
            target: through(topology, router, 1 + chance / 3 % 3),
        },
    }
}

/// Where an entry of a history comes from: from the feed of this number, or from a line of a job that says that the link
/// of this number goes down or comes up.
#[derive(Clone, Copy, Debug, PartialEq, Eq)]
pub(crate) enum Origin {
    Feed(u32),
    Link { job: u32, link: u16, down: bool },
}

/// Whether an entry comes from this feed.
fn is_of_feed(origin: Origin, feed: u32) -> bool {
    match origin {
        Origin::Feed(other) => other == feed,
        Origin::Link { .. } => false,
    }
}

/// How many of these are this feed's.
pub(crate) fn count_of(order: &[Origin], feed: u32) -> usize {
    order
        .iter()
        .filter(|origin| is_of_feed(**origin, feed))
        .count()
}

/// The entry that comes from there, after these.
fn entry_from(
    rt: &impl Abort,
    topology: &Topology,
    seed: u32,
    past: &[Origin],
    origin: Origin,
) -> Entry
    ensures { IsEntryOf topology.now result }
{
    match origin {
        Origin::Feed(feed) => {
            let nth = (count_of(past, feed) % 64) as u32;
            entry(rt, topology, seed, feed, nth)
        }
        Origin::Link { job, link, down } => {
            assert!(rt; usize::from(link) < topology.links.len());
            let link = LinkId(link);
            Entry::Link { job, link, down }
        }
    }
}

/// The entries that come from there, in this order.
pub(crate) fn entries(
    rt: &impl Abort,
    alloc: Global,
    topology: &Topology,
    seed: u32,
    order: &[Origin],
) -> Vec<Entry>
    ensures { All (IsEntryOf topology.now) result.items }
{
    let mut made = Vec::new(alloc);
    for at in 0..order.len() {
        let entry = entry_from(rt, topology, seed, &order[..at], order[at]);
        made.push(entry).expect(rt, "memory");
    }
    made
}

/// The text of a line that takes no frames: a query, or one of four links goes down or comes up.
fn plain_text(alloc: Global, chance: u32) -> Result<String, AllocError> {
    let one = chance % 8;
    let two = chance / 8 % 8;
    match chance / 64 % 10 {
        0 => format!(in alloc; "path m{one} 10.{}.0.1\n", two % 3),
        1 => format!(in alloc; "reach m{one} m{two}\n"),
        2 => String::from_str(alloc, "loops\n"),
        3 => format!(in alloc; "blackholes m{one}\n"),
        4 => format!(in alloc; "without l{two} reach m{one} m{two}\n"),
        5 => String::from_str(alloc, "delta\n"),
        6 => format!(in alloc; "uses l{one}\n"),
        7 => format!(in alloc; "down l{}\n", one % 4),
        8 => format!(in alloc; "up l{}\n", one % 4),
        _ => format!(in alloc; "waypoint m{one} m{two} m{}\n", chance / 512 % 8),
    }
}

/// A line's text, which, for a script with feeds, perhaps takes one to three frames of one of them.
fn line_text(alloc: Global, taken: &[u32], chance: u32) -> Result<String, AllocError> {
    let place = (chance / 2) as usize % taken.len().max(1);
    match taken.get(place) {
        Some(feed) if chance % 2 == 0 => {
            let router = feed.saturating_sub(1);
            format!(in alloc; "take m{router} {}\n", 1 + chance / 8 % 3)
        }
        _ => plain_text(alloc, chance / 2),
    }
}

/// The text of the script at this place: at first it takes a frame of each of its feeds, in order.
pub(crate) fn script_text(rt: &impl Abort, alloc: Global, seed: u32, number: usize) -> String {
    let mut script = String::new(alloc);
    let taken = TAKEN.get(number).copied().unwrap_or(&[]);
    for feed in taken {
        let router = feed.saturating_sub(1);
        add(rt, &mut script, format!(in alloc; "take m{router} 1\n"));
    }
    for line in 0..LINES {
        let chance = drawn(seed, 100 + (number % 64) as u32, line);
        add(rt, &mut script, line_text(alloc, taken, chance));
    }
    script
}

/// The file of the script at this place.
fn script_file(rt: &impl Abort, alloc: Global, seed: u32, number: usize) -> MemFile
    ensures { 1 ≤ result.step }
{
    let name = format!(in alloc; "s{number}").expect(rt, "memory");
    let text = script_text(rt, alloc, seed, number);
    file(rt, alloc, name.as_str(), text.as_bytes())
}

/// The file of a feed.
fn feed_file(rt: &impl Abort, alloc: Global, seed: u32, feed: u32) -> MemFile
    ensures { 1 ≤ result.step }
{
    let name = format!(in alloc; "f{feed}").expect(rt, "memory");
    let bytes = feed_bytes(rt, alloc, seed, feed);
    file_by(rt, alloc, name.as_str(), bytes.as_slice(), 100, &[])
}

/// The files of a run: the topology, the scripts `s0` and so on, and the feeds `f1` and so on.
pub(crate) fn files(rt: &impl Abort, alloc: Global, seed: u32) -> Vec<MemFile>
    ensures { All (λ file. 1 ≤ file.step) result.items }
{
    let ring = ring_text(rt, alloc);
    let mut files = Vec::new(alloc);
    add_file(rt, &mut files, file(rt, alloc, "topology", ring.as_bytes()));
    for number in 0..TAKEN.len() {
        add_file(rt, &mut files, script_file(rt, alloc, seed, number));
    }
    for feed in 1..FEEDS + 1 {
        add_file(rt, &mut files, feed_file(rt, alloc, seed, feed));
    }
    files
}

/// Adds a word.
fn add_word(rt: &impl Abort, words: &mut Vec<String>, word: Result<String, AllocError>) {
    words.push(word.expect(rt, "memory")).expect(rt, "memory");
}

/// The words of a run.
pub(crate) fn words(rt: &impl Abort, alloc: Global) -> Vec<String> {
    let mut words = words_with(rt, alloc, &[]);
    for feed in 1..FEEDS + 1 {
        add_word(rt, &mut words, format!(in alloc; "m{}=f{feed}", feed - 1));
    }
    for number in 0..TAKEN.len() {
        add_word(rt, &mut words, format!(in alloc; "@s{number}"));
    }
    words
}
