//! The network of the trials, of three routers, and what is posted of it.

ghost use Rattle.std.specs.Prelude.{◌<◌};
ghost use Rattle.store_trials.specs.Line.{AreEventsOfLine, AreOfLine, IsLine, IsOfLine, IsTargetOfLine};

use dn_model::{DropKind, Entry, LinkId, Op, Prefix, RouterId, Target, Topology};
use std::alloc::Global;
use std::process::Abort;
use topology::read_topology;
use version_store::Event;

/// From r1 to r2 over the link a.
const TO_SECOND: Target = Target::To(RouterId(1), LinkId(0));

/// From r2 back to r1 over the link a.
const TO_FIRST: Target = Target::To(RouterId(0), LinkId(0));

/// Three routers, and links from the first to the second and from there to the third.
const NETWORK: &str = "routers = [\"r1\", \"r2\", \"r3\"]
[[link]]
name = \"a\"
ends = [\"r1:2\", \"r2:2\"]
[[link]]
name = \"b\"
ends = [\"r2:3\", \"r3:2\"]
";

/// The network.
pub fn network(rt: &impl Abort, alloc: Global) -> Topology
    ensures { IsLine result }
{
    let t = read_topology(alloc, NETWORK.as_bytes())
        .ok()
        .expect(rt, "a topology");
    assert!(rt; t.router_count() == 3);
    assert!(rt; t.links.len() == 2);
    t
}

/// What is posted.
#[derive(Clone, Copy)]
pub enum Step {
    /// r1 sends 10.0.0.0/8 to r2.
    ToSecond,
    /// At r2 10.0.0.0/8 leaves the network.
    ExitAtSecond,
    /// r1 drops 10.1.0.0/16.
    DropAtFirst,
    /// 10.0.0.0/8 is r2's own.
    Own,
    /// r1 has no route of 10.0.0.0/8 any more.
    ClearAtFirst,
    /// r2 sends 10.0.0.0/8 back to r1.
    Back,
    /// The link from r1 to r2 goes down.
    Fail,
    /// The link from r1 to r2 comes up.
    Mend,
}

/// 10.0.0.0/8.
fn ten() -> Prefix {
    Prefix::new(0x0A00_0000, 8)
}

/// 10.1.0.0/16.
fn ten_one() -> Prefix {
    Prefix::new(0x0A01_0000, 16)
}

/// An update that sets what a router does with a prefix.
fn set(router: u16, prefix: Prefix, metric: u32, target: Target) -> Entry
    requires router { router < 3 }
    requires target { IsTargetOfLine target }
    ensures { IsOfLine result }
{
    Entry::Route {
        router: RouterId(router),
        feed_no: 1,
        op: Op::Set {
            prefix,
            metric,
            target,
        },
    }
}

/// An update that clears all routes of a prefix at r1.
fn clear(prefix: Prefix) -> Entry
    ensures { IsOfLine result }
{
    Entry::Route {
        router: RouterId(0),
        feed_no: 1,
        op: Op::Clear {
            prefix,
            metric: None,
        },
    }
}

/// The link from r1 to r2 goes down or comes up.
fn turn(down: bool) -> Entry
    ensures { IsOfLine result }
{
    Entry::Link {
        job: 1,
        link: LinkId(0),
        down,
    }
}

/// The entry of a step.
pub fn entry_of(step: Step) -> Entry
    ensures { IsOfLine result }
{
    match step {
        Step::ToSecond => set(0, ten(), 20, TO_SECOND),
        Step::ExitAtSecond => set(1, ten(), 20, Target::Exit(1)),
        Step::DropAtFirst => set(0, ten_one(), 20, Target::Dropped(DropKind::Blackhole)),
        Step::Own => set(1, ten(), 5, Target::Local),
        Step::ClearAtFirst => clear(ten()),
        Step::Back => set(1, ten(), 10, TO_FIRST),
        Step::Fail => turn(true),
        Step::Mend => turn(false),
    }
}

/// The entries of steps.
pub fn entries_of(rt: &impl Abort, alloc: Global, steps: &[Step]) -> Vec<Entry>
    ensures { AreOfLine result.items }
{
    let mut entries = Vec::new(alloc);
    for step in steps {
        entries.push(entry_of(*step)).expect(rt, "memory");
    }
    entries
}

/// The step at a place of a long history, which goes round five of them. Places count from 0.
pub fn step_at(place: u32) -> Step {
    match place % 5 {
        0 => Step::ToSecond,
        1 => Step::ExitAtSecond,
        2 => Step::DropAtFirst,
        3 => Step::Own,
        _ => Step::ClearAtFirst,
    }
}

/// The first steps of a long history.
pub fn first_steps(rt: &impl Abort, alloc: Global, count: u32) -> Vec<Step> {
    let mut steps = Vec::new(alloc);
    for place in 0..count {
        steps.push(step_at(place)).expect(rt, "memory");
    }
    steps
}

/// Two entries, with the history fixed before each.
pub fn two_with_pins() -> [Event; 4]
    ensures { AreEventsOfLine result }
{
    [
        Event::Pin,
        Event::Apply(entry_of(Step::ToSecond)),
        Event::Pin,
        Event::Apply(entry_of(Step::ExitAtSecond)),
    ]
}
