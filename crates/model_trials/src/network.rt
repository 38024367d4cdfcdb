//! A small network, its updates, and what the plain evaluator says of it.

ghost use Rattle.std.specs.Prelude.{◌≡◌, IsTrue, All};
ghost use Rattle.dn_model.specs.Tables.{device_of};
ghost use Rattle.dn_model.specs.Entry.{IsTargetOf, IsOpOf, IsEntryOf};

use crate::topologies::{three, three_and_vrf};
use dn_model::{
    Answer, Ask, Entry, LinkId, Name, Op, Prefix, Query, Replace, RouterId, Target, Topology,
    device_of, is_name, plain_answer,
};
use std::alloc::Global;
use std::process::Abort;

/// From r1 to r2 over the link a.
pub const TO_SECOND: Target = Target::To(RouterId(1), LinkId(0));

/// From r1 to r3 over the link c.
pub const TO_THIRD: Target = Target::To(RouterId(2), LinkId(1));

/// From r2 to r3 over the link b.
pub const SECOND_TO_THIRD: Target = Target::To(RouterId(2), LinkId(2));

/// From r2 back to r1 over the link a.
pub const BACK: Target = Target::To(RouterId(0), LinkId(0));

/// From r3 to r2 over the link b.
pub const THIRD_TO_SECOND: Target = Target::To(RouterId(1), LinkId(2));

/// 10.0.0.0/8.
pub fn ten() -> Prefix {
    Prefix::new(0x0A00_0000, 8)
}

/// 10.1.0.0/16.
pub fn ten_one() -> Prefix {
    Prefix::new(0x0A01_0000, 16)
}

/// Whether a target may be one of a route of the network.
fn is_target_of(t: &Topology, target: Target) -> bool
    ensures { IsTrue result → IsTargetOf t.now target }
{
    match target {
        Target::NoRoute | Target::LinkDown(_) => false,
        Target::Dropped(_) | Target::Local | Target::Exit(_) | Target::OnLink(_) => true,
        Target::To(router, link) => {
            usize::from(router.0) < t.routers.len() && usize::from(link.0) < t.links.len()
        }
    }
}

/// Whether a router is a device.
fn is_device(t: &Topology, router: RouterId) -> bool
    ensures { IsTrue result → device_of t.now router ≡ router }
{
    device_of(t, router) == router
}

/// Whether an update of a router may be one of the network.
fn is_op_of(t: &Topology, router: RouterId, op: &Op) -> bool
    ensures { IsTrue result → IsOpOf t.now router op.now }
{
    match *op {
        Op::Set { target, .. } => is_target_of(t, target),
        Op::SetBy { .. } | Op::Clear { .. } => true,
        Op::Object { target, .. } => is_device(t, router) && is_target_of(t, target),
        Op::NoObject { .. } => is_device(t, router),
    }
}

/// Whether an entry is of the network.
fn is_entry_of(t: &Topology, entry: &Entry) -> bool
    ensures { IsTrue result → IsEntryOf t.now entry.now }
{
    match entry {
        Entry::Route { router, op, .. } => {
            usize::from(router.0) < t.routers.len() && is_op_of(t, *router, op)
        }
        Entry::Link { link, .. } => usize::from(link.0) < t.links.len(),
    }
}

/// Whether all entries are of the network.
fn are_entries_of(t: &Topology, entries: &[Entry]) -> bool
    ensures { IsTrue result → All (IsEntryOf t.now) entries.now }
{
    for entry in entries {
        if !is_entry_of(t, entry) {
            return false;
        }
    }
    true
}

/// The network: three routers, of which none replaces routes by prefix.
pub fn network(rt: &impl Abort, alloc: Global) -> Topology {
    network_by(rt, alloc, Replace::Key)
}

/// The network; how r1 replaces routes.
pub fn network_by(rt: &impl Abort, alloc: Global, first: Replace) -> Topology {
    three(alloc, first).expect(rt, "memory")
}

/// The network with a VRF of r1; how r1 replaces routes.
pub fn network_with_vrf(rt: &impl Abort, alloc: Global, first: Replace) -> Topology {
    three_and_vrf(alloc, first).expect(rt, "memory")
}

/// An update of a router.
pub fn route(router: u16, op: Op) -> Entry {
    Entry::Route {
        router: RouterId(router),
        feed_no: 1,
        op,
    }
}

/// A link goes down or comes up.
pub fn link_entry(link: u16, down: bool) -> Entry {
    Entry::Link {
        job: 1,
        link: LinkId(link),
        down,
    }
}

/// An update that sets the route of a prefix by a next-hop object.
pub fn set_by(router: u16, prefix: Prefix, metric: u32, id: u32) -> Entry {
    route(router, Op::SetBy { prefix, metric, id })
}

/// An update that sets a next-hop object.
pub fn object(router: u16, id: u32, target: Target) -> Entry {
    route(router, Op::Object { id, target })
}

/// An update that removes a next-hop object.
pub fn no_object(router: u16, id: u32) -> Entry {
    route(router, Op::NoObject { id })
}

/// An update that sets what a router does with a prefix.
pub fn set(router: u16, prefix: Prefix, metric: u32, target: Target) -> Entry {
    route(
        router,
        Op::Set {
            prefix,
            metric,
            target,
        },
    )
}

/// An update that clears the route of this prefix and metric at a router; without a metric all of the prefix.
pub fn clear(router: u16, prefix: Prefix, metric: Option<u32>) -> Entry {
    route(router, Op::Clear { prefix, metric })
}

/// A name.
pub fn name_of(rt: &impl Abort, alloc: Global, text: &[u8]) -> Name {
    assert!(rt; is_name(text));
    Name::from_text(alloc, text).expect(rt, "memory")
}

/// The plain evaluator's answer to a query over these entries of a network.
pub fn answer_in(
    rt: &impl Abort,
    alloc: Global,
    t: &Topology,
    entries: &[Entry],
    query: &Query,
) -> Answer {
    assert!(rt; are_entries_of(t, entries), "entries of the network");
    assert!(rt; query.unknown(t).is_none(), "names of the network");
    plain_answer(alloc, t, entries, query).expect(rt, "memory")
}

/// The same of the network of three routers.
pub fn answer_to(rt: &impl Abort, alloc: Global, entries: &[Entry], query: &Query) -> Answer {
    let t = network(rt, alloc);
    answer_in(rt, alloc, &t, entries, query)
}

/// The same with no link taken as down.
pub fn answer(rt: &impl Abort, alloc: Global, entries: &[Entry], ask: Ask) -> Answer {
    answer_to(rt, alloc, entries, &Query::of(alloc, ask))
}
