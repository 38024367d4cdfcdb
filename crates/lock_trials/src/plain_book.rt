//! A book that keeps its history in a list.

ghost use Rattle.std.specs.Prelude.{◌≡◌, ◌<◌, ◌≤◌, [], length, IfOk};
ghost use Rattle.std.specs.Arc.{arc_value};
ghost use Rattle.dn_model.specs.Entry.{IsEntryOf};
ghost use Rattle.dn_model.specs.declared.topology.Topology.{Topology};

use dn_model::{Entry, List, Op, OutOfMemory, Posted, Prefix, RouterId, Topology};
use std::alloc::Global;
use std::process::Abort;
use std::sync::Arc;
use topology::read_topology;
use version_lock::{Book, PostRefused};

/// One router.
const NETWORK: &str = "routers = [\"r1\"]\n";

#[derive(Drop)]
pub(crate) struct PlainBook {
    pub(crate) alloc: Global,
    pub(crate) topology: Arc<Topology, Global>,
    pub(crate) limit: u32,
    pub(crate) posted: List<Posted>,
    ghost within: { length posted ≤ limit },
}

#[derive(Drop)]
pub(crate) struct PlainSnap {
    topology: Arc<Topology, Global>,
    posted: List<Posted>,
}

impl PlainSnap {
    /// How many entries were posted before the snapshot.
    pub(crate) fn number(&self) -> usize {
        self.posted.len()
    }
}

impl Book for PlainBook {
    ghost use Rattle.std.specs.Arc.{arc_value};

    type Snap = PlainSnap;

    ghost history = { λ b. b.posted };

    ghost basis = { λ b. record { topology = arc_value b.topology; limit = b.limit } };

    ghost shown = { λ s. s.posted };

    ghost shown_topology = { λ s. arc_value s.topology };

    ghost takes = { λ basis e. IsEntryOf basis.topology e };

    fn post(&mut self, seat: u32, entry: &Entry) -> Result<u32, PostRefused> {
        let limit = self.limit;
        if self.posted.len() >= limit as usize {
            return Err(PostRefused::Full { length: limit });
        }
        let position = self.posted.len() as u32 + 1;
        match self.posted.push(Posted {
            seat,
            entry: *entry,
        }) {
            Ok(()) => Ok(position),
            Err(OutOfMemory) => Err(PostRefused::OutOfMemory),
        }
    }

    fn snap(&self) -> Result<PlainSnap, OutOfMemory> {
        let posted = Vec::from_slice(self.alloc, self.posted.as_slice())?;
        Ok(PlainSnap {
            topology: Arc::try_clone(&self.topology)?,
            posted: List::from_vec(posted),
        })
    }
}

/// The network, which has a router.
fn network(rt: &impl Abort, alloc: Global) -> Topology
    ensures { 0 < length result.routers }
{
    let t = read_topology(alloc, NETWORK.as_bytes())
        .ok()
        .expect(rt, "a topology");
    assert!(rt; t.router_count() > 0);
    t
}

/// An empty book of this limit.
pub(crate) fn plain_book(
    rt: &impl Abort,
    alloc: Global,
    limit: u32,
) -> Result<PlainBook, OutOfMemory>
    ensures empty { IfOk result (λ b. b.posted ≡ []) }
    ensures router { IfOk result (λ b. 0 < length (arc_value b.topology).routers) }
{
    let topology = Arc::new(alloc, network(rt, alloc))?;
    Ok(PlainBook {
        alloc,
        topology,
        limit,
        posted: List::new(alloc),
    })
}

/// An update of the first router, told from others by its feed's number.
pub(crate) fn entry(feed_no: u32) -> Entry
    ensures { (t : Topology) → 0 < length t.routers → IsEntryOf t result }
{
    Entry::Route {
        router: RouterId(0),
        feed_no,
        op: Op::Clear {
            prefix: Prefix::new(0, 0),
            metric: None,
        },
    }
}
