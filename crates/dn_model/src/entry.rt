//! Updates of routing tables, next-hop objects and links, and the history of a run.

ghost use Rattle.std.specs.Prelude.{◌≡◌};
ghost use Rattle.dn_model.specs.Entry.{object_op, op_on};

use crate::devices::device_of;
use crate::topology::Topology;
use crate::way::Way;
use base::{Keyed, LinkId, Prefix, RouterId, Target};

/// One update of a router, as its feed gives it.
#[derive(Clone, Copy, Debug, PartialEq, Eq)]
pub enum Op {
    /// Sets the route of this prefix and metric, in place of the one that has them; on a router that replaces by prefix in
    /// place of all routes of the prefix.
    Set {
        prefix: Prefix,
        metric: u32,
        target: Target,
    },
    /// The same of a route by a next-hop object of the router's device.
    SetBy {
        prefix: Prefix,
        metric: u32,
        id: u32,
    },
    /// Removes the route of this prefix and metric; without a metric all routes of the prefix. One that isn't
    /// there changes nothing.
    Clear {
        prefix: Prefix,
        metric: Option<u32>,
    },
    /// Sets a next-hop object of a device: what routes by it do.
    Object {
        id: u32,
        target: Target,
    },
    /// Removes a next-hop object of a device, and all routes of the device and its VRFs by it.
    NoObject {
        id: u32,
    },
}

/// An entry of the history.
#[derive(Clone, Copy, Debug, PartialEq, Eq)]
pub enum Entry {
    /// An update of one router, with the number of the feed that it came from. Feeds count from 1.
    Route {
        router: RouterId,
        feed_no: u32,
        op: Op,
    },
    /// A link goes down or comes up, by a line of this job. Jobs count from 1.
    Link {
        job: u32,
        link: LinkId,
        down: bool,
    },
}

/// An entry of the history with the seat that posted it. Seats count from 0.
#[derive(Clone, Copy, Debug, PartialEq, Eq)]
pub struct Posted {
    pub seat: u32,
    pub entry: Entry,
}

/// A route of one router's table. Prefix and metric are its key.
#[derive(Clone, Copy, Debug, PartialEq, Eq)]
pub struct Route {
    pub prefix: Prefix,
    pub metric: u32,
    pub way: Way,
}

/// No list of entries is searched: each has the key 0.
impl Keyed for Posted {
    ghost use Rattle.std.proofs.Common.{rules};

    ghost key_of = { λ _. 0 };

    ghost clones = { Prim.search rules };

    fn key(&self) -> u64 {
        0
    }
}

impl Op {
    /// Of an update of a device, what it is to its VRFs: an object that is set or goes away.
    fn of_object(self) -> Option<Op>
        ensures { result ≡ object_op self }
    {
        match self {
            Op::Object { .. } | Op::NoObject { .. } => Some(self),
            Op::Set { .. } | Op::SetBy { .. } | Op::Clear { .. } => None,
        }
    }
}

impl Entry {
    /// What the entry does to a router: an update of its own, or one of its device's objects; None where it is
    /// neither.
    pub fn op_on(&self, t: &Topology, to: RouterId) -> Option<Op>
        ensures { result ≡ op_on t.now to self.now }
    {
        match *self {
            Entry::Route { router, op, .. } => {
                if router.0 == to.0 {
                    Some(op)
                } else if router.0 == device_of(t, to).0 {
                    op.of_object()
                } else {
                    None
                }
            }
            Entry::Link { .. } => None,
        }
    }
}
