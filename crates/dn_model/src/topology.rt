//! The network's topology.

ghost use Rattle.std.specs.Prelude.{IsTrue, ◌≡◌, ◌≤◌, length};
ghost use Rattle.dn_model.specs.Topology.{is_sound_topology};

use base::{List, Name, RouterId};

/// An end of a link, or an edge: an interface of a router's device, by its number there (1 to 2,147,483,647).
#[derive(Clone, Copy, Debug, PartialEq, Eq)]
pub struct TopoEnd {
    pub router: RouterId,
    pub index: u32,
}

/// A link between two routers. On one that is `unnumbered` a route without a gateway still leads to the far router.
#[derive(Drop)]
pub struct TopoLink {
    pub name: Name,
    pub first: TopoEnd,
    pub second: TopoEnd,
    pub unnumbered: bool,
}

/// How a route that is set takes the place of others.
#[derive(Clone, Copy, Debug, PartialEq, Eq)]
pub enum Replace {
    /// Of the one of its prefix and metric.
    Key,
    /// Of all of its prefix, as where a router's feed tells no deletion before a change.
    Prefix,
}

/// Whose routing table a router is: the main one (number 254) of a device, or that of one of its VRFs; and how it
/// replaces routes.
#[derive(Clone, Copy, Debug, PartialEq, Eq)]
pub struct RouterTable {
    pub device: RouterId,
    pub number: u32,
    pub replace: Replace,
}

/// The network: routers and links in the order of the topology file, and the edges where packets leave it. Devices stand
/// first among the routers, then their VRFs; each router has its table. Names of routers differ, names of links differ, no
/// interface of a device stands twice among all ends and edges, no link has both ends at one router, and there are at most
/// 1,024 routers, 4,096 links and 16,384 edges.
#[derive(Drop)]
pub struct Topology {
    pub routers: List<Name>,
    /// Whose table each router is, in the order of the routers.
    pub tables: List<RouterTable>,
    pub links: List<TopoLink>,
    pub edges: List<TopoEnd>,
    ghost sound: { IsTrue (is_sound_topology (record { routers = routers; tables = tables; links = links; edges = edges })) },
}

impl Topology {
    /// How many routers there are, at most 1,024.
    pub fn router_count(&self) -> u32
        ensures value { result ≡ length self.now.routers }
        ensures few { result ≤ 1024 }
    {
        self.routers.len() as u32
    }
}
