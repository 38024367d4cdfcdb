//! Where interfaces were found last time.
//!
//! To look an interface up in a topology takes a scan of its links and edges. A reader meets the same few interfaces
//! again and again, so it notes where each was found, and looks there first. The topology at hand decides: what was
//! noted is a guess, which is tested at each use, and no contract speaks of it.

ghost use Rattle.std.specs.Prelude.{◌≡◌, Some, IfSome};
ghost use Rattle.dn_model.specs.Topology.{same_end};
ghost use Rattle.dn_model.specs.Lookup.{port_of, IsPortWithin};

use dn_model::{LinkId, Port, RouterId, TopoEnd, TopoLink, Topology, device_of, port};
use std::marker::Model;

/// How many interfaces have a place of their own. One whose number is larger shares the place of another.
const PLACES: u32 = 64;

/// For the interfaces of one device, the place of the link and the place of the edge where each was found last time.
/// A contract sees nothing of it.
#[derive(Drop)]
pub struct PortHints {
    links: [u16; 64],
    edges: [u16; 64],
}

impl Model for PortHints {
    ghost Value = { Unit {0} };

    ghost view = { λ hints. tt };
}

/// Whether two interfaces are the same: those of a device and its VRFs are the device's.
fn is_same_end(topology: &Topology, first: TopoEnd, second: TopoEnd) -> bool
    ensures { result ≡ same_end topology.now.tables first second }
{
    first.index == second.index
        && device_of(topology, first.router).0 == device_of(topology, second.router).0
}

/// What the link at this place puts at the end whose far router this is.
fn port_over(link: &TopoLink, place: u16, far: RouterId) -> Port
    ensures { result ≡ Port.Link far (record { 0 = place }) link.now.unnumbered }
{
    Port::Link {
        far,
        link: LinkId(place),
        unnumbered: link.unnumbered,
    }
}

/// What the link at this place puts at an interface, if it is one of the link's ends.
fn port_at_link(topology: &Topology, place: u16, at: TopoEnd) -> Option<Port>
    ensures { IfSome result (λ port. port_of topology.now at.router at.index ≡ Some port) }
{
    let links = topology.links.as_slice();
    if place as usize >= links.len() {
        return None;
    }
    let link = &links[place as usize];
    if is_same_end(topology, at, link.first) {
        Some(port_over(link, place, link.second.router))
    } else if is_same_end(topology, at, link.second) {
        Some(port_over(link, place, link.first.router))
    } else {
        None
    }
}

/// What the edge at this place puts at an interface, if it is the edge.
fn port_at_edge(topology: &Topology, place: u16, at: TopoEnd) -> Option<Port>
    ensures { IfSome result (λ port. port_of topology.now at.router at.index ≡ Some port) }
{
    let edges = topology.edges.as_slice();
    if (place as usize) < edges.len() && is_same_end(topology, at, edges[place as usize]) {
        Some(Port::Edge)
    } else {
        None
    }
}

/// The first place among the edges of this interface, and 0 where it is none of them.
fn place_of_edge(topology: &Topology, at: TopoEnd) -> u16 {
    let edges = topology.edges.as_slice();
    match edges
        .iter()
        .position(|edge| is_same_end(topology, at, *edge))
    {
        Some(place) => u16::try_from(place).unwrap_or(0),
        None => 0,
    }
}

impl PortHints {
    /// Nothing was found yet: the first of each list is as good a guess as any.
    pub fn new() -> Self {
        PortHints {
            links: [0; 64],
            edges: [0; 64],
        }
    }

    /// What is at an interface, if it is where it was found last time.
    fn guess(&self, topology: &Topology, at: TopoEnd) -> Option<Port>
        ensures { IfSome result (λ port. port_of topology.now at.router at.index ≡ Some port) }
    {
        let place = (at.index % PLACES) as usize;
        match port_at_link(topology, self.links[place], at) {
            Some(port) => Some(port),
            None => port_at_edge(topology, self.edges[place], at),
        }
    }

    /// Notes where an interface was found, and what is there.
    fn note(&mut self, topology: &Topology, at: TopoEnd, found: Port) {
        let place = (at.index % PLACES) as usize;
        match found {
            Port::Link { link, .. } => self.links[place] = link.0,
            Port::Edge => self.edges[place] = place_of_edge(topology, at),
        }
    }
}

/// What is at a router's interface of this number, and None exactly where the topology has no such interface.
pub fn port_hinted(
    topology: &Topology,
    router: RouterId,
    index: u32,
    hints: &mut PortHints,
) -> Option<Port>
    ensures value { result ≡ port_of topology.now router index }
    ensures within { IfSome result (IsPortWithin topology.now) }
{
    let at = TopoEnd { router, index };
    if let Some(port) = hints.guess(topology, at) {
        return Some(port);
    }
    let found = port(topology, router, index)?;
    hints.note(topology, at, found);
    Some(found)
}
