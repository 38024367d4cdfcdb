//! Looking up names and interfaces in a topology.

ghost use Rattle.std.specs.Prelude.{◌≡◌, ◌<◌, ◌≤◌, IfSome, length, map, position};
ghost use Rattle.std.specs.List.{list_any};
ghost use Rattle.std.specs.Map.{lookup};
ghost use Rattle.base.specs.Name.{same_text};
ghost use Rattle.dn_model.specs.Topology.{same_end};
ghost use Rattle.dn_model.specs.Lookup.{router_of, link_of, ports_of_link, ports_of_links, port_of, IsPortWithin};

use crate::devices::device_of;
use crate::ports::Port;
use crate::topology::{TopoEnd, TopoLink, Topology};
use base::{LinkId, Name, RouterId};

/// The first place in a list of routers that has this name.
fn place_of_router(routers: &[Name], name: &Name) -> Option<usize>
    ensures value { result ≡ position (λ n. same_text n name.now) routers.now }
    ensures within { IfSome result (λ i. i < length routers.now) }
{
    routers
        .iter()
        .position(|router| router.as_bytes() == name.as_bytes())
}

/// The first place in a list of links that has this name.
fn place_of_link(links: &[TopoLink], name: &Name) -> Option<usize>
    ensures value { result ≡ position (λ l. same_text l.name name.now) links.now }
    ensures within { IfSome result (λ i. i < length links.now) }
{
    links
        .iter()
        .position(|link| link.name.as_bytes() == name.as_bytes())
}

/// The router of this name, and None exactly where the topology has none of it.
pub fn router(topology: &Topology, name: &Name) -> Option<RouterId>
    ensures value { result ≡ router_of topology.now name.now }
    ensures within { IfSome result (λ r. r.0 < length topology.now.routers) }
{
    match place_of_router(topology.routers.as_slice(), name) {
        Some(place) => Some(RouterId(place as u16)),
        None => None,
    }
}

/// The link of this name, and None exactly where the topology has none of it.
pub fn link(topology: &Topology, name: &Name) -> Option<LinkId>
    ensures value { result ≡ link_of topology.now name.now }
    ensures within { IfSome result (λ l. l.0 < length topology.now.links) }
{
    match place_of_link(topology.links.as_slice(), name) {
        Some(place) => Some(LinkId(place as u16)),
        None => None,
    }
}

/// Whether two interfaces are the same: those of a device and its VRFs are the device's.
fn is_same_end(t: &Topology, first: TopoEnd, second: TopoEnd) -> bool
    ensures { result ≡ same_end t.now.tables first second }
{
    device_of(t, first.router).0 == device_of(t, second.router).0 && first.index == second.index
}

/// What a link puts at an interface, if it is one of its ends.
fn port_of_link(t: &Topology, link: &TopoLink, id: LinkId, at: TopoEnd) -> Option<Port>
    ensures { result ≡ lookup (same_end t.now.tables at) (ports_of_link id link.now) }
{
    let far = if is_same_end(t, at, link.first) {
        link.second.router
    } else if is_same_end(t, at, link.second) {
        link.first.router
    } else {
        return None;
    };
    Some(Port::Link {
        far,
        link: id,
        unnumbered: link.unnumbered,
    })
}

/// What the links put at an interface.
fn port_among_links(t: &Topology, links: &[TopoLink], at: TopoEnd) -> Option<Port>
    requires { length links.now ≤ 4096 }
    ensures { result ≡ lookup (same_end t.now.tables at) (ports_of_links 0 links.now) }
{
    for (i, link) in links.iter().enumerate() {
        let found = port_of_link(t, link, LinkId(i as u16), at);
        if found.is_some() {
            return found;
        }
    }
    None
}

/// Whether one of the edges is this interface.
fn is_among_edges(t: &Topology, edges: &[TopoEnd], at: TopoEnd) -> bool
    ensures { result ≡ list_any (same_end t.now.tables at) edges.now }
{
    edges.iter().any(|edge| is_same_end(t, at, *edge))
}

/// What the edges put at an interface.
fn port_among_edges(t: &Topology, edges: &[TopoEnd], at: TopoEnd) -> Option<Port>
    ensures { result ≡ lookup (same_end t.now.tables at) (map (λ e. (e, Port.Edge)) edges.now) }
{
    if is_among_edges(t, edges, at) {
        Some(Port::Edge)
    } else {
        None
    }
}

/// What is at an interface.
fn what_is_at(topology: &Topology, at: TopoEnd) -> Option<Port>
    ensures { result ≡ port_of topology.now at.router at.index }
{
    match port_among_links(topology, topology.links.as_slice(), at) {
        Some(port) => Some(port),
        None => port_among_edges(topology, topology.edges.as_slice(), at),
    }
}

/// What is at a router's interface of this number, and None exactly where the topology has no such interface.
pub fn port(topology: &Topology, router: RouterId, index: u32) -> Option<Port>
    ensures value { result ≡ port_of topology.now router index }
    ensures within { IfSome result (IsPortWithin topology.now) }
{
    what_is_at(topology, TopoEnd { router, index })
}
