//! A topology: that its text is read, and what it says.

use crate::same::{same, same_list};
use dn_model::{LinkId, Name, RouterId, TopoEnd, TopoLink, Topology};
use std::alloc::Global;
use std::process::Abort;
use topology::{Port, port, read_topology};

const RING: &str = "routers = [\"r1\", \"r2\", \"r3\"]
[[link]]
name = \"a\"
ends = [\"r1:2\", \"r2:2\"]
unnumbered = false
[[link]]
name = \"b\"
ends = [\"r2:3\", \"r3:2\"]
unnumbered = true
[[link]]
name = \"c\"
ends = [\"r3:3\", \"r1:3\"]
[[edge]]
at = \"r1:1\"
[[edge]]
at = \"r2:1\"
[[edge]]
at = \"r3:1\"
";

/// Its bound alone says that topologies may cross threads; none is started.
fn crosses<T: Send + Sync>(_value: &T) {}

fn ring(rt: &impl Abort, alloc: Global) -> Topology {
    read_topology(alloc, RING.as_bytes()).expect(rt, "a topology")
}

/// The routers of the ring: three, of which the last is `r3`.
fn compare_routers(rt: &impl Abort, routers: &[Name]) {
    assert_eq!(rt; routers.len(), 3);
    same_list(rt, routers[2].as_bytes(), b"r3");
}

/// The links of the ring: three, of which the last is `c`.
fn compare_links(rt: &impl Abort, links: &[TopoLink]) {
    assert_eq!(rt; links.len(), 3);
    let c = &links[2];
    same_list(rt, c.name.as_bytes(), b"c");
    same(rt, &(c.first.router.0, c.first.index), &(2, 3));
    same(rt, &(c.second.router.0, c.second.index), &(0, 3));
    assert!(rt; !c.unnumbered);
}

/// The edges of the ring: three, of which the second is at `r2`.
fn compare_edges(rt: &impl Abort, edges: &[TopoEnd]) {
    assert_eq!(rt; edges.len(), 3);
    same(rt, &edges[1].router.0, &1);
    same(rt, &edges[1].index, &1);
}

#[test]
fn the_ring_is_read(rt: HostRuntime) {
    let topology = ring(&rt, rt.alloc());
    crosses(&topology);
    compare_routers(&rt, topology.routers.as_slice());
    compare_links(&rt, topology.links.as_slice());
    compare_edges(&rt, topology.edges.as_slice());
}

#[test]
fn interfaces_are_found(rt: HostRuntime) {
    let topology = ring(&rt, rt.alloc());
    let by_b = Port::Link {
        far: RouterId(1),
        link: LinkId(1),
        unnumbered: true,
    };
    same(&rt, &port(&topology, RouterId(2), 2), &Some(by_b));
    same(&rt, &port(&topology, RouterId(2), 1), &Some(Port::Edge));
    same(&rt, &port(&topology, RouterId(2), 4), &None);
}
