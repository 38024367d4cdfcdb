//! The routers and links that a query names.

ghost use Rattle.std.specs.Prelude.{◌≡◌, ◌<◌, IfOk, IsSome, Some, length, slice_get};
ghost use Rattle.dn_model.specs.Answer.{links_of};
ghost use Rattle.dn_model.specs.Lookup.{link_of, router_of};

use dn_model::{LinkId, Name, OutOfMemory, RouterId, TopoLink, Topology, link, router};
use std::alloc::Global;

/// The router of a name that the topology has.
pub fn known_router(topology: &Topology, name: &Name) -> RouterId
    requires { IsSome (router_of topology.now name.now) }
    ensures value { router_of topology.now name.now ≡ Some result }
    ensures within { result.0 < length topology.now.routers }
{
    let Some(known) = router(topology, name) else {
        unreachable!()
    };
    known
}

/// The link of a name that the topology has.
pub fn known_link(topology: &Topology, name: &Name) -> LinkId
    requires { IsSome (link_of topology.now name.now) }
    ensures value { link_of topology.now name.now ≡ Some result }
    ensures within { result.0 < length topology.now.links }
{
    let Some(known) = link(topology, name) else {
        unreachable!()
    };
    known
}

/// The link of this number.
pub fn link_at(topology: &Topology, over: LinkId) -> &TopoLink
    requires { over.0 < length topology.now.links }
    ensures { slice_get topology.now.links over.0 ≡ Some result.now }
{
    &topology.links.as_slice()[over.0 as usize]
}

/// The links with these names; a name that the topology doesn't have gives none.
pub fn links_named(
    alloc: Global,
    topology: &Topology,
    names: &[Name],
) -> Result<Vec<LinkId>, OutOfMemory>
    ensures { IfOk result (λ links. links.items ≡ links_of topology.now names.now) }
{
    let mut links = Vec::new(alloc);
    for name in names {
        if let Some(found) = link(topology, name) {
            links.push(found)?;
        }
    }
    Ok(links)
}
