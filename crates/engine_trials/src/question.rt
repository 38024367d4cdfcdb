//! Queries that are drawn.

ghost use Rattle.std.specs.Prelude.{◌<◌, ◌≤◌, ◌+◌, ℕ, List, IfOk, OnOk, length};
ghost use Rattle.dn_model.specs.Query.{IsAskedWithout};

use crate::draw::{Draw, Spot, drawn_prefix};
use dn_model::{Ask, List, Name, OutOfMemory, Query, Topology};
use std::alloc::Global;

/// The first address of one of a spot's prefixes, or the one before it.
fn drawn_address(spot: &Spot, draw: &mut Draw) -> u32 {
    let base = drawn_prefix(spot, draw).base();
    base.wrapping_sub(draw.below(2))
}

/// The name of the router at a place.
fn router_at(alloc: Global, topology: &Topology, place: u32) -> Result<Name, OutOfMemory>
    requires { place < length topology.now.routers }
{
    topology.routers.as_slice()[place as usize].copy(alloc)
}

/// The name of one of eight routers, from the one at a place on and counted round: addresses come to such a one often
/// in a large network too.
fn drawn_router(
    alloc: Global,
    topology: &Topology,
    place: u32,
    draw: &mut Draw,
) -> Result<Name, OutOfMemory>
    requires { 0 < length topology.now.routers }
{
    let on = place.wrapping_add(draw.below(8));
    router_at(alloc, topology, on % topology.router_count())
}

/// The name of the link at a place, counted round; None where there is none.
fn link_at(alloc: Global, topology: &Topology, place: u32) -> Result<Option<Name>, OutOfMemory> {
    let links = topology.links.as_slice();
    match links.get(place as usize % links.len().max(1)) {
        Some(link) => Ok(Some(link.name.copy(alloc)?)),
        None => Ok(None),
    }
}

/// The name of one of the links; None where there is none.
fn drawn_link(
    alloc: Global,
    topology: &Topology,
    draw: &mut Draw,
) -> Result<Option<Name>, OutOfMemory> {
    link_at(alloc, topology, draw.below(u32::MAX))
}

/// The name of one of the links that begin at the router at a place; in a ring of two routers, of either link. None
/// where there is none.
fn drawn_own_link(
    alloc: Global,
    topology: &Topology,
    place: u32,
    draw: &mut Draw,
) -> Result<Option<Name>, OutOfMemory> {
    link_at(
        alloc,
        topology,
        place.wrapping_mul(2).wrapping_add(draw.below(2)),
    )
}

/// Which addresses go over one of the links of the router at a place; where there is none, the loops.
fn drawn_uses(
    alloc: Global,
    topology: &Topology,
    place: u32,
    draw: &mut Draw,
) -> Result<Ask, OutOfMemory>
    ensures { IfOk result (λ ask. (down : List (List ℕ)) → IsAskedWithout down ask) }
{
    match drawn_own_link(alloc, topology, place, draw)? {
        Some(link) => Ok(Ask::Uses(link)),
        None => Ok(Ask::Loops),
    }
}

/// What is asked by a query of this kind, 0 to 5: all but the changes of an update. Where a router is asked from, it is
/// the one at a place.
fn drawn_ask(
    alloc: Global,
    topology: &Topology,
    spot: &Spot,
    place: u32,
    draw: &mut Draw,
    kind: u32,
) -> Result<Ask, OutOfMemory>
    requires { place < length topology.now.routers }
    ensures { IfOk result (λ ask. (down : List (List ℕ)) → IsAskedWithout down ask) }
{
    let first = router_at(alloc, topology, place)?;
    match kind {
        0 => Ok(Ask::Path(first, drawn_address(spot, draw))),
        1 => drawn_uses(alloc, topology, place, draw),
        2 => Ok(Ask::Reach(first, drawn_router(alloc, topology, place, draw)?)),
        3 => Ok(Ask::Waypoint(
            first,
            drawn_router(alloc, topology, place, draw)?,
            drawn_router(alloc, topology, place, draw)?,
        )),
        4 => Ok(Ask::Blackholes(first)),
        _ => Ok(Ask::Loops),
    }
}

/// Which of two drawn links are taken as down.
#[derive(Clone, Copy)]
pub struct Down {
    pub first: bool,
    pub second: bool,
}

impl Down {
    /// None of them.
    pub const NONE: Down = Down {
        first: false,
        second: false,
    };
    /// The first one.
    pub const FIRST: Down = Down {
        first: true,
        second: false,
    };
    /// The second one.
    pub const SECOND: Down = Down {
        first: false,
        second: true,
    };
    /// Both.
    pub const BOTH: Down = Down {
        first: true,
        second: true,
    };
}

/// Adds the name of a link that is taken as down; nothing where there is none, or it is up.
fn push_down(links: &mut List<Name>, link: Option<Name>, is_down: bool) -> Result<(), OutOfMemory>
    ensures { OnOk result (length links.new ≤ length links.old + 1) }
{
    if !is_down {
        return Ok(());
    }
    if let Some(link) = link {
        links.push(link)?;
    }
    Ok(())
}

/// Draws a link of the router at a place and then any link, which may be the same one, and gives the names of those
/// that are down. A network without links has none.
fn drawn_links(
    alloc: Global,
    topology: &Topology,
    place: u32,
    draw: &mut Draw,
    down: Down,
) -> Result<List<Name>, OutOfMemory>
    ensures { IfOk result (λ links. length links ≤ 2) }
{
    let first = drawn_own_link(alloc, topology, place, draw)?;
    let second = drawn_link(alloc, topology, draw)?;
    let mut links = List::new(alloc);
    push_down(&mut links, first, down.first)?;
    push_down(&mut links, second, down.second)?;
    Ok(links)
}

/// The query that asks this with these links taken as down.
fn question(without: List<Name>, ask: Ask) -> Query
    requires few { length without ≤ 2 }
    requires form { IsAskedWithout without ask }
{
    Query::new(without, ask)
}

/// A query of this kind, 0 to 5, with these of two drawn links taken as down; the first of them is a link of the router
/// that is asked from, so that it matters often in a large network too. What is asked, and which links they are, the
/// drawn numbers say alone: after the same ones, queries differ in their links only.
pub fn drawn_query(
    alloc: Global,
    topology: &Topology,
    spot: &Spot,
    draw: &mut Draw,
    kind: u32,
    down: Down,
) -> Result<Query, OutOfMemory>
    requires { 0 < length topology.now.routers }
{
    let place = draw.below(topology.router_count());
    let without = drawn_links(alloc, topology, place, draw, down)?;
    let ask = drawn_ask(alloc, topology, spot, place, draw, kind)?;
    Ok(question(without, ask))
}
