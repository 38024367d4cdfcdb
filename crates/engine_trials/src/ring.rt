//! Networks of trials.

use dn_formats::TopoRefused;
use dn_model::{OutOfMemory, Topology};
use std::alloc::Global;
use topology::read_topology;

/// Adds the text of a router's link to the router so many places on: from its interface 2 or 4 to that router's 3 or 5.
fn push_link(
    alloc: Global,
    text: &mut String,
    routers: u16,
    router: u16,
    hop: u16,
) -> Result<(), OutOfMemory> {
    let far = (u32::from(router) + u32::from(hop)) % u32::from(routers.max(1));
    let (from, to) = if hop == 1 { (2, 3) } else { (4, 5) };
    let link = format!(in alloc;
        "[[link]]\nname = \"h{hop}-{router}\"\nends = [\"r{router}:{from}\", \"r{far}:{to}\"]\n"
    )?;
    text.push_str(link.as_str())?;
    Ok(())
}

/// Adds the text of a router's edge, and of the links that begin at it.
fn push_router(
    alloc: Global,
    text: &mut String,
    routers: u16,
    router: u16,
) -> Result<(), OutOfMemory> {
    let edge = format!(in alloc; "[[edge]]\nat = \"r{router}:1\"\n")?;
    text.push_str(edge.as_str())?;
    if routers > 1 {
        push_link(alloc, text, routers, router, 1)?;
    }
    if routers > 2 {
        push_link(alloc, text, routers, router, 2)?;
    }
    Ok(())
}

/// The text of the names of so many routers.
fn names_text(alloc: Global, routers: u16) -> Result<String, OutOfMemory> {
    let mut text = String::from_str(alloc, "routers = [")?;
    for router in 0..routers {
        let name = format!(in alloc; "\"r{router}\", ")?;
        text.push_str(name.as_str())?;
    }
    text.push_str("]\n")?;
    Ok(text)
}

/// The text of a ring of routers.
fn ring_text(alloc: Global, routers: u16) -> Result<String, OutOfMemory> {
    let mut text = names_text(alloc, routers)?;
    for router in 0..routers {
        push_router(alloc, &mut text, routers, router)?;
    }
    Ok(text)
}

/// A ring of routers, which are `r0`, `r1` and so on. Each has an edge at its interface 1, the link to the next router
/// at 2, and the one from the router before at 3. Of more than two routers each has a link to the next but one at 4
/// too, and the one from the last but one at 5. A router alone has no link, and two have two links between them. More
/// routers than a topology may have, which are 1,024, are refused.
pub fn ring(alloc: Global, routers: u16) -> Result<Topology, TopoRefused> {
    let text = ring_text(alloc, routers)?;
    read_topology(alloc, text.as_bytes())
}
