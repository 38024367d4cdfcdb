//! The generated network and its script.

ghost use Rattle.std.specs.Prelude.{◌≡◌, ◌++◌, ◌<◌, OnOk, IfOk};
ghost use Rattle.made_input.specs.Network.{between, router_text, link_text, edge_text, take_text, texts_below, topology_text, script_text};

use dn_formats::{Text, push_bytes, push_decimal};
use dn_model::OutOfMemory;
use std::alloc::Global;

/// How many routers the ring has.
pub const ROUTERS: u64 = 8;

/// Adds a number between two texts.
fn push_between(out: &mut Vec<u8>, before: &[u8], i: u64, after: &[u8]) -> Result<(), OutOfMemory>
    ensures { OnOk result (out.new.items ≡ out.old.items ++ between before.now i after.now) }
{
    push_bytes(out, before)?;
    push_decimal(out, i)?;
    push_bytes(out, after)
}

/// Adds the name of a router among others.
fn push_router(out: &mut Vec<u8>, i: u64) -> Result<(), OutOfMemory>
    ensures { OnOk result (out.new.items ≡ out.old.items ++ router_text i) }
{
    push_between(out, b"\"m", i, b"\", ")
}

/// Adds the link from a router to the next one of the ring.
fn push_link(out: &mut Vec<u8>, i: u64) -> Result<(), OutOfMemory>
    requires { i < 8 }
    ensures { OnOk result (out.new.items ≡ out.old.items ++ link_text i) }
{
    push_between(out, b"[[link]]\nname = \"l", i, b"\"\n")?;
    push_between(out, b"ends = [\"m", i, b":2\", ")?;
    push_between(out, b"\"m", (i + 1) % ROUTERS, b":3\"]\n")
}

/// Adds the edge of a router.
fn push_edge(out: &mut Vec<u8>, i: u64) -> Result<(), OutOfMemory>
    ensures { OnOk result (out.new.items ≡ out.old.items ++ edge_text i) }
{
    push_between(out, b"[[edge]]\nat = \"m", i, b":1\"\n")
}

/// Adds the line of the script that takes a router's feed.
fn push_take(out: &mut Vec<u8>, i: u64) -> Result<(), OutOfMemory>
    ensures { OnOk result (out.new.items ≡ out.old.items ++ take_text i) }
{
    push_between(out, b"take m", i, b" all\n")
}

/// Adds the names of all routers.
#[tactic(auto, using(std::proofs::lemmas::Grind::common_steps, crate::proofs::Below::texts_none, crate::proofs::Below::texts_more))]
fn push_routers(out: &mut Vec<u8>) -> Result<(), OutOfMemory>
    ensures { OnOk result (out.new.items ≡ out.old.items ++ texts_below router_text 8) }
{
    for i in 0..ROUTERS {
        push_router(out, i)?;
    }
    Ok(())
}

/// Adds all links.
#[tactic(auto, using(std::proofs::lemmas::Grind::common_steps, crate::proofs::Below::texts_none, crate::proofs::Below::texts_more))]
fn push_links(out: &mut Vec<u8>) -> Result<(), OutOfMemory>
    ensures { OnOk result (out.new.items ≡ out.old.items ++ texts_below link_text 8) }
{
    for i in 0..ROUTERS {
        push_link(out, i)?;
    }
    Ok(())
}

/// Adds all edges.
#[tactic(auto, using(std::proofs::lemmas::Grind::common_steps, crate::proofs::Below::texts_none, crate::proofs::Below::texts_more))]
fn push_edges(out: &mut Vec<u8>) -> Result<(), OutOfMemory>
    ensures { OnOk result (out.new.items ≡ out.old.items ++ texts_below edge_text 8) }
{
    for i in 0..ROUTERS {
        push_edge(out, i)?;
    }
    Ok(())
}

/// Adds a line for each feed.
#[tactic(auto, using(std::proofs::lemmas::Grind::common_steps, crate::proofs::Below::texts_none, crate::proofs::Below::texts_more))]
fn push_takes(out: &mut Vec<u8>) -> Result<(), OutOfMemory>
    ensures { OnOk result (out.new.items ≡ out.old.items ++ texts_below take_text 8) }
{
    for i in 0..ROUTERS {
        push_take(out, i)?;
    }
    Ok(())
}

/// The topology file: the routers `m0` to `m7`, of which each is joined to the next one by a link and has an edge.
pub fn topology(alloc: Global) -> Result<Text, OutOfMemory>
    ensures { IfOk result (λ text. text ≡ topology_text) }
{
    let mut out = Vec::new(alloc);
    push_bytes(&mut out, b"routers = [")?;
    push_routers(&mut out)?;
    push_bytes(&mut out, b"]\n")?;
    push_links(&mut out)?;
    push_edges(&mut out)?;
    Ok(Text::from_vec(out))
}

/// The script: it takes all feeds in order and then asks for loops.
pub fn script(alloc: Global) -> Result<Text, OutOfMemory>
    ensures { IfOk result (λ text. text ≡ script_text) }
{
    let mut out = Vec::new(alloc);
    push_takes(&mut out)?;
    push_bytes(&mut out, b"loops\n")?;
    Ok(Text::from_vec(out))
}
