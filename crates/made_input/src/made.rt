//! The whole input.

ghost use Rattle.std.specs.Prelude.{◌≡◌, ◌≤◌, IfOk};
ghost use Rattle.made_input.specs.Network.{topology_text, script_text};
ghost use Rattle.made_input.specs.Updates.{feeds_below};

use crate::network::{ROUTERS, script, topology};
use crate::updates::feed;
use dn_formats::Text;
use dn_model::{List, OutOfMemory};
use std::alloc::Global;

/// The files of a run: a topology, the feeds of the routers `m0` to `m7` in order, and a script.
#[derive(Drop)]
pub struct MadeInput {
    /// The topology file: eight routers in a ring.
    pub topology: Text,
    /// For each router the stream of frames that it would send.
    pub feeds: List<Text>,
    /// The script, which takes every feed whole, in order, and then asks for loops.
    pub script: Text,
}

/// The feeds of all routers, in order.
#[tactic(auto, using(crate::proofs::Below::feeds_none, crate::proofs::Below::feeds_more))]
fn feeds(alloc: Global, n: u32) -> Result<List<Text>, OutOfMemory>
    ensures { IfOk result (λ feeds. feeds ≡ feeds_below 8 n) }
{
    let mut feeds = List::new(alloc);
    for router in 0..ROUTERS as u32 {
        feeds.push(feed(alloc, router, n)?)?;
    }
    Ok(feeds)
}

/// The input of `n` updates (1 to 1,000,000), dealt out to eight routers in turn: prefixes of 8 to 24 bits that are
/// scattered over all addresses, of which one of five is a router's own and the others lead to the next router of the ring.
/// The same `n` gives the same bytes.
///
/// # Errors
///
/// `OutOfMemory` where there is no memory for the input.
pub fn make_input(alloc: Global, n: u32) -> Result<MadeInput, OutOfMemory>
    requires some { 1 ≤ n }
    requires few { n ≤ 1000000 }
    ensures topology { IfOk result (λ made. made.topology ≡ topology_text) }
    ensures feeds { IfOk result (λ made. made.feeds ≡ feeds_below 8 n) }
    ensures script { IfOk result (λ made. made.script ≡ script_text) }
{
    Ok(MadeInput {
        topology: topology(alloc)?,
        feeds: feeds(alloc, n)?,
        script: script(alloc)?,
    })
}
