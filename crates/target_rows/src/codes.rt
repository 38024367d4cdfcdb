//! Codes of what routers do.

use base::Target;
use version_pages::Keyed;

/// A router, by its place in the topology's list, and something that it does: an edge of the network, or a way to drop
/// packets.
#[derive(Clone, Copy, Debug, PartialEq, Eq, PartialOrd, Ord)]
pub struct Edge {
    pub router: u32,
    pub target: Target,
}

/// No list of edges is searched: each has the key 0.
impl Keyed for Edge {
    ghost use Rattle.std.proofs.Common.{rules};

    ghost key_of = { λ _. 0 };

    ghost clones = { Prim.search rules };

    fn key(&self) -> u64 {
        0
    }
}
