//! A small network for tests.

use dn_model::Topology;
use std::alloc::Global;
use std::process::Abort;
use topology::read_topology;

const TWO_ROUTERS: &str = "routers = [\"r1\", \"r2\"]
[[link]]
name = \"a\"
ends = [\"r2:2\", \"r1:2\"]
";

/// A network of two routers, `r1` and `r2`, with the link `a` from `r2` to `r1`.
pub fn network(rt: &impl Abort, alloc: Global) -> Topology {
    read_topology(alloc, TWO_ROUTERS.as_bytes()).expect(rt, "a topology")
}
