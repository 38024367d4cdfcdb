//! Small networks for tests.

ghost use Rattle.std.specs.Prelude.{◌≡◌, length};

use dn_model::{RouterId, Topology};
use std::alloc::Global;
use std::process::Abort;
use topology::read_topology;

pub const FIRST: RouterId = RouterId(0);

pub const SECOND: RouterId = RouterId(1);

pub const THIRD: RouterId = RouterId(2);

const TRIANGLE: &str = "routers = [\"r1\", \"r2\", \"r3\"]
[[link]]
name = \"a\"
ends = [\"r1:2\", \"r2:2\"]
[[link]]
name = \"b\"
ends = [\"r2:3\", \"r3:2\"]
[[link]]
name = \"c\"
ends = [\"r3:3\", \"r1:3\"]
[[edge]]
at = \"r1:1\"
[[edge]]
at = \"r2:1\"
[[edge]]
at = \"r3:1\"
";

const ONE_LINK: &str = "routers = [\"r1\", \"r2\", \"r3\"]
[[link]]
name = \"d\"
ends = [\"r3:1\", \"r1:2\"]
[[edge]]
at = \"r1:3\"
";

const TWO_DEVICES: &str = "routers = [\"r1\", \"r2\"]
[[vrf]]
router = \"r1\"
table = 10
name = \"v1\"
[[vrf]]
router = \"r2\"
table = 10
name = \"v2\"
[[vrf]]
router = \"r1\"
table = 1034
name = \"w1\"
[[link]]
name = \"a\"
ends = [\"r1:2\", \"r2:2\"]
[[link]]
name = \"d\"
ends = [\"v1:3\", \"r2:3\"]
[[link]]
name = \"e\"
ends = [\"r1:4\", \"v1:5\"]
[[edge]]
at = \"w1:6\"
";

/// The topology of a text that names so many routers.
fn network_of(rt: &impl Abort, alloc: Global, text: &str, routers: u32) -> Topology
    ensures { length result.routers ≡ routers }
{
    let topology = read_topology(alloc, text.as_bytes())
        .ok()
        .expect(rt, "a topology");
    assert!(rt; topology.router_count() == routers);
    topology
}

/// Three routers in a triangle: `r1`'s interface 2 leads to `r2` over link `a`, its interface 3 to `r3` over link `c`,
/// and its interface 1 is an edge.
pub fn triangle(rt: &impl Abort, alloc: Global) -> Topology
    ensures { length result.routers ≡ 3 }
{
    network_of(rt, alloc, TRIANGLE, 3)
}

/// The routers of the triangle with other interfaces: `r1`'s interface 2 leads to `r3` over link `d`, its interface 3
/// is an edge, and it has no interface 1.
pub fn one_link(rt: &impl Abort, alloc: Global) -> Topology
    ensures { length result.routers ≡ 3 }
{
    network_of(rt, alloc, ONE_LINK, 3)
}

/// Two devices, `r1` and `r2`, and three VRFs: `v1` is table 10 of `r1`, `v2` table 10 of `r2`, and `w1` table 1034 of
/// `r1`. The interfaces 2 to 6 of `r1` are, in order: one of `r1` itself, from which link `a` leads to `r2`; one of `v1`,
/// from which link `d` leads to `r2`; the two ends of link `e`, of which the first is at `r1` itself and the second at
/// `v1`; and an edge at `w1`. Those of `r2` are its ends of `a` and `d`, 2 and 3.
pub fn two_devices(rt: &impl Abort, alloc: Global) -> Topology
    ensures { length result.routers ≡ 5 }
{
    network_of(rt, alloc, TWO_DEVICES, 5)
}
