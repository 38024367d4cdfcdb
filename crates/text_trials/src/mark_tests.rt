//! Marks of routers in topologies: which texts are refused, and which tables the others mark.

use crate::refused::compare_all_refused;
use crate::same::same_list;
use dn_model::{Replace, RouterId, RouterTable};
use topology::read_topology;

/// A document whose last entry of `router` is still to come. A mark that says what is usual is one too.
const AFTER_TWO: &str = "routers = [\"r1\", \"r2\"]
vrf = [{ router = \"r1\", table = 2, name = \"v1\" }]
router = [{ name = \"r1\" }, { name = \"v1\", replace = \"key\" },
";

/// The ends of that document, from the first cause within an entry to the last. Each entry has faults of later causes
/// too, where it can.
const ENTRIES: [(&str, &str); 14] = [
    ("3]", "router 3 3 MissingKey"),
    ("\"r2\"]", "router 3 3 MissingKey"),
    (
        "{ name = 3, replace = 3, table = 2 }]",
        "router 3 2 UnknownKey",
    ),
    ("{}]", "router 3 3 MissingKey"),
    ("{ replace = \"all\" }]", "router 3 3 MissingKey"),
    (
        "{ name = \"R2\", replace = true }]",
        "router 3 3 MissingKey",
    ),
    (
        "{ name = \"R2\", replace = \"all\" }]",
        "router 3 4 BadName",
    ),
    (
        "{ name = \"r9\", replace = \"all\" }]",
        "router 3 13 NoSuchRouter",
    ),
    (
        "{ name = \"r1\", replace = \"all\" }]",
        "router 3 12 TwiceMarked",
    ),
    (
        "{ name = \"v1\", replace = \"all\" }]",
        "router 3 12 TwiceMarked",
    ),
    ("{ name = \"v1\" }]", "router 3 12 TwiceMarked"),
    (
        "{ name = \"r2\", replace = \"all\" }]",
        "router 3 11 BadReplace",
    ),
    (
        "{ name = \"r2\", replace = \"Prefix\" }]",
        "router 3 11 BadReplace",
    ),
    (
        "{ name = \"r2\", replace = \"\" }]",
        "router 3 11 BadReplace",
    ),
];

#[test]
fn refuses_spoiled_marks(rt: HostRuntime) {
    compare_all_refused(&rt, rt.alloc(), AFTER_TWO, &ENTRIES);
}

/// The marks of devices and VRFs stand before the VRFs.
const MARKED: &str = "routers = [\"r1\", \"r2\", \"r3\"]
[[router]]
name = \"v2\"
replace = \"prefix\"
[[router]]
name = \"r1\"
replace = \"prefix\"
[[router]]
name = \"v3\"
replace = \"key\"
[[router]]
name = \"r3\"
[[vrf]]
router = \"r1\"
table = 10
name = \"v1\"
[[vrf]]
router = \"r2\"
table = 10
name = \"v2\"
[[vrf]]
router = \"r1\"
table = 11
name = \"v3\"
";

/// A table of a device.
fn table(device: u16, number: u32, replace: Replace) -> RouterTable {
    RouterTable {
        device: RouterId(device),
        number,
        replace,
    }
}

/// A device's mark isn't its VRF's, nor a VRF's its device's.
#[test]
fn a_mark_is_of_one_router(rt: HostRuntime) {
    let topology = read_topology(rt.alloc(), MARKED.as_bytes()).expect(&rt, "a topology");
    let tables = [
        table(0, 254, Replace::Prefix),
        table(1, 254, Replace::Key),
        table(2, 254, Replace::Key),
        table(0, 10, Replace::Key),
        table(1, 10, Replace::Prefix),
        table(0, 11, Replace::Key),
    ];
    same_list(&rt, topology.tables.as_slice(), &tables);
}
