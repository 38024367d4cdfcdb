//! VRFs in topologies: which texts are refused, and what the routers and interfaces of the others are.

use crate::refused::{compare_all_refused, compare_refused};
use crate::same::{same, same_list};
use dn_model::{LinkId, Replace, RouterId, RouterTable, Topology, vrf};
use std::alloc::Global;
use std::process::Abort;
use topology::{Port, port, read_topology};

/// The topology of a text.
fn read(rt: &impl Abort, alloc: Global, text: &str) -> Topology {
    read_topology(alloc, text.as_bytes()).expect(rt, "a topology")
}

/// A document whose last entry of `vrf` is still to come.
const AFTER_ONE: &str = "routers = [\"r1\", \"r2\"]
vrf = [{ router = \"r1\", table = 2, name = \"v1\" },
";

/// The ends of that document, from the first cause within an entry to the last. Each entry has faults of later causes
/// too, where it can.
const ENTRIES: [(&str, &str); 19] = [
    ("3]", "vrf 2 3 MissingKey"),
    ("\"v2\"]", "vrf 2 3 MissingKey"),
    ("{ router = 1, table = 2, mark = 1 }]", "vrf 2 2 UnknownKey"),
    ("{}]", "vrf 2 3 MissingKey"),
    (
        "{ router = 1, table = 0, name = \"V2\" }]",
        "vrf 2 3 MissingKey",
    ),
    (
        "{ router = \"r9\", table = \"2\", name = \"V2\" }]",
        "vrf 2 3 MissingKey",
    ),
    (
        "{ router = \"r1\", table = 1.0, name = \"v1\" }]",
        "vrf 2 3 MissingKey",
    ),
    (
        "{ router = \"r1\", table = 1e1, name = \"v1\" }]",
        "vrf 2 3 MissingKey",
    ),
    ("{ router = \"r9\", table = 0 }]", "vrf 2 3 MissingKey"),
    (
        "{ router = \"r9\", table = 0, name = \"V2\" }]",
        "vrf 2 4 BadName",
    ),
    (
        "{ router = \"r9\", table = 0, name = \"v1\" }]",
        "vrf 2 5 TwiceNamed",
    ),
    (
        "{ router = \"r9\", table = 0, name = \"r2\" }]",
        "vrf 2 5 TwiceNamed",
    ),
    (
        "{ router = \"R1\", table = 0, name = \"v2\" }]",
        "vrf 2 13 NoSuchRouter",
    ),
    (
        "{ router = \"v1\", table = 2, name = \"v2\" }]",
        "vrf 2 13 NoSuchRouter",
    ),
    (
        "{ router = \"r1\", table = 0, name = \"v2\" }]",
        "vrf 2 14 BadTable",
    ),
    (
        "{ router = \"r1\", table = -1, name = \"v2\" }]",
        "vrf 2 14 BadTable",
    ),
    (
        "{ router = \"r1\", table = 254, name = \"v2\" }]",
        "vrf 2 14 BadTable",
    ),
    (
        "{ router = \"r1\", table = 4294967296, name = \"v2\" }]",
        "vrf 2 14 BadTable",
    ),
    (
        "{ router = \"r1\", table = 2, name = \"v2\" }]",
        "vrf 2 15 TableTwice",
    ),
];

#[test]
fn refuses_spoiled_vrfs(rt: HostRuntime) {
    compare_all_refused(&rt, rt.alloc(), AFTER_ONE, &ENTRIES);
}

/// Whole documents, whose lists stand in another order than they are read in: from a fault at the top to the last one
/// of the last list.
const PARTS: [(&str, &str); 9] = [
    (
        "router = 3\nedge = 3\nvrf = 3\nrouters = 3\nvrfs = 3",
        "top 0 2 UnknownKey",
    ),
    (
        "router = [3]\nedge = [3]\nlink = [3]\nvrf = 3\nrouters = [3]",
        "top 0 3 MissingKey",
    ),
    ("vrf = {}\nrouters = []", "top 0 3 MissingKey"),
    (
        "router = 3\nedge = [3]\nlink = [3]\nvrf = [3]\nrouters = [3]",
        "top 0 3 MissingKey",
    ),
    (
        "router = [3]\nedge = [3]\nlink = [3]\nvrf = [3]\nrouters = [3]",
        "routers 1 3 MissingKey",
    ),
    (
        "router = [3]\nedge = [3]\nlink = [3]\nvrf = [3]\nrouters = []",
        "vrf 1 3 MissingKey",
    ),
    (
        "router = [3]\nedge = [3]\nlink = [3]\nrouters = []",
        "link 1 3 MissingKey",
    ),
    (
        "router = [3]\nedge = [3]\nrouters = []",
        "edge 1 3 MissingKey",
    ),
    ("router = [3]\nrouters = []", "router 1 3 MissingKey"),
];

#[test]
fn the_first_fault_goes_by_the_part(rt: HostRuntime) {
    compare_all_refused(&rt, rt.alloc(), "", &PARTS);
}

/// A document with so many devices and this end.
fn crowd(rt: &impl Abort, alloc: Global, devices: u32, end: &str) -> String {
    let mut text = String::from_str(alloc, "routers = [").expect(rt, "memory");
    for number in 0..devices {
        let name = format!(in alloc; "\"r{number}\", ").expect(rt, "memory");
        text.push_str(name.as_str()).expect(rt, "memory");
    }
    text.push_str("]\n").expect(rt, "memory");
    text.push_str(end).expect(rt, "memory");
    text
}

/// A VRF, and one that would be the next to it.
const ONE_MORE: &str = "vrf = [{ router = \"r0\", table = 1, name = \"v1\" }, 3]";

/// A document with so many devices and this end: of it a run prints this.
fn compare_crowd(rt: &impl Abort, alloc: Global, devices: u32, end: &str, want: &str) {
    let text = crowd(rt, alloc, devices, end);
    compare_refused(rt, alloc, text.as_str(), want);
}

/// At most 1,024 routers, of which some are VRFs.
#[test]
fn devices_and_vrfs_are_counted_together(rt: HostRuntime) {
    let alloc = rt.alloc();
    compare_crowd(&rt, alloc, 1_022, ONE_MORE, "vrf 2 3 MissingKey");
    compare_crowd(&rt, alloc, 1_023, ONE_MORE, "vrf 2 9 TooMany");
    compare_crowd(&rt, alloc, 1_024, ONE_MORE, "vrf 1 9 TooMany");
    compare_crowd(&rt, alloc, 1_025, ONE_MORE, "routers 1025 9 TooMany");
    let one = "vrf = [{ router = \"r1022\", table = 1, name = \"v1\" }]";
    let full = read(&rt, alloc, crowd(&rt, alloc, 1_023, one).as_str());
    same(&rt, &full.router_count(), &1_024);
    let found = vrf(&full, RouterId(1_022), 1);
    same(&rt, &found, &Some(RouterId(1_023)));
}

/// Two devices, of which the first has two VRFs and the second has one of the same number as one of these.
const TWO_DEVICES: &str = "routers = [\"r1\", \"r2\"]
[[vrf]]
router = \"r1\"
table = 1
name = \"v1\"
[[vrf]]
router = \"r2\"
table = 1
name = \"v2\"
[[vrf]]
router = \"r1\"
table = 4_294_967_295
name = \"v3\"
[[link]]
name = \"a\"
ends = [\"v1:2\", \"r2:2\"]
[[link]]
name = \"d\"
ends = [\"r1:3\", \"v1:4\"]
[[link]]
name = \"e\"
ends = [\"v1:5\", \"v3:6\"]
[[edge]]
at = \"v3:7\"
";

/// A table of a device, where the route of a key takes the place of the one before.
fn table(device: u16, number: u32) -> RouterTable {
    RouterTable {
        device: RouterId(device),
        number,
        replace: Replace::Key,
    }
}

/// A device's VRFs are found by the numbers of their tables, which may be those of another device's too.
#[test]
fn vrfs_stand_after_the_devices(rt: HostRuntime) {
    let topology = read(&rt, rt.alloc(), TWO_DEVICES);
    let tables = [
        table(0, 254),
        table(1, 254),
        table(0, 1),
        table(1, 1),
        table(0, u32::MAX),
    ];
    same_list(&rt, topology.tables.as_slice(), &tables);
    let at_first = (
        vrf(&topology, RouterId(0), 1),
        vrf(&topology, RouterId(0), u32::MAX),
        vrf(&topology, RouterId(0), 254),
    );
    let want = (Some(RouterId(2)), Some(RouterId(4)), None);
    same(&rt, &at_first, &want);
    let at_others = (
        vrf(&topology, RouterId(1), 1),
        vrf(&topology, RouterId(1), u32::MAX),
        vrf(&topology, RouterId(2), 1),
    );
    same(&rt, &at_others, &(Some(RouterId(3)), None, None));
}

/// A router's interface of this number is the end of a link to this router.
fn compare_link(rt: &impl Abort, topology: &Topology, at: (u16, u32), far: u16, link: u16) {
    let (router, index) = at;
    let link = Port::Link {
        far: RouterId(far),
        link: LinkId(link),
        unnumbered: false,
    };
    let found = port(topology, RouterId(router), index);
    assert_eq!(rt; found, Some(link), "{router}:{index}");
}

/// The interfaces of a device and its VRFs are those of each of them. A link may be between two of them, and then one
/// that looks for its interface may find itself at the far end.
#[test]
fn a_device_and_its_vrfs_share_interfaces(rt: HostRuntime) {
    let topology = read(&rt, rt.alloc(), TWO_DEVICES);
    for router in [0, 2, 4] {
        compare_link(&rt, &topology, (router, 2), 1, 0);
        compare_link(&rt, &topology, (router, 3), 2, 1);
        compare_link(&rt, &topology, (router, 4), 0, 1);
        compare_link(&rt, &topology, (router, 6), 2, 2);
        same(
            &rt,
            &port(&topology, RouterId(router), 7),
            &Some(Port::Edge),
        );
    }
    compare_link(&rt, &topology, (3, 2), 2, 0);
    same(&rt, &port(&topology, RouterId(3), 3), &None);
}

/// Ends of that document: an interface of another router of one device, a link of a router to itself, and interfaces of
/// the same numbers at the other device.
const ENDS: [(&str, &str); 8] = [
    ("[[edge]]\nat = \"v3:2\"", "edge 2 7 EndTwice"),
    ("[[edge]]\nat = \"v1:3\"", "edge 2 7 EndTwice"),
    ("[[edge]]\nat = \"r1:6\"", "edge 2 7 EndTwice"),
    ("[[edge]]\nat = \"r1:7\"", "edge 2 7 EndTwice"),
    (
        "[[link]]\nname = \"x\"\nends = [\"v2:7\", \"v3:4\"]",
        "link 4 7 EndTwice",
    ),
    (
        "[[link]]\nname = \"x\"\nends = [\"v1:8\", \"v3:8\"]",
        "link 4 7 EndTwice",
    ),
    (
        "[[link]]\nname = \"x\"\nends = [\"v1:8\", \"v1:9\"]",
        "link 4 8 SelfLink",
    ),
    (
        "[[edge]]\nat = \"v2:3\"\n[[edge]]\nat = \"r2:4\"\n[[edge]]\nat = \"v9:5\"",
        "edge 4 6 BadEnd",
    ),
];

#[test]
fn an_interface_of_a_device_stands_once(rt: HostRuntime) {
    compare_all_refused(&rt, rt.alloc(), TWO_DEVICES, &ENDS);
}
