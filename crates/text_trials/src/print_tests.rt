//! Printed addresses, prefixes, runs and targets, byte for byte.

use dn_formats::{print_address, print_prefix, print_run, print_target};
use dn_model::{DropKind, LinkId, Prefix, RouterId, Run, Target, Topology};
use std::alloc::Global;
use std::process::Abort;
use topology::read_topology;

fn compare_address(rt: &impl Abort, alloc: Global, address: u32, want: &str) {
    let text = print_address(alloc, address).expect(rt, "memory");
    assert_eq!(rt; text.as_bytes(), want.as_bytes(), "{want}");
}

fn compare_prefix(rt: &impl Abort, alloc: Global, prefix: Prefix, want: &str) {
    let text = print_prefix(alloc, prefix).expect(rt, "memory");
    assert_eq!(rt; text.as_bytes(), want.as_bytes(), "{want}");
}

fn compare_run(rt: &impl Abort, alloc: Global, run: Run, want: &str) {
    let text = print_run(alloc, run).expect(rt, "memory");
    assert_eq!(rt; text.as_bytes(), want.as_bytes(), "{want}");
}

#[test]
fn prints_addresses(rt: HostRuntime) {
    let alloc = rt.alloc();
    compare_address(&rt, alloc, 0, "0.0.0.0");
    compare_address(&rt, alloc, 0x0a01_02ff, "10.1.2.255");
    let prefix = Prefix::new(0x0a01_0000, 16);
    compare_prefix(&rt, alloc, prefix, "10.1.0.0/16");
    let run = Run {
        lo: 9,
        hi: u32::MAX,
    };
    compare_run(&rt, alloc, run, "0.0.0.9-255.255.255.255");
}

/// A network of the router `r1` alone.
fn network(rt: &impl Abort, alloc: Global) -> Topology {
    let text = b"routers = [\"r1\"]\n";
    read_topology(alloc, text).ok().expect(rt, "a topology")
}

fn compare_target(rt: &impl Abort, alloc: Global, network: &Topology, target: Target, want: &str) {
    let text = print_target(alloc, network, target).expect(rt, "memory");
    assert_eq!(rt; text.as_bytes(), want.as_bytes(), "{want}");
}

#[test]
fn prints_targets(rt: HostRuntime) {
    let alloc = rt.alloc();
    let net = network(&rt, alloc);
    let dropped = Target::Dropped(DropKind::Prohibit);
    compare_target(&rt, alloc, &net, dropped, "dropped prohibit");
    compare_target(&rt, alloc, &net, Target::Exit(17), "exit 17");
    let over = Target::To(RouterId(0), LinkId(0));
    compare_target(&rt, alloc, &net, over, "to r1 by ");
}
