//! The generated input: that its texts say a ring of eight routers and the script that asks for its cycles, and what
//! runs over these texts tell.

ghost use Rattle.std.specs.Prelude.{◌≤◌, All};

use crate::same::same;
use crate::whole_run::{WholeRun, add_file, compare, compare_tail, file, run_parts};
use dn_formats::Line;
use dn_io::{MemFile, NoGate};
use dn_model::{Ask, Name, Replace, RouterId, RouterTable, TopoEnd, TopoLink, Topology};
use dn_run::Status;
use made_input::{MadeInput, make_input};
use query_lang::read_script;
use std::alloc::Global;
use std::process::Abort;
use std::sync::Wait;
use std::thread::Threads;
use topology::read_topology;

/// A name of this letter and this digit.
fn compare_name(rt: &impl Abort, name: &Name, letter: u8, digit: u16) {
    let [first, second] = name.as_bytes() else {
        panic!(rt; "a name of two bytes");
    };
    let name = (letter, b'0' + (digit % 10) as u8);
    assert_eq!(rt; (*first, *second), name, "number {digit}");
}

/// The router's interface with this index.
fn end(router: u16, index: u32) -> TopoEnd {
    TopoEnd {
        router: RouterId(router),
        index,
    }
}

/// A link goes from interface 2 of the router of this number to interface 3 of the next one in a ring of eight.
fn compare_link(rt: &impl Abort, link: &TopoLink, number: u16) {
    compare_name(rt, &link.name, b'l', number);
    assert!(rt; number < 8);
    assert_eq!(rt; link.first, end(number, 2), "link {number}");
    assert_eq!(rt; link.second, end((number + 1) % 8, 3), "link {number}");
    assert!(rt; !link.unnumbered, "link {number}");
}

/// The routers are eight devices, each with its main table.
fn compare_tables(rt: &impl Abort, tables: &[RouterTable]) {
    same(rt, &tables.len(), &8);
    for number in 0..8u16 {
        let main = RouterTable {
            device: RouterId(number),
            number: 254,
            replace: Replace::Key,
        };
        assert!(rt; (number as usize) < tables.len());
        same(rt, &tables[number as usize], &main);
    }
}

/// The network is a ring of the routers `m0` to `m7` by the links `l0` to `l7`, with an edge at each router's interface
/// 1.
fn compare_network(rt: &impl Abort, network: &Topology) {
    let routers = network.routers.as_slice();
    let links = network.links.as_slice();
    let edges = network.edges.as_slice();
    same(rt, &(routers.len(), links.len(), edges.len()), &(8, 8, 8));
    compare_tables(rt, network.tables.as_slice());
    for number in 0..8u16 {
        let at = number as usize;
        assert!(rt; at < routers.len() && at < links.len() && at < edges.len());
        compare_name(rt, &routers[at], b'm', number);
        compare_link(rt, &links[at], number);
        assert_eq!(rt; edges[at], end(number, 1), "edge {number}");
    }
}

/// This line of a script takes all of the feed of the router of this number.
fn compare_take(rt: &impl Abort, line: &Line, number: u16) {
    let Line::Take {
        line,
        router,
        count,
    } = line
    else {
        panic!(rt; "a line that takes");
    };
    same(rt, line, &(u32::from(number) + 1));
    assert_eq!(rt; *router, RouterId(number), "line {line}");
    assert_eq!(rt; *count, None, "line {line}");
}

/// This line of a script, of this number, asks for the loops with all links up.
fn compare_loops(rt: &impl Abort, line: &Line, number: u32) {
    let Line::Ask { line, query } = line else {
        panic!(rt; "a line that asks");
    };
    same(rt, line, &number);
    let query = query.get();
    assert!(rt; matches!(query.ask(), Ask::Loops));
    assert!(rt; query.without().is_empty());
}

/// The lines take each router's feed, in order, and then ask for the loops.
fn compare_lines(rt: &impl Abort, lines: &[Line]) {
    let [takes @ .., last] = lines else {
        panic!(rt; "some lines");
    };
    same(rt, &takes.len(), &8);
    for number in 0..8u16 {
        assert!(rt; (number as usize) < takes.len());
        compare_take(rt, &takes[number as usize], number);
    }
    compare_loops(rt, last, 9);
}

/// The eight routers.
fn routers(rt: &impl Abort, alloc: Global) -> Vec<RouterId> {
    let mut routers = Vec::new(alloc);
    for router in 0..8u16 {
        routers.push(RouterId(router)).expect(rt, "memory");
    }
    routers
}

/// These texts say the network and the script of the generated input.
fn compare_texts(rt: &impl Abort, alloc: Global, topology: &[u8], script: &[u8]) {
    let network = read_topology(alloc, topology).ok().expect(rt, "a topology");
    compare_network(rt, &network);
    let routers = routers(rt, alloc);
    let script = read_script(alloc, script, &network, routers.as_slice(), &[]);
    let script = script.ok().expect(rt, "a script");
    compare_lines(rt, script.lines.as_slice());
}

#[test]
fn texts_say_the_network_and_the_script(rt: HostRuntime) {
    let alloc = rt.alloc();
    let made = make_input(alloc, 1).expect(&rt, "memory");
    compare_texts(&rt, alloc, made.topology.as_bytes(), made.script.as_bytes());
}

/// The files of a generated input: its topology, its script and the feeds `f0` to `f7`.
fn files(rt: &impl Abort, alloc: Global, made: &MadeInput) -> Vec<MemFile>
    ensures { All (λ file. 1 ≤ file.step) result.items }
{
    let mut files = Vec::new(alloc);
    add_file(
        rt,
        &mut files,
        file(rt, alloc, "topology", made.topology.as_bytes()),
    );
    add_file(
        rt,
        &mut files,
        file(rt, alloc, "script", made.script.as_bytes()),
    );
    let feeds = made.feeds.as_slice();
    for at in 0..feeds.len() {
        let name = format!(in alloc; "f{at}").expect(rt, "memory");
        add_file(
            rt,
            &mut files,
            file(rt, alloc, name.as_str(), feeds[at].as_bytes()),
        );
    }
    files
}

/// Runs the texts of the generated input of this many updates.
fn run_made<R: Abort + Threads + Wait + Sync>(rt: &R, alloc: Global, number: u32) -> WholeRun
    requires some { 1 ≤ number }
    requires few { number ≤ 1000000 }
{
    let made = make_input(alloc, number).expect(rt, "memory");
    let files = files(rt, alloc, &made);
    let parts = [
        "m0=f0", "m1=f1", "m2=f2", "m3=f3", "m4=f4", "m5=f5", "m6=f6", "m7=f7", "@script",
    ];
    run_parts(rt, alloc, &parts, files, &NoGate)
}

/// The report of a run over the texts of eight updates, one of each router: all but one go on to the next router.
const EIGHT: &str = "feed 1 m0 updates 1 skipped 0 refused 0 end
feed 2 m1 updates 1 skipped 0 refused 0 end
feed 3 m2 updates 1 skipped 0 refused 0 end
feed 4 m3 updates 1 skipped 0 refused 0 end
feed 5 m4 updates 1 skipped 0 refused 0 end
feed 6 m5 updates 1 skipped 0 refused 0 end
feed 7 m6 updates 1 skipped 0 refused 0 end
feed 8 m7 updates 1 skipped 0 refused 0 end
history 8
1 feed 1 m0 set 0.0.0.0/8 metric 0 to m1 by l0
2 feed 2 m1 set 158.0.0.0/9 metric 1 to m2 by l1
3 feed 3 m2 set 60.64.0.0/10 metric 2 to m3 by l2
4 feed 4 m3 set 218.160.0.0/11 metric 3 to m4 by l3
5 feed 5 m4 set 120.208.0.0/12 metric 0 local
6 feed 6 m5 set 23.16.0.0/13 metric 1 to m6 by l5
7 feed 7 m6 set 181.76.0.0/14 metric 2 to m7 by l6
8 feed 8 m7 set 83.132.0.0/15 metric 3 to m0 by l7
job 1
line 9 at 8 loops
none
done
";

#[test]
fn a_run_over_the_texts_tells_of_the_ring(rt: HostRuntime) {
    let alloc = rt.alloc();
    let run = run_made(&rt, alloc, 8);
    compare(&rt, &run, Status::Done, EIGHT);
}

/// The end of the report over the texts of 39,729 updates, the least number that makes a cycle. Its least address and
/// its size were worked out outside the program, by following one address of each atom hop by hop.
const FIRST_CYCLE: &str = "
job 1
line 9 at 39729 loops
cycle m0 m1 m2 m3 m4 m5 m6 m7 least 65.20.252.0 addresses 256
done
";

#[test]
fn a_run_over_the_texts_tells_of_a_cycle(rt: HostRuntime) {
    let alloc = rt.alloc();
    let run = run_made(&rt, alloc, 39729);
    compare_tail(&rt, &run, Status::Done, FIRST_CYCLE);
}
