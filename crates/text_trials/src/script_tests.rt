//! A script that is read.

use crate::same::same;
use crate::two_routers::network;
use dn_formats::script_cause::{BAD_LINE, TAKE_UNKNOWN};
use dn_formats::{Line, Script};
use dn_model::{Ask, Name, Query, RouterId, Topology};
use query_lang::{ScriptRefused, read_script};
use std::alloc::Global;
use std::process::Abort;
use topology::read_topology;

/// Its bound alone says that scripts may cross threads; none is started.
fn crosses<T: Send + Sync>(_value: &T) {}

#[test]
fn scripts_are_send_and_sync(rt: HostRuntime) {
    let alloc = rt.alloc();
    let network = network(&rt, alloc);
    let script = read_script(
        alloc,
        b"take r1 all\nloops\n",
        &network,
        &[RouterId(0)],
        &[],
    );
    let script = script.expect(&rt, "a script");
    crosses(&script);
    same(&rt, &script.lines.as_slice().len(), &2);
}

/// A script has up to 65,536 lines, most of which take frames, so none of them has room for a query. A link line has its
/// name's place and length.
const _: () = prove!(size_of::<Line>() <= 40);

/// Every kind of query, among lines that take and lines that are passed over.
const EACH_QUERY: &str = "take r1 2
path p 10.1.2.3
# of two routers
reach p q
uses l

loops
blackholes q
take r1 all
waypoint p q r
delta
without l,m path q 255.255.255.255
";

/// A name has these bytes.
fn is_name_of(name: &Name, text: &str) -> bool {
    name.as_bytes() == text.as_bytes()
}

/// The query at a place among a script's lines, which stands in this line of the text.
fn query_at<'a>(rt: &impl Abort, script: &'a Script, place: usize, number: u32) -> &'a Query {
    let Some(Line::Ask { line, query }) = script.lines.as_slice().get(place) else {
        panic!(rt; "a line that asks at {place}");
    };
    same(rt, line, &number);
    query.get()
}

/// What a query asks with all links up.
fn ask_at<'a>(rt: &impl Abort, script: &'a Script, place: usize, number: u32) -> &'a Ask {
    let query = query_at(rt, script, place, number);
    assert!(rt; query.without().is_empty(), "line {number}");
    query.ask()
}

/// A query asks for the path of an address from this router.
fn asks_path(ask: &Ask, router: &str, address: u32) -> bool {
    match ask {
        Ask::Path(from, to) => is_name_of(from, router) && *to == address,
        _ => false,
    }
}

/// A query asks for what reaches `q` from `p`.
fn asks_reach(ask: &Ask) -> bool {
    match ask {
        Ask::Reach(from, to) => is_name_of(from, "p") && is_name_of(to, "q"),
        _ => false,
    }
}

/// A query asks for what comes from `p` to `q` around `r`.
fn asks_waypoint(ask: &Ask) -> bool {
    match ask {
        Ask::Waypoint(from, to, through) => {
            is_name_of(from, "p") && is_name_of(to, "q") && is_name_of(through, "r")
        }
        _ => false,
    }
}

#[test]
fn reads_each_query(rt: HostRuntime) {
    let alloc = rt.alloc();
    let network = network(&rt, alloc);
    let script = read_script(alloc, EACH_QUERY.as_bytes(), &network, &[RouterId(0)], &[]);
    let script = script.expect(&rt, "a script");
    same(&rt, &script.lines.as_slice().len(), &10);
    assert!(rt; asks_path(ask_at(&rt, &script, 1, 2), "p", 0x0a01_0203));
    assert!(rt; asks_reach(ask_at(&rt, &script, 2, 4)));
    assert!(rt; matches!(ask_at(&rt, &script, 3, 5), Ask::Uses(link) if is_name_of(link, "l")));
    assert!(rt; matches!(ask_at(&rt, &script, 4, 7), Ask::Loops));
    assert!(rt;
        matches!(ask_at(&rt, &script, 5, 8), Ask::Blackholes(from) if is_name_of(from, "q"))
    );
    assert!(rt; asks_waypoint(ask_at(&rt, &script, 7, 10)));
    assert!(rt; matches!(ask_at(&rt, &script, 8, 11), Ask::Delta));
    let last = query_at(&rt, &script, 9, 12);
    assert!(rt; asks_path(last.ask(), "q", u32::MAX));
    let [first, second] = last.without() else {
        panic!(rt; "two links");
    };
    assert!(rt; is_name_of(first, "l") && is_name_of(second, "m"));
}

/// Routers whose names are alike: of five the first byte and the last two are the same.
const ALIKE: &str =
    "routers = [\"m10\", \"m-10\", \"m210\", \"mm10\", \"m1110\", \"m\", \"m1\", \"1m\"]\n";

/// The network of these routers.
fn alike(rt: &impl Abort, alloc: Global) -> Topology {
    read_topology(alloc, ALIKE.as_bytes()).expect(rt, "a topology")
}

/// The routers from which the lines of a script take, in order.
fn compare_takes(rt: &impl Abort, script: &Script, want: &[u16]) {
    same(rt, &script.lines.as_slice().len(), &want.len());
    for (line, wanted) in script.lines.as_slice().iter().zip(want) {
        let Line::Take { line, router, .. } = line else {
            panic!(rt; "a line that takes");
        };
        assert_eq!(rt; router.0, *wanted, "line {line}");
    }
}

#[test]
fn takes_from_routers_of_like_names(rt: HostRuntime) {
    let alloc = rt.alloc();
    let network = alike(&rt, alloc);
    let feeds = [7, 6, 5, 4, 3, 2, 1, 0].map(RouterId);
    let text =
        b"take m10 1\ntake m-10 1\ntake m210 1\ntake mm10 1\ntake m1110 1\ntake m 1\ntake m1 1\ntake 1m 1\n\
take m10 1\ntake mm10 1\ntake mm10 1\n";
    let script = read_script(alloc, text, &network, &feeds, &[]).expect(&rt, "a script");
    compare_takes(&rt, &script, &[0, 1, 2, 3, 4, 5, 6, 7, 0, 3, 3]);
}

/// With feeds of `m10` and `m1` alone a line that takes from this router is refused for this cause.
fn compare_refused(rt: &impl Abort, alloc: Global, name: &str, cause: u8) {
    let network = alike(rt, alloc);
    let feeds = [RouterId(0), RouterId(6)];
    let text = format!(in alloc; "take m10 1\ntake m1 1\ntake {name} 1\n").expect(rt, "memory");
    match read_script(alloc, text.as_bytes(), &network, &feeds, &[]) {
        Ok(_) => panic!(rt; "a script"),
        Err(refused) => assert!(rt;
            refused == ScriptRefused::Fault { line: 3, cause },
            "{name}"
        ),
    }
}

#[test]
fn refuses_names_like_that_of_a_feed(rt: HostRuntime) {
    let alloc = rt.alloc();
    for name in ["m-10", "m210", "m", "1m", "m-1", "10"] {
        compare_refused(&rt, alloc, name, TAKE_UNKNOWN);
    }
    for name in ["m.10", "mM10", "M1"] {
        compare_refused(&rt, alloc, name, BAD_LINE);
    }
}
