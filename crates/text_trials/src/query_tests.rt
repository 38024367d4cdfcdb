//! The printed texts of queries, their answers and unknown names, byte for byte.

ghost use Rattle.std.specs.Prelude.{IsTrue};
ghost use Rattle.base.specs.Name.{is_name_text};

use crate::two_routers::network;
use dn_formats::{Line, Outcome, Told};
use dn_model::{
    Answer, Ask, Change, Cycle, DropKind, Hole, LinkId, List, Name, PathEnd, Query, RouterId, Run,
    Target, Topology, Unknown,
};
use query_lang::{answer_text, read_query, read_script};
use std::alloc::Global;
use std::process::Abort;

fn name(rt: &impl Abort, alloc: Global, text: &[u8]) -> Name
    requires { IsTrue (is_name_text text.now) }
{
    Name::from_text(alloc, text).expect(rt, "memory")
}

/// What is told of a query is printed as this text.
fn compare_told(rt: &impl Abort, alloc: Global, told: &Told, want: &str) {
    let text = answer_text(alloc, &network(rt, alloc), told).expect(rt, "memory");
    assert_eq!(rt; text.as_bytes(), want.as_bytes(), "{want}");
}

/// What is told of `path r1 10.1.2.3` in line 2.
fn compare_path(rt: &impl Abort, alloc: Global, outcome: Outcome, want: &str) {
    let ask = Ask::Path(name(rt, alloc, b"r1"), 0x0a01_0203);
    let told = Told::Asked {
        line: 2,
        query: Query::of(alloc, ask),
        outcome,
    };
    compare_told(rt, alloc, &told, want);
}

/// The walk from `r1` to `r2`, which has no route.
fn walk(rt: &impl Abort, alloc: Global) -> Answer {
    let hops = Vec::from_slice(alloc, &[RouterId(0), RouterId(1)]).expect(rt, "memory");
    Answer::Path {
        hops: List::from_vec(hops),
        end: PathEnd::At(Target::NoRoute),
    }
}

const WALK: &str = "line 2 at 1 path r1 10.1.2.3
hops r1 r2
end noroute
";

#[test]
fn prints_an_answer(rt: HostRuntime) {
    let alloc = rt.alloc();
    let answer = walk(&rt, alloc);
    let outcome = Outcome::Answered { number: 1, answer };
    compare_path(&rt, alloc, outcome, WALK);
}

#[test]
fn prints_an_unknown_name(rt: HostRuntime) {
    let want = "line 2 path r1 10.1.2.3\nunknown router r1\n";
    let outcome = Outcome::Unknown(Unknown::Router(1));
    compare_path(&rt, rt.alloc(), outcome, want);
}

/// What is told of `delta` in line 3, answered with these changes.
fn compare_delta(rt: &impl Abort, alloc: Global, changes: &[Change], want: &str) {
    let changes = Vec::from_slice(alloc, changes).expect(rt, "memory");
    let told = Told::Asked {
        line: 3,
        query: Query::of(alloc, Ask::Delta),
        outcome: Outcome::Answered {
            number: 2,
            answer: Answer::Delta(List::from_vec(changes)),
        },
    };
    compare_told(rt, alloc, &told, want);
}

#[test]
fn prints_changes(rt: HostRuntime) {
    let alloc = rt.alloc();
    compare_delta(&rt, alloc, &[], "line 3 at 2 delta\nnone\n");
    let change = Change {
        router: RouterId(1),
        run: Run {
            lo: 0x0a00_0000,
            hi: 0x0aff_ffff,
        },
        before: Target::Local,
        after: Target::Exit(7),
    };
    let want = "line 3 at 2 delta\nr2 10.0.0.0-10.255.255.255 local -> exit 7\n";
    compare_delta(&rt, alloc, &[change], want);
}

/// A query in line 4, answered over seven entries.
fn compare_answer(rt: &impl Abort, alloc: Global, ask: Ask, answer: Answer, want: &str) {
    let told = Told::Asked {
        line: 4,
        query: Query::of(alloc, ask),
        outcome: Outcome::Answered { number: 7, answer },
    };
    compare_told(rt, alloc, &told, want);
}

/// Two runs: 10.0.0.0 to 10.255.255.255, and the last address alone.
fn two_runs(rt: &impl Abort, alloc: Global) -> List<Run> {
    let first = Run {
        lo: 0x0a00_0000,
        hi: 0x0aff_ffff,
    };
    let last = Run {
        lo: u32::MAX,
        hi: u32::MAX,
    };
    List::from_vec(Vec::from_slice(alloc, &[first, last]).expect(rt, "memory"))
}

const REACH: &str = "line 4 at 7 reach r1 r2
10.0.0.0-10.255.255.255
255.255.255.255-255.255.255.255
";

#[test]
fn prints_runs(rt: HostRuntime) {
    let alloc = rt.alloc();
    let ask = Ask::Reach(name(&rt, alloc, b"r1"), name(&rt, alloc, b"r2"));
    let answer = Answer::Runs(two_runs(&rt, alloc));
    compare_answer(&rt, alloc, ask, answer, REACH);
}

#[test]
fn prints_no_run(rt: HostRuntime) {
    let alloc = rt.alloc();
    let ask = Ask::Waypoint(
        name(&rt, alloc, b"r1"),
        name(&rt, alloc, b"r2"),
        name(&rt, alloc, b"r2"),
    );
    let want = "line 4 at 7 waypoint r1 r2 r2\nnone\n";
    compare_answer(&rt, alloc, ask, Answer::Runs(List::new(alloc)), want);
}

const USES: &str = "line 4 at 7 uses a
from r2
none
from r1
10.0.0.0-10.255.255.255
255.255.255.255-255.255.255.255
";

#[test]
fn prints_uses(rt: HostRuntime) {
    let alloc = rt.alloc();
    let ask = Ask::Uses(name(&rt, alloc, b"a"));
    let answer = Answer::Uses(List::new(alloc), two_runs(&rt, alloc));
    compare_answer(&rt, alloc, ask, answer, USES);
}

/// All addresses go round between `r1` and `r2`, of which the least is 10.0.0.0.
fn one_cycle(rt: &impl Abort, alloc: Global) -> List<Cycle> {
    let routers = Vec::from_slice(alloc, &[RouterId(0), RouterId(1)]).expect(rt, "memory");
    let mut cycles = List::new(alloc);
    cycles
        .push(Cycle {
            routers: List::from_vec(routers),
            least: 0x0a00_0000,
            addresses: 4_294_967_296,
        })
        .expect(rt, "memory");
    cycles
}

#[test]
fn prints_loops(rt: HostRuntime) {
    let alloc = rt.alloc();
    let answer = Answer::Loops(one_cycle(&rt, alloc));
    let want = "line 4 at 7 loops\ncycle r1 r2 least 10.0.0.0 addresses 4294967296\n";
    compare_answer(&rt, alloc, Ask::Loops, answer, want);
    let answer = Answer::Loops(List::new(alloc));
    compare_answer(&rt, alloc, Ask::Loops, answer, "line 4 at 7 loops\nnone\n");
}

/// One more black hole, of two runs.
fn push_hole(
    rt: &impl Abort,
    alloc: Global,
    holes: &mut List<Hole>,
    router: RouterId,
    cause: Target,
) {
    let runs = two_runs(rt, alloc);
    holes
        .push(Hole {
            router,
            cause,
            runs,
        })
        .expect(rt, "memory");
}

/// The answer to `blackholes r1`.
fn compare_holes(rt: &impl Abort, alloc: Global, holes: List<Hole>, want: &str) {
    let ask = Ask::Blackholes(name(rt, alloc, b"r1"));
    compare_answer(rt, alloc, ask, Answer::Holes(holes), want);
}

const TWO_HOLES: &str = "line 4 at 7 blackholes r1
at r1 dropped unreachable
10.0.0.0-10.255.255.255
255.255.255.255-255.255.255.255
at r2 linkdown a
10.0.0.0-10.255.255.255
255.255.255.255-255.255.255.255
";

#[test]
fn prints_black_holes(rt: HostRuntime) {
    let alloc = rt.alloc();
    let want = "line 4 at 7 blackholes r1\nnone\n";
    compare_holes(&rt, alloc, List::new(alloc), want);
    let mut holes = List::new(alloc);
    let unreachable = Target::Dropped(DropKind::Unreachable);
    push_hole(&rt, alloc, &mut holes, RouterId(0), unreachable);
    let down = Target::LinkDown(LinkId(0));
    push_hole(&rt, alloc, &mut holes, RouterId(1), down);
    compare_holes(&rt, alloc, holes, TWO_HOLES);
}

/// The query of a script's only line.
fn query_of(rt: &impl Abort, alloc: Global, lines: &[Line]) -> Query {
    match lines {
        [Line::Ask { query, .. }] => query.get().copy(alloc).expect(rt, "memory"),
        _ => panic!(rt; "other lines"),
    }
}

/// The unknown name of `without x,y waypoint p q r` at a place.
fn compare_unknown(
    rt: &impl Abort,
    alloc: Global,
    network: &Topology,
    unknown: Unknown,
    want: &str,
) {
    let text = b"without x,y waypoint p q r";
    let script = read_script(alloc, text, network, &[], &[]).expect(rt, "a script");
    let told = Told::Asked {
        line: 1,
        query: query_of(rt, alloc, script.lines.as_slice()),
        outcome: Outcome::Unknown(unknown),
    };
    let text = answer_text(alloc, network, &told).expect(rt, "memory");
    assert!(rt; text.as_bytes().ends_with(want.as_bytes()), "{want}");
}

/// The unknown names of that query, by their places.
#[test]
fn prints_each_unknown_name(rt: HostRuntime) {
    let alloc = rt.alloc();
    let net = network(&rt, alloc);
    compare_unknown(&rt, alloc, &net, Unknown::Link(1), "unknown link x\n");
    compare_unknown(&rt, alloc, &net, Unknown::Link(2), "unknown link y\n");
    compare_unknown(&rt, alloc, &net, Unknown::Router(3), "unknown router p\n");
    compare_unknown(&rt, alloc, &net, Unknown::Router(4), "unknown router q\n");
    compare_unknown(&rt, alloc, &net, Unknown::Router(5), "unknown router r\n");
}

/// A line is read as the query of these words, parted by one space.
fn compare_read(rt: &impl Abort, alloc: Global, network: &Topology, line: &str, want: &str) {
    let query = read_query(alloc, line.as_bytes()).expect(rt, "memory");
    let told = Told::Asked {
        line: 1,
        query: query.expect(rt, "a query"),
        outcome: Outcome::Unknown(Unknown::Router(1)),
    };
    let text = answer_text(alloc, network, &told).expect(rt, "memory");
    let words = text.as_bytes().strip_prefix(b"line 1 ");
    let words = words.expect(rt, "a line with words");
    assert!(rt; words.starts_with(want.as_bytes()), "{line}");
}

/// Each kind of query is read and printed again.
#[test]
fn reads_each_query(rt: HostRuntime) {
    let alloc = rt.alloc();
    let net = network(&rt, alloc);
    compare_read(&rt, alloc, &net, "path r1 10.1.2.3", "path r1 10.1.2.3\n");
    compare_read(&rt, alloc, &net, " reach\tr1  r2\r", "reach r1 r2\n");
    compare_read(&rt, alloc, &net, "uses a", "uses a\n");
    compare_read(&rt, alloc, &net, "loops ", "loops\n");
    compare_read(&rt, alloc, &net, "blackholes r2", "blackholes r2\n");
    compare_read(&rt, alloc, &net, "waypoint p q r", "waypoint p q r\n");
    compare_read(&rt, alloc, &net, "delta", "delta\n");
    compare_read(&rt, alloc, &net, "without x,y loops", "without x,y loops\n");
}

/// A line asks no query.
fn compare_unread(rt: &impl Abort, alloc: Global, line: &str) {
    let query = read_query(alloc, line.as_bytes()).expect(rt, "memory");
    assert!(rt; query.is_none(), "{line}");
}

/// Lines that ask no query: no word, another verb, a word too few or too many, no name, no address.
#[test]
fn reads_no_query(rt: HostRuntime) {
    let alloc = rt.alloc();
    compare_unread(&rt, alloc, "");
    compare_unread(&rt, alloc, "# loops");
    compare_unread(&rt, alloc, "take r1 all");
    compare_unread(&rt, alloc, "down a");
    compare_unread(&rt, alloc, "up a");
    compare_unread(&rt, alloc, "reach r1");
    compare_unread(&rt, alloc, "loops r1");
    compare_unread(&rt, alloc, "uses A");
    compare_unread(&rt, alloc, "path r1 10.1.2.03");
    compare_unread(&rt, alloc, "without a delta");
    compare_unread(&rt, alloc, "without a without b loops");
}
