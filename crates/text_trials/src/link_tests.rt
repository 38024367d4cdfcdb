//! Lines of scripts that say that a link goes down or comes up: how they are read, and what is printed of them.

ghost use Rattle.std.specs.Prelude.{IsTrue};
ghost use Rattle.base.specs.Name.{is_name_text};

use crate::same::same;
use crate::triangle::{compare_report, history, link_entry};
use crate::two_routers::network;
use dn_formats::script_cause::BAD_LINE;
use dn_formats::{JobTold, Line, LinkOutcome, Outcome, Script, Told};
use dn_model::{Answer, Ask, List, Name, Query, Topology, Unknown};
use query_lang::{ScriptRefused, answer_text, read_script};
use std::alloc::Global;
use std::process::Abort;

/// The script that this text is, in a run without feeds.
fn script_of(rt: &impl Abort, alloc: Global, text: &[u8]) -> Script {
    let network = network(rt, alloc);
    read_script(alloc, text, &network, &[], &[]).expect(rt, "a script")
}

/// The line at a place among a script's lines is this one of the text, and says that this link goes down or comes up.
fn compare_line(
    rt: &impl Abort,
    script: &Script,
    place: usize,
    number: u32,
    name: &str,
    is_down: bool,
) {
    let Some(Line::Link { line, link, down }) = script.lines.as_slice().get(place) else {
        panic!(rt; "a line of a link at {place}");
    };
    same(rt, line, &number);
    assert_eq!(rt; link.as_bytes(), name.as_bytes(), "line {number}");
    assert_eq!(rt; *down, is_down, "line {number}");
}

/// Lines of links among lines that pass. The network has no link `zz`, which is no fault of a script, and names may be
/// the verbs.
const LINES: &str = "down a
# up a

 up\ta \r
down zz
down down
up up
down all
up 0
";

#[test]
fn reads_lines_of_links(rt: HostRuntime) {
    let script = script_of(&rt, rt.alloc(), LINES.as_bytes());
    same(&rt, &script.lines.as_slice().len(), &7);
    compare_line(&rt, &script, 0, 1, "a", true);
    compare_line(&rt, &script, 1, 4, "a", false);
    compare_line(&rt, &script, 2, 5, "zz", true);
    compare_line(&rt, &script, 3, 6, "down", true);
    compare_line(&rt, &script, 4, 7, "up", false);
    compare_line(&rt, &script, 5, 8, "all", true);
    compare_line(&rt, &script, 6, 9, "0", false);
}

/// A script whose second line is this one is refused there.
fn compare_bad_line(rt: &impl Abort, alloc: Global, network: &Topology, line: &str) {
    let text = format!(in alloc; "down a\n{line}\nup a\n").expect(rt, "memory");
    match read_script(alloc, text.as_bytes(), network, &[], &[]) {
        Ok(_) => panic!(rt; "a script: {line}"),
        Err(refused) => assert!(rt;
            refused
                == ScriptRefused::Fault {
                    line: 2,
                    cause: BAD_LINE
                },
            "{line}"
        ),
    }
}

/// No link, two links, another verb, no name.
#[test]
fn refuses_spoiled_lines_of_links(rt: HostRuntime) {
    let alloc = rt.alloc();
    let network = network(&rt, alloc);
    for line in ["down", "up ", "down a a", "up a b", "down a all", "up a 1"] {
        compare_bad_line(&rt, alloc, &network, line);
    }
    for line in [
        "Down a", "UP a", "downs a", "dow a", "u a", "up: a", "a down",
    ] {
        compare_bad_line(&rt, alloc, &network, line);
    }
    for line in [
        "down A", "up a,b", "down a.", "up \"a\"", "down a#", "up a/b",
    ] {
        compare_bad_line(&rt, alloc, &network, line);
    }
    for line in ["without a down a", "take down a", "down # a"] {
        compare_bad_line(&rt, alloc, &network, line);
    }
}

/// A name has at most 32 bytes.
#[test]
fn a_link_has_a_name(rt: HostRuntime) {
    let alloc = rt.alloc();
    let script = script_of(&rt, alloc, b"up the-link-whose-name-has-32-bytes\n");
    let name = "the-link-whose-name-has-32-bytes";
    compare_line(&rt, &script, 0, 1, name, false);
    let network = network(&rt, alloc);
    compare_bad_line(
        &rt,
        alloc,
        &network,
        "down the-link-whose-name-has-33-bytes-",
    );
    compare_bad_line(&rt, alloc, &network, "up the-link-whose-name-has-33-bytes-");
}

/// The line `down a` with spaces behind it, of so many bytes.
fn long_line(rt: &impl Abort, alloc: Global, len: usize) -> String {
    let mut line = String::from_str(alloc, "down a").expect(rt, "memory");
    for _ in 6..len {
        line.push_str(" ").expect(rt, "memory");
    }
    line
}

/// A line has at most 1,024 bytes.
#[test]
fn a_line_of_a_link_ends_in_time(rt: HostRuntime) {
    let alloc = rt.alloc();
    let line = long_line(&rt, alloc, 1_024);
    let script = script_of(&rt, alloc, line.as_bytes());
    compare_line(&rt, &script, 0, 1, "a", true);
    let network = network(&rt, alloc);
    let line = long_line(&rt, alloc, 1_025);
    compare_bad_line(&rt, alloc, &network, line.as_str());
}

/// A link's name.
fn name(rt: &impl Abort, alloc: Global, text: &[u8]) -> Name
    requires { IsTrue (is_name_text text.now) }
{
    Name::from_text(alloc, text).expect(rt, "memory")
}

/// What is told of the line `down b` or `up b`.
fn linked(rt: &impl Abort, alloc: Global, line: u32, down: bool, outcome: LinkOutcome) -> Told {
    Told::Linked {
        line,
        link: name(rt, alloc, b"b"),
        down,
        outcome,
    }
}

/// What is told of a line is printed as this text.
fn compare_text(rt: &impl Abort, alloc: Global, told: &Told, want: &str) {
    let network = network(rt, alloc);
    let text = answer_text(alloc, &network, told).expect(rt, "memory");
    assert_eq!(rt; text.as_bytes(), want.as_bytes(), "{want}");
}

/// What is told of a line of `b` is printed as these texts: where it goes down, and where it comes up.
fn compare_told(rt: &impl Abort, alloc: Global, line: u32, outcome: LinkOutcome, want: [&str; 2]) {
    let [of_down, of_up] = want;
    let told = linked(rt, alloc, line, true, outcome);
    compare_text(rt, alloc, &told, of_down);
    let told = linked(rt, alloc, line, false, outcome);
    compare_text(rt, alloc, &told, of_up);
}

/// The name is printed as it stands in the script, be it one of the network or not.
#[test]
fn prints_what_became_of_a_line_of_a_link(rt: HostRuntime) {
    let alloc = rt.alloc();
    let at = ["line 4 at 7 down b\n", "line 4 at 7 up b\n"];
    compare_told(&rt, alloc, 4, LinkOutcome::At(7), at);
    let full = ["line 2 full down b\n", "line 2 full up b\n"];
    compare_told(&rt, alloc, 2, LinkOutcome::Full, full);
    let unknown = [
        "line 1 down b\nunknown link b\n",
        "line 1 up b\nunknown link b\n",
    ];
    compare_told(&rt, alloc, 1, LinkOutcome::UnknownLink, unknown);
    let last = [
        "line 65536 at 4294967295 down b\n",
        "line 65536 at 4294967295 up b\n",
    ];
    compare_told(&rt, alloc, 65_536, LinkOutcome::At(u32::MAX), last);
}

/// What is told of the line of a script that says that a link goes down or comes up, at this position.
fn told_of(rt: &impl Abort, alloc: Global, script: &Script, position: u32) -> Told {
    match script.lines.as_slice() {
        [Line::Link { line, link, down }] => Told::Linked {
            line: *line,
            link: link.copy(alloc).expect(rt, "memory"),
            down: *down,
            outcome: LinkOutcome::At(position),
        },
        _ => panic!(rt; "other lines"),
    }
}

/// A line is read and printed again, with one space between its words.
#[test]
fn prints_a_line_of_a_link_as_it_was_read(rt: HostRuntime) {
    let alloc = rt.alloc();
    let script = script_of(&rt, alloc, b"\n\t down \t the_other-link  \r\n");
    let told = told_of(&rt, alloc, &script, 9);
    compare_text(&rt, alloc, &told, "line 2 at 9 down the_other-link\n");
}

/// What is told of `loops` in this line: no cycle after so many entries, or that it asks for an unknown link.
fn loops(rt: &impl Abort, alloc: Global, line: u32, outcome: Outcome) -> Told {
    let mut without = List::new(alloc);
    without.push(name(rt, alloc, b"x")).expect(rt, "memory");
    Told::Asked {
        line,
        query: Query::new(without, Ask::Loops),
        outcome,
    }
}

/// What is told of a job: each outcome of a line of a link, among queries.
fn all_told(rt: &impl Abort, alloc: Global) -> List<Told> {
    let mut all = List::new(alloc);
    let answer = Answer::Loops(List::new(alloc));
    let none = Outcome::Answered { number: 2, answer };
    let unknown = Outcome::Unknown(Unknown::Link(1));
    all.push(linked(rt, alloc, 1, true, LinkOutcome::At(2)))
        .expect(rt, "memory");
    all.push(loops(rt, alloc, 2, none)).expect(rt, "memory");
    all.push(linked(rt, alloc, 3, false, LinkOutcome::UnknownLink))
        .expect(rt, "memory");
    all.push(loops(rt, alloc, 5, unknown)).expect(rt, "memory");
    all.push(linked(rt, alloc, 8, false, LinkOutcome::Full))
        .expect(rt, "memory");
    all
}

const EACH_OUTCOME: &str = "history 3
1 job 2 up b
2 job 2 down b
3 job 2 down b
job 1
job 2
line 1 at 2 down b
line 2 at 2 without x loops
none
line 3 up b
unknown link b
line 5 without x loops
unknown link x
line 8 full up b
done
";

/// Lines of links stand among those of queries, in the order of the script, and their entries in the history.
#[test]
fn prints_lines_of_links_in_a_report(rt: HostRuntime) {
    let alloc = rt.alloc();
    let entries = [link_entry(false), link_entry(true), link_entry(true)];
    let history = history(&rt, alloc, &entries);
    let jobs = [
        JobTold {
            number: 1,
            told: List::new(alloc),
        },
        JobTold {
            number: 2,
            told: all_told(&rt, alloc),
        },
    ];
    compare_report(&rt, alloc, &[], &history, &jobs, EACH_OUTCOME);
}
