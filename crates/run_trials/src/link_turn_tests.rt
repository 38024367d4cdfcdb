//! Jobs side by side that take one link down and up again. Which order of the entries and which positions a run chose is
//! read from its report; the rest of the report then has to be what following that order, entry by entry, gives, and
//! order and positions what the lines of the jobs allow.

ghost use Rattle.std.specs.Prelude.{◌≤◌, All};

use crate::same::same;
use crate::slow_gate::SlowGate;
use crate::whole_run::{
    RING, WholeRun, add, add_file, compare, file, number_of, run_parts, set_frame, text,
};
use dn_io::MemFile;
use dn_run::Status;
use std::alloc::{AllocError, Global};
use std::process::Abort;
use std::str;
use std::sync::Wait;
use std::thread::Threads;

/// What the second and each further line of a script does. Its first one takes the feed of r2, or passes.
#[derive(Clone, Copy)]
enum Act {
    Turn(bool),
    Path,
    Delta,
}

/// Whether the job of a script only asks. Another takes the link down and up 64 times each.
type Asks = bool;

/// The acts of a script.
const ACTS: u32 = 192;

/// The act of a script after so many others.
fn act_of(asks: Asks, nth: u32) -> Act {
    match (asks, nth % 6) {
        (_, 3) => Act::Path,
        (_, 5) => Act::Delta,
        (true, 0) => Act::Path,
        (true, _) => Act::Delta,
        (false, 0) => Act::Turn(true),
        (false, 2) => Act::Turn(true),
        (false, _) => Act::Turn(false),
    }
}

/// The words of a line.
fn words_of(act: Act) -> &'static str {
    match act {
        Act::Turn(true) => "down b",
        Act::Turn(false) => "up b",
        Act::Path => "path r2 10.0.0.1",
        Act::Delta => "delta",
    }
}

/// Adds a text.
fn push(rt: &impl Abort, text: &mut String, more: &str) {
    text.push_str(more).expect(rt, "memory");
}

/// The text of a script: the first one takes the feed of r2.
fn script_text(rt: &impl Abort, alloc: Global, is_first: bool, asks: Asks) -> String {
    let first = if is_first {
        "take r2 all\n"
    } else {
        "# takes nothing\n"
    };
    let mut script = text(rt, alloc, first);
    for nth in 0..ACTS {
        push(rt, &mut script, words_of(act_of(asks, nth)));
        push(rt, &mut script, "\n");
    }
    script
}

/// The file of a script.
fn script_file(rt: &impl Abort, alloc: Global, name: &str, asks: Asks) -> MemFile
    ensures { 1 ≤ result.step }
{
    let script = script_text(rt, alloc, name == "s0", asks);
    file(rt, alloc, name, script.as_bytes())
}

/// The ring, a feed of r2 with one update, by which 10.0.0.0/8 goes over the link b, and three scripts: `s0` takes the
/// feed and the link down and up, `s1` may only ask, `s2` only asks.
fn files(rt: &impl Abort, alloc: Global, second: Asks) -> Vec<MemFile>
    ensures { All (λ file. 1 ≤ file.step) result.items }
{
    let mut files = Vec::new(alloc);
    add_file(rt, &mut files, file(rt, alloc, "topology", RING.as_bytes()));
    add_file(rt, &mut files, file(rt, alloc, "f2", &set_frame(0, 8, 3)));
    add_file(rt, &mut files, script_file(rt, alloc, "s0", false));
    add_file(rt, &mut files, script_file(rt, alloc, "s1", second));
    add_file(rt, &mut files, script_file(rt, alloc, "s2", true));
    files
}

/// What an entry of the history is.
#[derive(Clone, Copy, Debug, PartialEq, Eq)]
enum Step {
    /// The update of r2's feed.
    Route,
    /// A job takes the link down or up.
    Turn { job: u32, down: bool },
}

/// What a run chose: the entries, and the position of each line that has one, one job after another.
#[derive(Drop)]
struct Chosen {
    steps: Vec<Step>,
    positions: Vec<u32>,
}

impl Chosen {
    /// Notes what a line of a report tells of this.
    fn note(&mut self, line: &str) -> Result<(), AllocError> {
        let mut words = line.split(' ');
        let first = words.next();
        let second = words.next();
        let third = words.next();
        let fourth = words.next();
        if second == Some("feed") {
            self.steps.push(Step::Route)?;
        }
        if second == Some("job") {
            let job = number_of(third);
            let down = fourth == Some("down");
            self.steps.push(Step::Turn { job, down })?;
        }
        if first == Some("line") && third == Some("at") {
            self.positions.push(number_of(fourth))?;
        }
        Ok(())
    }
}

/// What a run chose, by its report.
fn choice_of(alloc: Global, report: &[u8]) -> Result<Chosen, AllocError> {
    let mut chosen = Chosen {
        steps: Vec::new(alloc),
        positions: Vec::new(alloc),
    };
    let Ok(report) = str::from_utf8(report) else {
        return Ok(chosen);
    };
    for line in report.lines() {
        chosen.note(line)?;
    }
    Ok(chosen)
}

/// What r2 does with 10.0.0.0/8.
#[derive(Clone, Copy, PartialEq, Eq)]
enum Way {
    NoRoute,
    Down,
    On,
}

/// That after these entries.
fn way_after(steps: &[Step]) -> Way {
    let mut has_route = false;
    let mut is_down = false;
    for step in steps {
        match step {
            Step::Route => has_route = true,
            Step::Turn { down, .. } => is_down = *down,
        }
    }
    if !has_route {
        Way::NoRoute
    } else if is_down {
        Way::Down
    } else {
        Way::On
    }
}

/// How a report names it.
fn way_text(way: Way) -> &'static str {
    match way {
        Way::NoRoute => "noroute",
        Way::Down => "linkdown b",
        Way::On => "to r3 by b",
    }
}

/// The answer to a `path`: r3 has no route.
fn path_text(way: Way) -> &'static str {
    match way {
        Way::NoRoute => "hops r2\nend noroute\n",
        Way::Down => "hops r2\nend linkdown b\n",
        Way::On => "hops r2 r3\nend noroute\n",
    }
}

/// What is due of a run that made these entries, as far as it is worked out.
#[derive(Drop)]
struct Due<'a> {
    alloc: Global,
    steps: &'a [Step],
    text: String,
}

impl<'a> Due<'a> {
    /// Adds what is due of the feed and the history.
    fn add_history(&mut self, rt: &impl Abort) {
        let steps = self.steps;
        push(
            rt,
            &mut self.text,
            "feed 1 r2 updates 1 skipped 0 refused 0 end\n",
        );
        let count = format!(in self.alloc; "history {}\n", steps.len());
        add(rt, &mut self.text, count);
        for at in 0..steps.len() {
            let entry = entry_text(self.alloc, at + 1, steps[at]);
            add(rt, &mut self.text, entry);
        }
    }

    /// Adds the answer to a `delta` after the first so many entries.
    fn add_delta(&mut self, rt: &impl Abort, past: &[Step]) {
        let after = way_after(past);
        let before = match past {
            [front @ .., _] => way_after(front),
            [] => after,
        };
        if before == after {
            push(rt, &mut self.text, "none\n");
            return;
        }
        let (before, after) = (way_text(before), way_text(after));
        let change = format!(in self.alloc; "r2 10.0.0.0-10.255.255.255 {before} -> {after}\n");
        add(rt, &mut self.text, change);
    }

    /// Adds what is due of an act in this line, whose position is that after these entries.
    fn add_told(&mut self, rt: &impl Abort, line: u32, act: Act, past: &[Step]) {
        let words = words_of(act);
        let told = format!(in self.alloc; "line {line} at {} {words}\n", past.len());
        add(rt, &mut self.text, told);
        match act {
            Act::Turn(_) => {}
            Act::Path => push(rt, &mut self.text, path_text(way_after(past))),
            Act::Delta => self.add_delta(rt, past),
        }
    }

    /// Judges the acts of a job, which have these positions, and adds what is due of them. Answers how many entries the
    /// job's lines made.
    fn add_job(&mut self, rt: &impl Abort, job: u32, asks: Asks, positions: &[u32]) -> usize {
        let steps = self.steps;
        let number = format!(in self.alloc; "job {job}\n");
        add(rt, &mut self.text, number);
        let mut last = 0usize;
        let mut own = 0usize;
        for nth in 0..ACTS {
            let act = act_of(asks, nth);
            let position = positions
                .get(nth as usize)
                .copied()
                .expect(rt, "a position") as usize;
            if let Act::Turn(_) = act {
                own = own.saturating_add(1);
            }
            assert!(rt;
                last <= position && position <= steps.len(),
                "{position} after {last}"
            );
            let past = &steps[..position];
            compare_act(rt, past, job, act, last);
            assert_eq!(rt; count_of(past, job), own, "job {job} at {position}");
            self.add_told(rt, nth + 2, act, past);
            last = position;
        }
        own
    }
}

/// An entry's line in a report.
fn entry_text(alloc: Global, number: usize, step: Step) -> Result<String, AllocError> {
    match step {
        Step::Route => {
            format!(in alloc; "{number} feed 1 r2 set 10.0.0.0/8 metric 20 to r3 by b\n")
        }
        Step::Turn { job, down } => {
            let words = words_of(Act::Turn(down));
            format!(in alloc; "{number} job {job} {words}\n")
        }
    }
}

/// Whether an entry is by a line of this job.
fn is_by(step: Step, job: u32) -> bool {
    match step {
        Step::Route => false,
        Step::Turn { job: by, .. } => by == job,
    }
}

/// How many entries are by lines of this job.
fn count_of(steps: &[Step], job: u32) -> usize {
    steps.iter().filter(|step| is_by(**step, job)).count()
}

/// The last of the entries up to the position of a job's act is what a turn says, past the position before. What job 1
/// took is among them.
fn compare_act(rt: &impl Abort, past: &[Step], job: u32, act: Act, last: usize) {
    if let Act::Turn(down) = act {
        assert!(rt; last < past.len(), "again {last}");
        let turn = Step::Turn { job, down };
        assert_eq!(rt; past[past.len() - 1], turn, "at {}", past.len());
    }
    assert!(rt; job != 1 || way_after(past) != Way::NoRoute, "no route");
}

/// A run of these jobs ended well and is lawful.
fn compare_run(rt: &impl Abort, alloc: Global, jobs: &[Asks], run: &WholeRun) {
    let chosen = choice_of(alloc, run.written.as_slice()).expect(rt, "memory");
    let mut due = Due {
        alloc,
        steps: chosen.steps.as_slice(),
        text: String::new(alloc),
    };
    due.add_history(rt);
    let mut rest = chosen.positions.as_slice();
    let mut number = 1u32;
    let mut made = 1usize;
    for asks in jobs {
        assert!(rt; ACTS as usize <= rest.len(), "positions of job {number}");
        let own = due.add_job(rt, number, *asks, &rest[..ACTS as usize]);
        rest = &rest[ACTS as usize..];
        made = made.saturating_add(own);
        number = number.saturating_add(1);
    }
    push(rt, &mut due.text, "done\n");
    compare(rt, run, Status::Done, due.text.as_str());
    same(rt, &chosen.steps.len(), &made);
}

/// Runs the scripts, whose jobs a gate holds for a while that looks drawn.
fn run_scripts<R: Abort + Threads + Wait + Sync>(
    rt: &R,
    alloc: Global,
    second: Asks,
    parts: &[&str],
) -> WholeRun {
    let files = files(rt, alloc, second);
    run_parts(rt, alloc, parts, files, &SlowGate::new(1))
}

#[test]
fn two_jobs_turn_one_link(rt: HostRuntime) {
    let alloc = rt.alloc();
    let run = run_scripts(&rt, alloc, false, &["r2=f2", "@s0", "@s1"]);
    compare_run(&rt, alloc, &[false, false], &run);
}

/// One job applies, and the others pin what it shows.
#[test]
fn two_jobs_follow_a_link(rt: HostRuntime) {
    let alloc = rt.alloc();
    let run = run_scripts(&rt, alloc, true, &["r2=f2", "@s0", "@s1", "@s2"]);
    compare_run(&rt, alloc, &[false, true, true], &run);
}
