//! Trials of jobs side by side: whole runs of eight jobs, held at a gate for a while that looks drawn. Which order of
//! the entries and which positions a run chose is read from its report; the rest of the report then has to be what the
//! plain evaluator of `dn_model` says, and order and positions what the lines of the jobs allow.

use crate::same::same;
use crate::slow_gate::SlowGate;
use crate::trial::{
    FEEDS, Origin, TAKEN, UNTAKEN, UPDATES, count_of, entries, files, ring_text, script_text, words,
};
use crate::whole_run::{WholeRun, number_of, run_into, whole_sink};
use dn_formats::{JobTold, Line, LinkOutcome, Outcome, Script, Told};
use dn_model::{Answer, Entry, List, Name, Posted, Query, RouterId, Topology, plain_answer};
use dn_run::Status;
use feed_model::{FeedEnd, FeedTold};
use query_lang::read_script;
use run_report::Report;
use std::alloc::{AllocError, Global};
use std::process::Abort;
use std::str;
use std::sync::{Arc, Wait};
use std::thread::Threads;
use topology::read_topology;
use version_pages::Pages;

/// Runs the trial of a seed.
fn run_trial<R: Abort + Threads + Wait + Sync>(rt: &R, alloc: Global, seed: u32) -> WholeRun {
    let words = words(rt, alloc);
    let files = files(rt, alloc, seed);
    let gate = SlowGate::new(seed);
    run_into(rt, alloc, words, files, whole_sink(alloc), &gate)
}

/// The number in the name of a link, `l0` to `l7`.
fn link_number(name: &[u8]) -> u16 {
    match name {
        [b'l', digit] => u16::from(digit.wrapping_sub(b'0')),
        _ => 0,
    }
}

/// What a run chose: for each entry of the history where it comes from, and the position of each line that has one, one
/// job after another.
#[derive(Drop)]
struct Chosen {
    order: Vec<Origin>,
    positions: Vec<u32>,
}

impl Chosen {
    /// Notes what a line of a report tells of this.
    fn note(&mut self, line: &str) -> Result<(), AllocError> {
        let mut words = line.split(' ');
        let first = words.next();
        let second = words.next();
        let third = words.next();
        let fourth = words.next();
        if second == Some("feed") {
            self.order.push(Origin::Feed(number_of(third)))?;
        }
        if second == Some("job") {
            let link = words.next().unwrap_or("");
            self.order.push(Origin::Link {
                job: number_of(third),
                link: link_number(link.as_bytes()),
                down: fourth == Some("down"),
            })?;
        }
        if first == Some("line") && third == Some("at") {
            self.positions.push(number_of(fourth))?;
        }
        Ok(())
    }
}

/// What a run chose, by its report.
fn choice_of(alloc: Global, report: &[u8]) -> Result<Chosen, AllocError> {
    let mut chosen = Chosen {
        order: Vec::new(alloc),
        positions: Vec::new(alloc),
    };
    let Ok(report) = str::from_utf8(report) else {
        return Ok(chosen);
    };
    for line in report.lines() {
        chosen.note(line)?;
    }
    Ok(chosen)
}

/// The routers of the feeds.
fn routers(alloc: Global) -> Result<Vec<RouterId>, AllocError> {
    let mut routers = Vec::new(alloc);
    for router in 0..FEEDS {
        routers.push(RouterId(router as u16))?;
    }
    Ok(routers)
}

/// The script at this place.
fn script(rt: &impl Abort, alloc: Global, topology: &Topology, seed: u32, number: usize) -> Script {
    let routers = routers(alloc).expect(rt, "memory");
    let text = script_text(rt, alloc, seed, number);
    let script = read_script(alloc, text.as_bytes(), topology, routers.as_slice(), &[]);
    script.ok().expect(rt, "a script")
}

/// The scripts of a trial.
fn scripts(rt: &impl Abort, alloc: Global, topology: &Topology, seed: u32) -> Vec<Script> {
    let mut scripts = Vec::new(alloc);
    for number in 0..TAKEN.len() {
        let script = script(rt, alloc, topology, seed, number);
        scripts.push(script).expect(rt, "memory");
    }
    scripts
}

/// A trial and what its run chose.
#[derive(Drop)]
struct Trial {
    topology: Arc<Topology, Global>,
    seed: u32,
    chosen: Chosen,
}

impl Trial {
    /// The plain evaluator's answer after the first so many entries.
    fn plain(&self, rt: &impl Abort, alloc: Global, pin: u32, query: &Query) -> Answer {
        let order = self.chosen.order.as_slice();
        assert!(rt; pin as usize <= order.len());
        let past = entries(rt, alloc, &self.topology, self.seed, &order[..pin as usize]);
        let None = query.unknown(&self.topology) else {
            panic!(rt; "known names");
        };
        plain_answer(alloc, &self.topology, past.as_slice(), query).expect(rt, "memory")
    }

    /// What is due of a query at this position.
    fn told(&self, rt: &impl Abort, alloc: Global, pin: u32, line: u32, query: &Query) -> Told {
        let answer = self.plain(rt, alloc, pin, query);
        Told::Asked {
            line,
            query: query.copy(alloc).expect(rt, "memory"),
            outcome: Outcome::Answered {
                number: pin,
                answer,
            },
        }
    }

    /// The position at this place.
    fn position(&self, rt: &impl Abort, at: usize) -> u32 {
        let position = self.chosen.positions.get(at);
        position.copied().expect(rt, "a position")
    }

    /// What is due of a script's lines, whose positions come after the first so many.
    fn tolds(&self, rt: &impl Abort, alloc: Global, script: &Script, from: usize) -> List<Told> {
        let mut tolds = List::new(alloc);
        for line in script.lines.as_slice() {
            let at = from.saturating_add(tolds.len());
            match line {
                Line::Take { .. } => {}
                Line::Ask { line, query } => {
                    let pin = self.position(rt, at);
                    let told = self.told(rt, alloc, pin, *line, query.get());
                    tolds.push(told).expect(rt, "memory");
                }
                Line::Link { line, link, down } => {
                    let outcome = LinkOutcome::At(self.position(rt, at));
                    let told = linked(rt, alloc, *line, (link, *down), outcome);
                    tolds.push(told).expect(rt, "memory");
                }
            }
        }
        tolds
    }

    /// What is due of each job: of each script's, and of each feed that none takes.
    fn jobs(&self, rt: &impl Abort, alloc: Global, scripts: &[Script]) -> Vec<JobTold> {
        let mut jobs = Vec::new(alloc);
        let mut from = 0usize;
        let mut number = 1u32;
        for script in scripts {
            let told = self.tolds(rt, alloc, script, from);
            from = from.saturating_add(told.len());
            jobs.push(JobTold { number, told }).expect(rt, "memory");
            number = number.saturating_add(1);
        }
        same(rt, &from, &self.chosen.positions.len());
        for _feed in UNTAKEN {
            let told = List::new(alloc);
            jobs.push(JobTold { number, told }).expect(rt, "memory");
            number = number.saturating_add(1);
        }
        jobs
    }

    /// The history that the run chose.
    fn history(&self, rt: &impl Abort, alloc: Global) -> Pages<Posted> {
        let order = self.chosen.order.as_slice();
        let past = entries(rt, alloc, &self.topology, self.seed, order);
        let mut history = Pages::new();
        for entry in past.as_slice() {
            post(rt, alloc, &mut history, *entry);
        }
        history
    }
}

/// What is told of a line of a link.
fn linked(
    rt: &impl Abort,
    alloc: Global,
    line: u32,
    says: (&Name, bool),
    outcome: LinkOutcome,
) -> Told {
    let (name, down) = says;
    Told::Linked {
        line,
        link: name.copy(alloc).expect(rt, "memory"),
        down,
        outcome,
    }
}

/// Adds an entry to a history.
fn post(rt: &impl Abort, alloc: Global, history: &mut Pages<Posted>, entry: Entry) {
    let posted = Posted { seat: 0, entry };
    history.push(alloc, posted).expect(rt, "memory");
}

/// What is told of the feeds.
fn feeds_told(alloc: Global) -> Result<Vec<FeedTold>, AllocError> {
    let mut feeds = Vec::new(alloc);
    for router in 0..FEEDS {
        feeds.push(FeedTold {
            feed_no: router + 1,
            router: RouterId(router as u16),
            updates: u64::from(UPDATES),
            skipped: 0,
            refused: List::new(alloc),
            end: Some(FeedEnd::End),
        })?;
    }
    Ok(feeds)
}

/// The report has each feed's updates, and is what the plain evaluator says over what the run chose.
fn compare_report(rt: &impl Abort, alloc: Global, trial: &Trial, jobs: &[JobTold], report: &[u8]) {
    for feed in 1..FEEDS + 1 {
        let count = count_of(trial.chosen.order.as_slice(), feed);
        assert_eq!(rt; count, UPDATES as usize, "feed {feed}");
    }
    let feeds = feeds_told(alloc).expect(rt, "memory");
    let history = trial.history(rt, alloc);
    let due = Report::new(alloc, &trial.topology, feeds.as_slice(), history, jobs);
    let mut sink = whole_sink(alloc);
    assert!(rt; due.expect(rt, "memory").write(&mut sink).is_ok());
    assert_eq!(rt; sink.written(), report, "seed {}", trial.seed);
}

/// A script's job takes at most so many further frames of a feed.
fn take(own: &mut Vec<Origin>, feed: u32, count: u32) -> Result<(), AllocError> {
    for _frame in 0..count {
        if count_of(own.as_slice(), feed) < UPDATES as usize {
            own.push(Origin::Feed(feed))?;
        }
    }
    Ok(())
}

/// The position of the line at this place.
fn position_of(rt: &impl Abort, tolds: &[Told], at: usize) -> usize {
    assert!(rt; at < tolds.len(), "line {at}");
    match &tolds[at] {
        Told::Asked {
            outcome: Outcome::Answered { number, .. },
            ..
        } => *number as usize,
        Told::Linked {
            outcome: LinkOutcome::At(position),
            ..
        } => *position as usize,
        _ => panic!(rt; "a position"),
    }
}

/// A script's job over a history whose entries come from there: its number, and the feeds that the script takes.
#[derive(Clone, Copy)]
struct Doer<'a> {
    order: &'a [Origin],
    number: u32,
    taken: &'a [u32],
}

impl<'a> Doer<'a> {
    /// Whether an entry is the job's own.
    fn is_own(&self, origin: Origin) -> bool {
        match origin {
            Origin::Feed(feed) => self.taken.contains(&feed),
            Origin::Link { job, .. } => job == self.number,
        }
    }

    /// The job's own among these entries, in order.
    fn among(&self, alloc: Global, order: &[Origin]) -> Result<Vec<Origin>, AllocError> {
        let mut among = Vec::new(alloc);
        for origin in order {
            if self.is_own(*origin) {
                among.push(*origin)?;
            }
        }
        Ok(among)
    }

    /// The second position isn't before the first one, and holds just these of the job's own entries.
    fn compare_position(
        &self,
        rt: &impl Abort,
        alloc: Global,
        positions: [usize; 2],
        own: &[Origin],
    ) {
        let [before, position] = positions;
        let order = self.order;
        assert!(rt;
            before <= position && position <= order.len(),
            "{position} after {before}"
        );
        let among = self.among(alloc, &order[..position]).expect(rt, "memory");
        assert_eq!(rt; among.as_slice(), own, "job {} at {position}", self.number);
    }

    /// The entry of a line that says that a link goes down or comes up.
    fn turn(&self, link: &Name, down: bool) -> Origin {
        Origin::Link {
            job: self.number,
            link: link_number(link.as_bytes()),
            down,
        }
    }

    /// The entry at the second position comes from there, and the first one is before it.
    fn compare_entry(&self, rt: &impl Abort, positions: [usize; 2], origin: Origin) {
        let [before, position] = positions;
        let order = self.order;
        assert!(rt;
            before < position && position <= order.len(),
            "{position} after {before}"
        );
        assert_eq!(rt; order[position - 1], origin, "at {position}");
    }

    /// A line that takes no frames has the second position, after the first one and these entries of the job. Adds the
    /// line's own entry to these.
    fn compare_line(
        &self,
        rt: &impl Abort,
        alloc: Global,
        line: &Line,
        positions: [usize; 2],
        own: &mut Vec<Origin>,
    ) {
        if let Line::Link { link, down, .. } = line {
            let origin = self.turn(link, *down);
            self.compare_entry(rt, positions, origin);
            own.push(origin).expect(rt, "memory");
        }
        self.compare_position(rt, alloc, positions, own.as_slice());
    }

    /// A script's job takes its feeds' updates and turns links by its lines, and then takes the rest of each feed, in
    /// the order in which the lines first take it: so its entries stand in the history, and at each query its position
    /// holds what the lines before gave, as does that of a line of a link with the line's own entry at its end.
    fn compare_job(&self, rt: &impl Abort, alloc: Global, script: &Script, tolds: &[Told]) {
        let mut own = Vec::new(alloc);
        let mut told = 0usize;
        let mut before = 0usize;
        for line in script.lines.as_slice() {
            if let Line::Take { router, count, .. } = line {
                let count = count.unwrap_or(UPDATES).min(UPDATES);
                take(&mut own, u32::from(router.0) + 1, count).expect(rt, "memory");
            } else {
                let position = position_of(rt, tolds, told);
                self.compare_line(rt, alloc, line, [before, position], &mut own);
                told = told.saturating_add(1);
                before = position;
            }
        }
        for feed in self.taken {
            take(&mut own, *feed, UPDATES).expect(rt, "memory");
        }
        let end = self.order.len();
        self.compare_position(rt, alloc, [before, end], own.as_slice());
    }
}

/// The trial of a seed whose run wrote this report.
fn trial_of(rt: &impl Abort, alloc: Global, seed: u32, report: &[u8]) -> Trial {
    let text = ring_text(rt, alloc);
    let topology = read_topology(alloc, text.as_bytes());
    Trial {
        topology: Arc::new(alloc, topology.ok().expect(rt, "a topology")).expect(rt, "memory"),
        seed,
        chosen: choice_of(alloc, report).expect(rt, "memory"),
    }
}

/// Each script's job did what its lines say, in their order.
fn compare_jobs(
    rt: &impl Abort,
    alloc: Global,
    trial: &Trial,
    scripts: &[Script],
    jobs: &[JobTold],
) {
    let order = trial.chosen.order.as_slice();
    assert!(rt; scripts.len() == TAKEN.len() && TAKEN.len() <= jobs.len());
    for place in 0..TAKEN.len() {
        let job = &jobs[place];
        let doer = Doer {
            order,
            number: job.number,
            taken: TAKEN[place],
        };
        doer.compare_job(rt, alloc, &scripts[place], job.told.as_slice());
    }
}

/// A run with this seed ends well and is lawful.
fn compare_trial<R: Abort + Threads + Wait + Sync>(rt: &R, alloc: Global, seed: u32) {
    let run = run_trial(rt, alloc, seed);
    assert_eq!(rt; run.status, Status::Done, "seed {seed}");
    let report = run.written.as_slice();
    let trial = trial_of(rt, alloc, seed, report);
    let scripts = scripts(rt, alloc, &trial.topology, seed);
    let jobs = trial.jobs(rt, alloc, scripts.as_slice());
    compare_report(rt, alloc, &trial, jobs.as_slice(), report);
    compare_jobs(rt, alloc, &trial, scripts.as_slice(), jobs.as_slice());
}

/// `bench/README.md` says how the trials are run again and again, for other interleavings.
#[test]
fn eight_jobs_make_one_history(rt: HostRuntime) {
    let alloc = rt.alloc();
    compare_trial(&rt, alloc, 1);
    compare_trial(&rt, alloc, 2);
    compare_trial(&rt, alloc, 3);
}
