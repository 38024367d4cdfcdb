//! Trials.

ghost use Rattle.std.specs.Prelude.{◌≡◌, ◌<◌, None, length};
ghost use Rattle.dn_model.specs.Entry.{IsEntryOf};
ghost use Rattle.dn_model.specs.Query.{unknown_of};
ghost use Rattle.net_engine.specs.Followed.{IsFollowed};

use crate::course::Course;
use crate::draw::{Draw, Spot};
use crate::found::Found;
use crate::question::{Down, drawn_query};
use crate::ring::ring;
use crate::update::drawn_entry;
use answer_equality::is_same_answer;
use delta_graph::Delta;
use dn_formats::TopoRefused;
use dn_model::{Answer, Ask, Change, Entry, List, OutOfMemory, Query, Topology};
use std::alloc::Global;

/// A history of a ring of routers that is drawn by a seed.
#[derive(Clone, Copy, Debug)]
pub struct Trial {
    pub routers: u16,
    /// How many stages it has. At the end of each, queries are asked of the version, of the one that the stage began
    /// with, and of one that is made beside that; after the last, of the one after the first.
    pub stages: u32,
    /// How many updates a stage has.
    pub updates: u32,
    /// Of how many updates one is asked what it changed.
    pub told: u32,
    /// How many kinds of queries are asked: of `path`, `uses`, `reach`, `waypoint`, `blackholes` and `loops` the first.
    pub kinds: u32,
    /// How many questions of each kind are asked, each with two links down.
    pub rounds: u32,
    /// Whether each question is asked with none of its links down, and with either, too.
    pub is_split: bool,
    /// How many updates are made beside the version that a stage began with; one at least.
    pub beside: u32,
    pub spot: Spot,
    pub seed: u64,
}

/// A question of a trial: its kind, 0 to 5, and the seed that says the rest.
#[derive(Clone, Copy)]
struct Question {
    kind: u32,
    seed: u64,
}

/// An update of a history's network.
fn next_entry(course: &Course, spot: &Spot, draw: &mut Draw) -> Entry
    ensures own { IsEntryOf course.now.topology result }
    ensures followed { IsFollowed result }
{
    drawn_entry(course.topology(), spot, draw)
}

/// The history with an update more, and what that changed: of four times three in the version's own place.
fn advance_or_apply(
    alloc: Global,
    course: Course,
    entry: &Entry,
    draw: &mut Draw,
) -> Result<(Course, Delta), OutOfMemory>
    requires own { IsEntryOf course.topology entry.now }
    requires followed { IsFollowed entry.now }
{
    if draw.below(4) > 0 {
        return course.advance(alloc, entry);
    }
    course.apply(alloc, entry)
}

/// Notes in `found` what an update after others is, and draws it.
fn noted_entry(course: &Course, spot: &Spot, draw: &mut Draw, found: &mut Found) -> Entry
    ensures own { IsEntryOf course.now.topology result }
    ensures followed { IsFollowed result }
{
    let entry = next_entry(course, spot, draw);
    found.note_update(course.entries(), &entry);
    entry
}

/// Notes what an entry changed, and the rows of the version after it.
fn note_next(found: &mut Found, entry: &Entry, next: &Course, changes: &[Change]) {
    found.note_turn(entry, !changes.is_empty());
    found.note_rows(next.version());
}

/// A trial that goes on: what is drawn for it next, and what it met so far.
#[derive(Drop)]
struct Player {
    alloc: Global,
    trial: Trial,
    draw: Draw,
    found: Found,
}

impl Player {
    /// Compares the answers to a query whose names the network has, for `Ask::Delta` with these changes, and gives the
    /// plain one.
    fn compare_known(
        &mut self,
        course: &Course,
        changes: &[Change],
        query: &Query,
    ) -> Result<Answer, OutOfMemory>
        requires { unknown_of course.now.topology query.now ≡ None }
    {
        self.found.note_query(course.version(), query);
        let (by_version, plain) = course.answers(self.alloc, changes, query)?;
        self.found.note_answers(&by_version, &plain);
        Ok(plain)
    }

    /// The same of any query: it gives no runs where the query isn't answered, which counts as a difference.
    fn compare(
        &mut self,
        course: &Course,
        changes: &[Change],
        query: &Query,
    ) -> Result<Answer, OutOfMemory> {
        if course.knows(query) {
            return self.compare_known(course, changes, query);
        }
        self.found.note_unanswered();
        Ok(Answer::Runs(List::new(self.alloc)))
    }

    /// Compares what a history's last update changed with these changes.
    fn compare_changes(&mut self, course: &Course, changes: &[Change]) -> Result<(), OutOfMemory> {
        let query = Query::of(self.alloc, Ask::Delta);
        let _plain = self.compare(course, changes, &query)?;
        Ok(())
    }

    /// The query that asks a question with these of its links down.
    fn query_of(
        &self,
        course: &Course,
        question: &Question,
        down: Down,
    ) -> Result<Query, OutOfMemory> {
        let mut draw = Draw::new(question.seed);
        drawn_query(
            self.alloc,
            course.topology(),
            &self.trial.spot,
            &mut draw,
            question.kind,
            down,
        )
    }

    /// Compares the answers to a question with these of its links down, and gives the plain one.
    fn compare_down(
        &mut self,
        course: &Course,
        question: &Question,
        down: Down,
    ) -> Result<Answer, OutOfMemory> {
        let query = self.query_of(course, question, down)?;
        self.compare(course, &[], &query)
    }

    /// Compares the answers to a question with these of its links down, and says whether the plain one is another than
    /// this.
    fn is_another_down(
        &mut self,
        course: &Course,
        question: &Question,
        down: Down,
        than: &Answer,
    ) -> Result<bool, OutOfMemory> {
        let plain = self.compare_down(course, question, down)?;
        Ok(!is_same_answer(&plain, than))
    }

    /// Asks a question with none of its links down, and with either, whose answer with both down is this.
    fn ask_split(
        &mut self,
        course: &Course,
        question: &Question,
        both: &Answer,
    ) -> Result<(), OutOfMemory> {
        let none = self.is_another_down(course, question, Down::NONE, both)?;
        let first = self.is_another_down(course, question, Down::FIRST, both)?;
        let second = self.is_another_down(course, question, Down::SECOND, both)?;
        self.found
            .note_down(question.kind, none, none && first && second);
        Ok(())
    }

    /// Asks a question with both of its links down, and where it is split with none and with either too.
    fn ask_question(&mut self, course: &Course, question: &Question) -> Result<(), OutOfMemory> {
        let both = self.compare_down(course, question, Down::BOTH)?;
        if self.trial.is_split {
            return self.ask_split(course, question, &both);
        }
        Ok(())
    }

    /// A question of this kind.
    fn drawn_question(&mut self, kind: u32) -> Question {
        let seed = u64::from(self.draw.below(u32::MAX));
        Question { kind, seed }
    }

    /// Asks a question of each kind of a history.
    fn ask_round(&mut self, course: &Course) -> Result<(), OutOfMemory> {
        for kind in 0..self.trial.kinds {
            let question = self.drawn_question(kind);
            self.ask_question(course, &question)?;
        }
        Ok(())
    }

    /// Asks the trial's queries of a history.
    fn ask(&mut self, course: &Course) -> Result<(), OutOfMemory> {
        for _round in 0..self.trial.rounds {
            self.ask_round(course)?;
        }
        Ok(())
    }

    /// The history with an update more, and what that changed.
    fn advance(&mut self, course: Course) -> Result<(Course, Delta), OutOfMemory> {
        let entry = noted_entry(&course, &self.trial.spot, &mut self.draw, &mut self.found);
        let (next, delta) = advance_or_apply(self.alloc, course, &entry, &mut self.draw)?;
        note_next(&mut self.found, &entry, &next, delta.changes());
        Ok((next, delta))
    }

    /// The history with an update more. Where it is told, what it changed is compared.
    fn step(&mut self, course: Course, is_told: bool) -> Result<Course, OutOfMemory> {
        let (next, delta) = self.advance(course)?;
        if is_told {
            self.compare_changes(&next, delta.changes())?;
        }
        Ok(next)
    }

    /// The history after a stage's updates.
    fn further(&mut self, course: Course) -> Result<Course, OutOfMemory> {
        let told = self.trial.told.max(1);
        let mut next = course;
        for update in 0..self.trial.updates {
            next = self.step(next, update % told == 0)?;
        }
        Ok(next)
    }

    /// The history with an update more, whose version is made beside one that is held, and what that changed.
    fn apply_beside(&mut self, held: &Course) -> Result<(Course, Delta), OutOfMemory> {
        let entry = next_entry(held, &self.trial.spot, &mut self.draw);
        held.apply(self.alloc, &entry)
    }

    /// The same history. What the update changed is compared.
    fn step_beside(&mut self, held: &Course) -> Result<Course, OutOfMemory> {
        let (other, delta) = self.apply_beside(held)?;
        let changes = delta.changes();
        self.found.note_beside(!changes.is_empty());
        self.compare_changes(&other, changes)?;
        Ok(other)
    }

    /// Makes further updates beside a version that is held, and then asks that one and another that was made beside it
    /// before: neither shows any of them.
    fn ask_both(&mut self, held: &Course, other: &Course) -> Result<(), OutOfMemory> {
        for _update in 1..self.trial.beside {
            let _third = self.step_beside(held)?;
        }
        self.ask_round(other)?;
        self.ask(held)
    }

    /// Makes updates beside a version that is held, and asks it and the first that was made.
    fn ask_held(&mut self, held: &Course) -> Result<(), OutOfMemory> {
        let other = self.step_beside(held)?;
        self.ask_both(held, &other)
    }

    /// The history after a stage. A copy of the one before is held meanwhile, and asked as well; the stage's own version
    /// is asked last, after all that was made beside the held one.
    fn stage(&mut self, course: Course) -> Result<Course, OutOfMemory> {
        let held = course.copy(self.alloc)?;
        let next = self.further(course)?;
        self.ask_held(&held)?;
        self.ask(&next)?;
        Ok(next)
    }

    /// The history after all stages but the first.
    fn later(&mut self, course: Course) -> Result<Course, OutOfMemory> {
        let mut next = course;
        for _stage in 1..self.trial.stages {
            next = self.stage(next)?;
        }
        Ok(next)
    }

    /// Goes on from the history after the first stage. A copy of it is held through all others, and asked again after
    /// the last.
    fn hold_through(&mut self, course: Course) -> Result<(), OutOfMemory> {
        let oldest = course.copy(self.alloc)?;
        let _last = self.later(course)?;
        self.ask(&oldest)
    }

    /// Goes through all stages from the history before any update.
    fn run(&mut self, course: Course) -> Result<(), OutOfMemory> {
        let first = self.stage(course)?;
        self.hold_through(first)
    }
}

/// What is met over a network that has a router.
fn run_over(alloc: Global, topology: Topology, trial: &Trial) -> Result<Found, OutOfMemory>
    requires { 0 < length topology.routers }
{
    let course = Course::new(alloc, topology)?;
    let mut player = Player {
        alloc,
        trial: *trial,
        draw: Draw::new(trial.seed),
        found: Found::new(),
    };
    player.run(course)?;
    Ok(player.found)
}

/// What a trial meets: what the updates that are told changed, and the answers of the versions at the end of each
/// stage, beside what the plain evaluator says. One without a router meets nothing; one of more routers than a topology
/// may have, which are 1,024, is refused.
pub fn agree(alloc: Global, trial: &Trial) -> Result<Found, TopoRefused> {
    let topology = ring(alloc, trial.routers)?;
    if topology.router_count() == 0 {
        return Ok(Found::new());
    }
    Ok(run_over(alloc, topology, trial)?)
}
