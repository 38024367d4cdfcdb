//! What is asked of snapshots, and what the plain evaluator answers.

ghost use Rattle.std.specs.Prelude.{◌≡◌, ◌<◌, ◌∷◌, [], IfOk, IsTrue};
ghost use Rattle.base.specs.Name.{is_name_text};

use crate::same::same;
use crate::step::{Step, entries_of, network};
use answer_equality::is_same_answer;
use dn_model::{Answer, Ask, Cycle, List, Name, OutOfMemory, Query, plain_answer};
use std::alloc::Global;
use std::marker::Brand;
use std::process::Abort;
use std::sync::ledger::{Blank, Ledger};
use std::thread::Threads;
use step_count::Steps;
use version_store::{AskRefused, Snapshot};

/// One link that is taken as down.
fn down(alloc: Global, link: &[u8]) -> Result<List<Name>, OutOfMemory>
    requires { IsTrue (is_name_text link.now) }
    ensures { IfOk result (λ names. names ≡ link.now ∷ []) }
{
    let mut names = List::new(alloc);
    names.push(Name::from_text(alloc, link)?)?;
    Ok(names)
}

/// How many questions are asked of a snapshot.
const QUESTIONS: u32 = 8;

/// What is asked of a snapshot, by number: a path, which addresses come to r2, the changes of the last entry, the
/// loops, which addresses come to r2 with the link a down, where walks from r1 end without a way on, which addresses
/// go over the link a, and the loops with the link b down.
fn question(alloc: Global, number: u32) -> Result<Query, OutOfMemory> {
    let first = Name::from_text(alloc, b"r1")?;
    let second = Name::from_text(alloc, b"r2")?;
    match number {
        0 => Ok(Query::of(alloc, Ask::Path(first, 0x0A01_0203))),
        1 => Ok(Query::of(alloc, Ask::Reach(first, second))),
        2 => Ok(Query::of(alloc, Ask::Delta)),
        3 => Ok(Query::of(alloc, Ask::Loops)),
        4 => Ok(Query::new(down(alloc, b"a")?, Ask::Reach(first, second))),
        5 => Ok(Query::of(alloc, Ask::Blackholes(first))),
        6 => Ok(Query::of(alloc, Ask::Uses(Name::from_text(alloc, b"a")?))),
        _ => Ok(Query::new(down(alloc, b"b")?, Ask::Loops)),
    }
}

/// The plain evaluator's answer after these steps.
fn plain(rt: &impl Abort, alloc: Global, steps: &[Step], query: &Query) -> Answer {
    let t = network(rt, alloc);
    assert!(rt; query.unknown(&t).is_none());
    let entries = entries_of(rt, alloc, steps);
    plain_answer(alloc, &t, &entries, query).expect(rt, "memory")
}

/// The answer of a snapshot to a query, by the bound of the ledger alone.
fn answer_by_ledger<L: Ledger>(
    alloc: Global,
    snapshot: &Snapshot,
    query: &Query,
    blank: Blank,
) -> Result<Answer, AskRefused>
    requires name { blank.name ≡ L.name }
    requires parts { blank.parts ≡ L.parts }
    requires some { 0 < blank.parts }
{
    let mut steps = Steps::<L>::new(blank);
    snapshot.answer(alloc, query, &mut steps)
}

/// The answer of a snapshot to a query, whose steps nobody reads.
fn answer_of(alloc: Global, snapshot: &Snapshot, query: &Query) -> Result<Answer, AskRefused> {
    answer_by_ledger::<Brand>(alloc, snapshot, query, Blank::new(1))
}

/// The answer of a snapshot to a query, found by threads.
fn answer_wide_of(
    rt: &(impl Threads + Sync),
    alloc: Global,
    snapshot: &Snapshot,
    query: &Query,
) -> Result<Answer, AskRefused> {
    snapshot.answer_wide(rt, alloc, query)
}

/// An answer to a question, which has a number, is the plain evaluator's after these steps.
fn compare_answer(
    rt: &impl Abort,
    alloc: Global,
    answer: &Answer,
    number: u32,
    query: &Query,
    steps: &[Step],
) {
    let plain = plain(rt, alloc, steps, query);
    assert!(rt;
        is_same_answer(answer, &plain),
        "question {number} after {} entries",
        steps.len()
    );
}

/// A snapshot answers a question as the plain evaluator does after these steps.
fn compare_question(
    rt: &impl Abort,
    alloc: Global,
    snapshot: &Snapshot,
    number: u32,
    steps: &[Step],
) {
    let query = question(alloc, number).expect(rt, "memory");
    let answer = answer_of(alloc, snapshot, &query).expect(rt, "an answer");
    compare_answer(rt, alloc, &answer, number, &query, steps);
}

/// A snapshot is the one after these steps, and answers as the plain evaluator does after them.
pub fn compare(rt: &impl Abort, alloc: Global, snapshot: &Snapshot, steps: &[Step]) {
    same(rt, &(snapshot.number() as usize), &steps.len());
    for number in 0..QUESTIONS {
        compare_question(rt, alloc, snapshot, number, steps);
    }
}

/// A snapshot answers a question by threads as the plain evaluator does after these steps.
fn compare_question_wide(
    rt: &(impl Threads + Abort + Sync),
    alloc: Global,
    snapshot: &Snapshot,
    number: u32,
    steps: &[Step],
) {
    let query = question(alloc, number).expect(rt, "memory");
    let answer = answer_wide_of(rt, alloc, snapshot, &query).expect(rt, "an answer");
    compare_answer(rt, alloc, &answer, number, &query, steps);
}

/// A snapshot answers by threads as the plain evaluator does after these steps.
pub fn compare_wide(
    rt: &(impl Threads + Abort + Sync),
    alloc: Global,
    snapshot: &Snapshot,
    steps: &[Step],
) {
    for number in 0..QUESTIONS {
        compare_question_wide(rt, alloc, snapshot, number, steps);
    }
}

/// The cycles; none where the answer is another.
fn cycles_of(answer: &Answer) -> &[Cycle] {
    match answer {
        Answer::Loops(cycles) => cycles.as_slice(),
        _ => &[],
    }
}

/// How many cycles a snapshot tells.
pub fn count_loops(rt: &impl Abort, alloc: Global, snapshot: &Snapshot) -> usize {
    let query = Query::of(alloc, Ask::Loops);
    let answer = answer_of(alloc, snapshot, &query).expect(rt, "an answer");
    cycles_of(&answer).len()
}

/// Why a snapshot doesn't answer what is asked with no link taken as down.
pub fn refusal_of(alloc: Global, snapshot: &Snapshot, ask: Ask) -> Option<AskRefused> {
    answer_of(alloc, snapshot, &Query::of(alloc, ask)).err()
}
