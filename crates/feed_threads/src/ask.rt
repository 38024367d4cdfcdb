//! A query of a script is asked over a snapshot.

ghost use Rattle.std.specs.Prelude.{◌≡◌, ◌<◌, ◌∷◌, [], IfOk, IfErr, OnErr, OnOk, None, Some};
ghost use Rattle.dn_formats.specs.declared.script.Line.TheVariants.{Ask};
ghost use Rattle.dn_model.specs.Answer.{IsAnswer};
ghost use Rattle.dn_model.specs.Entry.{entries};
ghost use Rattle.dn_model.specs.Query.{unknown_of};
ghost use Rattle.dn_model.specs.declared.query.Unknown.{Unknown as UnknownIs};
ghost use Rattle.version_lock.specs.Callers.{IsSeatOf};
ghost use Rattle.feed_threads.specs.Seats.{LooksOn};
ghost use Rattle.feed_threads.specs.Shown.{IsShown, ShowsOn};
ghost use Rattle.feed_threads.specs.Tells.{Adds, IsOutcomeNow};
ghost use Rattle.version_store.specs.Asked.{IsAskRefusal};

use crate::desk::{Desk, Shown};
use crate::work::Work;
use dn_formats::{Outcome, Told};
use dn_io::{Gate, Source};
use dn_model::{Answer, OutOfMemory, Query};
use std::alloc::Global;
use std::marker::Brand;
use std::sync::Wait;
use std::sync::ledger::{Blank, Ledger};
use std::thread::Threads;
use step_count::Steps;
use version_lock::Seat;
use version_store::{AskRefused, Snapshot};

/// From so many rows on a query may be answered by all processors: with fewer a thread costs more than it saves.
const WIDE: u64 = 2048;

/// The answer of a snapshot by this thread alone. Nobody reads the count of steps, which takes no bytes.
fn answer_alone<L: Ledger>(
    alloc: Global,
    snapshot: &Snapshot,
    query: &Query,
    blank: Blank,
) -> Result<Answer, AskRefused>
    requires name { blank.name ≡ L.name }
    requires parts { blank.parts ≡ L.parts }
    requires some { 0 < blank.parts }
    ensures answer { IfOk result (IsAnswer snapshot.now.topology (entries snapshot.now.history) query.now) }
    ensures refused { IfErr result (IsAskRefusal (unknown_of snapshot.now.topology query.now)) }
{
    let mut steps = Steps::<L>::new(blank);
    snapshot.answer(alloc, query, &mut steps)
}

/// The outcome of a query whose names the network has, over a snapshot: by all processors if it may be and the snapshot
/// has many rows.
pub(crate) fn outcome_over<R: Threads + Sync>(
    rt: &R,
    alloc: Global,
    snapshot: &Snapshot,
    query: &Query,
    by_all: bool,
) -> Result<Outcome, OutOfMemory>
    requires known { unknown_of snapshot.now.topology query.now ≡ None }
    ensures { IfOk result (IsOutcomeNow snapshot.now.topology snapshot.now.history query.now) }
{
    let answer = if by_all && snapshot.atoms() >= WIDE {
        snapshot.answer_wide(rt, alloc, query)
    } else {
        answer_alone::<Brand>(alloc, snapshot, query, Blank::new(1))
    };
    match answer {
        Ok(answer) => Ok(Outcome::Answered {
            number: snapshot.number(),
            answer,
        }),
        Err(AskRefused::OutOfMemory) => Err(OutOfMemory),
        Err(AskRefused::UnknownRouter(_)) => unreachable!(),
        Err(AskRefused::UnknownLink(_)) => unreachable!(),
    }
}

/// The answer to a query over the history, whose length is its pin; or the query's first unknown name, without a pin:
/// the seat is as it was. What the job applied is shown to the jobs that read alone before the query is asked, since
/// its answer may take long.
#[tactic(auto, using(crate::proofs::SeatLemmas::looks_more, crate::proofs::SeatLemmas::looks_none))]
fn outcome<G: Gate, R: Threads + Wait + Sync>(
    rt: &R,
    desk: &Desk<'_, G>,
    seat: &mut Seat,
    shown: &mut Shown,
    query: &Query,
) -> Result<Outcome, OutOfMemory>
    requires lock { IsSeatOf desk.now seat.old }
    requires shown { IsShown desk.now.setup.basis.topology seat.old.seen shown.old }
    ensures looks { LooksOn seat.old seat.new }
    ensures shows { ShowsOn desk.now.setup.basis.topology seat.new.seen shown.old shown.new }
    ensures unpinned { (u : UnknownIs) → unknown_of desk.now.setup.basis.topology query.now ≡ Some u
        → seat.new ≡ seat.old }
    ensures good { IfOk result (IsOutcomeNow desk.now.setup.basis.topology seat.new.seen query.now) }
{
    if let Some(unknown) = query.unknown(desk.topology()) {
        return Ok(Outcome::Unknown(unknown));
    }
    desk.show(rt, seat, shown)?;
    let snapshot = desk.look(rt, seat)?;
    desk.pinned();
    let outcome = outcome_over(rt, desk.alloc(), &snapshot, query, desk.asks_by_all())?;
    desk.answered();
    Ok(outcome)
}

impl<S: Source> Work<S> {
    ghost use Rattle.feed_threads.specs.Works.{IsAtWork, Works};

    /// Asks a query, and adds what is told of it.
    pub(crate) fn ask<G: Gate, R: Threads + Wait + Sync>(
        &mut self,
        rt: &R,
        desk: &Desk<'_, G>,
        line: u32,
        query: &Query,
    ) -> Result<(), OutOfMemory>
        requires work { IsAtWork desk.now self.old }
        ensures works { Works desk.now S.left S.faults S.place result self.old self.new (Ask line query.now ∷ []) }
        ensures looks { LooksOn self.old.seat self.new.seat }
        ensures unpinned { (u : UnknownIs) → unknown_of desk.now.setup.basis.topology query.now ≡ Some u
            → self.new.seat ≡ self.old.seat }
        ensures told { OnOk result (Adds self.old.told self.new.told line query.now
            (IsOutcomeNow desk.now.setup.basis.topology self.new.seat.seen query.now)) }
        ensures err { OnErr result (self.new.told ≡ self.old.told) }
    {
        let outcome = outcome(rt, desk, &mut self.seat, &mut self.shown, query)?;
        let query = query.copy(desk.alloc())?;
        self.told.push(Told::Asked {
            line,
            query,
            outcome,
        })
    }
}
