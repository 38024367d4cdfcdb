//! A link line of a script: a link goes down, or comes up again.

ghost use Rattle.std.specs.Prelude.{◌≡◌, ◌++◌, ◌∷◌, [], ℕ, IfOk, OnErr};
ghost use Rattle.dn_formats.specs.declared.script.Line.TheVariants.{Link};
ghost use Rattle.version_lock.specs.Callers.{IsSeatOf};
ghost use Rattle.feed_threads.specs.Seats.{own_of, SawMore};
ghost use Rattle.feed_threads.specs.Tells.{IsLinkOutcomeNow};

use crate::desk::Desk;
use crate::work::Work;
use dn_formats::{LinkOutcome, Told};
use dn_io::{Gate, Source};
use dn_model::{Entry, Name, OutOfMemory};
use std::sync::Wait;
use version_lock::Seat;

/// Applies the entry of a link line. Where the network has no such link, or the history is full, there is none.
fn apply_link<G: Gate, R: Wait>(
    rt: &R,
    desk: &Desk<'_, G>,
    seat: &mut Seat,
    job: u32,
    name: &Name,
    down: bool,
) -> Result<LinkOutcome, OutOfMemory>
    requires lock { IsSeatOf desk.now seat.old }
    ensures saw { SawMore seat.old seat.new }
    ensures outcome { IfOk result (IsLinkOutcomeNow desk.now job name.now down seat.old seat.new) }
    ensures kept { OnErr result (own_of seat.old.number seat.new.seen ≡ own_of seat.old.number seat.old.seen) }
{
    let Some(link) = dn_model::link(desk.topology(), name) else {
        return Ok(LinkOutcome::UnknownLink);
    };
    match desk.post(rt, seat, &Entry::Link { job, link, down })? {
        Some(position) => Ok(LinkOutcome::At(position)),
        None => Ok(LinkOutcome::Full),
    }
}

impl<S: Source> Work<S> {
    ghost use Rattle.feed_threads.specs.Works.{IsAtWork, Works};

    /// Says that a link goes down or comes up, shows it at once, and adds what is told of it.
    pub(crate) fn set_link<G: Gate, R: Wait>(
        &mut self,
        rt: &R,
        desk: &Desk<'_, G>,
        line: u32,
        name: &Name,
        down: bool,
    ) -> Result<(), OutOfMemory>
        requires work { IsAtWork desk.now self.old }
        ensures works { Works desk.now S.left S.faults S.place result self.old self.new (Link line name.now down ∷ []) }
        ensures err { OnErr result (self.new.told ≡ self.old.told) }
    {
        let link = name.copy(desk.alloc())?;
        let outcome = apply_link(rt, desk, &mut self.seat, self.number, name, down)?;
        desk.show(rt, &mut self.seat, &mut self.shown)?;
        self.told.push(Told::Linked {
            line,
            link,
            down,
            outcome,
        })
    }
}
