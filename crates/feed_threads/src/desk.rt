//! What a job works with, whatever its feeds are.

ghost use Rattle.std.specs.Prelude.{◌≡◌, ◌≤◌, ◌++◌, ◌∷◌, [], length, if◌then◌else◌, IfOk, IfSome, None, OnErr, is_some};
ghost use Rattle.version_lock.specs.Callers.{Applied, IsSeatOf};
ghost use Rattle.feed_threads.specs.Seats.{own_of, IsSeenBy, LooksOn, SawMore};
ghost use Rattle.feed_threads.specs.Shown.{IsShown, ShowsOn};
ghost use Rattle.feed_threads.specs.Takes.{MayAdd};

use crate::site::Site;
use dn_io::{Gate, Point};
use dn_model::{Entry, OutOfMemory, Topology};
use fast_pins::Publisher;
use std::alloc::Global;
use std::cell::Cell;
use std::marker::Model;
use std::sync::Wait;
use version_lock::{PostRefused, Seat};
use version_store::Snapshot;

/// By what a job shows to others what it applies: nothing, where no job reads alone.
pub(crate) type Shown = Option<Publisher<Snapshot>>;

/// What a job works with: where it runs, the job's number, whether it may ask by all processors, and whether it applied
/// something since it last showed what it applies. A contract sees the lock.
#[derive(Drop)]
pub(crate) struct Desk<'a, G: Gate> {
    site: &'a Site<'a, G>,
    job: u32,
    by_all: bool,
    is_behind: Cell<bool>,
}

impl<'a, G: Gate> Model for Desk<'a, G> {
    ghost use Rattle.version_lock.specs.Callers.{Lock};

    ghost Value = { Lock };

    ghost view = { λ d. d.site.now };
}

impl<'a, G: Gate> Desk<'a, G> {
    /// The desk of a job, which may ask by all processors, or by its own thread alone.
    pub(crate) fn new(site: &'a Site<'a, G>, job: u32, by_all: bool) -> Desk<'a, G>
        ensures { result ≡ site.now }
    {
        Desk {
            site,
            job,
            by_all,
            is_behind: Cell::new(false),
        }
    }

    /// What memory comes from.
    pub(crate) fn alloc(&self) -> Global {
        let site = self.site;
        site.alloc
    }

    /// Whether the job may ask by all processors.
    pub(crate) fn asks_by_all(&self) -> bool {
        self.by_all
    }

    /// The lock's network.
    pub(crate) fn topology(&self) -> &Topology
        ensures { result.now ≡ self.now.setup.basis.topology }
    {
        let site = self.site;
        site.topology
    }

    /// Applies an entry, and answers its position in the history, from 1; or none where the history was full and didn't
    /// take it. Where memory is wanting nothing of the seat's own is added.
    pub(crate) fn post<R: Wait>(
        &self,
        rt: &R,
        seat: &mut Seat,
        entry: &Entry,
    ) -> Result<Option<u32>, OutOfMemory>
        requires { MayAdd self.now seat.old entry.now }
        ensures saw { SawMore seat.old seat.new }
        ensures at { IfOk result (λ at. IfSome at (Applied entry.now self.now.setup.basis.limit seat.old seat.new)) }
        ensures own { IfOk result (λ at. own_of seat.old.number seat.new.seen ≡ own_of seat.old.number seat.old.seen
            ++ (if is_some at then entry.now ∷ [] else [])) }
        ensures kept { OnErr result (own_of seat.old.number seat.new.seen ≡ own_of seat.old.number seat.old.seen) }
        ensures full { IfOk result (λ at. at ≡ None → self.now.setup.basis.limit ≤ length seat.new.seen) }
    {
        let _number = seat.number();
        let site = self.site;
        site.gate.at(self.job, Point::BeforeApply);
        match site.lock.apply(rt, seat, entry) {
            Ok(position) => {
                self.is_behind.set(true);
                site.gate.at(self.job, Point::AfterApply);
                Ok(Some(position))
            }
            Err(PostRefused::Full { .. }) => Ok(None),
            Err(PostRefused::OutOfMemory) => Err(OutOfMemory),
        }
    }

    /// A snapshot of the history, all of which the seat has then seen.
    #[tactic(auto, using(crate::proofs::SeatLemmas::looks_kept))]
    pub(crate) fn look<R: Wait>(&self, rt: &R, seat: &mut Seat) -> Result<Snapshot, OutOfMemory>
        requires lock { IsSeatOf self.now seat.old }
        ensures looks { LooksOn seat.old seat.new }
        ensures seen { IfOk result (IsSeenBy self.now seat.new) }
    {
        let _number = seat.number();
        let site = self.site;
        let pinned = site.lock.pin(rt, seat)?;
        Ok(pinned.snap)
    }

    /// Shows to the jobs that read alone, where there are such, what the seat sees now, if the job applied something
    /// since it last did so. After `OutOfMemory` they are shown what they were.
    #[tactic(auto, using(crate::proofs::SeatLemmas::looks_none))]
    pub(crate) fn show<R: Wait>(
        &self,
        rt: &R,
        seat: &mut Seat,
        shown: &mut Shown,
    ) -> Result<(), OutOfMemory>
        requires lock { IsSeatOf self.now seat.old }
        requires shown { IsShown self.now.setup.basis.topology seat.old.seen shown.old }
        ensures looks { LooksOn seat.old seat.new }
        ensures shows { ShowsOn self.now.setup.basis.topology seat.new.seen shown.old shown.new }
    {
        let Some(publisher) = shown else {
            return Ok(());
        };
        if !self.is_behind.replace(false) {
            return Ok(());
        }
        let snapshot = self.look(rt, seat)?;
        publisher.publish(rt, snapshot)
    }

    /// A query's snapshot was taken.
    pub(crate) fn pinned(&self) {
        let site = self.site;
        site.gate.at(self.job, Point::AfterPin);
    }

    /// A query was answered.
    pub(crate) fn answered(&self) {
        let site = self.site;
        site.gate.at(self.job, Point::AfterAnswer);
    }
}
