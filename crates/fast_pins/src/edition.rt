//! A snapshot that was published.

ghost use Rattle.std.specs.Prelude.{◌≡◌, ◌⊎◌, List, length, IfOk, IfSome};
ghost use Rattle.std.specs.Arc.{arc_value};
ghost use mathlib.Core.List.{IsPrefix};
ghost use Rattle.fast_pins.specs.Known.{published};
ghost use Rattle.fast_pins.specs.Law.{Ends, known_by, line_in, list_in, lists_of, origin_of};

use crate::law::Front;
use crate::press::Press;
use crate::shot::Shot;
use dn_model::OutOfMemory;
use left_right::Absorb;
use std::alloc::{AllocError, Global};
use std::marker::Model;
use std::sync::Arc;

/// A published snapshot, which others may hold too, and the knowledge that it was published. A contract sees what was
/// published up to it.
#[derive(Drop)]
pub struct Edition<S: Shot> {
    snap: Arc<S, Global>,
    seen: Front,
}

impl<S: Shot> Model for Edition<S> {
    ghost use Rattle.std.specs.Arc.{arc_value};
    ghost use Rattle.fast_pins.specs.Known.{Known};
    ghost use Rattle.fast_pins.specs.Law.{Ends, known_by};

    ghost Value = { Known };

    ghost view = { λ e. known_by e.seen.book e.seen.log (S.shown_topology (arc_value e.snap)) };

    ghost invariant = { λ e. Ends e.seen.log (S.shown_topology (arc_value e.snap)) (S.shown (arc_value e.snap)) };
}

impl<S: Shot> Edition<S> {
    /// The snapshot that was published last.
    pub(crate) fn of(snap: Arc<S, Global>, seen: &Front) -> Edition<S>
        requires ends { Ends seen.now.log (S.shown_topology (arc_value snap)) (S.shown (arc_value snap)) }
        ensures { result ≡ known_by seen.now.book seen.now.log (S.shown_topology (arc_value snap)) }
    {
        Edition {
            snap,
            seen: seen.again(),
        }
    }

    /// The same edition. It fails only where more hold the snapshot than can be counted.
    pub(crate) fn again(&self) -> Result<Edition<S>, OutOfMemory>
        ensures { IfOk result (λ other. other ≡ self.now) }
    {
        Ok(Edition {
            snap: Arc::try_clone(&self.snap)?,
            seen: self.seen.again(),
        })
    }

    /// How many entries its list has.
    pub(crate) fn number(&self) -> u32
        ensures { result ≡ length (published self.now) }
    {
        self.snap.number()
    }

    /// Its snapshot.
    pub(crate) fn copy(&self) -> Result<S, OutOfMemory>
        ensures shown { IfOk result (λ snap. S.shown snap ≡ published self.now) }
        ensures topology { IfOk result (λ snap. S.shown_topology snap ≡ self.now.topology) }
    {
        self.snap.copy()
    }

    /// What was published up to it is a beginning of what the press added, and its list begins the last one.
    pub(crate) fn confirm(&self, press: &mut Press)
        requires origin { origin_of press.old.seen.book (line_in press.old.seen.log) ≡ self.now.origin }
        ensures same { press.new.seen ≡ press.old.seen }
        ensures lists { IsPrefix self.now.lists (lists_of (line_in press.old.seen.log) press.old.seen.log) }
        ensures begins { IsPrefix (published self.now) (list_in press.old.seen.log) }
    {
        press.confirm::<S>(&self.snap, &self.seen);
    }

    /// Takes the other one's place, where that was published later.
    pub(crate) fn renew(&mut self, other: Option<Edition<S>>)
        requires origin { IfSome other (λ o. o.origin ≡ self.old.origin) }
        ensures one { (self.new ≡ self.old) ⊎ IfSome other (λ o. self.new ≡ o) }
        ensures origin { self.new.origin ≡ self.old.origin }
        ensures topology { self.new.topology ≡ self.old.topology }
        ensures known { IsPrefix self.old.lists self.new.lists }
        ensures mine { IsPrefix (published self.old) (published self.new) }
        ensures theirs { IfSome other (λ o. IsPrefix (published o) (published self.new)) }
    {
        let Some(other) = other else {
            return;
        };
        let mut both = self.seen.again();
        both.learn(&other.seen);
        if self.number() < other.number() {
            *self = other;
        }
    }
}

/// A publication takes the place of the edition that is shown.
impl<S: Shot> Absorb<Edition<S>> for Edition<S> {
    type State = Edition<S>;

    ghost state = { λ edition. edition };

    ghost applied = { λ _ next. next };

    fn absorb_first(&mut self, operation: &Edition<S>, _other: &Self) -> Result<(), AllocError> {
        let snap = Arc::try_clone(&operation.snap)?;
        *self = Edition {
            snap,
            seen: operation.seen.again(),
        };
        Ok(())
    }

    fn absorb_second(&mut self, operation: Edition<S>, _other: &Self) -> Result<(), Edition<S>> {
        *self = operation;
        Ok(())
    }
}
