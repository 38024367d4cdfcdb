//! Readers and marks.

ghost use Rattle.std.specs.Prelude.{◌≡◌, ◌⊎◌, Some, IfOk, IfSome};
ghost use mathlib.Core.List.{IsPrefix};
ghost use Rattle.left_right.specs.Sides.{view};
ghost use Rattle.fast_pins.specs.Known.{published};

use crate::edition::Edition;
use crate::shelf::{Place, Shelf, newest};
use crate::shot::Shot;
use dn_model::OutOfMemory;
use std::marker::Model;

/// What a publisher had published when the mark was made. It can be handed to another thread.
#[derive(Drop)]
pub struct Mark<S: Shot> {
    edition: Edition<S>,
}

impl<S: Shot> Model for Mark<S> {
    ghost use Rattle.fast_pins.specs.Known.{Known};

    ghost Value = { Known };

    ghost view = { λ m. m.edition };
}

impl<S: Shot> Mark<S> {
    pub(crate) fn of(edition: Edition<S>) -> Mark<S>
        ensures { result ≡ edition }
    {
        Mark { edition }
    }
}

/// One that pins. A contract sees the lists that it knows to be published, in order: a beginning of its publisher's.
#[derive(Drop)]
pub struct FastReader<S: Shot> {
    own: Edition<S>,
    place: Option<Place<S>>,
}

impl<S: Shot> Model for FastReader<S> {
    ghost use Rattle.std.specs.Prelude.{◌≡◌, Some, IfSome};
    ghost use Rattle.left_right.specs.Sides.{view as view_of};
    ghost use Rattle.fast_pins.specs.Known.{Known};

    ghost Value = { Known };

    ghost view = { λ r. r.own };

    ghost invariant = { λ r. IfSome r.place (λ p. view_of p.place ≡ Some r.own.origin) };
}

impl<S: Shot> FastReader<S> {
    pub(crate) fn of(own: Edition<S>, place: Option<Place<S>>) -> FastReader<S>
        requires { IfSome place (λ p. view p.place ≡ Some own.origin) }
        ensures { result ≡ own }
    {
        FastReader { own, place }
    }

    /// The edition that it knows.
    pub(crate) fn own(&self) -> &Edition<S>
        ensures { result.now ≡ self.now }
    {
        &self.own
    }

    /// From now on the reader knows what the mark tells. It takes no memory.
    pub fn learn(&mut self, mark: Mark<S>)
        requires own { mark.origin ≡ self.old.origin }
        ensures one { (self.new ≡ self.old) ⊎ (self.new ≡ mark) }
        ensures origin { self.new.origin ≡ self.old.origin }
        ensures topology { self.new.topology ≡ self.old.topology }
        ensures known { IsPrefix self.old.lists self.new.lists }
        ensures mine { IsPrefix (published self.old) (published self.new) }
        ensures told { IsPrefix (published mark) (published self.new) }
    {
        let Mark { edition } = mark;
        self.own.renew(Some(edition));
    }

    /// A snapshot of a list that was published: the one that is shown, or the one that the reader knows, whichever was
    /// published later. It waits for nobody. After `OutOfMemory`, for which alone it fails, the reader knows at least
    /// what it knew.
    pub fn pin(&mut self) -> Result<S, OutOfMemory>
        ensures origin { self.new.origin ≡ self.old.origin }
        ensures topology { self.new.topology ≡ self.old.topology }
        ensures known { IsPrefix self.old.lists self.new.lists }
        ensures mine { IsPrefix (published self.old) (published self.new) }
        ensures shown { IfOk result (λ snap. S.shown snap ≡ published self.new) }
        ensures network { IfOk result (λ snap. S.shown_topology snap ≡ self.new.topology) }
    {
        let found = newest(&mut self.place, &self.own)?;
        self.own.renew(found);
        self.own.copy()
    }
}
