//! The law of the book of publications, and its steps.

use crate::issue::Issue;
use crate::shot::Shot;
use logbook::{Gain, Pen, Plain, Play, Rule, Seen, Word};
use std::snapshot::Snapshot;

/// Of two publications of a line the later one begins with the earlier one's list.
pub struct Law;

impl Rule<Issue, u64> for Law {
    ghost use Rattle.std.specs.Prelude.{[]};
    ghost use base.Fml.{ftrue};
    ghost use Rattle.fast_pins.specs.Law.{IsKept};

    ghost holds = { λ cells log. IsKept cells log };

    ghost first = { [] };

    ghost hinted = { λ n log. Unit {0} };

    ghost shows = { λ log. [] };

    ghost keeps = { λ names log. ftrue };

    ghost moves = { λ ask before after answer. Unit {0} };
}

/// Callers trade nothing.
pub struct Nothing;

impl Gain<Issue, u64> for Nothing {
    ghost use base.Fml.{ftrue};

    ghost after = { λ names about answer. ftrue };
}

/// What was seen of a book.
pub(crate) type Front = Seen<Issue, u64, Law>;

/// The word on which the publisher steps. Readers don't.
pub(crate) type Head = Word<Issue, u64, Law>;

/// A snapshot that is to be published, and the right by which the next one can follow.
pub(crate) struct Draft<S> {
    pub(crate) snap: Snapshot<S>,
    pub(crate) next: Pen,
}

/// A right to write a new cell is made.
pub(crate) struct Arm;

impl Play<Issue, u64> for Arm {
    ghost use Rattle.fast_pins.specs.Law.{Arms};

    ghost then = { Arms };
}

impl<S: Shot> Plain<Snapshot<S>, Issue, u64> for Arm {
    ghost use Rattle.std.specs.Prelude.{None};

    ghost ask = { λ snap. record {
      line = 0;
      next = 0;
      topology = S.shown_topology snap.value;
      list = S.shown snap.value;
    } };

    ghost state = { λ snap. None };
}

/// A line begins.
pub(crate) struct Begin;

impl Play<Issue, u64> for Begin {
    ghost use Rattle.fast_pins.specs.Law.{Begins};

    ghost then = { Begins };
}

impl<S: Shot> Plain<Draft<S>, Issue, u64> for Begin {
    ghost use Rattle.std.specs.Prelude.{None};

    ghost ask = { λ draft. record {
      line = 0;
      next = draft.next.nib.key;
      topology = S.shown_topology draft.snap.value;
      list = S.shown draft.snap.value;
    } };

    ghost state = { λ draft. None };
}

/// An issue follows the last one of its line.
pub(crate) struct Add;

impl Play<Issue, u64> for Add {
    ghost use Rattle.fast_pins.specs.Law.{Adds};

    ghost then = { Adds };
}

impl<S: Shot> Plain<Draft<S>, Issue, u64> for Add {
    ghost use Rattle.std.specs.Prelude.{None};

    ghost ask = { λ draft. record {
      line = 0;
      next = draft.next.nib.key;
      topology = S.shown_topology draft.snap.value;
      list = S.shown draft.snap.value;
    } };

    ghost state = { λ draft. None };
}

/// Who has the right to add looks at what the book has.
pub(crate) struct Look;

impl Play<Issue, u64> for Look {
    ghost use Rattle.fast_pins.specs.Law.{Looks};

    ghost then = { Looks };
}

impl<S: Shot> Plain<Snapshot<S>, Issue, u64> for Look {
    ghost use Rattle.std.specs.Prelude.{None};

    ghost ask = { λ snap. record {
      line = 0;
      next = 0;
      topology = S.shown_topology snap.value;
      list = S.shown snap.value;
    } };

    ghost state = { λ snap. None };
}
