//! What each atomic step tells its caller.

ghost use Rattle.std.specs.Prelude.{ℕ};

use crate::book::Book;
use crate::shelved::Shelved;
use crate::view::View;
use atomic_table::{Join, Play, Split};
use std::marker::{Brand, PhantomData};

/// The turn is taken where it was free, and the book with it.
pub(crate) struct Wins;

impl<B: Book> Play<Option<Shelved<B>>, View> for Wins {
    ghost use Rattle.version_lock.specs.Steps.{won};

    ghost then = { won B.history B.basis };
}

/// One entry joins the history.
pub(crate) struct Applies;

impl<B: Book> Play<Option<Shelved<B>>, View> for Applies {
    ghost use Rattle.version_lock.specs.Steps.{applied};

    ghost then = { applied B.history };
}

/// The length of the history is read.
pub(crate) struct Pins;

impl<B: Book> Play<Option<Shelved<B>>, View> for Pins {
    ghost use Rattle.version_lock.specs.Steps.{counted};

    ghost then = { counted };
}

/// The turn is set free, and the book goes home.
pub(crate) struct Frees;

impl<B: Book> Play<Option<Shelved<B>>, View> for Frees {
    ghost use Rattle.version_lock.specs.Steps.{freed};

    ghost then = { freed };
}

/// A seat looks at what a split or a join left it.
pub(crate) struct Recalls;

impl<B: Book> Play<Option<Shelved<B>>, View> for Recalls {
    ghost use Rattle.version_lock.specs.Steps.{recalled};

    ghost then = { recalled };
}

/// How many numbers a seat gives away. Each call picks it.
pub(crate) trait Share {
    ghost count: { ℕ };
}

impl Share for Brand {
    ghost count = { 0 };
}

/// The upper numbers of a span go to a new seat.
pub(crate) struct Gives<C> {
    share: PhantomData<C>,
}

impl<C: Share> Split<View> for Gives<C> {
    ghost use Rattle.version_lock.specs.Rule.{keeps_lower, has_upper};

    ghost left = { keeps_lower C.count };

    ghost right = { has_upper C.count };
}

/// A note has what a seat has seen.
pub(crate) struct Notes;

impl Split<View> for Notes {
    ghost use Rattle.version_lock.specs.Rule.{note_of};

    ghost left = { λ v. v };

    ghost right = { note_of };
}

/// A seat takes in another, or a note.
pub(crate) struct TakesIn;

impl Join<View> for TakesIn {
    ghost use Rattle.version_lock.specs.Rule.{joined, spent_view};

    ghost both = { joined };

    ghost spent = { spent_view };
}
