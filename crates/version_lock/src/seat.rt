//! Seats, with which callers use a lock, and notes, by which they tell each other what they have seen.

ghost use Rattle.std.specs.Prelude.{◌≡◌, ◌<◌, Contains};

use crate::view::View;
use atomic_table::Badge;
use std::marker::Model;

/// One caller's place at a lock, which it alone has. It knows a beginning of the lock's history, and it has a span of
/// numbers, from 0 on, that no other seat has. Entries that are applied with it bear the first of them.
#[derive(Drop)]
pub struct Seat {
    pub(crate) badge: Badge<View>,
    pub(crate) number: u32,
    pub(crate) span: u32,
}

impl Model for Seat {
    ghost use Rattle.version_lock.specs.Callers.{Caller};

    ghost Value = { Caller };

    ghost use Rattle.version_lock.specs.Seats.{caller_at, IsSeat};

    ghost view = { caller_at };

    ghost invariant = { IsSeat };
}

impl Seat {
    /// The number that the seat's entries bear, the first of its span.
    pub fn number(&self) -> u32
        ensures value { result ≡ self.now.number }
        ensures used { Contains self.now.used self.now.number }
    {
        self.number
    }

    /// How many numbers the seat can give away or bear itself: those from its own on.
    pub fn span(&self) -> u32
        ensures value { result ≡ self.now.span }
        ensures some_number { 0 < result }
    {
        self.span
    }
}

/// What a seat had seen when the note was written. It can be handed to another thread.
#[derive(Drop)]
pub struct Note {
    pub(crate) badge: Badge<View>,
}

impl Model for Note {
    ghost use Rattle.version_lock.specs.Callers.{Noted};

    ghost Value = { Noted };

    ghost use Rattle.version_lock.specs.Seats.{noted_at, IsNote};

    ghost view = { noted_at };

    ghost invariant = { IsNote };
}
