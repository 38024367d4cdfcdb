//! Which of four tables that stand side by side is meant.

ghost use Rattle.std.specs.Prelude.{◌≡◌, ◌<◌, ◌%◌};

use dn_model::RouterId;

/// How many tables stand side by side. They are numbered from 0.
pub const LANES: usize = 4;

/// One of the tables that stand side by side, by its number.
#[derive(Clone, Copy, Debug, PartialEq, Eq)]
pub struct Lane {
    pub index: usize,
    pub ghost inside: { index < 4 },
}

impl Lane {
    /// The first of the tables.
    pub const FIRST: Lane = Lane { index: 0 };

    /// The table of a router among those of the four in its group: neighbours by number are a group.
    pub fn of(router: RouterId) -> Lane
        ensures { result.index ≡ router.0 % 4 }
    {
        Lane {
            index: usize::from(router.0) % LANES,
        }
    }
}
