//! Which calls of an object in memory fail.

ghost use Rattle.std.specs.Prelude.{◌≡◌, ◌≤◌, vec_len};
ghost use Rattle.dn_io.specs.Memory.{PlanView, counted, fails_next};
ghost use Rattle.dn_io.specs.Faults.{Rose};

use std::marker::Model;

/// The calls that fail, by their numbers from 1, and the counts of calls and of faults.
/// A count that has come to 2^64 - 1 stays there.
#[derive(Drop)]
pub(crate) struct Plan {
    fails: Vec<u64>,
    calls: u64,
    faults: u64,
}

impl Model for Plan {
    ghost use Rattle.dn_io.specs.Memory.{PlanView};

    ghost Value = { PlanView };

    ghost view = { λ p. record { fails = p.fails.items; calls = p.calls; faults = p.faults } };
}

impl Plan {
    /// No call was made yet.
    pub(crate) fn new(fails: Vec<u64>) -> Self
        ensures { result ≡ record { fails = fails.items; calls = 0; faults = 0 } }
    {
        Plan {
            fails,
            calls: 0,
            faults: 0,
        }
    }

    /// Counts a call, and says whether it fails.
    pub(crate) fn fails_now(&mut self) -> bool
        ensures fails { result ≡ fails_next self.old }
        ensures counts { self.new ≡ record self.old { calls = counted self.old.calls } }
    {
        self.calls = self.calls.saturating_add(1);
        self.fails.contains(&self.calls)
    }

    /// Counts a fault.
    pub(crate) fn count_fault(&mut self)
        ensures counts { self.new ≡ record self.old { faults = counted self.old.faults } }
        ensures rises { Rose self.old.faults self.new.faults }
        ensures never_falls { self.old.faults ≤ self.new.faults }
    {
        if self.faults < u64::MAX {
            self.faults += 1;
        }
    }

    /// How many calls have failed.
    pub(crate) fn faults(&self) -> u64
        ensures { result ≡ self.now.faults }
    {
        self.faults
    }
}
