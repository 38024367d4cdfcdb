//! How many calls of an object have failed.

ghost use Rattle.std.specs.Prelude.{◌≡◌, ℕ, ◌≤◌, ◌==◌, not, min, suc};
ghost use Rattle.dn_io.specs.Faults.{Rose};

use std::marker::Model;

/// How many calls of an object have failed; a count of 2^64 - 1 stays there.
#[derive(Drop)]
pub struct FaultCount {
    count: u64,
}

impl Model for FaultCount {
    ghost use Rattle.std.specs.Prelude.{ℕ};

    ghost Value = { ℕ };

    ghost view = { λ f. f.count };
}

impl FaultCount {
    /// No call has failed yet.
    pub fn new() -> Self
        ensures { result ≡ 0 }
    {
        FaultCount { count: 0 }
    }

    /// One more call has failed.
    pub fn rise(&mut self)
        ensures counts { self.new ≡ min (suc self.old) 18446744073709551615 }
        ensures rises { Rose self.old self.new }
        ensures never_falls { self.old ≤ self.new }
    {
        if self.count < u64::MAX {
            self.count += 1;
        }
    }

    /// Whether a call has failed.
    pub fn is_some(&self) -> bool
        ensures { result ≡ not (self.now == 0) }
    {
        self.count != 0
    }
}
