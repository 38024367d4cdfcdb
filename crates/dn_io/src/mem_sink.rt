//! A sink in memory, whose failures a test chooses.

ghost use Rattle.std.specs.Prelude.{◌≡◌, ℕ, ◌≤◌, [], ◌++◌, length, take, min, Option, Some, IfOk, OnOk, OnErr, IsTrue, is_err, true};
ghost use Rattle.dn_io.specs.Faults.{Rose};
ghost use Rattle.dn_io.specs.Told.{with_end};
ghost use Rattle.dn_io.specs.Memory.{MemSinkView, counted, fails_next};

use crate::plan::Plan;
use crate::refusals::Failed;
use crate::traits::Sink;
use std::alloc::Global;
use std::marker::Model;

/// A sink in memory. It takes at most a stated number of bytes per write, and fails at stated calls. A write
/// that finds no memory for what it keeps fails too.
#[derive(Drop)]
pub struct MemSink {
    written: Vec<u8>,
    step: usize,
    plan: Plan,
}

impl Model for MemSink {
    ghost use Rattle.dn_io.specs.Memory.{MemSinkView};
    ghost use Rattle.std.specs.Prelude.{◌≤◌};

    ghost Value = { MemSinkView };

    ghost view = { λ s. record { written = s.written.items; step = s.step; plan = s.plan } };

    ghost invariant = { λ s. 1 ≤ s.step };
}

impl MemSink {
    /// A sink that takes at most `step` bytes per write, and fails at the calls whose numbers, from 1, stand
    /// in `fails`. It takes no memory.
    pub fn new(alloc: Global, step: usize, fails: Vec<u64>) -> Self
        requires { 1 ≤ step }
        ensures written { result.written ≡ [] }
        ensures step { result.step ≡ step }
        ensures plan { result.plan ≡ record { fails = fails.items; calls = 0; faults = 0 } }
    {
        MemSink {
            written: Vec::new(alloc),
            step,
            plan: Plan::new(fails),
        }
    }

    /// The bytes written.
    pub fn written(&self) -> &[u8]
        ensures { result.now ≡ self.now.written }
    {
        self.written.as_slice()
    }

    /// How many calls have failed; a count of 2^64 - 1 stays there.
    pub fn faults(&self) -> u64
        ensures { result ≡ self.now.plan.faults }
    {
        self.plan.faults()
    }
}

impl Sink for MemSink {
    ghost written = { λ s. Some s.written };

    ghost faults = { λ s. s.plan.faults };

    fn write(&mut self, piece: &[u8]) -> Result<usize, Failed>
        ensures within { IfOk result (λ n. n ≤ length piece.now) }
        ensures appends { IfOk result (λ n. Some self.new.written ≡ with_end (Some self.old.written) (take n piece.now)) }
        ensures takes_some { IfOk result (λ n. n ≡ 0 → piece.now ≡ []) }
        ensures same_count { OnOk result (self.new.plan.faults ≡ self.old.plan.faults) }
        ensures rises { OnErr result (Rose self.old.plan.faults self.new.plan.faults) }
        ensures unwritten { OnErr result (Some self.new.written ≡ Some self.old.written) }
        ensures never_falls { self.old.plan.faults ≤ self.new.plan.faults }
        // beyond what each sink says: when it fails, and how many bytes it takes
        ensures fails { IsTrue (fails_next self.old.plan) → is_err result ≡ true }
        ensures amount { IfOk result (λ n. n ≡ min self.old.step (length piece.now)) }
        ensures calls { self.new.plan.calls ≡ counted self.old.plan.calls }
        ensures same_fails { self.new.plan.fails ≡ self.old.plan.fails }
        ensures same_step { self.new.step ≡ self.old.step }
    {
        if self.plan.fails_now() {
            self.plan.count_fault();
            return Err(Failed);
        }
        let count = self.step.min(piece.len());
        if self.written.extend_from_slice(&piece[..count]).is_err() {
            self.plan.count_fault();
            return Err(Failed);
        }
        Ok(count)
    }
}
