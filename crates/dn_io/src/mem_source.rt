//! A source in memory, whose failures a test chooses.

ghost use Rattle.std.specs.Prelude.{◌≡◌, ℕ, ◌<◌, ◌≤◌, [], length, take, drop, min, Option, Some, IfOk, OnOk, OnErr, is_err, not, ◌==◌};
ghost use Rattle.dn_io.specs.Faults.{Rose};
ghost use Rattle.dn_io.specs.Told.{with_front, without_first, NothingLeft};
ghost use Rattle.dn_io.specs.Memory.{MemSourceView, counted, fails_next};

use crate::plan::Plan;
use crate::refusals::Failed;
use crate::remainder::Remainder;
use crate::traits::Source;
use std::marker::Model;

/// A source in memory. It gives at most a stated number of bytes per read, and fails at stated calls.
#[derive(Drop)]
pub struct MemSource {
    left: Remainder,
    step: usize,
    place: u32,
    plan: Plan,
}

impl Model for MemSource {
    ghost use Rattle.dn_io.specs.Memory.{MemSourceView};
    ghost use Rattle.std.specs.Prelude.{◌≤◌};

    ghost Value = { MemSourceView };

    ghost view = { λ s. record { left = s.left; step = s.step; place = s.place; plan = s.plan } };

    ghost invariant = { λ s. 1 ≤ s.step };
}

impl MemSource {
    /// A source of these bytes, that gives at most `step` of them per read, and fails at the calls whose
    /// numbers, from 1, stand in `fails`. It takes no memory.
    pub fn new(bytes: Vec<u8>, step: usize, fails: Vec<u64>) -> Self
        requires { 1 ≤ step }
        ensures left { result.left ≡ bytes.items }
        ensures step { result.step ≡ step }
        ensures place { result.place ≡ 0 }
        ensures plan { result.plan ≡ record { fails = fails.items; calls = 0; faults = 0 } }
    {
        MemSource::at_place(bytes, step, fails, 0)
    }

    /// The same, at this place of a world's calls.
    pub(crate) fn at_place(bytes: Vec<u8>, step: usize, fails: Vec<u64>, place: u32) -> Self
        requires { 1 ≤ step }
        ensures left { result.left ≡ bytes.items }
        ensures step { result.step ≡ step }
        ensures place { result.place ≡ place }
        ensures plan { result.plan ≡ record { fails = fails.items; calls = 0; faults = 0 } }
    {
        MemSource {
            left: Remainder::new(bytes),
            step,
            place,
            plan: Plan::new(fails),
        }
    }

    /// The place, whether a call has failed, and what is left.
    pub(crate) fn into_parts(self) -> (u32, bool, Remainder)
        ensures place { result.0 ≡ self.place }
        ensures failed { result.1 ≡ not (self.plan.faults == 0) }
        ensures left { result.2 ≡ self.left }
    {
        let failed = self.plan.faults() != 0;
        let MemSource {
            left,
            step: _,
            place,
            plan: _,
        } = self;
        (place, failed, left)
    }

    /// The bytes left.
    pub fn left(&self) -> &[u8]
        ensures { result.now ≡ self.now.left }
    {
        self.left.as_slice()
    }

    /// How many calls have failed; a count of 2^64 - 1 stays there.
    pub fn faults(&self) -> u64
        ensures { result ≡ self.now.plan.faults }
    {
        self.plan.faults()
    }
}

impl Source for MemSource {
    ghost left = { λ s. Some s.left };

    ghost place = { λ s. s.place };

    ghost faults = { λ s. s.plan.faults };

    fn read(&mut self, buf: &mut [u8]) -> Result<usize, Failed>
        ensures within { IfOk result (λ n. n ≤ length buf.old) }
        ensures gives { IfOk result (λ n. Some self.old.left ≡ with_front (take n buf.new) (Some self.new.left)) }
        ensures shrinks { IfOk result (λ n. Some self.new.left ≡ without_first n (Some self.old.left)) }
        ensures rest { IfOk result (λ n. drop n buf.new ≡ drop n buf.old) }
        ensures end { IfOk result (λ n. n ≡ 0 → 0 < length buf.old → NothingLeft (Some self.old.left)) }
        ensures same_count { OnOk result (self.new.plan.faults ≡ self.old.plan.faults) }
        ensures rises { OnErr result (Rose self.old.plan.faults self.new.plan.faults) }
        ensures unread { OnErr result (Some self.new.left ≡ Some self.old.left) }
        ensures never_falls { self.old.plan.faults ≤ self.new.plan.faults }
        ensures stays { self.new.place ≡ self.old.place }
        // beyond what each source says: when it fails, and how many bytes come
        ensures fails { is_err result ≡ fails_next self.old.plan }
        ensures amount { IfOk result (λ n. n ≡ min self.old.step (min (length buf.old) (length self.old.left))) }
        ensures calls { self.new.plan.calls ≡ counted self.old.plan.calls }
        ensures same_fails { self.new.plan.fails ≡ self.old.plan.fails }
        ensures same_step { self.new.step ≡ self.old.step }
    {
        if self.plan.fails_now() {
            self.plan.count_fault();
            return Err(Failed);
        }
        Ok(self.left.give(buf, self.step))
    }
}
