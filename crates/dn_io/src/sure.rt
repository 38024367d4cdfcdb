//! A source and a sink that never fail, and a gate that does nothing.

ghost use Rattle.std.specs.Prelude.{◌≡◌, ℕ, ◌<◌, ◌≤◌, [], length, take, drop, min, Option, Some, None, Ok, IfOk, OnOk, OnErr, IsOk};
ghost use Rattle.dn_io.specs.Faults.{Rose};
ghost use Rattle.dn_io.specs.Told.{with_front, with_end, without_first, NothingLeft};
ghost use Rattle.dn_io.specs.Memory.{SureSourceView};

use crate::refusals::Failed;
use crate::remainder::Remainder;
use crate::traits::{Gate, Point, Sink, Source};
use std::marker::Model;

/// A source in memory that never fails: a read gives as much as the buffer holds.
#[derive(Drop)]
pub struct SureSource {
    left: Remainder,
    place: u32,
}

impl Model for SureSource {
    ghost use Rattle.dn_io.specs.Memory.{SureSourceView};

    ghost Value = { SureSourceView };

    ghost view = { λ s. record { left = s.left; place = s.place } };
}

impl SureSource {
    /// A source of these bytes, at place 0. It takes no memory.
    pub fn new(bytes: Vec<u8>) -> Self
        ensures { result ≡ record { left = bytes.items; place = 0 } }
    {
        SureSource::at_place(bytes, 0)
    }

    /// The same, at this place of a world's calls.
    pub(crate) fn at_place(bytes: Vec<u8>, place: u32) -> Self
        ensures { result ≡ record { left = bytes.items; place = place } }
    {
        SureSource {
            left: Remainder::new(bytes),
            place,
        }
    }

    /// The place, and what is left.
    pub(crate) fn into_parts(self) -> (u32, Remainder)
        ensures place { result.0 ≡ self.place }
        ensures left { result.1 ≡ self.left }
    {
        let SureSource { left, place } = self;
        (place, left)
    }

    /// The bytes left.
    pub fn left(&self) -> &[u8]
        ensures { result.now ≡ self.now.left }
    {
        self.left.as_slice()
    }
}

impl Source for SureSource {
    ghost left = { λ s. Some s.left };

    ghost place = { λ s. s.place };

    ghost faults = { λ s. 0 };

    fn read(&mut self, buf: &mut [u8]) -> Result<usize, Failed>
        ensures within { IfOk result (λ n. n ≤ length buf.old) }
        ensures gives { IfOk result (λ n. Some self.old.left ≡ with_front (take n buf.new) (Some self.new.left)) }
        ensures shrinks { IfOk result (λ n. Some self.new.left ≡ without_first n (Some self.old.left)) }
        ensures rest { IfOk result (λ n. drop n buf.new ≡ drop n buf.old) }
        ensures end { IfOk result (λ n. n ≡ 0 → 0 < length buf.old → NothingLeft (Some self.old.left)) }
        ensures stays { self.new.place ≡ self.old.place }
        // beyond what each source says: it never fails, and gives all that the buffer holds
        ensures sure { IsOk result }
        ensures amount { IfOk result (λ n. n ≡ min (length buf.old) (length self.old.left)) }
    {
        Ok(self.left.give(buf, usize::MAX))
    }
}

/// A sink that takes all, keeps none of it and never fails.
#[derive(Clone, Copy, Debug, Drop)]
pub struct SureSink;

impl Sink for SureSink {
    ghost written = { λ s. None };

    ghost faults = { λ s. 0 };

    fn write(&mut self, piece: &[u8]) -> Result<usize, Failed>
        ensures { result ≡ Ok (length piece.now) }
    {
        Ok(piece.len())
    }
}

/// The gate of the program: it does nothing.
#[derive(Clone, Copy, Debug, Drop)]
pub struct NoGate;

impl Gate for NoGate {
    fn at(&self, _job: u32, _point: Point) {}
}
