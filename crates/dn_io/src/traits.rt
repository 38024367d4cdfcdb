//! What the program needs of the outside: sources of bytes, a sink, a world of names, and a gate for tests.

ghost use Rattle.std.specs.Prelude.{◌≡◌, ℕ, ◌<◌, ◌≤◌, ◌^◌, List, [], length, take, drop, Option, IfOk, IfErr, OnOk, OnErr, IfSome, IsSome};
ghost use Rattle.dn_io.specs.Faults.{Rose};
ghost use Rattle.dn_io.specs.Told.{with_front, with_end, without_first, NothingLeft};
ghost use Rattle.dn_io.specs.Files.{Files, bytes_of};
ghost use Rattle.dn_io.specs.Calls.{Call, with_out, with_refusal, with_state, back_with, IsOutAt};

use crate::refusals::{Failed, WorldRefused};

/// Bytes that come in pieces: a feed, a script or a topology.
pub trait Source: Send + Drop {
    // The bytes left, in order; `None` where the source does not tell them.
    ghost left: { Self → Option (List ℕ) };

    // Where the world's calls have this source, from 0.
    ghost place: { Self → ℕ };

    // How many calls have failed so far.
    ghost faults: { Self → ℕ };

    /// Reads the next bytes into the front of `buf`, and says how many: 0 at the end of the source.
    ///
    /// # Errors
    ///
    /// `Failed` where the outside gave none, which the source counts.
    fn read(&mut self, buf: &mut [u8]) -> Result<usize, Failed>
        ensures within { IfOk result (λ n. n ≤ length buf.old) }
        // the first n places of the buffer are the first n bytes left
        ensures gives { IfOk result (λ n. left self.old ≡ with_front (take n buf.new) (left self.new)) }
        ensures shrinks { IfOk result (λ n. left self.new ≡ without_first n (left self.old)) }
        ensures rest { IfOk result (λ n. drop n buf.new ≡ drop n buf.old) }
        ensures end { IfOk result (λ n. n ≡ 0 → 0 < length buf.old → NothingLeft (left self.old)) }
        ensures same_count { OnOk result (faults self.new ≡ faults self.old) }
        ensures rises { OnErr result (Rose (faults self.old) (faults self.new)) }
        ensures unread { OnErr result (left self.new ≡ left self.old) }
        ensures never_falls { faults self.old ≤ faults self.new }
        ensures stays { place self.new ≡ place self.old };
}

/// Where a report goes.
pub trait Sink {
    // The bytes written so far; `None` where the sink does not tell them.
    ghost written: { Self → Option (List ℕ) };

    // How many calls have failed so far.
    ghost faults: { Self → ℕ };

    /// Writes the first bytes of `piece`, and says how many: 0 only for an empty piece.
    ///
    /// # Errors
    ///
    /// `Failed` where the outside took none, which the sink counts.
    fn write(&mut self, piece: &[u8]) -> Result<usize, Failed>
        ensures within { IfOk result (λ n. n ≤ length piece.now) }
        ensures appends { IfOk result (λ n. written self.new ≡ with_end (written self.old) (take n piece.now)) }
        ensures takes_some { IfOk result (λ n. n ≡ 0 → piece.now ≡ []) }
        ensures same_count { OnOk result (faults self.new ≡ faults self.old) }
        ensures rises { OnErr result (Rose (faults self.old) (faults self.new)) }
        ensures unwritten { OnErr result (written self.new ≡ written self.old) }
        ensures never_falls { faults self.old ≤ faults self.new };
}

/// What hands out a source for a name, and takes it back.
pub trait World {
    /// The sources that it hands out.
    type Src: Source + Send + Drop;

    // The files and perhaps the bytes of every other name; `None` where the world does not tell them.
    ghost files: { Self → Option Files };

    // The names that were asked for, in order, each with its state.
    ghost calls: { Self → List Call };

    /// Opens the file of this name.
    ///
    /// # Errors
    ///
    /// `Failed` where it cannot be opened, and `OutOfMemory`.
    fn source_of(&mut self, name: &str) -> Result<Self::Src, WorldRefused>
        requires { length (calls self.old) < 2 ^ 32 }
        ensures handed_out { OnOk result (calls self.new ≡ with_out (calls self.old) name.now) }
        ensures place { IfOk result (λ src. Self.Src.place src ≡ length (calls self.old)) }
        ensures fresh { IfOk result (λ src. Self.Src.faults src ≡ 0) }
        ensures has_bytes { IfOk result (λ src. IfSome (files self.old) (λ all. IsSome (bytes_of all name.now))) }
        ensures left { IfOk result (λ src. IfSome (files self.old) (λ all. Self.Src.left src ≡ bytes_of all name.now)) }
        ensures refused { IfErr result (λ cause. calls self.new ≡ with_refusal cause (calls self.old) name.now) }
        ensures same_files { files self.new ≡ files self.old };

    /// Takes back a source that this world handed out. It takes no memory.
    fn give_back(&mut self, src: Self::Src)
        requires { IsOutAt (calls self.old) (Self.Src.place src) }
        ensures back { calls self.new ≡ with_state (calls self.old) (Self.Src.place src) (back_with (Self.Src.faults src) (Self.Src.left src)) }
        ensures same_files { files self.new ≡ files self.old };
}

/// The places at which a job passes its gate.
#[derive(Clone, Copy, PartialEq, Eq, Debug, Drop)]
pub enum Point {
    /// Before a route update is applied.
    BeforeApply,
    /// After a route update was applied.
    AfterApply,
    /// After a query's version was fixed.
    AfterPin,
    /// After a query was answered.
    AfterAnswer,
}

/// A place where a test can keep a job waiting. It changes nothing and always returns.
pub trait Gate: Sync {
    /// The job of this number, from 1, is at this point.
    fn at(&self, job: u32, point: Point);
}
