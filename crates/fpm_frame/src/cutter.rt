//! A cutter of frames: pieces of a stream go in, frames come out.

ghost use Rattle.std.specs.Prelude.{◌≡◌, ◌+◌, ◌^◌, ◌<◌, ◌↔◌, ℕ, Some, List, [], ◌∷◌, ◌++◌, length, OnOk, OnErr};
ghost use Rattle.feed_model.specs.Frames.{Frame, frame_text, IsFrame, BeginsFrame, IsFrameFront, rest_kind, lost_cause};
ghost use Rattle.fpm_frame.specs.Held.{fed, PassesFrame};
ghost use Rattle.fpm_frame.specs.Answers.{AnswersNext, AnswersFinish, IsFrameThere, IsMoreWanted, IsFramingLost, LosesFraming};

use dn_model::OutOfMemory;
use feed_model::frame_cause::{BAD_FRAME_LENGTH, BAD_VERSION};
use std::alloc::Global;
use std::marker::Model;

/// What stands at the front of the bytes that a cutter holds. Offsets count from the start of the stream.
#[derive(Debug, Drop)]
pub enum Next<'a> {
    /// A whole frame: where it begins, the kind of its payload, and the payload.
    Frame {
        offset: u64,
        kind: u8,
        payload: &'a [u8],
    },
    /// Nothing, or the front of a frame.
    More,
    /// No frame: the framing is lost here. The cause is `BAD_VERSION` or
    /// `BAD_FRAME_LENGTH` of the module `frame_cause` of `feed_model`.
    Lost {
        offset: u64,
        cause: u8,
    },
}

/// How a stream ends that was not lost.
#[derive(Clone, Copy, Debug, PartialEq, Eq)]
pub enum Finish {
    /// After a whole frame, or at the start.
    End,
    /// Inside the frame that begins at this offset.
    CutShort { offset: u64 },
}

/// The bytes of a stream that were fed and not yet passed, and how many were passed.
#[derive(Drop)]
pub struct Cutter {
    /// The bytes held, after `start` bytes that were passed.
    buffer: Vec<u8>,
    start: usize,
    offset: u64,
}

impl Model for Cutter {
    ghost use Rattle.std.specs.Prelude.{◌+◌, ◌^◌, ◌<◌, ◌≤◌, length, drop};
    ghost use Rattle.fpm_frame.specs.Held.{Held};

    ghost Value = { Held };

    ghost view = { λ c. record { offset = c.offset; held = drop c.start c.buffer.items } };

    ghost invariant = { λ c. (c.start ≤ length c.buffer.items) × (c.offset + length (drop c.start c.buffer.items) < 2 ^ 64) };
}

impl Cutter {
    /// A cutter that was fed nothing. It takes no memory.
    pub fn new(alloc: Global) -> Cutter
        ensures { result ≡ record { offset = 0; held = [] } }
    {
        Cutter {
            buffer: Vec::new(alloc),
            start: 0,
            offset: 0,
        }
    }

    /// Takes the next piece of the stream, which has fewer than 2^64 bytes with it.
    ///
    /// # Errors
    ///
    /// `OutOfMemory` where there is no memory for the piece. Nothing was fed then.
    pub fn feed(&mut self, piece: &[u8]) -> Result<(), OutOfMemory>
        requires fits { self.old.offset + length self.old.held + length piece.now < 2 ^ 64 }
        ensures ok { OnOk result (self.new ≡ fed self.old piece.now) }
        ensures err { OnErr result (self.new ≡ self.old) }
        // whatever comes after a lost header, it is lost by the same cause
        ensures lost { (cause : ℕ) → lost_cause (rest_kind self.old.held) ≡ Some cause
            → lost_cause (rest_kind self.new.held) ≡ Some cause }
    {
        self.let_go();
        self.buffer.extend_from_slice(piece)?;
        Ok(())
    }

    /// Moves the bytes held to the front of the buffer where they are no more than the bytes passed before them,
    /// so that all moves together are no more than the stream.
    fn let_go(&mut self)
        ensures { self.new ≡ self.old }
    {
        let held = self.buffer.len() - self.start;
        if held <= self.start {
            self.buffer.copy_within(self.start.., 0);
            self.buffer.truncate(held);
            self.start = 0;
        }
    }

    /// The bytes held.
    fn held(&self) -> &[u8]
        ensures { result.now ≡ self.now.held }
    {
        &self.buffer[self.start..]
    }

    /// What stands at the front of the bytes held. It stays there until `pass`.
    pub fn next(&self) -> Next<'_>
        ensures answer { AnswersNext self.now result }
        ensures frame { IsFrameThere result ↔ BeginsFrame self.now.held }
        ensures more { IsMoreWanted result ↔ IsFrameFront self.now.held }
        ensures lost { IsFramingLost result ↔ LosesFraming self.now.held }
    {
        front(self.offset, self.held())
    }

    /// Passes the frame at the front of the bytes held.
    pub fn pass(&mut self)
        requires { BeginsFrame self.old.held }
        ensures frame { PassesFrame self.old self.new }
        // no byte is lost
        ensures count { self.new.offset + length self.new.held ≡ self.old.offset + length self.old.held }
    {
        let length = frame_length(self.held());
        self.start += length as usize;
        self.offset += length as u64;
    }

    /// How the stream ends if nothing more comes.
    pub fn finish(&self) -> Finish
        requires { IsFrameFront self.now.held }
        ensures { AnswersFinish self.now result }
    {
        if self.start == self.buffer.len() {
            Finish::End
        } else {
            Finish::CutShort {
                offset: self.offset,
            }
        }
    }
}

/// What stands at the front of these bytes, which begin at this offset.
fn front(offset: u64, held: &[u8]) -> Next<'_>
    ensures { AnswersNext (record { offset = offset; held = held.now }) result }
{
    match held {
        [] => Next::More,
        [1, bytes @ ..] => headed(offset, bytes),
        _ => Next::Lost {
            offset,
            cause: BAD_VERSION,
        },
    }
}

/// What stands at the front where the version is there, and then these bytes.
fn headed(offset: u64, bytes: &[u8]) -> Next<'_>
    ensures { AnswersNext (record { offset = offset; held = 1 ∷ bytes.now }) result }
{
    match bytes {
        [kind, high, low, rest @ ..] => framed(offset, *kind, *high, *low, rest),
        _ => Next::More,
    }
}

/// What stands at the front where the version, the kind and the two bytes of the length are there, and then these bytes.
fn framed(offset: u64, kind: u8, high: u8, low: u8, bytes: &[u8]) -> Next<'_>
    ensures { AnswersNext (record { offset = offset; held = 1 ∷ kind ∷ high ∷ low ∷ bytes.now }) result }
{
    let length = u16::from_be_bytes([high, low]) as usize;
    if length < 4 {
        Next::Lost {
            offset,
            cause: BAD_FRAME_LENGTH,
        }
    } else if bytes.len() < length - 4 {
        Next::More
    } else {
        Next::Frame {
            offset,
            kind,
            payload: &bytes[..length - 4],
        }
    }
}

/// The length of the frame at the front of these bytes.
fn frame_length(held: &[u8]) -> u16
    requires { BeginsFrame held.now }
    ensures { (f : Frame) (more : List ℕ) → IsFrame f → held.now ≡ frame_text f ++ more → result ≡ length (frame_text f) }
{
    u16::from_be_bytes([held[2], held[3]])
}
