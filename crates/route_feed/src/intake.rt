//! Bytes of a source on their way into frames.

ghost use Rattle.std.specs.Prelude.{◌≡◌, ℕ, ◌+◌, ◌<◌, ◌≤◌, ◌^◌, ◌++◌, [], length, OnOk, OnErr, IsTrue, ◌↔◌};
ghost use Rattle.dn_io.specs.Told.{with_front, NothingLeft};
ghost use Rattle.feed_model.specs.Frames.{BeginsFrame, IsFrameFront};
ghost use Rattle.fpm_frame.specs.Answers.{AnswersNext};
ghost use Rattle.fpm_frame.specs.Held.{PassesFrame};
ghost use Rattle.route_feed.specs.Intake.{taken, Keeps, GetsTo, Leads, LeadsTo, FillsTo, Grows, LeadsToEnd};

use dn_io::Source;
use dn_model::OutOfMemory;
use feed_model::FeedEnd;
use fpm_frame::{Cutter, Finish, Next};
use std::alloc::Global;
use std::marker::Model;

/// At most this many bytes are read at once.
const PIECE: u64 = 4096;

/// What a read came to.
enum Got {
    /// Some bytes.
    Bytes,
    /// None, since the source has ended.
    Nothing,
    /// None, since the source failed.
    Failed,
}

/// How far the next frame has come.
pub enum Progress {
    /// Bytes came; it may be whole now or not.
    Going,
    /// It is whole.
    Whole,
    /// It never comes: the feed has ended.
    Ended(FeedEnd),
}

/// A source whose bytes go into a cutter of frames, up to a limit. One byte past the limit is read, to tell a feed
/// that is longer; it is kept apart from frames.
#[derive(Drop)]
pub struct Intake<S: Source> {
    source: S,
    limit: u64,
    read: u64,
    cutter: Cutter,
    /// What was read and not fed to the cutter.
    piece: Vec<u8>,
}

impl<S: Source> Model for Intake<S> {
    ghost use Rattle.std.specs.Prelude.{◌≡◌, ◌+◌, ◌≤◌, ◌^◌, length};
    ghost use Rattle.route_feed.specs.Intake.{Inflow};

    ghost Value = { Inflow S };

    ghost view = { λ i. record { source = i.source; limit = i.limit; passed = i.cutter.offset; held = i.cutter.held; pending = i.piece.items } };

    ghost invariant = { λ i. (i.read ≡ i.cutter.offset + length i.cutter.held + length i.piece.items) × (i.read ≤ i.limit + 1) × (i.limit ≤ 2 ^ 30) };
}

/// How many bytes to read next: as many as fit a piece and the limit, and past the limit one.
fn room_of(limit: u64, read: u64) -> usize
    requires { (read ≤ limit) × (limit ≤ 2 ^ 30) }
    ensures some { 0 < result }
    ensures piece { result ≤ 4096 }
    ensures within { read < limit → read + result ≤ limit }
    ensures past { read ≡ limit → result ≡ 1 }
{
    if read == limit {
        1
    } else if limit - read < PIECE {
        (limit - read) as usize
    } else {
        PIECE as usize
    }
}

/// Reads the next bytes of a source, at most `room`, into an empty piece. After want of memory, and after a fault, the
/// piece is empty again.
fn read_piece<S: Source>(
    source: &mut S,
    piece: &mut Vec<u8>,
    room: usize,
) -> Result<Got, OutOfMemory>
    requires empty { piece.old.items ≡ [] }
    requires some { 0 < room }
    ensures bytes { with_front piece.new.items (S.left source.new) ≡ S.left source.old }
    ensures within { length piece.new.items ≤ room }
    ensures got { GetsTo result piece.new.items (S.left source.new) (S.faults source.old) (S.faults source.new) }
    ensures stays { S.place source.new ≡ S.place source.old }
{
    piece.resize(room, 0)?;
    match source.read(piece.as_mut_slice()) {
        Ok(n) => {
            piece.truncate(n);
            if n == 0 {
                Ok(Got::Nothing)
            } else {
                Ok(Got::Bytes)
            }
        }
        Err(_) => {
            piece.clear();
            Ok(Got::Failed)
        }
    }
}

impl<S: Source> Intake<S> {
    /// Of a source from which nothing was read. It takes no memory.
    pub fn new(alloc: Global, source: S, limit: u64) -> Self
        requires { limit ≤ 2 ^ 30 }
        ensures { result ≡ record { source = source; limit = limit; passed = 0; held = []; pending = [] } }
    {
        Intake {
            source,
            limit,
            read: 0,
            cutter: Cutter::new(alloc),
            piece: Vec::new(alloc),
        }
    }

    /// The source, with the bytes that were not read.
    pub fn into_source(self) -> S
        ensures { result ≡ self.source }
    {
        let Intake { source, .. } = self;
        source
    }

    /// What stands at the front of the bytes held.
    pub fn next(&self) -> Next<'_>
        ensures { AnswersNext (record { offset = self.now.passed; held = self.now.held }) result }
    {
        self.cutter.next()
    }

    /// Whether the bytes held are the front of a frame alone, so that the next one wants more of the source.
    pub fn wants_more(&self) -> bool
        ensures { IsTrue result ↔ IsFrameFront self.now.held }
    {
        match self.cutter.next() {
            Next::More => true,
            Next::Frame { .. } => false,
            Next::Lost { .. } => false,
        }
    }

    /// Passes the frame at the front of the bytes held.
    pub fn pass(&mut self)
        requires { BeginsFrame self.old.held }
        ensures frame { PassesFrame (record { offset = self.old.passed; held = self.old.held }) (record { offset = self.new.passed; held = self.new.held }) }
        ensures source { self.new.source ≡ self.old.source }
        ensures limit { self.new.limit ≡ self.old.limit }
        ensures pending { self.new.pending ≡ self.old.pending }
    {
        self.cutter.pass();
    }

    /// Feeds what was read to the cutter. Want of memory changes nothing.
    fn feed(&mut self) -> Result<(), OutOfMemory>
        ensures ok { OnOk result (self.new ≡ record { source = self.old.source; limit = self.old.limit; passed = self.old.passed; held = self.old.held ++ self.old.pending; pending = [] }) }
        ensures err { OnErr result (self.new ≡ self.old) }
    {
        if self.piece.is_empty() {
            return Ok(());
        }
        self.cutter.feed(self.piece.as_slice())?;
        self.piece.clear();
        Ok(())
    }

    /// How far the next frame has come by the bytes held alone.
    fn look(&self) -> Progress
        requires within { taken self.now ≤ self.now.limit }
        requires fed { self.now.pending ≡ [] }
        ensures leads { Leads result self.now (S.left self.now.source) (S.faults self.now.source) (S.faults self.now.source) }
        ensures front { result ≡ Progress.Going → IsFrameFront self.now.held }
    {
        match self.cutter.next() {
            Next::Frame { .. } => Progress::Whole,
            Next::More => Progress::Going,
            Next::Lost { offset, cause } => Progress::Ended(FeedEnd::Lost { offset, cause }),
        }
    }

    /// How a feed ends that has nothing left.
    fn finish(&self) -> FeedEnd
        requires front { IsFrameFront self.now.held }
        requires fed { self.now.pending ≡ [] }
        requires within { taken self.now ≤ self.now.limit }
        requires nothing { NothingLeft (S.left self.now.source) }
        ensures { LeadsToEnd result self.now (S.left self.now.source) (S.faults self.now.source) (S.faults self.now.source) }
    {
        match self.cutter.finish() {
            Finish::End => FeedEnd::End,
            Finish::CutShort { offset } => FeedEnd::CutShort { offset },
        }
    }

    /// Reads the next piece.
    fn read_more(&mut self) -> Result<Got, OutOfMemory>
        requires within { taken self.old ≤ self.old.limit }
        requires fed { self.old.pending ≡ [] }
        ensures keeps { Keeps self.old self.new (S.left self.old.source) (S.left self.new.source) }
        ensures held { self.new.held ≡ self.old.held }
        ensures got { GetsTo result self.new.pending (S.left self.new.source) (S.faults self.old.source) (S.faults self.new.source) }
        ensures past { self.new.limit < taken self.new → (taken self.old ≡ self.old.limit) × (length self.new.pending ≡ 1) }
        ensures stays { S.place self.new.source ≡ S.place self.old.source }
    {
        let room = room_of(self.limit, self.read);
        let got = read_piece(&mut self.source, &mut self.piece, room);
        self.read += self.piece.len() as u64;
        got
    }

    /// Whether a byte past the limit was read.
    fn is_past(&self) -> bool
        ensures { IsTrue result ↔ (self.now.limit < taken self.now) }
    {
        self.limit < self.read
    }

    /// Reads the next piece, where what is held is no whole frame.
    fn take_in(&mut self) -> Result<Progress, OutOfMemory>
        requires within { taken self.old ≤ self.old.limit }
        requires fed { self.old.pending ≡ [] }
        requires front { IsFrameFront self.old.held }
        ensures keeps { Keeps self.old self.new (S.left self.old.source) (S.left self.new.source) }
        ensures leads { LeadsTo result self.new (S.left self.new.source) (S.faults self.old.source) (S.faults self.new.source) }
        ensures grows { Grows result (taken self.old) (taken self.new) }
        ensures stays { S.place self.new.source ≡ S.place self.old.source }
    {
        match self.read_more()? {
            Got::Bytes if self.is_past() => Ok(Progress::Ended(FeedEnd::TooLong)),
            Got::Bytes => Ok(Progress::Going),
            Got::Nothing => Ok(Progress::Ended(self.finish())),
            Got::Failed => Ok(Progress::Ended(FeedEnd::Faulted)),
        }
    }

    /// Feeds what was read, and where no frame is whole, reads the next piece.
    fn step(&mut self) -> Result<Progress, OutOfMemory>
        requires { taken self.old ≤ self.old.limit }
        ensures keeps { Keeps self.old self.new (S.left self.old.source) (S.left self.new.source) }
        ensures leads { LeadsTo result self.new (S.left self.new.source) (S.faults self.old.source) (S.faults self.new.source) }
        ensures grows { Grows result (taken self.old) (taken self.new) }
        ensures stays { S.place self.new.source ≡ S.place self.old.source }
    {
        self.feed()?;
        match self.look() {
            Progress::Going => self.take_in(),
            found => Ok(found),
        }
    }

    /// Reads until a whole frame is held (None) or the feed has ended.
    pub fn fill(&mut self) -> Result<Option<FeedEnd>, OutOfMemory>
        requires { taken self.old ≤ self.old.limit }
        ensures keeps { Keeps self.old self.new (S.left self.old.source) (S.left self.new.source) }
        ensures fills { FillsTo result self.new (S.left self.new.source) (S.faults self.old.source) (S.faults self.new.source) }
        ensures stays { S.place self.new.source ≡ S.place self.old.source }
    {
        loop {
            match self.step()? {
                Progress::Going => {}
                Progress::Whole => return Ok(None),
                Progress::Ended(end) => return Ok(Some(end)),
            }
        }
    }
}
