//! A real file as a source.

ghost use Rattle.std.specs.Prelude.{◌≡◌, ℕ, ◌<◌, ◌≤◌, ◌==◌, not, [], length, take, drop, Option, None, IfOk, OnOk, OnErr};
ghost use Rattle.dn_io.specs.Faults.{Rose};
ghost use Rattle.dn_io.specs.Told.{with_front, without_first, NothingLeft};
ghost use Rattle.query_cli.specs.Views.{SourceView};
ghost use Rattle.std.specs.Io.KnownBytes.{Consumes, IsAtEnd, Keeps};

use crate::fault_count::FaultCount;
use dn_io::{Failed, Source};
use std::io::Read;
use std::marker::Model;

/// The most bytes that one read asks of the system.
const WINDOW: usize = 4096;

/// A file that is open for reading. It tells none of its bytes. The file is closed where the source is dropped.
#[derive(Drop)]
pub struct FileSource<F> {
    reader: F,
    place: u32,
    faults: FaultCount,
}

impl<F> Model for FileSource<F> {
    ghost use Rattle.query_cli.specs.Views.{SourceView};

    ghost Value = { SourceView F };

    ghost view = { λ s. record { reader = s.reader; place = s.place; faults = s.faults } };
}

impl<F> FileSource<F> {
    /// This open file, at this place of its world's calls.
    pub fn new(reader: F, place: u32) -> Self
        ensures { result ≡ record { reader = reader; place = place; faults = 0 } }
    {
        FileSource {
            reader,
            place,
            faults: FaultCount::new(),
        }
    }
}

impl<F: Drop> FileSource<F> {
    /// Closes the file. Answers its place, and whether a read has failed.
    pub fn close(self) -> (u32, bool)
        ensures place { result.0 ≡ self.place }
        ensures failed { result.1 ≡ not (self.faults == 0) }
    {
        (self.place, self.faults.is_some())
    }
}

impl<F: Read + Send + Drop> Source for FileSource<F> {
    ghost left = { λ s. None };

    ghost place = { λ s. s.place };

    ghost faults = { λ s. s.faults };

    /// Reads at most 4,096 bytes. What std says of a read leaves the rest of its buffer open, so the bytes
    /// come into an array of this function's own first.
    fn read(&mut self, buf: &mut [u8]) -> Result<usize, Failed>
        ensures within { IfOk result (λ n. n ≤ length buf.old) }
        ensures rest { IfOk result (λ n. drop n buf.new ≡ drop n buf.old) }
        ensures same_count { OnOk result (self.new.faults ≡ self.old.faults) }
        ensures rises { OnErr result (Rose self.old.faults self.new.faults) }
        ensures never_falls { self.old.faults ≤ self.new.faults }
        ensures stays { self.new.place ≡ self.old.place }
        // beyond what each source says: what came is what the reader gave, where it tells that
        ensures reads { IfOk result (λ n. Consumes (F.remaining self.old.reader) (F.remaining self.new.reader) (take n buf.new)) }
        ensures at_end { IfOk result (λ n. n ≡ 0 → 0 < length buf.old → IsAtEnd (F.remaining self.new.reader)) }
        ensures keeps { OnErr result (Keeps (F.remaining self.old.reader) (F.remaining self.new.reader)) }
    {
        let mut window = [0u8; WINDOW];
        let most = buf.len().min(WINDOW);
        match self.reader.read(&mut window[..most]) {
            Ok(count) => {
                buf[..count].copy_from_slice(&window[..count]);
                Ok(count)
            }
            Err(_) => {
                self.faults.rise();
                Err(Failed)
            }
        }
    }
}
