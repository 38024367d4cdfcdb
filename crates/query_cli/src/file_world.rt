//! The files of the system as a world.

ghost use Rattle.std.specs.Prelude.{◌≡◌, ℕ, ◌<◌, ◌≤◌, ◌^◌, [], length, Option, None, IfOk, IfErr, OnOk, OnErr, IfSome, IsSome};
ghost use Rattle.dn_io.specs.Files.{Files, bytes_of};
ghost use Rattle.dn_io.specs.Calls.{Call, with_out, with_refusal, with_state, back_with, IsOutAt};

use crate::file_source::FileSource;
use dn_io::{CallBook, World, WorldRefused};
use std::alloc::Global;
use std::fs;
use std::fs::File;
use std::marker::Model;
use std::rt::Files;

/// The files of the system, by their paths. It tells none of their bytes, and keeps what it was asked for.
#[derive(Drop)]
pub struct FileWorld<R> {
    alloc: Global,
    rt: R,
    calls: CallBook,
}

impl<R> Model for FileWorld<R> {
    ghost use Rattle.std.specs.Prelude.{List};
    ghost use Rattle.dn_io.specs.Calls.{Call};

    ghost Value = { List Call };

    ghost view = { λ w. w.calls };
}

impl<R> FileWorld<R> {
    /// The files that this runtime reaches; none was asked for yet. It takes no memory.
    pub fn new(alloc: Global, rt: R) -> Self
        ensures { result ≡ [] }
    {
        FileWorld {
            alloc,
            rt,
            calls: CallBook::new(alloc),
        }
    }

    /// What it was asked for.
    pub fn calls(&self) -> &CallBook
        ensures { result.now ≡ self.now }
    {
        &self.calls
    }
}

impl<R: Files<File = File>> World for FileWorld<R> {
    type Src = FileSource<File>;

    ghost files = { λ w. None };

    ghost calls = { λ w. w };

    /// Opens the file at this path for reading. A directory opens too, and then fails to be read. The entry of
    /// the call is made before the file is opened, so that no open file lacks its entry.
    #[tactic(auto, using(crate::proofs::Entries::entries))]
    fn source_of(&mut self, name: &str) -> Result<FileSource<File>, WorldRefused> {
        let place = self.calls.len();
        if self.calls.add_out(self.alloc, name).is_err() {
            return Err(WorldRefused::OutOfMemory);
        }
        match fs::open(&self.rt, name) {
            Ok(file) => Ok(FileSource::new(file, place as u32)),
            Err(_) => {
                self.calls.refuse(place);
                Err(WorldRefused::Failed)
            }
        }
    }

    /// Closes the file of a source that this world handed out.
    #[tactic(auto, using(crate::proofs::Entries::entries))]
    fn give_back(&mut self, src: FileSource<File>) {
        let (place, failed) = src.close();
        self.calls.come_back_untold(place as usize, failed);
    }
}
