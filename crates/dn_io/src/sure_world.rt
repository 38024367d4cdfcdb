//! A world in memory that never fails.

ghost use Rattle.std.specs.Prelude.{◌≡◌, ℕ, ◌<◌, ◌^◌, [], length, map, Some, IfOk, IfErr, OnOk, IfSome, IsSome};
ghost use Rattle.dn_io.specs.Files.{Files, bytes_of};
ghost use Rattle.dn_io.specs.Calls.{Call, with_out, with_refusal, with_state, back_with, IsOutAt, NoneFailed};
ghost use Rattle.dn_io.specs.Worlds.{SureWorldView, sure_file, sure_files};

use crate::call_book::CallBook;
use crate::files::{SureFile, find_sure_bytes};
use crate::refusals::WorldRefused;
use crate::sure::SureSource;
use crate::traits::{Source, World};
use std::alloc::Global;
use std::marker::Model;

/// A world in memory that never fails: an earlier file hides a later one of its name, and a name that no file
/// has is an empty file.
#[derive(Drop)]
pub struct SureWorld {
    alloc: Global,
    files: Vec<SureFile>,
    calls: CallBook,
}

impl Model for SureWorld {
    ghost use Rattle.std.specs.Prelude.{map};
    ghost use Rattle.dn_io.specs.Worlds.{SureWorldView, sure_file};
    ghost use Rattle.dn_io.specs.Calls.{NoneFailed};

    ghost Value = { SureWorldView };

    ghost view = { λ w. record { files = map sure_file w.files.items; calls = w.calls } };

    ghost invariant = { λ w. NoneFailed w.calls };
}

impl SureWorld {
    /// A world of these files. It takes no memory.
    pub fn new(alloc: Global, files: Vec<SureFile>) -> Self
        ensures { result ≡ record { files = map sure_file files.items; calls = [] } }
    {
        SureWorld {
            alloc,
            files,
            calls: CallBook::new(alloc),
        }
    }

    /// What it was asked for: no entry has failed.
    pub fn calls(&self) -> &CallBook
        ensures value { result.now ≡ self.now.calls }
        ensures none_failed { NoneFailed self.now.calls }
    {
        &self.calls
    }
}

impl World for SureWorld {
    type Src = SureSource;

    ghost files = { λ w. Some (sure_files w) };

    ghost calls = { λ w. w.calls };

    fn source_of(&mut self, name: &str) -> Result<SureSource, WorldRefused>
        requires { length self.old.calls < 2 ^ 32 }
        ensures handed_out { OnOk result (self.new.calls ≡ with_out self.old.calls name.now) }
        ensures place { IfOk result (λ src. src.place ≡ length self.old.calls) }
        ensures has_bytes { IfOk result (λ src. IfSome (Some (sure_files self.old)) (λ all. IsSome (bytes_of all name.now))) }
        ensures left { IfOk result (λ src. IfSome (Some (sure_files self.old)) (λ all. Some src.left ≡ bytes_of all name.now)) }
        ensures refused { IfErr result (λ cause. self.new.calls ≡ with_refusal cause self.old.calls name.now) }
        ensures same_files { Some (sure_files self.new) ≡ Some (sure_files self.old) }
        // beyond what each world says: it never fails
        ensures sure { IfErr result (λ cause. cause ≡ WorldRefused.OutOfMemory) }
        ensures files { self.new.files ≡ self.old.files }
    {
        let place = self.calls.len() as u32;
        let found = find_sure_bytes(self.files.as_slice(), name);
        let bytes = match Vec::from_slice(self.alloc, found) {
            Ok(bytes) => bytes,
            Err(_) => return Err(WorldRefused::OutOfMemory),
        };
        match self.calls.add_out(self.alloc, name) {
            Ok(()) => Ok(SureSource::at_place(bytes, place)),
            Err(_) => Err(WorldRefused::OutOfMemory),
        }
    }

    fn give_back(&mut self, src: SureSource)
        requires { IsOutAt self.old.calls src.place }
        ensures back { self.new.calls ≡ with_state self.old.calls src.place (back_with 0 (Some src.left)) }
        ensures same_files { Some (sure_files self.new) ≡ Some (sure_files self.old) }
        ensures files { self.new.files ≡ self.old.files }
    {
        let (place, left) = src.into_parts();
        self.calls.come_back(place as usize, false, Some(left));
    }
}
