//! A world in memory, whose failures a test chooses.

ghost use Rattle.std.specs.Prelude.{◌≡◌, ℕ, ◌<◌, ◌≤◌, ◌^◌, ◌⊎◌, [], length, map, All, Some, None, true, false, IfOk, IfErr, OnOk, IfSome, IsSome};
ghost use Rattle.std.specs.Option.{option_map, IsSomeAnd};
ghost use Rattle.dn_io.specs.Files.{Files, bytes_of};
ghost use Rattle.dn_io.specs.Calls.{Call, with_out, with_refusal, with_state, back_with, IsOutAt};
ghost use Rattle.dn_io.specs.Memory.{counted, fails_next};
ghost use Rattle.dn_io.specs.Worlds.{MemWorldView, mem_file, mem_files, file_named, fresh_source};

use crate::call_book::CallBook;
use crate::files::{MemFile, find_mem_file, open_mem_file};
use crate::mem_source::MemSource;
use crate::plan::Plan;
use crate::refusals::WorldRefused;
use crate::traits::{Source, World};
use std::alloc::Global;
use std::marker::Model;

/// A world in memory: its files, of which an earlier one hides a later one of its name, and the `source_of`
/// calls that fail.
#[derive(Drop)]
pub struct MemWorld {
    alloc: Global,
    files: Vec<MemFile>,
    plan: Plan,
    calls: CallBook,
}

impl Model for MemWorld {
    ghost use Rattle.std.specs.Prelude.{◌≤◌, map, All};
    ghost use Rattle.dn_io.specs.Worlds.{MemWorldView, mem_file};

    ghost Value = { MemWorldView };

    ghost view = { λ w. record { files = map mem_file w.files.items; plan = w.plan; calls = w.calls } };

    ghost invariant = { λ w. All (λ file. 1 ≤ file.step) w.files.items };
}

impl MemWorld {
    /// A world of these files, which fails at the `source_of` calls whose numbers, from 1, stand in `fails`.
    /// It takes no memory.
    pub fn new(alloc: Global, files: Vec<MemFile>, fails: Vec<u64>) -> Self
        requires { All (λ file. 1 ≤ file.step) files.items }
        ensures files { result.files ≡ map mem_file files.items }
        ensures plan { result.plan ≡ record { fails = fails.items; calls = 0; faults = 0 } }
        ensures calls { result.calls ≡ [] }
    {
        MemWorld {
            alloc,
            files,
            plan: Plan::new(fails),
            calls: CallBook::new(alloc),
        }
    }

    /// What it was asked for.
    pub fn calls(&self) -> &CallBook
        ensures { result.now ≡ self.now.calls }
    {
        &self.calls
    }

    fn refuse(&mut self, name: &str) -> WorldRefused
        ensures calls { self.new.calls ≡ with_refusal result self.old.calls name.now }
        ensures files { self.new.files ≡ self.old.files }
        ensures plan { self.new.plan ≡ self.old.plan }
    {
        match self.calls.add_refused(self.alloc, name) {
            Ok(()) => WorldRefused::Failed,
            Err(_) => WorldRefused::OutOfMemory,
        }
    }

    #[tactic(auto, using(crate::proofs::FilesLemmas::named))]
    fn hand_out(&mut self, name: &str) -> Result<MemSource, WorldRefused>
        requires { length self.old.calls < 2 ^ 32 }
        ensures opened { IfOk result (λ src. IsSomeAnd (file_named self.old.files name.now) (λ file. src ≡ fresh_source file (length self.old.calls))) }
        ensures has_bytes { IfOk result (λ src. IsSome (bytes_of (mem_files self.old) name.now)) }
        ensures left { IfOk result (λ src. Some src.left ≡ bytes_of (mem_files self.old) name.now) }
        ensures handed_out { OnOk result (self.new.calls ≡ with_out self.old.calls name.now) }
        ensures refused { IfErr result (λ cause. self.new.calls ≡ with_refusal cause self.old.calls name.now) }
        ensures failed { IfErr result (λ cause. cause ≡ WorldRefused.Failed → file_named self.old.files name.now ≡ None) }
        ensures files { self.new.files ≡ self.old.files }
        ensures plan { self.new.plan ≡ self.old.plan }
    {
        let place = self.calls.len() as u32;
        let Some(file) = find_mem_file(self.files.as_slice(), name) else {
            return Err(self.refuse(name));
        };
        let source = open_mem_file(self.alloc, file, place)?;
        match self.calls.add_out(self.alloc, name) {
            Ok(()) => Ok(source),
            Err(_) => Err(WorldRefused::OutOfMemory),
        }
    }
}

impl World for MemWorld {
    type Src = MemSource;

    ghost files = { λ w. Some (mem_files w) };

    ghost calls = { λ w. w.calls };

    fn source_of(&mut self, name: &str) -> Result<MemSource, WorldRefused>
        requires { length self.old.calls < 2 ^ 32 }
        ensures handed_out { OnOk result (self.new.calls ≡ with_out self.old.calls name.now) }
        ensures place { IfOk result (λ src. src.place ≡ length self.old.calls) }
        ensures fresh { IfOk result (λ src. src.plan.faults ≡ 0) }
        ensures has_bytes { IfOk result (λ src. IfSome (Some (mem_files self.old)) (λ all. IsSome (bytes_of all name.now))) }
        ensures left { IfOk result (λ src. IfSome (Some (mem_files self.old)) (λ all. Some src.left ≡ bytes_of all name.now)) }
        ensures refused { IfErr result (λ cause. self.new.calls ≡ with_refusal cause self.old.calls name.now) }
        ensures same_files { Some (mem_files self.new) ≡ Some (mem_files self.old) }
        // beyond what each world says: how the file is read, and when the call fails
        ensures opened { IfOk result (λ src. IsSomeAnd (file_named self.old.files name.now) (λ file. src ≡ fresh_source file (length self.old.calls))) }
        ensures unplanned { OnOk result (fails_next self.old.plan ≡ false) }
        ensures failed { IfErr result (λ cause. cause ≡ WorldRefused.Failed → (fails_next self.old.plan ≡ true) ⊎ (file_named self.old.files name.now ≡ None)) }
        ensures counts { self.new.plan ≡ record self.old.plan { calls = counted self.old.plan.calls } }
        ensures files { self.new.files ≡ self.old.files }
    {
        if self.plan.fails_now() {
            return Err(self.refuse(name));
        }
        self.hand_out(name)
    }

    fn give_back(&mut self, src: MemSource)
        requires { IsOutAt self.old.calls src.place }
        ensures back { self.new.calls ≡ with_state self.old.calls src.place (back_with src.plan.faults (Some src.left)) }
        ensures same_files { Some (mem_files self.new) ≡ Some (mem_files self.old) }
        ensures files { self.new.files ≡ self.old.files }
        ensures plan { self.new.plan ≡ self.old.plan }
    {
        let (place, failed, left) = src.into_parts();
        self.calls.come_back(place as usize, failed, Some(left));
    }
}
