//! Reading whole files of the outside.

ghost use Rattle.std.specs.Prelude.{◌≡◌, ℕ, ◌+◌, ◌<◌, ◌≤◌, ◌^◌, ◌++◌, ◌∷◌, [], take, length, IfOk, OnOk, vec_len};
ghost use Rattle.dn_io.specs.Told.{with_front, NothingLeft};
ghost use Rattle.dn_io.specs.Faults.{Rose};
ghost use Rattle.dn_run.specs.Opened.{WasRead, IsReadTo, WasFault, MayCallOne, LeavesFront};
ghost use Rattle.dn_run.specs.Refusals.{as_file_refused};
ghost use Rattle.dn_run.specs.declared.files.FileRefused.TheVariants.{Failed as file_failed};
ghost use Rattle.dn_run.specs.declared.files.FileRefused.TheVariants.{OutOfMemory as file_memory};

use dn_io::{Failed, Source, World, WorldRefused};
use std::alloc::{AllocError, Global};

/// Why a file wasn't read.
#[derive(Clone, Copy, Debug, PartialEq, Eq)]
pub enum FileRefused {
    /// The outside failed.
    Failed,
    /// Memory was wanted.
    OutOfMemory,
}

impl From<Failed> for FileRefused {
    ghost from_gives = { λ _ e. e ≡ file_failed };

    fn from(_failed: Failed) -> Self {
        FileRefused::Failed
    }
}

impl From<AllocError> for FileRefused {
    ghost from_gives = { λ _ e. e ≡ file_memory };

    fn from(_error: AllocError) -> Self {
        FileRefused::OutOfMemory
    }
}

/// Reads the next piece of a source onto the end of what was read. At 0 the source has ended, or the piece is empty.
fn append_piece<S: Source>(
    source: &mut S,
    piece: &mut [u8],
    out: &mut Vec<u8>,
) -> Result<usize, FileRefused>
    ensures grows { IfOk result (λ n. vec_len out.new ≡ vec_len out.old + n) }
    ensures within { IfOk result (λ n. n ≤ length piece.old) }
    ensures all { OnOk result (with_front out.new.items (S.left source.new) ≡ with_front out.old.items
        (S.left source.old)) }
    ensures end { IfOk result (λ n. n ≡ 0 → 0 < length piece.old → NothingLeft (S.left source.new)) }
    ensures count { OnOk result (S.faults source.new ≡ S.faults source.old) }
    ensures failed { result ≡ Err FileRefused.Failed → Rose (S.faults source.old) (S.faults source.new) }
    ensures unread { result ≡ Err FileRefused.Failed → S.left source.new ≡ S.left source.old }
    ensures stays { S.place source.new ≡ S.place source.old }
{
    let n = source.read(piece)?;
    out.extend_from_slice(&piece[..n])?;
    Ok(n)
}

/// The bytes of a piece that may still be read: 4,096, or fewer where the limit is near.
fn room_of(limit: usize, read: usize) -> usize
    requires { (read ≤ limit) × (limit < 2 ^ 32) }
    ensures some { 0 < result }
    ensures piece { result ≤ 4096 }
    ensures within { read + result ≤ limit + 1 }
{
    let left = limit + 1 - read;
    if left < 4096 { left } else { 4096 }
}

/// Reads a source to its end, but no more than `limit` + 1 bytes of it.
fn read_to_end<S: Source>(
    alloc: Global,
    source: &mut S,
    limit: usize,
) -> Result<Vec<u8>, FileRefused>
    requires { limit < 2 ^ 32 }
    ensures all { IfOk result (λ bytes. with_front bytes.items (S.left source.new) ≡ S.left source.old) }
    ensures end { IfOk result (λ bytes. IsReadTo limit bytes.items (S.left source.new)) }
    ensures within { IfOk result (λ bytes. length bytes.items ≤ limit + 1) }
    ensures count { OnOk result (S.faults source.new ≡ S.faults source.old) }
    ensures failed { result ≡ Err FileRefused.Failed → Rose (S.faults source.old) (S.faults source.new) }
    ensures front { result ≡ Err FileRefused.Failed → LeavesFront limit (S.left source.old) (S.left source.new) }
    ensures stays { S.place source.new ≡ S.place source.old }
{
    let mut bytes = Vec::new(alloc);
    let mut piece = [0u8; 4096];
    while bytes.len() <= limit {
        let room = room_of(limit, bytes.len());
        let n = append_piece(source, &mut piece[..room], &mut bytes)?;
        if n == 0 {
            return Ok(bytes);
        }
    }
    Ok(bytes)
}

impl From<WorldRefused> for FileRefused {
    ghost from_gives = { λ cause e. e ≡ as_file_refused cause };

    fn from(refused: WorldRefused) -> Self {
        match refused {
            WorldRefused::Failed => FileRefused::Failed,
            WorldRefused::OutOfMemory => FileRefused::OutOfMemory,
        }
    }
}

/// Opens the file of a name, reads it to its end, but no more than `limit` + 1 bytes of it, and gives it back.
///
/// # Errors
///
/// `Failed` where the outside did not open it or failed at a read, and `OutOfMemory`.
pub fn read_file<W: World>(
    alloc: Global,
    world: &mut W,
    name: &str,
    limit: usize,
) -> Result<Vec<u8>, FileRefused>
    requires room { length (W.calls world.old) < 2 ^ 32 }
    requires small { limit < 2 ^ 32 }
    ensures read { IfOk result (λ bytes. WasRead (W.files world.old) limit (W.calls world.old) name.now
        (W.calls world.new) bytes.items) }
    ensures failed { result ≡ Err FileRefused.Failed → WasFault (W.files world.old) limit (W.calls world.old) name.now
        (W.calls world.new) }
    ensures memory { result ≡ Err FileRefused.OutOfMemory → MayCallOne (W.calls world.old) name.now
        (W.calls world.new) }
    ensures same_files { W.files world.new ≡ W.files world.old }
{
    let mut source = world.source_of(name)?;
    let read = read_to_end(alloc, &mut source, limit);
    world.give_back(source);
    read
}
