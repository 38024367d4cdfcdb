//! The files of worlds in memory.

ghost use Rattle.std.specs.Prelude.{◌≡◌, ◌≤◌, length, map, IfOk, IfErr, IfSome, Some, All, []};
ghost use Rattle.std.specs.Option.{option_copied, option_map};
ghost use Rattle.dn_io.specs.Files.{bytes_among};
ghost use Rattle.dn_io.specs.Worlds.{mem_file, sure_file, file_named, fresh_source};

use crate::mem_source::MemSource;
use crate::refusals::WorldRefused;
use std::alloc::Global;

/// A file of a `MemWorld`.
#[derive(Drop)]
pub struct MemFile {
    /// Its name.
    pub name: String,
    /// Its bytes.
    pub bytes: Vec<u8>,
    /// How many bytes a read of one of its sources gives at most; at least 1.
    pub step: usize,
    /// The numbers, from 1, of the reads of each of its sources that fail.
    pub fails: Vec<u64>,
}

/// A file of a `SureWorld`.
#[derive(Drop)]
pub struct SureFile {
    /// Its name.
    pub name: String,
    /// Its bytes.
    pub bytes: Vec<u8>,
}

/// The first file of this name.
pub(crate) fn find_mem_file<'a>(files: &'a [MemFile], name: &str) -> Option<&'a MemFile>
    requires { All (λ file. 1 ≤ file.step) files.now }
    ensures found { option_map mem_file (option_copied result) ≡ file_named (map mem_file files.now) name.now }
    ensures step { IfSome result (λ file. 1 ≤ file.now.step) }
{
    for file in files {
        if file.name.as_str() == name {
            return Some(file);
        }
    }
    None
}

/// A fresh source of a file, at this place of a world's calls.
pub(crate) fn open_mem_file(
    alloc: Global,
    file: &MemFile,
    place: u32,
) -> Result<MemSource, WorldRefused>
    requires { 1 ≤ file.now.step }
    ensures opened { IfOk result (λ src. src ≡ fresh_source (mem_file file.now) place) }
    ensures memory { IfErr result (λ cause. cause ≡ WorldRefused.OutOfMemory) }
{
    let bytes = match Vec::from_slice(alloc, file.bytes.as_slice()) {
        Ok(bytes) => bytes,
        Err(_) => return Err(WorldRefused::OutOfMemory),
    };
    let fails = match Vec::from_slice(alloc, file.fails.as_slice()) {
        Ok(fails) => fails,
        Err(_) => return Err(WorldRefused::OutOfMemory),
    };
    Ok(MemSource::at_place(bytes, file.step, fails, place))
}

/// The bytes of the first file of this name; none where there is no such file.
pub(crate) fn find_sure_bytes<'a>(files: &'a [SureFile], name: &str) -> &'a [u8]
    ensures { Some result.now ≡ bytes_among (map sure_file files.now) (Some []) name.now }
{
    for file in files {
        if file.name.as_str() == name {
            return file.bytes.as_slice();
        }
    }
    &[]
}
