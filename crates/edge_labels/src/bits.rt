//! Bits in shared pages of chunks.

ghost use Rattle.std.specs.Prelude.{◌≡◌, ℕ, ◌+◌, ◌<◌, ◌≤◌, ◌==◌, ◌&&◌, ◌||◌, ◌++◌, not, max, length, slice_index_or, IfOk, OnOk, OnErr};
ghost use Rattle.edge_labels.specs.Atoms.{numbers};
ghost use Rattle.edge_labels.specs.Bits.{empty_chunk, has_bit, holds, members, numbers_from};

use crate::chunk::{Chunk, Operation};
use base::{AtomId, OutOfMemory};
use std::alloc::Global;
use version_pages::Pages;

/// The chunk at a place. Past the last one it is empty.
fn chunk_at(chunks: &Pages<Chunk>, i: u64) -> Chunk
    ensures { result ≡ slice_index_or chunks.now i empty_chunk }
{
    match chunks.get(i) {
        Some(chunk) => *chunk,
        None => Chunk::empty(),
    }
}

/// Adds empty chunks until there are so many.
fn reach(alloc: Global, chunks: &mut Pages<Chunk>, len: u64) -> Result<(), OutOfMemory>
    ensures bits { (a : ℕ) → has_bit chunks.new a ≡ has_bit chunks.old a }
    ensures few { length chunks.new ≤ max (length chunks.old) len }
    ensures many { OnOk result (len ≤ length chunks.new) }
{
    for i in chunks.len()..len {
        chunks.push(alloc, Chunk::empty())?;
    }
    Ok(())
}

/// Makes a bit 1. After `OutOfMemory`, for which alone it fails, all bits are as before.
pub fn add_bit(alloc: Global, chunks: &mut Pages<Chunk>, a: u32) -> Result<(), OutOfMemory>
    requires { length chunks.old ≤ 8388608 }
    ensures ok { OnOk result ((b : ℕ) → has_bit chunks.new b ≡ ((b == a) || has_bit chunks.old b)) }
    ensures err { OnErr result ((b : ℕ) → has_bit chunks.new b ≡ has_bit chunks.old b) }
    ensures few { length chunks.new ≤ 8388608 }
{
    let (place, bit) = (a as u64 / 512, a % 512);
    reach(alloc, chunks, place + 1)?;
    chunks.change(alloc, place, |chunk: &mut Chunk| chunk.add(bit))?;
    Ok(())
}

/// Makes a bit 0. After `OutOfMemory`, for which alone it fails, all bits are as before.
pub fn clear_bit(alloc: Global, chunks: &mut Pages<Chunk>, a: u32) -> Result<(), OutOfMemory>
    requires { length chunks.old ≤ 8388608 }
    ensures ok { OnOk result ((b : ℕ) → has_bit chunks.new b ≡ (not (b == a) && has_bit chunks.old b)) }
    ensures err { OnErr result ((b : ℕ) → has_bit chunks.new b ≡ has_bit chunks.old b) }
    ensures few { length chunks.new ≤ 8388608 }
{
    let (place, bit) = (a as u64 / 512, a % 512);
    if place >= chunks.len() {
        return Ok(());
    }
    chunks.change(alloc, place, |chunk: &mut Chunk| chunk.clear(bit))?;
    Ok(())
}

/// What an operation makes of the bits of two lists, a chunk at a time.
pub fn combine(
    alloc: Global,
    operation: Operation,
    first: &Pages<Chunk>,
    second: &Pages<Chunk>,
) -> Result<Pages<Chunk>, OutOfMemory>
    ensures bits { IfOk result (λ chunks. (a : ℕ) → has_bit chunks a ≡ holds operation (has_bit first.now a) (has_bit second.now a)) }
    ensures few { IfOk result (λ chunks. length chunks ≤ max (length first.now) (length second.now)) }
{
    let len = first.len().max(second.len());
    let mut chunks = Pages::new();
    for i in 0..len {
        let chunk = chunk_at(first, i).combine(operation, &chunk_at(second, i));
        chunks.push(alloc, chunk)?;
    }
    Ok(chunks)
}

/// How many bits are 1.
pub fn count(chunks: &Pages<Chunk>) -> u64
    requires { length chunks.now ≤ 8388608 }
    ensures { result ≡ length (members chunks.now) }
{
    let mut count = 0;
    for i in 0..chunks.len() {
        count += chunk_at(chunks, i).count();
    }
    count
}

/// Adds the numbers of a chunk's bits that are 1, counted from a base, in ascending order.
fn push_chunk(atoms: &mut Vec<AtomId>, chunk: &Chunk, base: u32) -> Result<(), OutOfMemory>
    requires { base ≤ 4294966784 }
    ensures { OnOk result (numbers atoms.new.items ≡ numbers atoms.old.items ++ numbers_from chunk.now base 512) }
{
    for k in 0..512 {
        if chunk.has(k) {
            atoms.push(AtomId(base + k))?;
        }
    }
    Ok(())
}

/// The numbers of the bits that are 1, in ascending order.
pub fn list_bits(alloc: Global, chunks: &Pages<Chunk>) -> Result<Vec<AtomId>, OutOfMemory>
    requires { length chunks.now ≤ 8388608 }
    ensures { IfOk result (λ atoms. numbers atoms.items ≡ members chunks.now) }
{
    let mut atoms = Vec::new(alloc);
    for i in 0..chunks.len() {
        push_chunk(&mut atoms, &chunk_at(chunks, i), (i * 512) as u32)?;
    }
    Ok(atoms)
}
