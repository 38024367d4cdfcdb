//! Where to look for one of many things in order of address.

ghost use Rattle.std.specs.Prelude.{◌≤◌};

use base::OutOfMemory;
use std::alloc::Global;

/// How many equal blocks the addresses have, and how many equal steps each block.
const WIDTH: usize = 32;

/// How many counts stand in a row: one for each block or step, and one for the end of the last.
const ROW: usize = WIDTH + 1;

/// How many bits of an address say where in a step it is.
const BITS: u32 = 22;

/// Of things that stand in order of their first addresses, how many begin below each of 1,024 equal steps of the addresses:
/// from it the place of one is guessed, so that a search need not go through a tree of pages from its root. It is a hint,
/// of which nothing is promised: who looks there sees whether it is the one. Where memory was wanting there is none.
///
/// A row for each block has how many begin in the block below each of its steps, and a last row how many begin below each
/// block. So one more changes the counts of one block and those of the blocks after it.
#[derive(Drop)]
pub struct Guide {
    begun: Option<Vec<u32>>,
}

impl Guide {
    /// A guide to nothing, which takes no memory.
    pub fn new() -> Guide {
        Guide { begun: None }
    }

    /// Begins with nothing counted. Where memory is wanting it stays a guide to nothing.
    pub fn begin(&mut self, alloc: Global) {
        self.begun = zeros(alloc).ok();
    }

    /// Counts one more, which begins at an address.
    pub fn count(&mut self, at: u32) {
        let step = (at >> BITS) as usize;
        if let Some(begun) = &mut self.begun {
            count_from(begun, step / WIDTH, step % WIDTH + 1);
            count_from(begun, WIDTH, step / WIDTH + 1);
        }
    }

    /// A place near which to look for an address.
    pub fn place(&self, at: u32) -> u64 {
        match &self.begun {
            Some(begun) => guess(begun, (at >> BITS) as usize, u64::from(at % (1 << BITS))),
            None => 0,
        }
    }
}

/// Nothing begins below any step of any block, nor below any block.
fn zeros(alloc: Global) -> Result<Vec<u32>, OutOfMemory> {
    let mut begun = Vec::with_capacity(alloc, ROW * ROW)?;
    for _count in 0..ROW * ROW {
        begun.push(0)?;
    }
    Ok(begun)
}

/// One more begins below a place of a row and below all that follow there.
fn count_from(begun: &mut [u32], row: usize, place: usize)
    requires row { row ≤ 32 }
    requires place { place ≤ 32 }
{
    let end = (row + 1) * ROW;
    if end > begun.len() {
        return;
    }
    for count in &mut begun[row * ROW + place..end] {
        *count = count.wrapping_add(1);
    }
}

/// The place that stands so far in a step as the address.
fn guess(begun: &[u32], step: usize, within: u64) -> u64
    requires { step ≤ 1023 }
{
    let here = step / WIDTH * ROW + step % WIDTH;
    let block = WIDTH * ROW + step / WIDTH;
    if block >= begun.len() {
        return 0;
    }
    let first = u64::from(begun[block].wrapping_add(begun[here]));
    let count = u64::from(begun[here + 1].wrapping_sub(begun[here]));
    let ahead = count.wrapping_mul(within) >> BITS;
    first.wrapping_add(ahead)
}
