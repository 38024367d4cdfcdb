//! 512 bits at once.

ghost use Rattle.std.specs.Prelude.{◌≡◌, ℕ, ◌<◌, ◌≤◌, ◌==◌, ◌&&◌, ◌||◌, not};
ghost use Rattle.edge_labels.specs.Bits.{chunk_bit, count_below, empty_chunk, holds};

use std::simd::u64x8;
use version_pages::Keyed;

/// 512 bits in eight words, lowest first.
#[derive(Clone, Copy, Debug, PartialEq, Eq)]
pub struct Chunk {
    pub words: [u64; 8],
}

/// No list of chunks is searched: each has the key 0.
impl Keyed for Chunk {
    ghost use Rattle.std.proofs.Common.{rules};

    ghost key_of = { λ _. 0 };

    ghost clones = { Prim.search rules };

    fn key(&self) -> u64 {
        0
    }
}

/// What is made of two sets.
#[derive(Clone, Copy, Debug, PartialEq, Eq)]
pub enum Operation {
    /// What either has.
    Union,
    /// What both have.
    Intersection,
    /// What the first has and the second lacks.
    Difference,
}

impl Chunk {
    /// No bit is 1.
    pub fn empty() -> Chunk
        ensures { result ≡ empty_chunk }
    {
        Chunk { words: [0; 8] }
    }

    /// Whether a bit is 1.
    pub fn has(&self, k: u32) -> bool
        requires { k < 512 }
        ensures { result ≡ chunk_bit self.now k }
    {
        (self.words[(k / 64) as usize] >> (k % 64)) & 1 == 1
    }

    /// Makes a bit 1.
    pub fn add(&mut self, k: u32)
        requires { k < 512 }
        ensures { (j : ℕ) → chunk_bit self.new j ≡ ((j == k) || chunk_bit self.old j) }
    {
        self.words[(k / 64) as usize] |= 1 << (k % 64);
    }

    /// Makes a bit 0.
    pub fn clear(&mut self, k: u32)
        requires { k < 512 }
        ensures { (j : ℕ) → chunk_bit self.new j ≡ (not (j == k) && chunk_bit self.old j) }
    {
        self.words[(k / 64) as usize] &= !(1 << (k % 64));
    }

    /// The bits that are 1 in either, in one vector of eight words.
    fn either(&self, other: &Chunk) -> Chunk
        ensures { (k : ℕ) → chunk_bit result k ≡ (chunk_bit self.now k || chunk_bit other.now k) }
    {
        let words = u64x8::from_array(self.words) | u64x8::from_array(other.words);
        Chunk {
            words: words.to_array(),
        }
    }

    /// The bits that are 1 in both.
    fn both(&self, other: &Chunk) -> Chunk
        ensures { (k : ℕ) → chunk_bit result k ≡ (chunk_bit self.now k && chunk_bit other.now k) }
    {
        let words = u64x8::from_array(self.words) & u64x8::from_array(other.words);
        Chunk {
            words: words.to_array(),
        }
    }

    /// The bits that are 1 in this one and 0 in the other.
    fn without(&self, other: &Chunk) -> Chunk
        ensures { (k : ℕ) → chunk_bit result k ≡ (chunk_bit self.now k && not (chunk_bit other.now k)) }
    {
        let words = u64x8::from_array(self.words);
        let common = words & u64x8::from_array(other.words);
        let words = words ^ common;
        Chunk {
            words: words.to_array(),
        }
    }

    /// What an operation makes of the bits of two chunks.
    pub fn combine(&self, operation: Operation, other: &Chunk) -> Chunk
        ensures { (k : ℕ) → chunk_bit result k ≡ holds operation (chunk_bit self.now k) (chunk_bit other.now k) }
    {
        match operation {
            Operation::Union => self.either(other),
            Operation::Intersection => self.both(other),
            Operation::Difference => self.without(other),
        }
    }

    /// How many bits are 1.
    pub fn count(&self) -> u64
        ensures value { result ≡ count_below (chunk_bit self.now) 512 }
        ensures few { result ≤ 512 }
    {
        let mut count = 0;
        for word in &self.words {
            count += word.count_ones() as u64;
        }
        count
    }
}
