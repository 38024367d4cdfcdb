//! Eight halves of codes at once.

ghost use Rattle.std.specs.Prelude.{◌≡◌, ℕ, ◌<◌, slice_index};
ghost use Rattle.target_rows.specs.ChunkRows.{no_codes};

use version_pages::Keyed;

/// Eight halves of codes beside one another, two bytes each: a code below 65,536 is its own lower half, and its upper half
/// is 0. A page has 64 elements at most, so that pages of chunks have eight times as many codes as pages of codes would,
/// under as much administration.
#[derive(Clone, Copy, Debug, PartialEq, Eq)]
pub struct CodeChunk {
    pub codes: [u16; 8],
}

/// No list of chunks is searched: each has the key 0.
impl Keyed for CodeChunk {
    ghost use Rattle.std.proofs.Common.{rules};

    ghost key_of = { λ _. 0 };

    ghost clones = { Prim.search rules };

    fn key(&self) -> u64 {
        0
    }
}

impl CodeChunk {
    /// Each of them is 0.
    pub fn empty() -> CodeChunk
        ensures { result ≡ no_codes }
    {
        CodeChunk { codes: [0; 8] }
    }

    /// Puts one at one of the eight places.
    pub fn put(&mut self, lane: u32, code: u16)
        requires { lane < 8 }
        ensures here { slice_index self.new.codes lane ≡ code }
        ensures others { (k : ℕ) → (k ≡ lane → ⊥) → slice_index self.new.codes k ≡ slice_index self.old.codes k }
    {
        self.codes[lane as usize] = code;
    }
}
