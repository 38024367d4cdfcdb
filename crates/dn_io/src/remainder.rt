//! Bytes of which the first have been given away.

ghost use Rattle.std.specs.Prelude.{◌≡◌, ℕ, ◌≤◌, min, List, length, take, drop, vec_len};

use std::marker::Model;

/// The bytes that are left of a list of bytes.
#[derive(Drop)]
pub(crate) struct Remainder {
    bytes: Vec<u8>,
    given: usize,
}

impl Model for Remainder {
    ghost Value = { List ℕ };

    ghost view = { λ r. drop r.given r.bytes.items };

    ghost invariant = { λ r. r.given ≤ vec_len r.bytes };
}

impl Remainder {
    /// All of these bytes are left.
    pub(crate) fn new(bytes: Vec<u8>) -> Self
        ensures { result ≡ bytes.items }
    {
        Remainder { bytes, given: 0 }
    }

    /// The bytes that are left.
    pub(crate) fn as_slice(&self) -> &[u8]
        ensures { result.now ≡ self.now }
    {
        &self.bytes[self.given..]
    }

    /// Gives as many of the first bytes as `buf` holds, at most `most`, and says how many.
    pub(crate) fn give(&mut self, buf: &mut [u8], most: usize) -> usize
        ensures amount { result ≡ min most (min (length buf.old) (length self.old)) }
        ensures front { take result buf.new ≡ take result self.old }
        ensures shrinks { self.new ≡ drop result self.old }
        ensures rest { drop result buf.new ≡ drop result buf.old }
    {
        let left = self.bytes.len() - self.given;
        let count = most.min(buf.len().min(left));
        buf[..count].copy_from_slice(&self.bytes[self.given..self.given + count]);
        self.given += count;
        count
    }
}
