//! Names of routers and links.

ghost use Rattle.std.specs.Prelude.{◌≡◌, IsTrue, IfOk, length, nat_le, ◌&&◌};
ghost use Rattle.std.specs.List.{list_all};
ghost use Rattle.base.specs.Name.{is_name_text, is_byte_of_name};

use crate::memory::OutOfMemory;
use std::alloc::Global;
use std::marker::Model;

/// A name of a router or a link: 1 to 32 bytes, each of `a` to `z`, `0` to `9`, `_` or `-`.
/// A contract sees it as the list of its bytes.
#[derive(Drop)]
pub struct Name {
    bytes: Vec<u8>,
}

impl Model for Name {
    ghost use Rattle.std.specs.Prelude.{List, ℕ, IsTrue};
    ghost use Rattle.base.specs.Name.{is_name_text, is_byte_of_name};

    ghost Value = { List ℕ };

    ghost view = { λ n. n.bytes.items };

    ghost invariant = { λ n. IsTrue (is_name_text n.bytes.items) };
}

/// Whether a byte may stand in a name.
fn is_name_byte(byte: u8) -> bool
    ensures { result ≡ is_byte_of_name byte }
{
    matches!(byte, b'a'..=b'z' | b'0'..=b'9' | b'_' | b'-')
}

/// Whether a text has as many bytes as a name may have.
fn has_length_of_name(text: &[u8]) -> bool
    ensures { result ≡ (nat_le 1 (length text.now) && nat_le (length text.now) 32) }
{
    let len = text.len();
    1 <= len && len <= 32
}

/// Whether each byte of a text may stand in a name.
fn has_bytes_of_name(text: &[u8]) -> bool
    ensures { result ≡ list_all is_byte_of_name text.now }
{
    text.iter().all(|byte| is_name_byte(*byte))
}

/// Whether a text is a name: 1 to 32 bytes of `a` to `z`, `0` to `9`, `_` and `-`.
pub fn is_name(text: &[u8]) -> bool
    ensures { result ≡ is_name_text text.now }
{
    has_length_of_name(text) && has_bytes_of_name(text)
}

impl Name {
    /// The name that a text is.
    pub fn from_text(alloc: Global, text: &[u8]) -> Result<Self, OutOfMemory>
        requires { IsTrue (is_name_text text.now) }
        ensures { IfOk result (λ name. name ≡ text.now) }
    {
        let bytes = Vec::from_slice(alloc, text)?;
        Ok(Name { bytes })
    }

    /// The bytes of the name, which are ASCII.
    pub fn as_bytes(&self) -> &[u8]
        ensures value { result.now ≡ self.now }
        ensures name { IsTrue (is_name_text self.now) }
    {
        self.bytes.as_slice()
    }

    /// A copy of the name.
    pub fn copy(&self, alloc: Global) -> Result<Self, OutOfMemory>
        ensures { IfOk result (λ name. name ≡ self.now) }
    {
        let bytes = Vec::from_slice(alloc, self.bytes.as_slice())?;
        Ok(Name { bytes })
    }
}
