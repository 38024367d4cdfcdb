//! An atom with its bounds.

ghost use Rattle.std.specs.Prelude.{◌≡◌, ℕ};

use base::AtomId;
use version_pages::Keyed;

/// An atom and its addresses: those from `low` up to, and without, `past`, which is at most 2^32. An atom is a
/// half-closed interval between two boundaries of prefixes (Delta-net, NSDI 2017).
#[derive(Clone, Copy, Debug, PartialEq, Eq)]
pub struct AtomRow {
    /// Its number.
    pub atom: AtomId,
    /// Its first address.
    pub low: u64,
    /// The address after its last.
    pub past: u64,
}

/// Atoms are searched by their first addresses.
impl Keyed for AtomRow {
    ghost use Rattle.std.proofs.Common.{rules};

    ghost key_of = { λ row. row.low };

    ghost clones = { Prim.search rules };

    fn key(&self) -> u64 {
        self.low
    }
}
