//! Elements with keys.

ghost use Rattle.std.specs.Prelude.{◌≡◌, ℕ};

/// An element with a key, by which a list of such elements can be searched. Where no list of them is searched, the key may
/// be anything that is quickly read.
pub trait Keyed: Clone + Drop {
    ghost key_of: { Self → ℕ };

    /// The key. It stays as it is as long as the element does.
    fn key(&self) -> u64
        ensures { result ≡ key_of self.now };

    /// A clone is the same value.
    ghost clones: { (x y : Self) → Self.is_clone x y → y ≡ x };
}

/// A number is its own key.
impl Keyed for u32 {
    ghost use Rattle.std.proofs.Common.{rules};

    ghost key_of = { λ number. number };

    ghost clones = { Prim.search rules };

    fn key(&self) -> u64 {
        u64::from(*self)
    }
}

/// A number is its own key.
impl Keyed for u64 {
    ghost use Rattle.std.proofs.Common.{rules};

    ghost key_of = { λ number. number };

    ghost clones = { Prim.search rules };

    fn key(&self) -> u64 {
        *self
    }
}
