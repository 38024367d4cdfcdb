//! IPv4 prefixes.

ghost use Rattle.std.specs.Prelude.{◌≡◌, ◌<◌, ◌≤◌, ◌^◌, ◌-◌, ◌%◌};
ghost use Rattle.base.specs.Cidr.{Cidr, IsCidr};

use std::marker::Model;

/// An IPv4 prefix: the addresses whose first `len` bits are those of `base`. It has no host bits: the bits of
/// `base` past `len` are 0, and `len` is at most 32. A contract sees it as a `Cidr`, with both fields.
#[derive(Clone, Copy, Debug, PartialEq, Eq)]
pub struct Prefix {
    base: u32,
    len: u8,
}

impl Model for Prefix {
    ghost use Rattle.base.specs.Cidr.{Cidr, IsCidr};

    ghost Value = { Cidr };

    ghost view = { λ p. record { base = p.base; len = p.len } };

    ghost invariant = { λ p. IsCidr (record { base = p.base; len = p.len }) };

    ghost inverse = { λ c. record { base = c.base; len = c.len } };
}

impl Prefix {
    /// The prefix of this first address and this length in bits.
    pub fn new(base: u32, len: u8) -> Self
        requires { IsCidr (record { base = base; len = len }) }
        ensures base { result.base ≡ base }
        ensures len { result.len ≡ len }
    {
        Prefix { base, len }
    }

    /// The first address.
    pub fn base(self) -> u32
        ensures value { result ≡ self.base }
        ensures sound { IsCidr self }
    {
        self.base
    }

    /// The length in bits, 0 to 32.
    pub fn len(self) -> u8
        ensures value { result ≡ self.len }
        ensures sound { IsCidr self }
    {
        self.len
    }
}
