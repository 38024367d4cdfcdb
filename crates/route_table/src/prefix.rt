//! Prefixes: their order, and the one of a length around an address.

ghost use Rattle.std.specs.Prelude.{◌≡◌, ◌≤◌, IsTrue};
ghost use Rattle.base.specs.Cidr.{IsCidr, covers};
ghost use Rattle.route_table.specs.Slots.{key_of};

use dn_model::Prefix;

/// What tells a prefix from others: they are in order of their first addresses, and then of their lengths.
pub fn prefix_key(prefix: Prefix) -> u64
    ensures value { result ≡ key_of prefix }
    ensures sound { IsCidr prefix }
{
    u64::from(prefix.base()) * 64 + u64::from(prefix.len())
}

/// The prefix of this length that covers an address.
pub fn prefix_around(a: u32, len: u8) -> Prefix
    requires { len ≤ 32 }
    ensures len { result.len ≡ len }
    ensures covers { IsTrue (covers result a) }
    ensures sound { IsCidr result }
{
    let size = 1u64 << (32 - len);
    let base = a as u64 - a as u64 % size;
    Prefix::new(base as u32, len)
}
