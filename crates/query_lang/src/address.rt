//! Addresses written as dotted quads.

ghost use Rattle.std.specs.Prelude.{◌≡◌, ◌≤◌, IfSome, ◌∷◌, []};
ghost use Rattle.dn_formats.specs.Decimal.{octet_of, address_of_octets, address_of, address_of_parts};

use crate::text_cut::split_at_dot;
use dn_formats::read_number;

/// An octet of an address: a number from 0 to 255.
fn read_octet(text: &[u8]) -> Option<u32>
    ensures within { IfSome result (λ n. n ≤ 255) }
    ensures value { result ≡ octet_of text.now }
{
    read_number(text, 0, 255)
}

/// The address that four texts write, the highest octet first.
fn read_octets(first: &[u8], second: &[u8], third: &[u8], fourth: &[u8]) -> Option<u32>
    ensures { result ≡ address_of_octets (octet_of first.now) (octet_of second.now) (octet_of third.now) (octet_of fourth.now) }
{
    let a = read_octet(first)?;
    let b = read_octet(second)?;
    let c = read_octet(third)?;
    let d = read_octet(fourth)?;
    Some(16_777_216 * a + 65_536 * b + 256 * c + d)
}

#[tactic(auto, using(crate::proofs::Addresses::address_parts))]
/// The address (0 to 2^32 - 1) that a dotted quad writes.
pub fn read_address(text: &[u8]) -> Option<u32>
    ensures { result ≡ address_of text.now }
{
    let (first, rest) = split_at_dot(text)?;
    let (second, rest) = split_at_dot(rest)?;
    let (third, rest) = split_at_dot(rest)?;
    match split_at_dot(rest) {
        Some((_, _)) => None,
        None => read_octets(first, second, third, rest),
    }
}
