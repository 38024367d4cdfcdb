//! The numbers of netlink messages, which are in the sender's order, and addresses, which are in network order.

ghost use Rattle.std.specs.Prelude.{◌≡◌, ◌≤◌, ◌+◌, length, drop};
ghost use Rattle.std.specs.Int.{w16, w32, from_le_bytes, from_be_bytes, to_le_bytes, to_be_bytes};
ghost use Rattle.feed_model.specs.Attributes.{padded, number_in, address_in};

use byteorder::{BigEndian, ByteOrder, LittleEndian};

/// The number of 16 bits in the first two bytes.
pub fn short_at(bytes: &[u8]) -> u16
    requires { 2 ≤ length bytes.now }
    ensures { result ≡ from_le_bytes w16 bytes.now }
{
    LittleEndian::read_u16(bytes)
}

/// The number of 32 bits in the first four bytes.
pub fn number_at(bytes: &[u8]) -> u32
    requires { 4 ≤ length bytes.now }
    ensures { result ≡ from_le_bytes w32 bytes.now }
{
    LittleEndian::read_u32(bytes)
}

/// The number that a payload is, if it has four bytes.
pub fn number_in(payload: &[u8]) -> Option<u32>
    ensures { result ≡ number_in payload.now }
{
    if payload.len() == 4 {
        Some(LittleEndian::read_u32(payload))
    } else {
        None
    }
}

/// The address that a payload is, if it has four bytes.
pub fn address_in(payload: &[u8]) -> Option<u32>
    ensures { result ≡ address_in payload.now }
{
    if payload.len() == 4 {
        Some(BigEndian::read_u32(payload))
    } else {
        None
    }
}

/// The bytes of a number.
pub fn number_bytes(n: u32) -> [u8; 4]
    ensures { result ≡ to_le_bytes w32 n }
{
    let mut bytes = [0; 4];
    LittleEndian::write_u32(&mut bytes, n);
    bytes
}

/// The bytes of an address.
pub fn address_bytes(address: u32) -> [u8; 4]
    ensures { result ≡ to_be_bytes w32 address }
{
    let mut bytes = [0; 4];
    BigEndian::write_u32(&mut bytes, address);
    bytes
}

/// What stands after something of this length and its padding, up to a multiple of 4; nothing where that is past
/// the end.
pub fn after_padding(bytes: &[u8], len: usize) -> &[u8]
    requires { len ≤ length bytes.now }
    ensures { result.now ≡ drop (padded len) bytes.now }
{
    let padding = (4 - len % 4) % 4;
    let rest = &bytes[len..];
    &rest[padding.min(rest.len())..]
}
