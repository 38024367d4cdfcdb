//! Frames for tests, byte by byte: four bytes of header, and the payload.

use std::alloc::Global;
use std::process::Abort;

/// A frame that sets 10.0.0.0/8 with metric 20 by the gateway 192.0.2.1 at interface 2.
pub const SET_TEN: [u8; 64] = [
    1, 1, 0, 0x40, 0x3c, 0, 0, 0, 0x18, 0, 1, 5, 0, 0, 0, 0, 0, 0, 0, 0, 2, 8, 0, 0, 0xfe, 0x0b, 0,
    1, 0, 0, 0, 0, 8, 0, 1, 0, 10, 0, 0, 0, 8, 0, 5, 0, 192, 0, 2, 1, 8, 0, 4, 0, 2, 0, 0, 0, 8, 0,
    6, 0, 20, 0, 0, 0,
];

/// A frame that deletes 10.0.0.0/8 with metric 20, and sets it again by the gateway 192.0.2.1 at interface 3.
pub const CHANGE_TEN: [u8; 108] = [
    1, 1, 0, 0x6c, 0x2c, 0, 0, 0, 0x19, 0, 1, 0, 0, 0, 0, 0, 0, 0, 0, 0, 2, 8, 0, 0, 0xfe, 0x0b, 0,
    1, 0, 0, 0, 0, 8, 0, 1, 0, 10, 0, 0, 0, 8, 0, 6, 0, 20, 0, 0, 0, 0x3c, 0, 0, 0, 0x18, 0, 1, 5,
    0, 0, 0, 0, 0, 0, 0, 0, 2, 8, 0, 0, 0xfe, 0x0b, 0, 1, 0, 0, 0, 0, 8, 0, 1, 0, 10, 0, 0, 0, 8,
    0, 5, 0, 192, 0, 2, 1, 8, 0, 4, 0, 3, 0, 0, 0, 8, 0, 6, 0, 20, 0, 0, 0,
];

/// A message whose length is too small, which follows that of `SET_TEN` in a frame that is refused.
pub const BROKEN_LAST: [u8; 16] = [15, 0, 0, 0, 0x18, 0, 0, 0, 0, 0, 0, 0, 0, 0, 0, 0];

/// A frame that sets 10.0.0.0/8 over several next hops.
pub const SET_MULTIPATH: [u8; 52] = [
    1, 1, 0, 0x34, 0x30, 0, 0, 0, 0x18, 0, 1, 5, 0, 0, 0, 0, 0, 0, 0, 0, 2, 8, 0, 0, 0xfe, 0x0b, 0,
    1, 0, 0, 0, 0, 8, 0, 1, 0, 10, 0, 0, 0, 0x0c, 0, 9, 0, 8, 0, 0, 0, 2, 0, 0, 0,
];

/// A frame with an IPv6 route.
pub const SET_IPV6: [u8; 32] = [
    1, 1, 0, 0x20, 0x1c, 0, 0, 0, 0x18, 0, 1, 5, 0, 0, 0, 0, 0, 0, 0, 0, 10, 0, 0, 0, 0xfe, 0x0b,
    0, 1, 0, 0, 0, 0,
];

/// One piece after another.
pub fn bytes_of(rt: &impl Abort, alloc: Global, pieces: &[&[u8]]) -> Vec<u8> {
    let mut bytes = Vec::new(alloc);
    for piece in pieces {
        bytes.extend_from_slice(piece).expect(rt, "memory");
    }
    bytes
}
