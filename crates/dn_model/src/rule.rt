//! Rules: what routes say of an atom that they cover.

use crate::way::Way;

/// What a route says of addresses that it covers: the length of its prefix in bits (0 to 32), its metric and what is
/// done with the addresses. Length and metric are its key, since all rules of one set cover the same addresses, where a
/// length fixes the prefix (the rules of Delta-net, NSDI 2017).
#[derive(Clone, Copy, Debug, PartialEq, Eq)]
pub struct Rule {
    pub len: u8,
    pub metric: u32,
    pub way: Way,
}
