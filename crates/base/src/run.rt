//! Runs of addresses.

/// A run of addresses: all from `lo` to `hi`, both included (0 to 2^32 - 1), also where they are equal.
#[derive(Clone, Copy, Debug, PartialEq, Eq)]
pub struct Run {
    pub lo: u32,
    pub hi: u32,
}
