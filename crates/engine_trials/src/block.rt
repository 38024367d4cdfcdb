//! Addresses whose routes are set and cleared by hand.

use dn_model::{Prefix, Run};

/// Addresses of one prefix.
#[derive(Clone, Copy)]
pub enum Block {
    /// 0.0.0.0/0.
    All,
    /// 0.0.0.0/8, at the low end.
    Low,
    /// 128.0.0.0/1, at the high end.
    High,
    /// 255.255.255.255/32.
    Last,
    /// 10.0.0.0/8.
    Ten,
    /// 10.1.0.0/16, which is a part of it.
    TenOne,
    /// 11.0.0.0/8, which begins where 10.0.0.0/8 ends.
    Eleven,
    /// Both of them.
    TenAndEleven,
}

/// The prefix of a block.
pub fn prefix_of(block: Block) -> Prefix {
    match block {
        Block::All => Prefix::new(0, 0),
        Block::Low => Prefix::new(0, 8),
        Block::High => Prefix::new(0x8000_0000, 1),
        Block::Last => Prefix::new(0xFFFF_FFFF, 32),
        Block::Ten => Prefix::new(0x0A00_0000, 8),
        Block::TenOne => Prefix::new(0x0A01_0000, 16),
        Block::Eleven => Prefix::new(0x0B00_0000, 8),
        Block::TenAndEleven => Prefix::new(0x0A00_0000, 7),
    }
}

/// The first and the last address of a block.
pub fn run_of(block: Block) -> Run {
    let (lo, hi) = match block {
        Block::All => (0, 0xFFFF_FFFF),
        Block::Low => (0, 0x00FF_FFFF),
        Block::High => (0x8000_0000, 0xFFFF_FFFF),
        Block::Last => (0xFFFF_FFFF, 0xFFFF_FFFF),
        Block::Ten => (0x0A00_0000, 0x0AFF_FFFF),
        Block::TenOne => (0x0A01_0000, 0x0A01_FFFF),
        Block::Eleven => (0x0B00_0000, 0x0BFF_FFFF),
        Block::TenAndEleven => (0x0A00_0000, 0x0BFF_FFFF),
    };
    Run { lo, hi }
}
