//! Numbers and prefixes that look drawn.

ghost use Rattle.std.specs.Prelude.{◌<◌};

use dn_model::Prefix;

/// Which prefixes are drawn: so many of those that nest, from one of them on (the last is followed by the first), and
/// `hosts` times in 16 one of a single address, which is one of a thousand. Of so many entries as `links` says one takes a
/// link down or up; none where that is 0.
#[derive(Clone, Copy, Debug)]
pub struct Spot {
    pub first: u32,
    pub count: u32,
    pub hosts: u32,
    pub links: u32,
}

/// Numbers that look drawn: a linear congruential generator on 64 bits, with the constants of Knuth's MMIX. The same
/// seed gives the same numbers.
#[derive(Drop)]
pub struct Draw {
    state: u64,
}

impl Draw {
    /// The numbers of a seed.
    pub fn new(seed: u64) -> Self {
        Draw { state: seed }
    }

    /// The next number, below a bound.
    pub fn below(&mut self, bound: u32) -> u32
        requires { 0 < bound }
        ensures { result < bound }
    {
        self.state = self
            .state
            .wrapping_mul(6_364_136_223_846_793_005)
            .wrapping_add(1_442_695_040_888_963_407);
        ((self.state >> 32) % bound as u64) as u32
    }
}

/// Nested prefixes around three places, of which one is the low end of the addresses and one the high end, with equal
/// lengths beside each other.
fn nested() -> [Prefix; 20] {
    [
        Prefix::new(0, 0),
        Prefix::new(0, 1),
        Prefix::new(0, 8),
        Prefix::new(0, 24),
        Prefix::new(0, 31),
        Prefix::new(0, 32),
        Prefix::new(0x0B00_0000, 8),
        Prefix::new(0x0A00_0000, 8),
        Prefix::new(0x0A02_0000, 16),
        Prefix::new(0x0A01_0000, 16),
        Prefix::new(0x0A01_0200, 24),
        Prefix::new(0x0A01_0202, 31),
        Prefix::new(0x0A01_0202, 32),
        Prefix::new(0x0A01_0203, 32),
        Prefix::new(0xFFFF_FFFF, 32),
        Prefix::new(0xFFFF_FFFE, 31),
        Prefix::new(0xFFFF_FF00, 24),
        Prefix::new(0xFFFF_0000, 16),
        Prefix::new(0xFF00_0000, 8),
        Prefix::new(0x8000_0000, 1),
    ]
}

/// The prefix of this address alone.
fn host(address: u32) -> Prefix {
    Prefix::new(address, 32)
}

/// The prefix of one of a thousand addresses alone: few enough that the same one is drawn again for its route to be
/// replaced or cleared, and for a query to ask of it.
fn drawn_host(draw: &mut Draw) -> Prefix {
    host(draw.below(1000) * 4_294_967)
}

/// The nested prefix at a place, counted round.
fn nested_at(place: u32) -> Prefix {
    let prefixes = nested();
    prefixes[(place % 20) as usize]
}

/// One of a spot's prefixes.
pub fn drawn_prefix(spot: &Spot, draw: &mut Draw) -> Prefix {
    if draw.below(16) < spot.hosts {
        return drawn_host(draw);
    }
    let place = draw.below(spot.count.max(1));
    nested_at(spot.first.wrapping_add(place))
}
