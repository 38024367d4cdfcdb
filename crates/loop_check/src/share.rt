//! The addresses that go round a cycle, by parts.

ghost use Rattle.std.specs.Prelude.{◌≡◌, ◌+◌, ◌<◌, ◌^◌};

/// The addresses that go round a cycle: the least of them, and how many there are. Where there is none, the least says
/// nothing.
#[derive(Clone, Copy)]
pub(crate) struct Share {
    pub(crate) least: u32,
    pub(crate) addresses: u64,
}

/// Two shares as one, the addresses of the first before those of the second.
pub(crate) fn both(x: Share, y: Share) -> Share
    ensures count { x.addresses + y.addresses < 2 ^ 64 → result.addresses ≡ x.addresses + y.addresses }
    ensures later { 0 < x.addresses → result.least ≡ x.least }
    ensures first { x.addresses ≡ 0 → result.least ≡ y.least }
{
    Share {
        least: if x.addresses > 0 { x.least } else { y.least },
        addresses: x.addresses.saturating_add(y.addresses),
    }
}
