//! What a route does with addresses.

use base::Target;

/// What a route does: something by itself, or what a next-hop object of its device does (RTA_NH_ID of rtnetlink(7)).
#[derive(Clone, Copy, Debug, PartialEq, Eq)]
pub enum Way {
    Straight(Target),
    /// By the object with this id.
    By(u32),
}
