//! When a policy was violated, and when it held again.

ghost use Rattle.std.specs.Prelude.{◌≡◌};

use base::Keyed;

/// An alarm: at this moment a policy is violated, as it wasn't just before, or it holds again.
#[derive(Clone, Copy, Debug, PartialEq, Eq)]
pub struct Alarm {
    /// How many entries the history has then, from 0.
    pub number: u32,
    /// The policy's place among the policies, from 1.
    pub policy: u32,
    /// The least address that violates it; None where it holds again.
    pub least: Option<u32>,
}

/// No list of alarms is searched: each has the key 0.
impl Keyed for Alarm {
    ghost use Rattle.std.proofs.Common.{rules};

    ghost key_of = { λ _. 0 };

    ghost clones = { Prim.search rules };

    fn key(&self) -> u64 {
        0
    }
}
