//! Which lengths the prefixes of a table have.

ghost use Rattle.std.specs.Prelude.{◌≡◌, ◌<◌, ◌≤◌, ℕ, true, false, IfSome, IfNone, replicate, slice_index_or, slice_set};
ghost use Rattle.route_table.specs.Above.{shares};

use dn_model::Prefix;
use std::marker::Model;

/// For each length from 0 to 32, whether a prefix of the length ever had a route. A contract sees the list.
#[derive(Drop)]
pub struct Lengths {
    had: [bool; 33],
}

impl Model for Lengths {
    ghost use Rattle.std.specs.Prelude.{Bool, List};

    ghost Value = { List Bool };

    ghost view = { λ l. l.had };
}

impl Lengths {
    /// The lengths of no prefix.
    pub fn new() -> Lengths
        ensures { result ≡ replicate 33 false }
    {
        Lengths { had: [false; 33] }
    }

    /// The same again.
    pub fn copy(&self) -> Lengths
        ensures { result ≡ self.now }
    {
        Lengths { had: self.had }
    }

    /// Adds the length of a prefix that has a route.
    pub fn add(&mut self, prefix: Prefix)
        ensures { self.new ≡ slice_set self.old prefix.len true }
    {
        self.had[prefix.len() as usize] = true;
    }

    /// The greatest of the lengths below this one at which the prefix around an address has another address too.
    pub fn common(&self, a: u32, other: u32, len: u8) -> Option<u8>
        requires { len ≤ 32 }
        ensures some { IfSome result (λ l. l < len × (shares a other l ≡ true)) }
        ensures greatest { IfSome result (λ l. (k : ℕ) → l < k → k < len →
            slice_index_or self.now k true ≡ true → shares a other k ≡ false) }
        ensures none { IfNone result ((k : ℕ) → k < len →
            slice_index_or self.now k true ≡ true → shares a other k ≡ false) }
    {
        let mut shorter = len.min(shared_bits(a, other) + 1);
        'shorter: while shorter > 0 {
            shorter -= 1;
            if self.had[shorter as usize] && shares(a, other, shorter) {
                return Some(shorter);
            }
        }
        None
    }
}

/// How many leading bits two addresses have in common.
fn shared_bits(a: u32, other: u32) -> u8
    ensures few { result ≤ 32 }
    ensures apart { (k : ℕ) → result < k → k ≤ 32 → shares a other k ≡ false }
{
    (a ^ other).leading_zeros() as u8
}

/// Whether the prefix of a length around an address has another address too.
fn shares(a: u32, other: u32, len: u8) -> bool
    requires { len ≤ 32 }
    ensures { result ≡ shares a other len }
{
    let rest = 32 - len;
    u64::from(a) >> rest == u64::from(other) >> rest
}
