//! The routes whose prefixes hold another prefix.

ghost use Rattle.std.specs.Prelude.{ℕ, ◌≡◌, ◌<◌, ◌≤◌, IfSome, length};
ghost use Rattle.base.specs.Cidr.{IsCidr};
ghost use Rattle.route_table.specs.Above.{IsFirstAbove};
ghost use Rattle.route_table.specs.Ascending.{IsPlace};
ghost use Rattle.route_table.specs.Searches.{IsBaseBefore};
ghost use Rattle.route_table.specs.Rows.{slots_in, AreWhole};
ghost use Rattle.route_table.specs.Slots.{key_of, slot_key};

use crate::lane::Lane;
use crate::lengths::Lengths;
use crate::prefix::prefix_around;
use crate::rows::{PrefixRow, first_of};
use crate::search::look;
use dn_model::{Prefix, Way};
use version_pages::Pages;

/// What the first route of the longest prefix does that is shorter than a prefix, holds it and has routes. The place is
/// that of the prefix; the first address of the row before it may be at hand.
pub fn first_above(
    rows: &Pages<PrefixRow>,
    lane: Lane,
    lengths: &Lengths,
    prefix: Prefix,
    place: u64,
    before: Option<u32>,
) -> Option<Way>
    requires whole { AreWhole rows.now lengths.now }
    requires place { IsPlace slot_key (slots_in lane.index rows.now) (key_of prefix) place }
    requires before { IfSome before (IsBaseBefore (slots_in lane.index rows.now) place) }
    ensures above { IsFirstAbove (slots_in lane.index rows.now) prefix result }
    ensures sound { IsCidr prefix }
{
    let mut len = prefix.len();
    let mut place = place;
    let mut before = before;
    'shorter: while place > 0 {
        let base = base_of(rows, place, before);
        let Some(next) = lengths.common(prefix.base(), base, len) else {
            return None;
        };
        len = next;
        let spot = look(rows, place - 1, prefix_around(prefix.base(), len));
        if let Some(row) = spot.row {
            let first = first_of(row, lane);
            if first.is_some() {
                return first;
            }
        }
        place = spot.place;
        before = spot.before;
    }
    None
}

/// The first address of the prefix of the row before a place, which may be at hand.
fn base_of(rows: &Pages<PrefixRow>, place: u64, before: Option<u32>) -> u32
    requires some { 0 < place }
    requires inside { place ≤ length rows.now }
    ensures { (k : ℕ) → IfSome before (IsBaseBefore (slots_in k rows.now) place) →
        IsBaseBefore (slots_in k rows.now) place result }
{
    if let Some(base) = before {
        return base;
    }
    match rows.get(place - 1) {
        Some(row) => row.prefix.base(),
        None => 0,
    }
}
