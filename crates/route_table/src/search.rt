//! Searches for the row of a prefix.

ghost use Rattle.std.specs.Prelude.{ℕ, ◌≡◌, ◌≤◌, IfSome, IfNone, length, slice_index_or};
ghost use Rattle.base.specs.Cidr.{IsCidr};
ghost use Rattle.route_table.specs.Ascending.{IsFound, IsGap, IsPlace};
ghost use Rattle.route_table.specs.Searches.{IsBaseBefore};
ghost use Rattle.route_table.specs.Rows.{row_key, slots_in};
ghost use Rattle.route_table.specs.Slots.{key_of, AreSlots};
ghost use Rattle.route_table.specs.declared.rows.PrefixRow.{PrefixRow as Row};

use crate::prefix::prefix_key;
use crate::rows::{PrefixRow, own_row, place_of, row_at};
use dn_model::Prefix;
use version_pages::{Pages, count_below_from};

/// Where a search for the row of a prefix ends.
#[derive(Clone, Copy)]
pub struct Spot<'a> {
    /// How many rows go before that of the prefix.
    pub place: u64,
    /// The row of the prefix, if there is one.
    pub row: Option<&'a PrefixRow>,
    /// The first address of the prefix of the row before the place, where that was at hand.
    pub before: Option<u32>,
}

/// Where a search for the row of a prefix ends, where that is in the page of a place, and behind its first row or at
/// the very beginning. It looks first there.
fn look_near(rows: &Pages<PrefixRow>, near: u64, prefix: Prefix) -> Option<Spot<'_>>
    requires { (k : ℕ) → AreSlots (slots_in k rows.now) }
    ensures place { IfSome result (λ spot. IsPlace row_key rows.now (key_of prefix) spot.place) }
    ensures found { IfSome result (λ spot. IfSome spot.row (λ _.
        IsFound row_key rows.now (key_of prefix) spot.place)) }
    ensures row { (d : Row) → IfSome result (λ spot. IfSome spot.row (λ row.
        row.now ≡ slice_index_or rows.now spot.place d)) }
    ensures gap { IfSome result (λ spot. IfNone spot.row (IsGap row_key rows.now (key_of prefix) spot.place)) }
    ensures before { (k : ℕ) → IfSome result (λ spot. IfSome spot.before (
        IsBaseBefore (slots_in k rows.now) spot.place)) }
{
    let (page, first, here) = rows.page_near(near);
    let below = count_below_from(page, prefix_key(prefix), here);
    if below == page.len() {
        return None;
    }
    if below == 0 && first != 0 {
        return None;
    }
    Some(Spot {
        place: first + below as u64,
        row: own_row(&page[below], prefix),
        before: base_before(page, below),
    })
}

/// The first address of the prefix of the row before a place of a page, if there is one.
fn base_before(page: &[PrefixRow], place: usize) -> Option<u32>
    requires { place ≤ length page.now }
    ensures { (k : ℕ) → IfSome result (IsBaseBefore (slots_in k page.now) place) }
{
    if place == 0 {
        return None;
    }
    Some(page[place - 1].prefix.base())
}

/// Where a search for the row of a prefix ends. It looks first at a place: any will do.
pub fn look(rows: &Pages<PrefixRow>, near: u64, prefix: Prefix) -> Spot<'_>
    requires { (k : ℕ) → AreSlots (slots_in k rows.now) }
    ensures place { IsPlace row_key rows.now (key_of prefix) result.place }
    ensures found { IfSome result.row (λ _. IsFound row_key rows.now (key_of prefix) result.place) }
    ensures row { (d : Row) → IfSome result.row (λ row. row.now ≡ slice_index_or rows.now result.place d) }
    ensures gap { IfNone result.row (IsGap row_key rows.now (key_of prefix) result.place) }
    ensures before { (k : ℕ) → IfSome result.before (IsBaseBefore (slots_in k rows.now) result.place) }
    ensures sound { IsCidr prefix }
{
    if let Some(spot) = look_near(rows, near, prefix) {
        return spot;
    }
    let place = place_of(rows, prefix);
    Spot {
        place,
        row: row_at(rows, place, prefix),
        before: None,
    }
}
