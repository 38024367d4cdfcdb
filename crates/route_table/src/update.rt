//! Updates of one of the tables.

ghost use Rattle.std.specs.Prelude.{◌≡◌, ◌+◌, IfSome};
ghost use Rattle.base.specs.Cidr.{IsCidr};
ghost use Rattle.dn_model.specs.Table.{prefix_of_op};
ghost use Rattle.route_table.specs.Above.{IsDoneAbove};
ghost use Rattle.route_table.specs.Ascending.{IsFound, IsGap};
ghost use Rattle.route_table.specs.Made.{IsMaking};
ghost use Rattle.route_table.specs.Rows.{row_key, slots_in, AreWhole};
ghost use Rattle.route_table.specs.Searches.{IsBaseBefore};
ghost use Rattle.route_table.specs.Slots.{key_of, slot_key};

use crate::above::first_above;
use crate::lane::Lane;
use crate::lengths::Lengths;
use crate::rows::{PrefixRow, add_at, changes, first_of, is_first, update_at};
use crate::search::{Spot, look};
use crate::table_update::TableUpdate;
use dn_model::{OutOfMemory, Prefix, Route, TableOp, Target, Way};
use std::alloc::Global;
use std::sync::ledger::Ledger;
use step_count::Steps;
use version_pages::Pages;

/// An update that was made in the row of its prefix: where that stands, the first address of the prefix of the row
/// before it, if that was at hand, what the prefix's route with the least metric did and does, and whether a route was put
/// where none of the tables had one of the prefix.
#[derive(Clone, Copy, Debug, PartialEq, Eq)]
pub struct Made {
    pub place: u64,
    pub base: Option<u32>,
    pub before: Option<Way>,
    pub first: Option<Way>,
    pub is_new: bool,
}

/// Where a row belongs that isn't there, with the first address of the prefix of the row before it, if that was at hand.
#[derive(Clone, Copy)]
struct Gap {
    place: u64,
    base: Option<u32>,
}

/// Makes an update of one of the tables in the row of its prefix, which is put there where there is none. It answers
/// nothing where that changes nothing. The row is looked for first near a place: any will do. After `OutOfMemory`, for
/// which alone it fails, all is as before.
pub fn make(
    alloc: Global,
    rows: &mut Pages<PrefixRow>,
    lane: Lane,
    lengths: &mut Lengths,
    update: &TableUpdate,
    near: u64,
) -> Result<Option<Made>, OutOfMemory>
    requires { AreWhole rows.old lengths.old }
    ensures { IsMaking lane.index rows.old rows.new lengths.new update.now result }
{
    let Spot {
        place,
        row,
        before: base,
    } = look(rows, near, update.op.prefix());
    let Some(row) = row else {
        return make_first(alloc, rows, lane, lengths, update, Gap { place, base });
    };
    if !changes(row, lane, update) {
        return Ok(None);
    }
    let before = first_of(row, lane);
    let is_new = is_first(row, &update.op);
    let first = update_at(alloc, rows, lane, place, update)?;
    Ok(Some(Made {
        place,
        base,
        before,
        first,
        is_new,
    }))
}

/// Makes an update of a prefix that has no row, which belongs in a gap: a clearing changes nothing.
fn make_first(
    alloc: Global,
    rows: &mut Pages<PrefixRow>,
    lane: Lane,
    lengths: &mut Lengths,
    update: &TableUpdate,
    gap: Gap,
) -> Result<Option<Made>, OutOfMemory>
    requires whole { AreWhole rows.old lengths.old }
    requires gap { IsGap row_key rows.old (key_of (prefix_of_op update.now.op)) gap.place }
    requires base { IfSome gap.base (IsBaseBefore (slots_in lane.index rows.old) gap.place) }
    requires sound { IsCidr (prefix_of_op update.now.op) }
    ensures { IsMaking lane.index rows.old rows.new lengths.new update.now result }
{
    let TableOp::Put {
        prefix,
        metric,
        way,
    } = &update.op
    else {
        return Ok(None);
    };
    let route = Route {
        prefix: *prefix,
        metric: *metric,
        way: *way,
    };
    add_at(alloc, rows, lane, gap.place, &route)?;
    lengths.add(*prefix);
    Ok(Some(Made {
        place: gap.place,
        base: gap.base,
        before: None,
        first: Some(*way),
        is_new: true,
    }))
}

/// What is done at the own addresses of a prefix whose routes all were cleared: that of the prefix above it. It is one
/// step, however many prefixes without routes are passed over on the way.
pub fn done_above<L: Ledger>(
    rows: &Pages<PrefixRow>,
    lane: Lane,
    lengths: &Lengths,
    prefix: Prefix,
    made: Made,
    steps: &mut Steps<L>,
) -> Way
    requires whole { AreWhole rows.now lengths.now }
    requires found { IsFound slot_key (slots_in lane.index rows.now) (key_of prefix) made.place }
    requires base { IfSome made.base (IsBaseBefore (slots_in lane.index rows.now) made.place) }
    ensures above { IsDoneAbove (slots_in lane.index rows.now) prefix result }
    ensures cost { steps.new ≡ steps.old + 1 }
{
    steps.tick();
    match first_above(rows, lane, lengths, prefix, made.place, made.base) {
        Some(way) => way,
        None => Way::Straight(Target::NoRoute),
    }
}
