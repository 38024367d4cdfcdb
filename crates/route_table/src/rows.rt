//! The routes of the prefixes of four tables.

ghost use Rattle.std.specs.Prelude.{◌≡◌, ◌≢◌, ◌<◌, ◌≤◌, ◌∷◌, ℕ, [], None, OnOk, OnErr, IfOk, IfSome, IfNone, IsFalse, IsTrue, IsPermutation, length, slice_index_or};
ghost use Rattle.base.specs.Cidr.{IsCidr};
ghost use Rattle.route_table.specs.Ascending.{AscendsFrom, IsFound, IsGap, IsPlace};
ghost use Rattle.route_table.specs.Rows.{row_key, slot_in, slots_in, AddsSlots, IsHeld, KeepsSlots, TellsFirst};
ghost use Rattle.route_table.specs.Slots.{key_of, AreSlots, IsAddedAt, IsUnchangedBy, IsUpdatedAt, IsUpdatedIn, SetsOrHasSome, updated_targets};
ghost use Rattle.route_table.specs.Targets.{metric_of, IsFirst};
ghost use Rattle.route_table.specs.declared.rows.PrefixRow.{PrefixRow as Row};

use crate::lane::{LANES, Lane};
use crate::prefix::prefix_key;
use crate::table_update::TableUpdate;
use crate::targets::TargetsByMetric;
use dn_model::{OutOfMemory, Prefix, Route, TableOp, Way};
use std::alloc::{AllocError, Global};
use version_pages::{Keyed, Pages};

/// The routes of one prefix in each of the tables: what they do, by metric. What one table has of them is its slot in
/// the row. A row whose routes are all cleared stays.
#[derive(Drop)]
pub struct PrefixRow {
    pub prefix: Prefix,
    pub lanes: [TargetsByMetric; LANES],
}

impl PrefixRow {
    /// What the routes of one of the tables do.
    pub fn targets(&self, lane: Lane) -> &TargetsByMetric
        ensures { result.now ≡ (slot_in lane.index self.now).targets }
    {
        &self.lanes[lane.index]
    }
}

impl Clone for PrefixRow {
    ghost is_clone = { λ row copy. copy ≡ row };

    fn clone(&self) -> Result<PrefixRow, AllocError> {
        match copies(&self.lanes) {
            Ok(lanes) => Ok(PrefixRow {
                prefix: self.prefix,
                lanes,
            }),
            Err(OutOfMemory) => Err(AllocError),
        }
    }
}

/// The same again.
fn copies(lanes: &[TargetsByMetric; LANES]) -> Result<[TargetsByMetric; LANES], OutOfMemory>
    ensures { IfOk result (λ copies. copies ≡ lanes.now) }
{
    let [first, second, third, fourth] = lanes;
    Ok([first.copy()?, second.copy()?, third.copy()?, fourth.copy()?])
}

/// Rows are searched by their prefixes.
impl Keyed for PrefixRow {
    ghost use Rattle.std.proofs.Common.{rules};

    ghost key_of = { row_key };

    ghost clones = { Prim.search rules };

    fn key(&self) -> u64 {
        prefix_key(self.prefix)
    }
}

/// The place of the first row whose prefix doesn't go before this one.
pub fn place_of(rows: &Pages<PrefixRow>, prefix: Prefix) -> u64
    requires { (k : ℕ) → AreSlots (slots_in k rows.now) }
    ensures place { IsPlace row_key rows.now (key_of prefix) result }
    ensures sound { IsCidr prefix }
{
    rows.count_below(prefix_key(prefix))
}

/// A row, if it is that of a prefix.
pub fn own_row(row: &PrefixRow, prefix: Prefix) -> Option<&PrefixRow>
    ensures some { IfSome result (λ own. own.now ≡ row.now × row_key row.now ≡ key_of prefix) }
    ensures none { IfNone result (row_key row.now ≢ key_of prefix) }
{
    if row.key() == prefix_key(prefix) {
        return Some(row);
    }
    None
}

/// The row at a place where that of a prefix stands, if there is one.
pub fn row_at(rows: &Pages<PrefixRow>, place: u64, prefix: Prefix) -> Option<&PrefixRow>
    requires { IsPlace row_key rows.now (key_of prefix) place }
    ensures found { IfSome result (λ _. IsFound row_key rows.now (key_of prefix) place) }
    ensures row { (d : Row) → IfSome result (λ row. row.now ≡ slice_index_or rows.now place d) }
    ensures gap { IfNone result (IsGap row_key rows.now (key_of prefix) place) }
{
    let Some(row) = rows.get(place) else {
        return None;
    };
    own_row(row, prefix)
}

/// What the route of a slot with the least metric does. It is none where the slot has no route.
pub fn first_of(row: &PrefixRow, lane: Lane) -> Option<Way>
    ensures first { IsFirst (slot_in lane.index row.now).targets result }
    ensures metrics { AscendsFrom metric_of 0 (slot_in lane.index row.now).targets }
{
    let first = row.targets(lane).first()?;
    Some(first.way)
}

/// Whether one of the tables has a route in a row.
fn is_held(row: &PrefixRow) -> bool
    ensures { IsTrue result → IsHeld row.now }
{
    'lanes: for lane in 0..LANES {
        if row.lanes[lane].has(None) {
            return true;
        }
    }
    false
}

/// Whether an update puts a route into a row in which none of the tables has one.
pub fn is_first(row: &PrefixRow, op: &TableOp) -> bool
    ensures { TellsFirst row.now op.now result }
{
    match op {
        TableOp::Put { .. } => !is_held(row),
        TableOp::Clear { .. } => false,
    }
}

/// Whether an update of its prefix changes anything in a slot.
pub fn changes(row: &PrefixRow, lane: Lane, update: &TableUpdate) -> bool
    ensures same { IsFalse result →
        IsUnchangedBy update.now.alone (slot_in lane.index row.now).targets update.now.op }
    ensures some { IsTrue result → SetsOrHasSome (slot_in lane.index row.now).targets update.now.op }
{
    let targets = row.targets(lane);
    match &update.op {
        TableOp::Put { metric, way, .. } => !targets.has_put(update.alone, *metric, *way),
        TableOp::Clear { metric, .. } => targets.has(*metric),
    }
}

/// Makes an update of its prefix among the routes of a slot. After `OutOfMemory`, for which alone it fails, they are as
/// before.
fn update_targets(targets: &mut TargetsByMetric, update: &TableUpdate) -> Result<(), OutOfMemory>
    ensures ok { OnOk result (
        IsPermutation targets.new (updated_targets update.now.alone targets.old update.now.op)) }
    ensures err { OnErr result (targets.new ≡ targets.old) }
{
    match &update.op {
        TableOp::Put { metric, way, .. } => return targets.put(update.alone, *metric, *way),
        TableOp::Clear { metric, .. } => return targets.clear(*metric),
    }
}

/// Makes an update of its prefix in a slot, and answers what its route with the least metric does then. After
/// `OutOfMemory`, for which alone it fails, the row is as before.
fn update_in(
    row: &mut PrefixRow,
    lane: Lane,
    update: &TableUpdate,
) -> Result<Option<Way>, OutOfMemory>
    ensures ok { IfOk result (λ first.
        IsUpdatedIn (slot_in lane.index row.old) (slot_in lane.index row.new) update.now.alone update.now.op first) }
    ensures others { (k : ℕ) → k ≢ lane.index → slot_in k row.new ≡ slot_in k row.old }
    ensures err { OnErr result (row.new ≡ row.old) }
{
    update_targets(&mut row.lanes[lane.index], update)?;
    Ok(first_of(row, lane))
}

/// Makes an update in the slot at a place, and answers what its route with the least metric does then. After
/// `OutOfMemory`, for which alone it fails, all is as before.
pub fn update_at(
    alloc: Global,
    rows: &mut Pages<PrefixRow>,
    lane: Lane,
    place: u64,
    update: &TableUpdate,
) -> Result<Option<Way>, OutOfMemory>
    requires inside { place < length rows.old }
    ensures ok { IfOk result (λ first.
        IsUpdatedAt (slots_in lane.index rows.old) (slots_in lane.index rows.new) place
        update.now.alone update.now.op first) }
    ensures others { KeepsSlots lane.index rows.old rows.new }
    ensures err { OnErr result (rows.new ≡ rows.old) }
{
    rows.change(
        alloc,
        place,
        |row: &mut PrefixRow| update_in(row, lane, update),
    )?
}

/// A row with one route in one of the tables.
fn row_of(alloc: Global, lane: Lane, route: &Route) -> PrefixRow
    ensures prefix { result.prefix ≡ route.now.prefix }
    ensures targets { (slot_in lane.index result).targets ≡
        record { metric = route.now.metric; way = route.now.way } ∷ [] }
    ensures others { (k : ℕ) → k ≢ lane.index → (slot_in k result).targets ≡ [] }
{
    let mut lanes = [
        TargetsByMetric::none(alloc),
        TargetsByMetric::none(alloc),
        TargetsByMetric::none(alloc),
        TargetsByMetric::none(alloc),
    ];
    lanes[lane.index] = TargetsByMetric::one(alloc, route.metric, route.way);
    PrefixRow {
        prefix: route.prefix,
        lanes,
    }
}

/// Puts a row at a place, with one route in one of the tables. After `OutOfMemory`, for which alone it
/// fails, all is as before.
pub fn add_at(
    alloc: Global,
    rows: &mut Pages<PrefixRow>,
    lane: Lane,
    place: u64,
    route: &Route,
) -> Result<(), OutOfMemory>
    requires inside { place ≤ length rows.old }
    requires sound { IsCidr route.now.prefix }
    ensures ok { OnOk result (IsAddedAt (slots_in lane.index rows.old) (slots_in lane.index rows.new) place route.now) }
    ensures others { OnOk result (AddsSlots lane.index rows.old rows.new place route.now.prefix) }
    ensures err { OnErr result (rows.new ≡ rows.old) }
{
    let row = row_of(alloc, lane, route);
    return rows.insert_at(alloc, place, row);
}
