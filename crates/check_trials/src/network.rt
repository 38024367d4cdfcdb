//! Small networks, row by row, and what several tests ask of a view.

ghost use Rattle.std.specs.Prelude.{◌≡◌, ◌++◌, ◌∷◌, []};

use base::{ForwardingRow, LinkId, List, RouterId, Target};
use label_view::{LabelView, ListView};
use std::alloc::Global;
use std::process::Abort;

pub(crate) const FIRST: RouterId = RouterId(0);

pub(crate) const SECOND: RouterId = RouterId(1);

pub(crate) const THIRD: RouterId = RouterId(2);

pub(crate) const FOURTH: RouterId = RouterId(3);

pub(crate) const TO_FIRST: Target = Target::To(FIRST, LinkId(0));

pub(crate) const TO_SECOND: Target = Target::To(SECOND, LinkId(0));

pub(crate) const TO_THIRD: Target = Target::To(THIRD, LinkId(0));

pub(crate) const TO_FOURTH: Target = Target::To(FOURTH, LinkId(0));

/// The last address.
pub(crate) const LAST: u32 = 4_294_967_295;

/// The address after the last.
pub(crate) const PAST: u64 = 4_294_967_296;

/// A value crosses to another thread.
pub(crate) fn crosses<T: Send + Sync>(_value: &T) {}

/// What a router does with an address, by the bound alone.
pub(crate) fn target_at<V: LabelView>(view: &V, r: RouterId, a: u32) -> Option<Target> {
    if u32::from(r.0) < view.routers() {
        return Some(view.target(r, view.atom_of(a)));
    }
    None
}

/// Whether a router's column from a place on has what the router does with each of its rows.
pub(crate) fn is_column<V: LabelView>(view: &V, r: RouterId, i: u64) -> bool {
    if u32::from(r.0) >= view.routers() || i >= view.atoms() {
        return false;
    }
    let mut column = [Target::Exit(0); 4];
    let count = view.column(r, i, &mut column);
    for k in 0..count {
        if column[k] != view.target(r, i + k as u64) {
            return false;
        }
    }
    true
}

/// Whether the row at a place, for which there is this room, has what each router does with it.
pub(crate) fn is_row<V: LabelView>(view: &V, i: u64, room: &mut [Target]) -> bool {
    if room.len() != view.routers() as usize || i >= view.atoms() {
        return false;
    }
    view.row(i, room);
    for r in 0..view.routers() {
        if room.get(r as usize) != Some(&view.target(RouterId(r as u16), i)) {
            return false;
        }
    }
    true
}

/// What the routers do with the addresses from `low` up to, and without, `past`.
pub(crate) fn row(
    rt: &impl Abort,
    alloc: Global,
    low: u64,
    past: u64,
    targets: &[Target],
) -> ForwardingRow
    ensures low { result.low ≡ low }
    ensures past { result.past ≡ past }
    ensures targets { result.targets ≡ targets.now }
{
    let mut list = Vec::new(alloc);
    list.extend_from_slice(targets).expect(rt, "memory");
    ForwardingRow {
        low,
        past,
        targets: List::from_vec(list),
    }
}

/// One more row stands behind others.
pub(crate) fn push_row(
    rt: &impl Abort,
    alloc: Global,
    rows: &mut List<ForwardingRow>,
    low: u64,
    past: u64,
    targets: &[Target],
)
    ensures { rows.new ≡ rows.old ++ record { low = low; past = past; targets = targets.now } ∷ [] }
{
    let row = row(rt, alloc, low, past, targets);
    rows.push(row).expect(rt, "memory");
}

/// Up to 9 r1 sends all to r2, from 10 to 19 r2 sends it back, and from 20 on r1 has no route.
pub(crate) fn there_and_back(rt: &impl Abort, alloc: Global) -> ListView
    ensures { result.routers ≡ 2 }
{
    let mut rows = List::new(alloc);
    push_row(rt, alloc, &mut rows, 0, 10, &[TO_SECOND, Target::Local]);
    push_row(rt, alloc, &mut rows, 10, 20, &[TO_SECOND, TO_FIRST]);
    push_row(
        rt,
        alloc,
        &mut rows,
        20,
        PAST,
        &[Target::NoRoute, Target::Local],
    );
    ListView::new(2, rows)
}
