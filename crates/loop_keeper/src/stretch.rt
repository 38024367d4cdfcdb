//! Rows side by side that the run of a change meets.

ghost use Rattle.std.specs.Prelude.{◌≡◌, ◌≤◌, OnOk, IfOk};
ghost use Rattle.std.specs.List.Sorted.{IsPermutation};
ghost use Rattle.base.specs.Delta.{AreChanges, IsChange};
ghost use Rattle.loop_keeper.specs.Together.{AddsStretch, AreInOrder, AreStretches};

use crate::finding::{goes_on, places_of};
use crate::following::Start;
use base::{Change, OutOfMemory};
use label_view::LabelView;
use std::alloc::Global;

/// The rows that the run of a change meets, and where following them begins.
#[derive(Clone, Copy, Debug, PartialEq, Eq)]
pub(crate) struct Stretch {
    /// The place of the first row.
    pub(crate) first: u64,
    /// The place after the last row.
    pub(crate) past: u64,
    /// The router, and what it does in each of the rows.
    pub(crate) start: Start,
}

/// Puts the stretch of a change behind others, if a cycle may go through its router. The first row is asked for near a
/// place, which becomes that for the next change.
fn push_stretch<V: LabelView>(
    view: &V,
    change: &Change,
    near: &mut u64,
    stretches: &mut Vec<Stretch>,
) -> Result<(), OutOfMemory>
    requires { IsChange change.now }
    ensures { OnOk result (AddsStretch (V.width view.now) (V.rows view.now) change.now stretches.old.items stretches.new.items) }
{
    if !goes_on(view, change) {
        return Ok(());
    }
    let places = places_of(view, *near, change);
    *near = places.last.saturating_add(2);
    let start = Start {
        router: change.router,
        target: change.after,
    };
    stretches.push(Stretch {
        first: places.first,
        past: places.last + 1,
        start,
    })?;
    Ok(())
}

/// The stretches of changes.
fn stretches_of<V: LabelView>(
    alloc: Global,
    view: &V,
    changes: &[Change],
    near: u64,
) -> Result<Vec<Stretch>, OutOfMemory>
    requires { AreChanges changes.now }
    ensures { IfOk result (λ stretches.
        AreStretches (V.width view.now) (V.rows view.now) changes.now stretches.items) }
{
    let mut stretches = Vec::new(alloc);
    let mut near = near;
    for change in changes {
        push_stretch(view, change, &mut near, &mut stretches)?;
    }
    Ok(stretches)
}

/// Puts stretches in the order of their first rows.
fn sort(stretches: &mut Vec<Stretch>)
    ensures same { IsPermutation stretches.old.items stretches.new.items }
    ensures order { AreInOrder stretches.new.items }
{
    stretches.sort_unstable_by_key(
        |stretch| -> u64
            ensures { result ≡ stretch.now.first }
        { stretch.first },
    );
}

/// The stretches of changes, in the order of their first rows.
pub(crate) fn sorted_stretches<V: LabelView>(
    alloc: Global,
    view: &V,
    changes: &[Change],
    near: u64,
) -> Result<Vec<Stretch>, OutOfMemory>
    requires { AreChanges changes.now }
    ensures are { IfOk result (λ stretches.
        AreStretches (V.width view.now) (V.rows view.now) changes.now stretches.items) }
    ensures order { IfOk result (λ stretches. AreInOrder stretches.items) }
{
    let mut stretches = stretches_of(alloc, view, changes, near)?;
    sort(&mut stretches);
    Ok(stretches)
}
