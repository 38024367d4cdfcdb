//! What is shown otherwise once a link has gone down or come up.

ghost use Rattle.std.specs.Prelude.{◌≡◌, ℕ, [], false, ◌+◌, ◌<◌, ◌≤◌, ◌^◌, IfOk, OnOk, length, slice_index_or};
ghost use Rattle.base.specs.Forwarding.{AreForwarding};
ghost use Rattle.base.specs.Reach.{is_over};
ghost use Rattle.base.specs.declared.target.Target.{Target as TargetIs};
ghost use Rattle.label_view.specs.Columns.{AreOfColumn};
ghost use Rattle.label_view.specs.Places.{AreRunsFrom, begin_of};
ghost use Rattle.net_engine.specs.LinkSet.{AreAlikeBut};
ghost use Rattle.net_engine.specs.LinkTurn.{AreMarked, IsStretch, IsTurnDelta, IsTurnTold};

use crate::link_set::LinkSet;
use crate::told::tell;
use delta_graph::Delta;
use dn_model::{Change, LinkId, OutOfMemory, RouterId, Run, Target};
use label_view::{Column, LabelView, PAGE, Rows};
use std::sync::ledger::Ledger;
use step_count::Steps;

/// The links that are down before and after one goes down or comes up.
#[derive(Clone, Copy)]
pub struct Turn<'a> {
    pub before: &'a LinkSet,
    pub after: &'a LinkSet,
    /// The one that does.
    pub link: LinkId,
}

/// Whether a target goes on over a link.
fn is_by(target: Target, link: LinkId) -> bool
    ensures { result ≡ is_over link target }
{
    match target {
        Target::To(_, over) => over.0 == link.0,
        _ => false,
    }
}

/// The first place of a target over a link, from a place on; how many targets there are if none is.
fn next_over(targets: &[Target], k: usize, link: LinkId) -> usize
    requires { k ≤ length targets.now }
    ensures from { k ≤ result }
    ensures inside { result ≤ length targets.now }
    ensures none { (j : ℕ) (d : TargetIs) → k ≤ j → j < result → is_over link (slice_index_or targets.now j d) ≡ false }
{
    let mut place = k;
    'targets: while place < targets.len() && !is_by(targets[place], link) {
        place += 1;
    }
    place
}

/// Rows side by side with whose addresses a router does one and the same.
#[derive(Clone, Copy)]
struct Stretch {
    router: RouterId,
    rows: Rows,
    /// Their addresses.
    run: Run,
    /// What the router does with them while all links are up.
    target: Target,
}

/// Up to which place, from one on, a router does one and the same with the rows of a column.
fn same_past(targets: &[Target], k: usize) -> usize
    requires { k < length targets.now }
    ensures some { k < result }
    ensures inside { result ≤ length targets.now }
    ensures same { (j : ℕ) (d : TargetIs) → k ≤ j → j < result →
        slice_index_or targets.now j d ≡ slice_index_or targets.now k d }
{
    let first = targets[k];
    let mut past = k + 1;
    'rows: while past < targets.len() && targets[past] == first {
        past += 1;
    }
    past
}

/// Tells what the turn changes of a stretch of rows.
fn tell_stretch<V: LabelView>(
    delta: &mut Delta,
    view: &V,
    stretch: Stretch,
    turn: &Turn<'_>,
) -> Result<(), OutOfMemory>
    requires form { AreForwarding (V.width view.now) (V.rows view.now) }
    requires stretch { IsStretch (V.rows view.now) stretch }
    requires told { IsTurnTold turn.now.before.now turn.now.after.now (V.rows view.now) delta.old stretch.router.0
        (begin_of (V.rows view.now) stretch.rows.from) }
    ensures { OnOk result (IsTurnTold turn.now.before.now turn.now.after.now (V.rows view.now) delta.new
        stretch.router.0 (begin_of (V.rows view.now) stretch.rows.past)) }
{
    let before = turn.before.shown(stretch.target);
    let after = turn.after.shown(stretch.target);
    if before == after {
        return Ok(());
    }
    tell(
        delta,
        Change {
            router: stretch.router,
            run: stretch.run,
            before,
            after,
        },
    )
}

/// Tells what the turn changes of the rows of a column from a place on with which its router does one and the same. It
/// answers up to which place it is done. The rows' runs are given.
fn tell_some<V: LabelView>(
    delta: &mut Delta,
    view: &V,
    column: &Column<'_>,
    runs: &[Run],
    k: usize,
    turn: &Turn<'_>,
) -> Result<usize, OutOfMemory>
    requires form { AreForwarding (V.width view.now) (V.rows view.now) }
    requires place { k < length column.now.targets.now }
    requires inside { column.now.from + length column.now.targets.now ≤ length (V.rows view.now) }
    requires fits { column.now.from + length column.now.targets.now < 2 ^ 64 }
    requires column { AreOfColumn (V.rows view.now) column.now.router column.now.from column.now.targets.now }
    requires runs { length column.now.targets.now ≤ length runs.now }
    requires are { AreRunsFrom (V.rows view.now) column.now.from (length column.now.targets.now) runs.now }
    requires told { IsTurnTold turn.now.before.now turn.now.after.now (V.rows view.now) delta.old column.now.router.0
        (begin_of (V.rows view.now) (column.now.from + k)) }
    ensures some { IfOk result (λ past. k < past) }
    ensures inside { IfOk result (λ past. past ≤ length column.now.targets.now) }
    ensures told { IfOk result (λ past. IsTurnTold turn.now.before.now turn.now.after.now (V.rows view.now) delta.new
        column.now.router.0 (begin_of (V.rows view.now) (column.now.from + past))) }
{
    let past = same_past(column.targets, k);
    let stretch = Stretch {
        router: column.router,
        rows: Rows {
            from: column.from + k as u64,
            past: column.from + past as u64,
        },
        run: Run {
            lo: runs[k].lo,
            hi: runs[past - 1].hi,
        },
        target: column.targets[k],
    };
    tell_stretch(delta, view, stretch, turn)?;
    Ok(past)
}

/// Tells what the turn changes of the rows of a column, whose runs are given.
fn tell_column<V: LabelView>(
    delta: &mut Delta,
    view: &V,
    column: &Column<'_>,
    runs: &[Run],
    turn: &Turn<'_>,
) -> Result<(), OutOfMemory>
    requires alike { AreAlikeBut turn.now.before.now turn.now.after.now turn.now.link }
    requires form { AreForwarding (V.width view.now) (V.rows view.now) }
    requires inside { column.now.from + length column.now.targets.now ≤ length (V.rows view.now) }
    requires fits { column.now.from + length column.now.targets.now < 2 ^ 64 }
    requires column { AreOfColumn (V.rows view.now) column.now.router column.now.from column.now.targets.now }
    requires runs { length column.now.targets.now ≤ length runs.now }
    requires are { AreRunsFrom (V.rows view.now) column.now.from (length column.now.targets.now) runs.now }
    requires told { IsTurnTold turn.now.before.now turn.now.after.now (V.rows view.now) delta.old column.now.router.0
        (begin_of (V.rows view.now) column.now.from) }
    ensures { OnOk result (IsTurnTold turn.now.before.now turn.now.after.now (V.rows view.now) delta.new
        column.now.router.0 (begin_of (V.rows view.now) (column.now.from + length column.now.targets.now))) }
{
    let mut k = next_over(column.targets, 0, turn.link);
    'rows: while k < column.targets.len() {
        let past = tell_some(delta, view, column, runs, k, turn)?;
        k = next_over(column.targets, past, turn.link);
    }
    Ok(())
}

/// Tells what the turn changes of what a router does, page by page of its rows.
fn tell_router<V: LabelView>(
    delta: &mut Delta,
    view: &V,
    router: RouterId,
    turn: &Turn<'_>,
) -> Result<(), OutOfMemory>
    requires alike { AreAlikeBut turn.now.before.now turn.now.after.now turn.now.link }
    requires router { router.0 < V.width view.now }
    requires told { IsTurnTold turn.now.before.now turn.now.after.now (V.rows view.now) delta.old router.0 0 }
    ensures { OnOk result (IsTurnTold turn.now.before.now turn.now.after.now (V.rows view.now) delta.new
        (router.0 + 1) 0) }
{
    let mut runs = [Run { lo: 0, hi: 0 }; PAGE];
    let mut page = [Target::NoRoute; PAGE];
    let rows = view.atoms();
    let mut from = 0;
    'pages: while from < rows {
        let some = view.runs(from, &mut runs);
        let count = view.column(router, from, &mut page[..some]);
        let column = Column {
            router,
            from,
            targets: &page[..count],
        };
        tell_column(delta, view, &column, &runs, turn)?;
        from += count as u64;
    }
    Ok(())
}

/// Whether a router is marked.
fn is_marked(marks: &[bool], router: RouterId) -> bool
    ensures { result ≡ slice_index_or marks.now router.0 false }
{
    match marks.get(usize::from(router.0)) {
        Some(mark) => *mark,
        None => false,
    }
}

/// Tells what the turn changes of what a router does, if it is marked: else that is nothing.
fn tell_if_marked<V: LabelView>(
    delta: &mut Delta,
    view: &V,
    router: RouterId,
    marks: &[bool],
    turn: &Turn<'_>,
) -> Result<(), OutOfMemory>
    requires alike { AreAlikeBut turn.now.before.now turn.now.after.now turn.now.link }
    requires router { router.0 < V.width view.now }
    requires marked { AreMarked turn.now.before.now turn.now.after.now (V.rows view.now) marks.now }
    requires told { IsTurnTold turn.now.before.now turn.now.after.now (V.rows view.now) delta.old router.0 0 }
    ensures { OnOk result (IsTurnTold turn.now.before.now turn.now.after.now (V.rows view.now) delta.new
        (router.0 + 1) 0) }
{
    if is_marked(marks, router) {
        return tell_router(delta, view, router, turn);
    }
    Ok(())
}

/// A step for each of so many rows.
fn count_rows<L: Ledger>(rows: u64, steps: &mut Steps<L>)
    ensures { steps.new ≡ steps.old + rows }
{
    for _row in 0..rows {
        steps.tick();
    }
}

/// What is shown otherwise of rows once other links are down: the changes, of the routers that are marked, of which each
/// one's rows are read in order. They are told in the memory of changes that are done with. A row takes a step, however
/// many routers are read there. It fails for want of memory alone.
pub fn turn_changes<V: LabelView, L: Ledger>(
    view: &V,
    marks: &[bool],
    turn: &Turn<'_>,
    told: Delta,
    steps: &mut Steps<L>,
) -> Result<Delta, OutOfMemory>
    requires none { told ≡ [] }
    requires alike { AreAlikeBut turn.now.before.now turn.now.after.now turn.now.link }
    requires marked { AreMarked turn.now.before.now turn.now.after.now (V.rows view.now) marks.now }
    ensures changes { IfOk result (IsTurnDelta turn.now.before.now turn.now.after.now (V.rows view.now)) }
    ensures cost { steps.new ≤ steps.old + length (V.rows view.now) }
{
    count_rows(view.atoms(), steps);
    let mut delta = told;
    for r in 0..view.routers() {
        tell_if_marked(&mut delta, view, RouterId(r as u16), marks, turn)?;
    }
    Ok(delta)
}
