//! Addresses that miss a waypoint.

ghost use Rattle.std.specs.Prelude.{◌≡◌, ℕ, ◌+◌, ◌*◌, ◌<◌, ◌≤◌, ◌^◌, IfOk, OnOk, length, slice_index_or};
ghost use Rattle.base.specs.Forwarding.{AreForwarding, does, target_of};
ghost use Rattle.base.specs.Reach.{comes_before, misses};
ghost use Rattle.base.specs.Runs.{AreRuns};
ghost use Rattle.base.specs.Walk.{at_address, walk};
ghost use Rattle.base.specs.declared.forwarding_row.ForwardingRow.{ForwardingRow};
ghost use Rattle.label_view.specs.Columns.{AreOfColumn};
ghost use Rattle.label_view.specs.Places.{AreGatheredTo, IsInRow};

use base::{List, OutOfMemory, RouterId, Run, Target};
use label_view::runs::RunList;
use label_view::{Column, LabelView, PAGE};
use std::alloc::Global;
use std::sync::ledger::Ledger;
use step_count::Steps;

/// Which walks are asked for: those that meet the router `to`, and don't meet the waypoint before it or there.
#[derive(Clone, Copy)]
struct Asked {
    to: RouterId,
    through: RouterId,
}

/// Whether the addresses of the row at a place come from a router, in so many hops at most, to another without having
/// met the waypoint.
fn walk_misses<V: LabelView, L: Ledger>(
    view: &V,
    i: u64,
    first: RouterId,
    hops: u32,
    asked: Asked,
    steps: &mut Steps<L>,
) -> bool
    requires form { AreForwarding (V.width view.now) (V.rows view.now) }
    requires router { first.0 < V.width view.now }
    requires place { i < length (V.rows view.now) }
    ensures misses { (a : ℕ) → IsInRow (V.rows view.now) i a
        → result ≡ comes_before asked.to asked.through (walk (at_address (does (V.rows view.now)) a) hops first) }
    ensures cost { steps.new ≤ steps.old + hops }
{
    let mut router = first;
    let mut left = hops;
    while left > 0 {
        if router.0 == asked.through.0 {
            return false;
        }
        if router.0 == asked.to.0 {
            return true;
        }
        steps.tick();
        match view.target(router, i) {
            Target::To(far, _) => router = far,
            _ => return false,
        }
        left -= 1;
    }
    if router.0 == asked.through.0 {
        return false;
    }
    router.0 == asked.to.0
}

/// Whether the addresses of the row at a place, with which a router does this, come from it to another without having
/// met the waypoint.
fn row_misses<V: LabelView, L: Ledger>(
    view: &V,
    i: u64,
    first: RouterId,
    target: Target,
    asked: Asked,
    steps: &mut Steps<L>,
) -> bool
    requires router { first.0 < V.width view.now }
    requires place { i < length (V.rows view.now) }
    requires target { (d : ForwardingRow) → target ≡ target_of (slice_index_or (V.rows view.now) i d) first }
    ensures misses { (a : ℕ) → IsInRow (V.rows view.now) i a
        → result ≡ misses (V.width view.now) (does (V.rows view.now)) first asked.to asked.through a }
    ensures cost { steps.new ≤ steps.old + V.width view.now }
{
    let routers = view.routers();
    if first.0 == asked.through.0 {
        return false;
    }
    if first.0 == asked.to.0 {
        return true;
    }
    steps.tick();
    match target {
        Target::To(far, _) => walk_misses(view, i, far, routers - 1, asked, steps),
        _ => false,
    }
}

/// Adds, of the rows of a column, the addresses whose walks from the router are asked for.
fn add_column<V: LabelView, L: Ledger>(
    view: &V,
    column: &Column<'_>,
    asked: Asked,
    runs: &mut RunList,
    steps: &mut Steps<L>,
) -> Result<(), OutOfMemory>
    requires form { AreForwarding (V.width view.now) (V.rows view.now) }
    requires router { column.now.router.0 < V.width view.now }
    requires inside { column.now.from + length column.now.targets.now ≤ length (V.rows view.now) }
    requires fits { column.now.from + length column.now.targets.now < 2 ^ 64 }
    requires column { AreOfColumn (V.rows view.now) column.now.router column.now.from column.now.targets.now }
    requires runs { AreGatheredTo runs.old (V.rows view.now) column.now.from
        (misses (V.width view.now) (does (V.rows view.now)) column.now.router asked.to asked.through) }
    ensures runs { OnOk result
        (AreGatheredTo runs.new (V.rows view.now) (column.now.from + length column.now.targets.now)
        (misses (V.width view.now) (does (V.rows view.now)) column.now.router asked.to asked.through)) }
    ensures cost { steps.new ≤ steps.old + length column.now.targets.now * V.width view.now }
{
    for k in 0..column.targets.len() {
        let i = column.from + k as u64;
        let passes = row_misses(view, i, column.router, column.targets[k], asked, steps);
        runs.push_row_if(view, i, passes)?;
    }
    Ok(())
}

/// The runs of the addresses whose walk from a router meets the router `to`, and doesn't meet the waypoint `through`
/// before it or there; in order, no two touching. There are none where the waypoint is either router. What a walk meets
/// after `to` doesn't count. Each row is followed once, and only as far as it goes: at most as many looks as there are
/// routers, so at most as many as rows times routers.
pub fn waypoint<V: LabelView, L: Ledger>(
    alloc: Global,
    view: &V,
    first: RouterId,
    to: RouterId,
    through: RouterId,
    steps: &mut Steps<L>,
) -> Result<List<Run>, OutOfMemory>
    requires { first.0 < V.width view.now }
    ensures runs { IfOk result (λ runs.
        AreRuns runs (misses (V.width view.now) (does (V.rows view.now)) first to through)) }
    ensures cost { steps.new ≤ steps.old + length (V.rows view.now) * V.width view.now }
{
    let asked = Asked { to, through };
    let mut runs = RunList::new(alloc);
    let mut page = [Target::NoRoute; PAGE];
    let rows = view.atoms();
    let mut from = 0;
    'pages: while from < rows {
        let count = view.column(first, from, &mut page);
        let column = Column {
            router: first,
            from,
            targets: &page[..count],
        };
        add_column(view, &column, asked, &mut runs, steps)?;
        from += count as u64;
    }
    Ok(runs.finish()?)
}
