//! All black holes of a router's walks.

ghost use Rattle.std.specs.Prelude.{◌≡◌, ℕ, ◌+◌, ◌*◌, ◌<◌, ◌≤◌, ◌^◌, IfOk, OnOk, length, slice_index_or};
ghost use Rattle.base.specs.Forwarding.{AreForwarding, does};
ghost use Rattle.base.specs.Holes.{AreHoles, falls};
ghost use Rattle.base.specs.declared.target.Target.{Target as TargetIs};
ghost use Rattle.base.specs.declared.target.Target.TheVariants.{NoRoute};
ghost use Rattle.label_view.specs.Columns.{AreOfColumn};
ghost use Rattle.blackhole.specs.Gathering.{AreFalls, AreHolesOf};

use crate::fall::Fall;
use crate::falls::add_rows;
use crate::row_fall::row_fall;
use base::{Hole, List, OutOfMemory, RouterId, Target};
use label_view::{Column, LabelView, PAGE, Rows};
use std::alloc::Global;
use std::sync::ledger::Ledger;
use step_count::Steps;

/// The holes of what was gathered, in the same order.
fn holes_of(alloc: Global, falls: Vec<Fall>) -> Result<List<Hole>, OutOfMemory>
    ensures { IfOk result (λ holes. AreHolesOf holes falls.items) }
{
    let mut holes = List::new(alloc);
    for fall in falls {
        let Fall {
            router,
            cause,
            runs,
        } = fall;
        let runs = runs.finish()?;
        holes.push(Hole {
            router,
            cause,
            runs,
        })?;
    }
    Ok(holes)
}

/// Up to which place, from one on, a router has no route for the addresses of all rows of a column. It takes a look at
/// each row.
fn no_route_past<L: Ledger>(targets: &[Target], k: usize, steps: &mut Steps<L>) -> usize
    requires { k ≤ length targets.now }
    ensures from { k ≤ result }
    ensures inside { result ≤ length targets.now }
    ensures none { (j : ℕ) (d : TargetIs) → k ≤ j → j < result → slice_index_or targets.now j d ≡ NoRoute }
    ensures cost { steps.new + k ≡ steps.old + result }
{
    let mut past = k;
    'rows: while past < targets.len() {
        let Target::NoRoute = targets[past] else {
            return past;
        };
        steps.tick();
        past += 1;
    }
    past
}

/// Adds the addresses of the rows of a column from a place on where their walks from the router end, if they end without
/// a way on: of all side by side for which the router has no route, or of one row. It answers up to which place it is
/// done.
fn add_some<V: LabelView, L: Ledger>(
    alloc: Global,
    view: &V,
    column: &Column<'_>,
    k: usize,
    ends: &mut Vec<Fall>,
    steps: &mut Steps<L>,
) -> Result<usize, OutOfMemory>
    requires form { AreForwarding (V.width view.now) (V.rows view.now) }
    requires router { column.now.router.0 < V.width view.now }
    requires place { k < length column.now.targets.now }
    requires inside { column.now.from + length column.now.targets.now ≤ length (V.rows view.now) }
    requires fits { column.now.from + length column.now.targets.now < 2 ^ 64 }
    requires column { AreOfColumn (V.rows view.now) column.now.router column.now.from column.now.targets.now }
    requires falls { AreFalls ends.old.items (V.rows view.now) (column.now.from + k)
        (falls (V.width view.now) (does (V.rows view.now)) column.now.router) }
    ensures some { IfOk result (λ past. k < past) }
    ensures inside { IfOk result (λ past. past ≤ length column.now.targets.now) }
    ensures falls { IfOk result (λ past. AreFalls ends.new.items (V.rows view.now) (column.now.from + past)
        (falls (V.width view.now) (does (V.rows view.now)) column.now.router)) }
    ensures looks { IfOk result (λ past. steps.new + k * V.width view.now ≤ steps.old + past * V.width view.now) }
    ensures cost { steps.new + k * V.width view.now ≤ steps.old + length column.now.targets.now * V.width view.now }
{
    let from = column.from + k as u64;
    let past = no_route_past(column.targets, k, steps);
    if past > k {
        let rows = Rows {
            from,
            past: column.from + past as u64,
        };
        add_rows(
            alloc,
            ends,
            view,
            rows,
            Some((column.router, Target::NoRoute)),
        )?;
        return Ok(past);
    }
    let rows = Rows {
        from,
        past: from + 1,
    };
    let end = row_fall(view, from, column.router, column.targets[k], steps);
    add_rows(alloc, ends, view, rows, end)?;
    Ok(k + 1)
}

/// Adds the addresses of the rows of a column where their walks from the router end, if they end without a way on.
fn add_column<V: LabelView, L: Ledger>(
    alloc: Global,
    view: &V,
    column: &Column<'_>,
    ends: &mut Vec<Fall>,
    steps: &mut Steps<L>,
) -> Result<(), OutOfMemory>
    requires form { AreForwarding (V.width view.now) (V.rows view.now) }
    requires router { column.now.router.0 < V.width view.now }
    requires inside { column.now.from + length column.now.targets.now ≤ length (V.rows view.now) }
    requires fits { column.now.from + length column.now.targets.now < 2 ^ 64 }
    requires column { AreOfColumn (V.rows view.now) column.now.router column.now.from column.now.targets.now }
    requires falls { AreFalls ends.old.items (V.rows view.now) column.now.from
        (falls (V.width view.now) (does (V.rows view.now)) column.now.router) }
    ensures falls { OnOk result
        (AreFalls ends.new.items (V.rows view.now) (column.now.from + length column.now.targets.now)
        (falls (V.width view.now) (does (V.rows view.now)) column.now.router)) }
    ensures cost { steps.new ≤ steps.old + length column.now.targets.now * V.width view.now }
{
    let mut k = 0;
    'rows: while k < column.targets.len() {
        k = add_some(alloc, view, column, k, ends, steps)?;
    }
    Ok(())
}

/// The addresses whose walks from a router end without a way on: for each last router and cause (`NoRoute`, `Dropped`
/// or `LinkDown`) that has any, their runs; by router, then by cause in the order in which causes are told. A walk that
/// goes round ends nowhere. Each row is followed once, and only as far as it goes: at most as many looks as there are
/// routers, so at most as many as rows times routers. Its hole is found among those so far by halves, and touching rows
/// of one hole become one run at once.
pub fn blackholes<V: LabelView, L: Ledger>(
    alloc: Global,
    view: &V,
    first: RouterId,
    steps: &mut Steps<L>,
) -> Result<List<Hole>, OutOfMemory>
    requires { first.0 < V.width view.now }
    ensures holes { IfOk result (λ holes. AreHoles (V.width view.now) (does (V.rows view.now)) first holes) }
    ensures cost { steps.new ≤ steps.old + length (V.rows view.now) * V.width view.now }
{
    let mut ends = Vec::new(alloc);
    let mut page = [Target::NoRoute; PAGE];
    let rows = view.atoms();
    let mut from = 0;
    'pages: while from < rows {
        let count = view.column(first, from, &mut page);
        let column = Column {
            router: first,
            from,
            targets: &page[..count],
        };
        add_column(alloc, view, &column, &mut ends, steps)?;
        from += count as u64;
    }
    holes_of(alloc, ends)
}
