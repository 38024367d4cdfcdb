//! Which addresses go over a link.

ghost use Rattle.std.specs.Prelude.{◌≡◌, ℕ, ◌+◌, ◌*◌, ◌<◌, ◌≤◌, ◌^◌, IfOk, OnOk, length};
ghost use Rattle.base.specs.Forwarding.{AreForwarding, does};
ghost use Rattle.base.specs.Reach.{goes_over, is_over};
ghost use Rattle.base.specs.Runs.{AreRuns};
ghost use Rattle.label_view.specs.Columns.{AreOfColumn};
ghost use Rattle.label_view.specs.Places.{AreGatheredTo};

use base::{LinkId, List, OutOfMemory, RouterId, Run, Target};
use label_view::runs::RunList;
use label_view::{Column, LabelView, PAGE};
use std::alloc::Global;
use std::sync::ledger::Ledger;
use step_count::Steps;

/// Whether a target goes on over a link.
fn is_by(target: Target, link: LinkId) -> bool
    ensures { result ≡ is_over link target }
{
    match target {
        Target::To(_, over) => over.0 == link.0,
        _ => false,
    }
}

/// Adds, of the rows of a column, the addresses that the router sends over a link.
fn add_column<V: LabelView, L: Ledger>(
    view: &V,
    column: &Column<'_>,
    link: LinkId,
    runs: &mut RunList,
    steps: &mut Steps<L>,
) -> Result<(), OutOfMemory>
    requires form { AreForwarding (V.width view.now) (V.rows view.now) }
    requires inside { column.now.from + length column.now.targets.now ≤ length (V.rows view.now) }
    requires fits { column.now.from + length column.now.targets.now < 2 ^ 64 }
    requires column { AreOfColumn (V.rows view.now) column.now.router column.now.from column.now.targets.now }
    requires runs { AreGatheredTo runs.old (V.rows view.now) column.now.from
        (goes_over (does (V.rows view.now)) column.now.router link) }
    ensures runs { OnOk result
        (AreGatheredTo runs.new (V.rows view.now) (column.now.from + length column.now.targets.now)
        (goes_over (does (V.rows view.now)) column.now.router link)) }
    ensures cost { steps.new ≤ steps.old + length column.now.targets.now }
{
    for k in 0..column.targets.len() {
        steps.tick();
        let passes = is_by(column.targets[k], link);
        runs.push_row_if(view, column.from + k as u64, passes)?;
    }
    Ok(())
}

/// The runs of the addresses that a router sends over a link, in order, no two touching. It takes a look at each row.
fn sent_over<V: LabelView, L: Ledger>(
    alloc: Global,
    view: &V,
    router: RouterId,
    link: LinkId,
    steps: &mut Steps<L>,
) -> Result<List<Run>, OutOfMemory>
    requires { router.0 < V.width view.now }
    ensures runs { IfOk result (λ runs. AreRuns runs (goes_over (does (V.rows view.now)) router link)) }
    ensures cost { steps.new ≤ steps.old + length (V.rows view.now) }
{
    let mut runs = RunList::new(alloc);
    let mut page = [Target::NoRoute; PAGE];
    let rows = view.atoms();
    let mut from = 0;
    'pages: while from < rows {
        let count = view.column(router, from, &mut page);
        let column = Column {
            router,
            from,
            targets: &page[..count],
        };
        add_column(view, &column, link, &mut runs, steps)?;
        from += count as u64;
    }
    Ok(runs.finish()?)
}

/// The runs of the addresses that the first end of a link sends over it, and of those that the second end sends; each
/// list in order, no two of one list touching. It takes two looks at each row, one at each end.
pub fn uses<V: LabelView, L: Ledger>(
    alloc: Global,
    view: &V,
    end1: RouterId,
    end2: RouterId,
    link: LinkId,
    steps: &mut Steps<L>,
) -> Result<(List<Run>, List<Run>), OutOfMemory>
    requires first { end1.0 < V.width view.now }
    requires second { end2.0 < V.width view.now }
    ensures first { IfOk result (λ runs. AreRuns runs.0 (goes_over (does (V.rows view.now)) end1 link)) }
    ensures second { IfOk result (λ runs. AreRuns runs.1 (goes_over (does (V.rows view.now)) end2 link)) }
    ensures cost { steps.new ≤ steps.old + 2 * length (V.rows view.now) }
{
    let first = sent_over(alloc, view, end1, link, steps)?;
    let second = sent_over(alloc, view, end2, link, steps)?;
    Ok((first, second))
}
