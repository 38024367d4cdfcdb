//! Answers to queries by a view that stands for a history.

ghost use Rattle.std.specs.Prelude.{◌≡◌, ◌+◌, ◌*◌, ◌≤◌, IfOk, List, None, length};
ghost use Rattle.dn_model.specs.Answer.{IsAnswer};
ghost use Rattle.dn_model.specs.Standing.{StandsFor};
ghost use Rattle.dn_model.specs.Query.{unknown_of};
ghost use Rattle.dn_model.specs.declared.entry.Entry.{Entry};
ghost use Rattle.row_answers.specs.Looks.{most_looks};
ghost use Rattle.row_answers.specs.Shown.{AreToldIf};

use crate::asked::shown;
use crate::named::links_named;
use dn_model::{Answer, Change, OutOfMemory, Query, Topology};
use label_view::LabelView;
use std::alloc::Global;
use std::sync::ledger::Ledger;
use step_count::Steps;
use what_if::Without;

/// The answer to a query whose names the topology has, by a view of what its routers do, and, for `Ask::Delta`, the
/// changes that the last update made: over a view that stands for a history it is the answer over that history. The
/// links of `without` are taken as down; one that is named twice counts once.
///
/// A step is a look at what one router does with the addresses of one row. `path` looks at one row, each other query at
/// each row once, and there at most as often as there are routers; `delta` at none. So no query takes more steps than
/// rows times routers.
pub fn answer<V: LabelView, L: Ledger>(
    alloc: Global,
    topology: &Topology,
    view: &V,
    changes: &[Change],
    query: &Query,
    steps: &mut Steps<L>,
) -> Result<Answer, OutOfMemory>
    requires known { unknown_of topology.now query.now ≡ None }
    requires wide { V.width view.now ≡ length topology.now.routers }
    ensures answer { IfOk result (λ answer. (history : List Entry) →
        StandsFor topology.now (V.rows view.now) history →
        AreToldIf topology.now history changes.now query.now.ask →
        IsAnswer topology.now history query.now answer) }
    ensures cost { steps.new ≤ steps.old + length (V.rows view.now) * V.width view.now }
    ensures looks { steps.new ≤ steps.old + most_looks query.now.ask (length (V.rows view.now)) (V.width view.now) }
{
    // rows cover all addresses, so that there is one
    let _routers = view.routers();
    if query.without().is_empty() {
        return shown(alloc, topology, view, changes, query, steps);
    }
    let down = links_named(alloc, topology, query.without())?;
    let without = Without::new(view, down.as_slice());
    shown(alloc, topology, &without, changes, query, steps)
}
