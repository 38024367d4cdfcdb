//! The same answers by as many threads as there are processors.

ghost use Rattle.std.specs.Prelude.{◌≡◌, ◌<◌, [], IfOk, IsSome, List, None, length};
ghost use Rattle.dn_model.specs.Answer.{IsAnswer, IsAnswerOf};
ghost use Rattle.dn_model.specs.Standing.{StandsFor};
ghost use Rattle.base.specs.Forwarding.{does};
ghost use Rattle.dn_model.specs.Lookup.{router_of};
ghost use Rattle.dn_model.specs.Query.{unknown_of};
ghost use Rattle.dn_model.specs.declared.entry.Entry.{Entry};
ghost use Rattle.dn_model.specs.declared.query.Ask.TheVariants.{Reach, Blackholes};
ghost use Rattle.row_answers.specs.Shown.{AreToldIf, IsShown};

use crate::asked::shown;
use crate::named::{known_router, links_named};
use dn_model::{Answer, Ask, Change, Name, OutOfMemory, Query, Topology};
use label_view::LabelView;
use std::alloc::Global;
use std::marker::Brand;
use std::sync::ledger::{Blank, Ledger};
use std::thread::Threads;
use step_count::Steps;
use what_if::Without;

/// The addresses whose walk from a router comes to another.
fn reach<V: LabelView + Sync>(
    rt: &(impl Threads + Sync),
    alloc: Global,
    topology: &Topology,
    view: &V,
    from: &Name,
    to: &Name,
) -> Result<Answer, OutOfMemory>
    requires from { IsSome (router_of topology.now from.now) }
    requires to { IsSome (router_of topology.now to.now) }
    requires wide { V.width view.now ≡ length topology.now.routers }
    ensures { IfOk result (IsAnswerOf topology.now (does (V.rows view.now)) (Reach from.now to.now)) }
{
    let first = known_router(topology, from);
    let last = known_router(topology, to);
    let runs = par_scan::reach(rt, alloc, view, first, last)?;
    Ok(Answer::Runs(runs))
}

/// The addresses whose walk from a router ends without a way on, by last router and cause.
fn holes<V: LabelView + Sync>(
    rt: &(impl Threads + Sync),
    alloc: Global,
    topology: &Topology,
    view: &V,
    name: &Name,
) -> Result<Answer, OutOfMemory>
    requires name { IsSome (router_of topology.now name.now) }
    requires wide { V.width view.now ≡ length topology.now.routers }
    ensures { IfOk result (IsAnswerOf topology.now (does (V.rows view.now)) (Blackholes name.now)) }
{
    let first = known_router(topology, name);
    let holes = par_scan::blackholes(rt, alloc, view, first)?;
    Ok(Answer::Holes(holes))
}

/// The answer by one thread. Nobody reads the count of steps, which takes no bytes.
fn shown_alone<V: LabelView, L: Ledger>(
    alloc: Global,
    topology: &Topology,
    view: &V,
    changes: &[Change],
    query: &Query,
    blank: Blank,
) -> Result<Answer, OutOfMemory>
    requires name { blank.name ≡ L.name }
    requires parts { blank.parts ≡ L.parts }
    requires some { 0 < blank.parts }
    requires known { unknown_of topology.now query.now ≡ None }
    requires wide { V.width view.now ≡ length topology.now.routers }
    ensures { IfOk result (IsShown topology.now (does (V.rows view.now)) changes.now query.now.ask) }
{
    let mut steps = Steps::<L>::new(blank);
    shown(alloc, topology, view, changes, query, &mut steps)
}

/// The answer to a query whose names the topology has, by what a view shows; no link is taken as down for it. What looks
/// at all rows for whole walks is shared among threads.
fn shown_wide<V: LabelView + Sync>(
    rt: &(impl Threads + Sync),
    alloc: Global,
    topology: &Topology,
    view: &V,
    changes: &[Change],
    query: &Query,
) -> Result<Answer, OutOfMemory>
    requires known { unknown_of topology.now query.now ≡ None }
    requires wide { V.width view.now ≡ length topology.now.routers }
    ensures { IfOk result (IsShown topology.now (does (V.rows view.now)) changes.now query.now.ask) }
{
    match query.ask() {
        Ask::Reach(from, to) => reach(rt, alloc, topology, view, from, to),
        Ask::Loops => Ok(Answer::Loops(par_scan::loops(rt, alloc, view)?)),
        Ask::Blackholes(name) => holes(rt, alloc, topology, view, name),
        _ => shown_alone::<V, Brand>(alloc, topology, view, changes, query, Blank::new(1)),
    }
}

/// The answer to a query whose names the topology has, as `answer` gives it. `reach`, `blackholes` and `loops` are
/// answered by as many threads as there are processors, with links down too; each other query by the caller's own, and
/// these too where no thread can be made. It waits for no other caller, and doesn't count its steps.
pub fn answer_wide<V: LabelView + Sync>(
    rt: &(impl Threads + Sync),
    alloc: Global,
    topology: &Topology,
    view: &V,
    changes: &[Change],
    query: &Query,
) -> Result<Answer, OutOfMemory>
    requires known { unknown_of topology.now query.now ≡ None }
    requires wide { V.width view.now ≡ length topology.now.routers }
    ensures answer { IfOk result (λ answer. (history : List Entry) →
        StandsFor topology.now (V.rows view.now) history →
        AreToldIf topology.now history changes.now query.now.ask →
        IsAnswer topology.now history query.now answer) }
{
    if query.without().is_empty() {
        return shown_wide(rt, alloc, topology, view, changes, query);
    }
    let down = links_named(alloc, topology, query.without())?;
    let without = Without::new(view, down.as_slice());
    shown_wide(rt, alloc, topology, &without, changes, query)
}
