//! The checks of one thread, which each range of rows goes through. Nobody reads how many steps they take; a count takes no
//! bytes.

ghost use Rattle.std.specs.Prelude.{◌≡◌, ◌<◌, IfOk};
ghost use Rattle.base.specs.Cycles.{AreCycles};
ghost use Rattle.base.specs.Forwarding.{does};
ghost use Rattle.base.specs.Holes.{AreHoles};
ghost use Rattle.base.specs.Reach.{reaches};
ghost use Rattle.base.specs.Runs.{AreRuns};

use base::{Cycle, Hole, List, OutOfMemory, RouterId, Run};
use label_view::LabelView;
use std::alloc::Global;
use std::marker::Brand;
use std::sync::ledger::{Blank, Ledger};
use step_count::Steps;

/// The runs of the addresses that come from a router to another, with a count for a ledger of its own.
fn reach_counted<V: LabelView, L: Ledger>(
    alloc: Global,
    view: &V,
    first: RouterId,
    to: RouterId,
    blank: Blank,
) -> Result<List<Run>, OutOfMemory>
    requires name { blank.name ≡ L.name }
    requires parts { blank.parts ≡ L.parts }
    requires some { 0 < blank.parts }
    requires router { first.0 < V.width view.now }
    ensures { IfOk result (λ runs. AreRuns runs (reaches (V.width view.now) (does (V.rows view.now)) first to)) }
{
    let mut steps = Steps::<L>::new(blank);
    walk_check::reach(alloc, view, first, to, &mut steps)
}

/// The runs of the addresses that come from a router to another.
pub(crate) fn reach_alone<V: LabelView>(
    alloc: Global,
    view: &V,
    first: RouterId,
    to: RouterId,
) -> Result<List<Run>, OutOfMemory>
    requires { first.0 < V.width view.now }
    ensures { IfOk result (λ runs. AreRuns runs (reaches (V.width view.now) (does (V.rows view.now)) first to)) }
{
    reach_counted::<V, Brand>(alloc, view, first, to, Blank::new(1))
}

/// The black holes of a router's walks, with a count for a ledger of its own.
fn holes_counted<V: LabelView, L: Ledger>(
    alloc: Global,
    view: &V,
    first: RouterId,
    blank: Blank,
) -> Result<List<Hole>, OutOfMemory>
    requires name { blank.name ≡ L.name }
    requires parts { blank.parts ≡ L.parts }
    requires some { 0 < blank.parts }
    requires router { first.0 < V.width view.now }
    ensures { IfOk result (λ holes. AreHoles (V.width view.now) (does (V.rows view.now)) first holes) }
{
    let mut steps = Steps::<L>::new(blank);
    blackhole::blackholes(alloc, view, first, &mut steps)
}

/// The black holes of a router's walks.
pub(crate) fn holes_alone<V: LabelView>(
    alloc: Global,
    view: &V,
    first: RouterId,
) -> Result<List<Hole>, OutOfMemory>
    requires { first.0 < V.width view.now }
    ensures { IfOk result (λ holes. AreHoles (V.width view.now) (does (V.rows view.now)) first holes) }
{
    holes_counted::<V, Brand>(alloc, view, first, Blank::new(1))
}

/// The cycles in which addresses go round, with a count for a ledger of its own.
fn loops_counted<V: LabelView, L: Ledger>(
    alloc: Global,
    view: &V,
    blank: Blank,
) -> Result<List<Cycle>, OutOfMemory>
    requires name { blank.name ≡ L.name }
    requires parts { blank.parts ≡ L.parts }
    requires some { 0 < blank.parts }
    ensures { IfOk result (λ cycles. AreCycles (does (V.rows view.now)) cycles) }
{
    let mut steps = Steps::<L>::new(blank);
    loop_check::loops(alloc, view, &mut steps)
}

/// The cycles in which addresses go round.
pub(crate) fn loops_alone<V: LabelView>(alloc: Global, view: &V) -> Result<List<Cycle>, OutOfMemory>
    ensures { IfOk result (λ cycles. AreCycles (does (V.rows view.now)) cycles) }
{
    loops_counted::<V, Brand>(alloc, view, Blank::new(1))
}
