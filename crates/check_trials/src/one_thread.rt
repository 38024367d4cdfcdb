//! The checks of one thread, each asked by its bound alone and with a count of its own, which nobody reads.

ghost use Rattle.std.specs.Prelude.{◌≡◌, ◌<◌, length};

use base::{Cycle, Hole, LinkId, List, PathEnd, RouterId, Run};
use label_view::LabelView;
use std::alloc::Global;
use std::marker::Brand;
use std::process::Abort;
use std::sync::ledger::{Blank, Ledger};
use step_count::Steps;

fn path_counted<V: LabelView, L: Ledger>(
    rt: &impl Abort,
    alloc: Global,
    view: &V,
    first: RouterId,
    address: u32,
    blank: Blank,
) -> (List<RouterId>, PathEnd)
    requires name { blank.name ≡ L.name }
    requires parts { blank.parts ≡ L.parts }
    requires some { 0 < blank.parts }
    requires router { first.0 < V.width view.now }
{
    let mut steps = Steps::<L>::new(blank);
    walk_check::path(alloc, view, first, address, &mut steps).expect(rt, "memory")
}

/// The walk of an address from a router, and how it ends.
pub(crate) fn path_alone<V: LabelView>(
    rt: &impl Abort,
    alloc: Global,
    view: &V,
    first: RouterId,
    address: u32,
) -> (List<RouterId>, PathEnd)
    requires { first.0 < V.width view.now }
{
    path_counted::<V, Brand>(rt, alloc, view, first, address, Blank::new(1))
}

fn reach_counted<V: LabelView, L: Ledger>(
    rt: &impl Abort,
    alloc: Global,
    view: &V,
    first: RouterId,
    to: RouterId,
    blank: Blank,
) -> List<Run>
    requires name { blank.name ≡ L.name }
    requires parts { blank.parts ≡ L.parts }
    requires some { 0 < blank.parts }
    requires router { first.0 < V.width view.now }
{
    let mut steps = Steps::<L>::new(blank);
    walk_check::reach(alloc, view, first, to, &mut steps).expect(rt, "memory")
}

/// The runs of the addresses that come from a router to another.
pub(crate) fn reach_alone<V: LabelView>(
    rt: &impl Abort,
    alloc: Global,
    view: &V,
    first: RouterId,
    to: RouterId,
) -> List<Run>
    requires { first.0 < V.width view.now }
{
    reach_counted::<V, Brand>(rt, alloc, view, first, to, Blank::new(1))
}

fn uses_counted<V: LabelView, L: Ledger>(
    rt: &impl Abort,
    alloc: Global,
    view: &V,
    end1: RouterId,
    end2: RouterId,
    link: LinkId,
    blank: Blank,
) -> (List<Run>, List<Run>)
    requires name { blank.name ≡ L.name }
    requires parts { blank.parts ≡ L.parts }
    requires some { 0 < blank.parts }
    requires first { end1.0 < V.width view.now }
    requires second { end2.0 < V.width view.now }
{
    let mut steps = Steps::<L>::new(blank);
    walk_check::uses(alloc, view, end1, end2, link, &mut steps).expect(rt, "memory")
}

/// The runs of the addresses that each end of a link sends over it.
pub(crate) fn uses_alone<V: LabelView>(
    rt: &impl Abort,
    alloc: Global,
    view: &V,
    end1: RouterId,
    end2: RouterId,
    link: LinkId,
) -> (List<Run>, List<Run>)
    requires first { end1.0 < V.width view.now }
    requires second { end2.0 < V.width view.now }
{
    uses_counted::<V, Brand>(rt, alloc, view, end1, end2, link, Blank::new(1))
}

fn waypoint_counted<V: LabelView, L: Ledger>(
    rt: &impl Abort,
    alloc: Global,
    view: &V,
    first: RouterId,
    to: RouterId,
    through: RouterId,
    blank: Blank,
) -> List<Run>
    requires name { blank.name ≡ L.name }
    requires parts { blank.parts ≡ L.parts }
    requires some { 0 < blank.parts }
    requires router { first.0 < V.width view.now }
{
    let mut steps = Steps::<L>::new(blank);
    waypoint::waypoint(alloc, view, first, to, through, &mut steps).expect(rt, "memory")
}

/// The runs of the addresses that come from a router to another without having met a third.
pub(crate) fn waypoint_alone<V: LabelView>(
    rt: &impl Abort,
    alloc: Global,
    view: &V,
    first: RouterId,
    to: RouterId,
    through: RouterId,
) -> List<Run>
    requires { first.0 < V.width view.now }
{
    waypoint_counted::<V, Brand>(rt, alloc, view, first, to, through, Blank::new(1))
}

fn holes_counted<V: LabelView, L: Ledger>(
    rt: &impl Abort,
    alloc: Global,
    view: &V,
    first: RouterId,
    blank: Blank,
) -> List<Hole>
    requires name { blank.name ≡ L.name }
    requires parts { blank.parts ≡ L.parts }
    requires some { 0 < blank.parts }
    requires router { first.0 < V.width view.now }
{
    let mut steps = Steps::<L>::new(blank);
    blackhole::blackholes(alloc, view, first, &mut steps).expect(rt, "memory")
}

/// The black holes of a router's walks.
pub(crate) fn holes_alone<V: LabelView>(
    rt: &impl Abort,
    alloc: Global,
    view: &V,
    first: RouterId,
) -> List<Hole>
    requires { first.0 < V.width view.now }
{
    holes_counted::<V, Brand>(rt, alloc, view, first, Blank::new(1))
}

fn loops_counted<V: LabelView, L: Ledger>(
    rt: &impl Abort,
    alloc: Global,
    view: &V,
    blank: Blank,
) -> List<Cycle>
    requires name { blank.name ≡ L.name }
    requires parts { blank.parts ≡ L.parts }
    requires some { 0 < blank.parts }
{
    let mut steps = Steps::<L>::new(blank);
    loop_check::loops(alloc, view, &mut steps).expect(rt, "memory")
}

/// The cycles in which addresses go round.
pub(crate) fn loops_alone<V: LabelView>(rt: &impl Abort, alloc: Global, view: &V) -> List<Cycle> {
    loops_counted::<V, Brand>(rt, alloc, view, Blank::new(1))
}

fn cycles_counted<V: LabelView, L: Ledger>(
    rt: &impl Abort,
    alloc: Global,
    view: &V,
    i: u64,
    blank: Blank,
) -> List<List<RouterId>>
    requires name { blank.name ≡ L.name }
    requires parts { blank.parts ≡ L.parts }
    requires some { 0 < blank.parts }
    requires place { i < length (V.rows view.now) }
{
    let mut steps = Steps::<L>::new(blank);
    loop_check::cycles_of_atom(alloc, view, i, &mut steps).expect(rt, "memory")
}

/// The cycles of the row that has an address.
pub(crate) fn cycles_alone<V: LabelView>(
    rt: &impl Abort,
    alloc: Global,
    view: &V,
    address: u32,
) -> List<List<RouterId>> {
    cycles_counted::<V, Brand>(rt, alloc, view, view.atom_of(address), Blank::new(1))
}
