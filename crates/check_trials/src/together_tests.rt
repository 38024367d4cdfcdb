//! Updates that change several routers at once, or one router in several runs, with answers and rows that are found by
//! hand.

ghost use Rattle.std.specs.Prelude.{◌≡◌, ◌<◌, ◌≤◌, []};
ghost use Rattle.delta_graph.specs.Pushed.{IsPushed};

use crate::counted::Counted;
use crate::keeper_tests::{compare, compare_count};
use crate::network::{
    FIRST, FOURTH, PAST, SECOND, THIRD, TO_FIRST, TO_FOURTH, TO_SECOND, TO_THIRD, push_row,
};
use base::{Change, List, RouterId, Run, Target};
use delta_graph::Delta;
use label_view::ListView;
use loop_keeper::KeptLoops;
use std::alloc::Global;
use std::marker::Brand;
use std::process::Abort;
use std::sync::ledger::{Blank, Ledger};
use step_count::Steps;

const NONE: Target = Target::NoRoute;

/// Up to 9 the first and the second router send to each other, and from 10 on neither has a route.
fn a_pair(rt: &impl Abort, alloc: Global) -> Counted {
    let mut rows = List::new(alloc);
    push_row(
        rt,
        alloc,
        &mut rows,
        0,
        10,
        &[TO_SECOND, TO_FIRST, TO_FIRST],
    );
    push_row(rt, alloc, &mut rows, 10, PAST, &[NONE, NONE, TO_FIRST]);
    Counted::new(ListView::new(3, rows))
}

/// Up to 9 the second and the third router send to each other.
fn another_pair(rt: &impl Abort, alloc: Global) -> Counted {
    let mut rows = List::new(alloc);
    push_row(
        rt,
        alloc,
        &mut rows,
        0,
        10,
        &[TO_SECOND, TO_THIRD, TO_SECOND],
    );
    push_row(rt, alloc, &mut rows, 10, PAST, &[NONE, NONE, TO_FIRST]);
    Counted::new(ListView::new(3, rows))
}

/// Up to 9 the three routers send round.
fn a_round(rt: &impl Abort, alloc: Global) -> Counted {
    let mut rows = List::new(alloc);
    push_row(
        rt,
        alloc,
        &mut rows,
        0,
        10,
        &[TO_SECOND, TO_THIRD, TO_FIRST],
    );
    push_row(rt, alloc, &mut rows, 10, PAST, &[NONE, TO_THIRD, TO_FIRST]);
    Counted::new(ListView::new(3, rows))
}

/// Up to 9 the first and the second router send to each other, and so do the third and the fourth.
fn two_pairs(rt: &impl Abort, alloc: Global) -> Counted {
    let mut rows = List::new(alloc);
    push_row(
        rt,
        alloc,
        &mut rows,
        0,
        10,
        &[TO_SECOND, TO_FIRST, TO_FOURTH, TO_THIRD],
    );
    push_row(
        rt,
        alloc,
        &mut rows,
        10,
        PAST,
        &[NONE, TO_FIRST, NONE, TO_THIRD],
    );
    Counted::new(ListView::new(4, rows))
}

/// The first router sends to the second one up to 29. The second sends to the first up to 9, and to the third from 10 to
/// 39. The third sends to the second from 20 to 49.
fn steps_of_three(rt: &impl Abort, alloc: Global) -> Counted {
    let mut rows = List::new(alloc);
    push_row(rt, alloc, &mut rows, 0, 10, &[TO_SECOND, TO_FIRST, NONE]);
    push_row(rt, alloc, &mut rows, 10, 20, &[TO_SECOND, TO_THIRD, NONE]);
    push_row(
        rt,
        alloc,
        &mut rows,
        20,
        30,
        &[TO_SECOND, TO_THIRD, TO_SECOND],
    );
    push_row(rt, alloc, &mut rows, 30, 40, &[NONE, TO_THIRD, TO_SECOND]);
    push_row(rt, alloc, &mut rows, 40, 50, &[NONE, NONE, TO_SECOND]);
    push_row(rt, alloc, &mut rows, 50, PAST, &[NONE, NONE, NONE]);
    Counted::new(ListView::new(3, rows))
}

/// What a router does from one address to another, beside what it did before.
fn change(router: RouterId, lo: u32, hi: u32, before: Target, after: Target) -> Change
    ensures lo { result.run.lo ≡ lo }
    ensures hi { result.run.hi ≡ hi }
    ensures router { result.router ≡ router }
    ensures before { result.before ≡ before }
    ensures after { result.after ≡ after }
{
    Change {
        router,
        run: Run { lo, hi },
        before,
        after,
    }
}

/// A change.
fn one_change(rt: &impl Abort, alloc: Global, change: Change) -> Delta
    requires ends { change.run.lo ≤ change.run.hi }
    requires differ { change.before ≡ change.after → ⊥ }
    ensures { IsPushed [] result change }
{
    let mut delta = Delta::new(alloc);
    delta.push(change).expect(rt, "memory");
    delta
}

/// An update looks at so many targets at most.
fn advance<L: Ledger>(
    rt: &impl Abort,
    alloc: Global,
    loops: &mut KeptLoops,
    view: &Counted,
    delta: &Delta,
    most: u64,
    steps: &mut Steps<L>,
) {
    let before = view.looks();
    loops
        .advance(alloc, view, delta, 0, steps)
        .expect(rt, "memory");
    assert!(rt; view.looks() <= before.saturating_add(most));
}

/// The first and the second router come to send to each other up to 9, which is one row of three targets.
fn pair_of_two<L: Ledger>(rt: &impl Abort, alloc: Global, steps: &mut Steps<L>) -> KeptLoops {
    let mut delta = one_change(rt, alloc, change(FIRST, 0, 9, NONE, TO_SECOND));
    delta
        .push(change(SECOND, 0, 9, NONE, TO_FIRST))
        .expect(rt, "memory");
    let mut loops = KeptLoops::empty();
    advance(rt, alloc, &mut loops, &a_pair(rt, alloc), &delta, 3, steps);
    loops
}

fn closed_by_two<L: Ledger>(rt: &impl Abort, alloc: Global, blank: Blank)
    requires name { blank.name ≡ L.name }
    requires parts { blank.parts ≡ L.parts }
    requires some { 0 < blank.parts }
{
    let mut steps = Steps::<L>::new(blank);
    let loops = pair_of_two(rt, alloc, &mut steps);
    compare_count(rt, alloc, &loops, 1);
    compare(rt, alloc, &loops, 0, &[FIRST, SECOND], 0, 10);
}

fn broken_and_made<L: Ledger>(rt: &impl Abort, alloc: Global, blank: Blank)
    requires name { blank.name ≡ L.name }
    requires parts { blank.parts ≡ L.parts }
    requires some { 0 < blank.parts }
{
    let mut steps = Steps::<L>::new(blank);
    let mut loops = pair_of_two(rt, alloc, &mut steps);
    let mut delta = one_change(rt, alloc, change(SECOND, 0, 9, TO_FIRST, TO_THIRD));
    delta
        .push(change(THIRD, 0, 9, TO_FIRST, TO_SECOND))
        .expect(rt, "memory");
    advance(
        rt,
        alloc,
        &mut loops,
        &another_pair(rt, alloc),
        &delta,
        3,
        &mut steps,
    );
    compare_count(rt, alloc, &loops, 1);
    compare(rt, alloc, &loops, 0, &[SECOND, THIRD], 0, 10);
}

fn two_of_one_row<L: Ledger>(rt: &impl Abort, alloc: Global, blank: Blank)
    requires name { blank.name ≡ L.name }
    requires parts { blank.parts ≡ L.parts }
    requires some { 0 < blank.parts }
{
    let mut steps = Steps::<L>::new(blank);
    let mut delta = one_change(rt, alloc, change(FIRST, 0, 9, NONE, TO_SECOND));
    delta
        .push(change(THIRD, 0, 9, NONE, TO_FOURTH))
        .expect(rt, "memory");
    let mut loops = KeptLoops::empty();
    advance(
        rt,
        alloc,
        &mut loops,
        &two_pairs(rt, alloc),
        &delta,
        4,
        &mut steps,
    );
    compare_count(rt, alloc, &loops, 2);
    compare(rt, alloc, &loops, 0, &[FIRST, SECOND], 0, 10);
    compare(rt, alloc, &loops, 1, &[THIRD, FOURTH], 0, 10);
}

fn overlapping_runs<L: Ledger>(rt: &impl Abort, alloc: Global, blank: Blank)
    requires name { blank.name ≡ L.name }
    requires parts { blank.parts ≡ L.parts }
    requires some { 0 < blank.parts }
{
    let mut steps = Steps::<L>::new(blank);
    let mut delta = one_change(rt, alloc, change(FIRST, 0, 29, NONE, TO_SECOND));
    delta
        .push(change(SECOND, 10, 39, NONE, TO_THIRD))
        .expect(rt, "memory");
    delta
        .push(change(THIRD, 20, 49, NONE, TO_SECOND))
        .expect(rt, "memory");
    let mut loops = KeptLoops::empty();
    // five rows meet them
    advance(
        rt,
        alloc,
        &mut loops,
        &steps_of_three(rt, alloc),
        &delta,
        15,
        &mut steps,
    );
    compare_count(rt, alloc, &loops, 2);
    compare(rt, alloc, &loops, 0, &[FIRST, SECOND], 0, 10);
    compare(rt, alloc, &loops, 1, &[SECOND, THIRD], 20, 20);
}

fn two_runs_in_one_row<L: Ledger>(rt: &impl Abort, alloc: Global, blank: Blank)
    requires name { blank.name ≡ L.name }
    requires parts { blank.parts ≡ L.parts }
    requires some { 0 < blank.parts }
{
    let mut steps = Steps::<L>::new(blank);
    let mut delta = one_change(rt, alloc, change(FIRST, 0, 4, NONE, TO_SECOND));
    delta
        .push(change(FIRST, 5, 9, Target::Local, TO_SECOND))
        .expect(rt, "memory");
    let mut loops = KeptLoops::empty();
    advance(
        rt,
        alloc,
        &mut loops,
        &a_round(rt, alloc),
        &delta,
        3,
        &mut steps,
    );
    compare_count(rt, alloc, &loops, 1);
    compare(rt, alloc, &loops, 0, &[FIRST, SECOND, THIRD], 0, 10);
}

#[test]
fn a_cycle_that_two_routers_close_is_kept_once(rt: HostRuntime) {
    closed_by_two::<Brand>(&rt, rt.alloc(), Blank::new(1));
}

#[test]
fn a_cycle_breaks_and_another_comes_in_the_same_row(rt: HostRuntime) {
    broken_and_made::<Brand>(&rt, rt.alloc(), Blank::new(1));
}

#[test]
fn two_routers_of_one_row_close_two_cycles(rt: HostRuntime) {
    two_of_one_row::<Brand>(&rt, rt.alloc(), Blank::new(1));
}

#[test]
fn each_row_of_overlapping_runs_is_looked_at_once(rt: HostRuntime) {
    overlapping_runs::<Brand>(&rt, rt.alloc(), Blank::new(1));
}

#[test]
fn a_row_with_two_runs_of_one_router_is_looked_at_once(rt: HostRuntime) {
    two_runs_in_one_row::<Brand>(&rt, rt.alloc(), Blank::new(1));
}
