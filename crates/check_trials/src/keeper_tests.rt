//! Three routers, update by update, with answers that are found by hand.

ghost use Rattle.std.specs.Prelude.{◌≡◌, ◌<◌};

use crate::network::{
    FIRST, LAST, PAST, SECOND, THIRD, TO_FIRST, TO_SECOND, TO_THIRD, crosses, push_row,
};
use crate::same::{compare_cycle, same};
use base::{Change, LinkId, List, RouterId, Run, Target};
use delta_graph::Delta;
use label_view::{LabelView, ListView};
use loop_keeper::KeptLoops;
use std::alloc::Global;
use std::marker::Brand;
use std::process::Abort;
use std::sync::ledger::{Blank, Ledger};
use step_count::Steps;

/// The first router sends to the second one, and that to the third. The third sends to the one named first up to 9, to
/// the one named then from 10 to 29, and to the first router from 30 on.
fn view(rt: &impl Abort, alloc: Global, low: RouterId, middle: RouterId) -> ListView
    requires low { low.0 < 3 }
    requires middle { middle.0 < 3 }
{
    let to_low = Target::To(low, LinkId(0));
    let to_middle = Target::To(middle, LinkId(0));
    let mut rows = List::new(alloc);
    push_row(rt, alloc, &mut rows, 0, 10, &[TO_SECOND, TO_THIRD, to_low]);
    push_row(
        rt,
        alloc,
        &mut rows,
        10,
        30,
        &[TO_SECOND, TO_THIRD, to_middle],
    );
    push_row(
        rt,
        alloc,
        &mut rows,
        30,
        PAST,
        &[TO_SECOND, TO_THIRD, TO_FIRST],
    );
    ListView::new(3, rows)
}

/// What the second router does everywhere, where it had no route before.
fn second_comes(rt: &impl Abort, alloc: Global) -> Delta {
    let mut delta = Delta::new(alloc);
    delta
        .push(Change {
            router: SECOND,
            run: Run { lo: 0, hi: LAST },
            before: Target::NoRoute,
            after: TO_THIRD,
        })
        .expect(rt, "memory");
    delta
}

/// Up to 9 the third router sends to the first one, where it sent to the second one.
fn third_turns(rt: &impl Abort, alloc: Global) -> Delta {
    let mut delta = Delta::new(alloc);
    delta
        .push(Change {
            router: THIRD,
            run: Run { lo: 0, hi: 9 },
            before: TO_SECOND,
            after: TO_FIRST,
        })
        .expect(rt, "memory");
    delta
}

/// From 10 to 29 the third router sends to the second one, where it sent to the first one.
fn third_turns_back(rt: &impl Abort, alloc: Global) -> Delta {
    let mut delta = Delta::new(alloc);
    delta
        .push(Change {
            router: THIRD,
            run: Run { lo: 10, hi: 29 },
            before: TO_FIRST,
            after: TO_SECOND,
        })
        .expect(rt, "memory");
    delta
}

/// So many cycles are kept.
pub(crate) fn compare_count(rt: &impl Abort, alloc: Global, loops: &KeptLoops, count: usize) {
    let cycles = loops.answer(alloc).expect(rt, "memory");
    same(rt, &cycles.len(), &count);
}

/// The cycle at a place of the answer is of these routers, with this least address and so many addresses.
pub(crate) fn compare(
    rt: &impl Abort,
    alloc: Global,
    loops: &KeptLoops,
    place: usize,
    routers: &[RouterId],
    least: u32,
    addresses: u64,
) {
    let cycles = loops.answer(alloc).expect(rt, "memory");
    compare_cycle(rt, cycles.as_slice(), place, routers, least, addresses);
}

/// An update, by the bound alone.
fn advance<V: LabelView, L: Ledger>(
    rt: &impl Abort,
    alloc: Global,
    loops: &mut KeptLoops,
    view: &V,
    delta: &Delta,
    steps: &mut Steps<L>,
) {
    loops
        .advance(alloc, view, delta, 0, steps)
        .expect(rt, "memory");
}

/// An update of a copy.
fn after<V: LabelView, L: Ledger>(
    rt: &impl Abort,
    alloc: Global,
    loops: &KeptLoops,
    view: &V,
    delta: &Delta,
    steps: &mut Steps<L>,
) -> KeptLoops {
    loops.after(alloc, view, delta, steps).expect(rt, "memory")
}

/// The loops after the second router's route came: up to 9 the second and the third router send to each other, and from
/// 10 on all three go round.
fn two_cycles<L: Ledger>(rt: &impl Abort, alloc: Global, steps: &mut Steps<L>) -> KeptLoops {
    let mut loops = KeptLoops::empty();
    crosses(&loops);
    compare_count(rt, alloc, &loops, 0);
    advance(
        rt,
        alloc,
        &mut loops,
        &view(rt, alloc, SECOND, FIRST),
        &second_comes(rt, alloc),
        steps,
    );
    loops
}

fn compare_two(rt: &impl Abort, alloc: Global, loops: &KeptLoops) {
    compare_count(rt, alloc, loops, 2);
    compare(rt, alloc, loops, 0, &[SECOND, THIRD], 0, 10);
    compare(
        rt,
        alloc,
        loops,
        1,
        &[FIRST, SECOND, THIRD],
        10,
        4_294_967_286,
    );
}

fn cycles_come<L: Ledger>(rt: &impl Abort, alloc: Global, blank: Blank)
    requires name { blank.name ≡ L.name }
    requires parts { blank.parts ≡ L.parts }
    requires some { 0 < blank.parts }
{
    let mut steps = Steps::<L>::new(blank);
    let mut loops = two_cycles(rt, alloc, &mut steps);
    compare_two(rt, alloc, &loops);
    let view = view(rt, alloc, SECOND, FIRST);
    advance(rt, alloc, &mut loops, &view, &Delta::new(alloc), &mut steps);
    compare_two(rt, alloc, &loops);
}

fn cycles_turn<L: Ledger>(rt: &impl Abort, alloc: Global, blank: Blank)
    requires name { blank.name ≡ L.name }
    requires parts { blank.parts ≡ L.parts }
    requires some { 0 < blank.parts }
{
    let mut steps = Steps::<L>::new(blank);
    let loops = two_cycles(rt, alloc, &mut steps);
    let held = loops.copy().expect(rt, "memory");
    let turned = view(rt, alloc, FIRST, FIRST);
    let delta = third_turns(rt, alloc);
    let mut later = after(rt, alloc, &loops, &turned, &delta, &mut steps);
    compare_count(rt, alloc, &later, 1);
    let all = [FIRST, SECOND, THIRD];
    compare(rt, alloc, &later, 0, &all, 0, 4_294_967_296);
    let back = view(rt, alloc, FIRST, SECOND);
    let delta = third_turns_back(rt, alloc);
    advance(rt, alloc, &mut later, &back, &delta, &mut steps);
    compare_count(rt, alloc, &later, 2);
    compare(rt, alloc, &later, 0, &all, 0, 4_294_967_276);
    compare(rt, alloc, &later, 1, &[SECOND, THIRD], 10, 20);
    compare_two(rt, alloc, &loops);
    compare_two(rt, alloc, &held);
}

#[test]
fn cycles_come_where_none_stood(rt: HostRuntime) {
    cycles_come::<Brand>(&rt, rt.alloc(), Blank::new(1));
}

#[test]
fn cycles_grow_break_and_leave_what_is_held(rt: HostRuntime) {
    cycles_turn::<Brand>(&rt, rt.alloc(), Blank::new(1));
}
