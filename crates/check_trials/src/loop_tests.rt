//! Cycles by rows whose answers are found by hand.

use crate::network::{
    FIRST, FOURTH, PAST, SECOND, THIRD, TO_FIRST, TO_FOURTH, TO_SECOND, TO_THIRD, push_row,
};
use crate::one_thread::{cycles_alone, loops_alone};
use crate::same::{compare_cycle, same, same_list};
use base::{List, RouterId, Target};
use label_view::ListView;
use std::alloc::Global;
use std::process::Abort;

/// Up to 9 r1 sends all to r2, from 10 to 19 and from 20 to 29 r2 sends it back, and from 30 on r1 has no route.
fn pair(rt: &impl Abort, alloc: Global) -> ListView {
    let mut rows = List::new(alloc);
    push_row(rt, alloc, &mut rows, 0, 10, &[TO_SECOND, Target::Local]);
    push_row(rt, alloc, &mut rows, 10, 20, &[TO_SECOND, TO_FIRST]);
    push_row(rt, alloc, &mut rows, 20, 30, &[TO_SECOND, TO_FIRST]);
    push_row(rt, alloc, &mut rows, 30, PAST, &[Target::NoRoute, TO_FIRST]);
    ListView::new(2, rows)
}

/// Up to 9 r1 leads into the cycle of r2, r3 and r4; from 10 to 19 it leads into that of r3 and r4, and r2 sends to
/// itself; from 20 on r1 and r2 are a cycle, and r3 and r4.
fn crowd(rt: &impl Abort, alloc: Global) -> ListView {
    let three = [TO_FOURTH, TO_THIRD, TO_FOURTH, TO_SECOND];
    let itself = [TO_THIRD, TO_SECOND, TO_FOURTH, TO_THIRD];
    let two = [TO_SECOND, TO_FIRST, TO_FOURTH, TO_THIRD];
    let mut rows = List::new(alloc);
    push_row(rt, alloc, &mut rows, 0, 10, &three);
    push_row(rt, alloc, &mut rows, 10, 20, &itself);
    push_row(rt, alloc, &mut rows, 20, PAST, &two);
    ListView::new(4, rows)
}

/// The cycle at a place is of these routers.
fn compare_routers(rt: &impl Abort, cycles: &[List<RouterId>], place: usize, routers: &[RouterId]) {
    let cycle = cycles.get(place).expect(rt, "a cycle");
    same_list(rt, cycle.as_slice(), routers);
}

#[test]
fn touching_rows_of_one_cycle_are_told_once(rt: HostRuntime) {
    let alloc = rt.alloc();
    let view = pair(&rt, alloc);
    let cycles = loops_alone(&rt, alloc, &view);
    same(&rt, &cycles.len(), &1);
    compare_cycle(&rt, cycles.as_slice(), 0, &[FIRST, SECOND][..], 10, 20);
    let none = cycles_alone(&rt, alloc, &view, 30);
    same(&rt, &none.len(), &0);
}

#[test]
fn cycles_come_by_least_address_then_by_first_router(rt: HostRuntime) {
    let alloc = rt.alloc();
    let view = crowd(&rt, alloc);
    let list = loops_alone(&rt, alloc, &view);
    let cycles = list.as_slice();
    same(&rt, &cycles.len(), &4);
    compare_cycle(&rt, cycles, 0, &[SECOND, THIRD, FOURTH][..], 0, 10);
    compare_cycle(&rt, cycles, 1, &[SECOND][..], 10, 10);
    compare_cycle(&rt, cycles, 2, &[THIRD, FOURTH][..], 10, 4_294_967_286);
    compare_cycle(&rt, cycles, 3, &[FIRST, SECOND][..], 20, 4_294_967_276);
}

#[test]
fn cycles_of_one_row_come_by_first_router(rt: HostRuntime) {
    let alloc = rt.alloc();
    let view = crowd(&rt, alloc);
    let cycles = cycles_alone(&rt, alloc, &view, 15);
    same(&rt, &cycles.len(), &2);
    compare_routers(&rt, cycles.as_slice(), 0, &[SECOND][..]);
    compare_routers(&rt, cycles.as_slice(), 1, &[THIRD, FOURTH][..]);
}
