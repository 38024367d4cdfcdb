//! Black holes by rows whose answers are found by hand.

ghost use Rattle.std.specs.Prelude.{◌≡◌};

use crate::network::{FIRST, LAST, PAST, SECOND, THIRD, TO_FIRST, TO_SECOND, push_row};
use crate::one_thread::holes_alone;
use crate::same::{compare_hole, same};
use base::{DropKind, LinkId, List, Run, Target};
use label_view::ListView;
use std::alloc::Global;
use std::process::Abort;

const REFUSED: Target = Target::Dropped(DropKind::Unreachable);

const SILENT: Target = Target::Dropped(DropKind::Blackhole);

const DOWN: Target = Target::LinkDown(LinkId(2));

/// A line of three routers. r1 goes on to r2 up to 59, and r2 drops from 0 to 19 and from 50 to 59 (unreachable) and
/// from 40 to 49 (in silence), sends 20 to 29 back, and 30 to 39 on to r3, whose link is down.
fn line(rt: &impl Abort, alloc: Global) -> ListView
    ensures { result.routers ≡ 3 }
{
    let to_third = Target::To(THIRD, LinkId(1));
    let end = [Target::NoRoute, Target::Local, Target::Local];
    let mut rows = List::new(alloc);
    push_row(
        rt,
        alloc,
        &mut rows,
        0,
        10,
        &[TO_SECOND, REFUSED, Target::Local],
    );
    push_row(
        rt,
        alloc,
        &mut rows,
        10,
        20,
        &[TO_SECOND, REFUSED, Target::Local],
    );
    push_row(
        rt,
        alloc,
        &mut rows,
        20,
        30,
        &[TO_SECOND, TO_FIRST, Target::NoRoute],
    );
    push_row(rt, alloc, &mut rows, 30, 40, &[TO_SECOND, to_third, DOWN]);
    push_row(
        rt,
        alloc,
        &mut rows,
        40,
        50,
        &[TO_SECOND, SILENT, Target::Local],
    );
    push_row(
        rt,
        alloc,
        &mut rows,
        50,
        60,
        &[TO_SECOND, REFUSED, Target::Local],
    );
    push_row(rt, alloc, &mut rows, 60, PAST, &end);
    ListView::new(3, rows)
}

#[test]
fn holes_come_by_router_then_cause(rt: HostRuntime) {
    let alloc = rt.alloc();
    let view = line(&rt, alloc);
    let list = holes_alone(&rt, alloc, &view, FIRST);
    let holes = list.as_slice();
    same(&rt, &holes.len(), &4);
    let last = [Run { lo: 60, hi: LAST }];
    compare_hole(&rt, holes, 0, FIRST, Target::NoRoute, &last[..]);
    let silent = [Run { lo: 40, hi: 49 }];
    compare_hole(&rt, holes, 1, SECOND, SILENT, &silent[..]);
    let refused = [Run { lo: 0, hi: 19 }, Run { lo: 50, hi: 59 }];
    compare_hole(&rt, holes, 2, SECOND, REFUSED, &refused[..]);
    let down = [Run { lo: 30, hi: 39 }];
    compare_hole(&rt, holes, 3, THIRD, DOWN, &down[..]);
}

#[test]
fn walks_from_the_last_router_have_holes_of_their_own(rt: HostRuntime) {
    let alloc = rt.alloc();
    let view = line(&rt, alloc);
    let list = holes_alone(&rt, alloc, &view, THIRD);
    let holes = list.as_slice();
    same(&rt, &holes.len(), &2);
    let none = [Run { lo: 20, hi: 29 }];
    compare_hole(&rt, holes, 0, THIRD, Target::NoRoute, &none[..]);
    let down = [Run { lo: 30, hi: 39 }];
    compare_hole(&rt, holes, 1, THIRD, DOWN, &down[..]);
}
