//! A view of two routers with links down.

use crate::network::{FIRST, LAST, PAST, SECOND, crosses, is_column, is_row, push_row, target_at};
use crate::same::{holds, same};
use base::{LinkId, List, Target};
use label_view::{LabelView, ListView};
use std::alloc::Global;
use std::process::Abort;
use what_if::Without;

const OVER_THREE: Target = Target::To(SECOND, LinkId(3));

const OVER_FOUR: Target = Target::To(FIRST, LinkId(4));

/// Up to 9 the first router goes on over the link 3 and the second over the link 4; from 10 on there is no route.
fn pair(rt: &impl Abort, alloc: Global) -> ListView {
    let high = [Target::NoRoute, Target::LinkDown(LinkId(4))];
    let mut rows = List::new(alloc);
    push_row(rt, alloc, &mut rows, 0, 10, &[OVER_THREE, OVER_FOUR]);
    push_row(rt, alloc, &mut rows, 10, PAST, &high);
    ListView::new(2, rows)
}

#[test]
fn only_what_went_over_a_link_that_is_down_changes(rt: HostRuntime) {
    let view = pair(&rt, rt.alloc());
    let down = [LinkId(3), LinkId(3), LinkId(9)];
    let without = Without::new(&view, &down[..]);
    crosses(&without);
    same(&rt, &without.atoms(), &2);
    same(&rt, &without.bounds(without.atom_of(LAST)), &(10, PAST));
    same(
        &rt,
        &target_at(&without, FIRST, 9),
        &Some(Target::LinkDown(LinkId(3))),
    );
    same(&rt, &target_at(&without, SECOND, 9), &Some(OVER_FOUR));
    same(&rt, &target_at(&without, FIRST, 10), &Some(Target::NoRoute));
}

#[test]
fn columns_and_rows_are_read_with_the_links_down(rt: HostRuntime) {
    let view = pair(&rt, rt.alloc());
    let down = [LinkId(3)];
    let without = Without::new(&view, &down[..]);
    let mut room = [Target::Exit(0); 2];
    for i in 0..2u64 {
        holds(&rt, is_column(&without, FIRST, i));
        holds(&rt, is_column(&without, SECOND, i));
        holds(&rt, is_row(&without, i, &mut room[..]));
    }
    holds(&rt, is_row(&without, 0, &mut room[..]));
    same(&rt, &room[0], &Target::LinkDown(LinkId(3)));
    same(&rt, &room[1], &OVER_FOUR);
}
