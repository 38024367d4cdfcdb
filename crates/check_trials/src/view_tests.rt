//! Views of rows in a list.

use crate::network::{
    FIRST, LAST, PAST, SECOND, crosses, is_column, is_row, push_row, target_at, there_and_back,
};
use crate::same::{holds, same};
use base::{List, Target};
use label_view::{LabelView, ListView};
use std::alloc::Global;
use std::process::Abort;

fn whole(rt: &impl Abort, alloc: Global) -> ListView {
    let mut rows = List::new(alloc);
    push_row(rt, alloc, &mut rows, 0, PAST, &[]);
    ListView::new(0, rows)
}

#[test]
fn a_row_of_all_addresses_is_that_of_each(rt: HostRuntime) {
    let view = whole(&rt, rt.alloc());
    crosses(&view);
    same(&rt, &view.atoms(), &1);
    same(&rt, &view.atom_of(LAST), &0);
    same(&rt, &view.bounds(view.atom_of(5)), &(0, PAST));
    same(&rt, &target_at(&view, FIRST, 5), &None);
}

#[test]
fn columns_and_rows_have_what_each_router_does(rt: HostRuntime) {
    let view = there_and_back(&rt, rt.alloc());
    let mut room = [Target::Exit(0); 2];
    for i in 0..3u64 {
        holds(&rt, is_column(&view, FIRST, i));
        holds(&rt, is_column(&view, SECOND, i));
        holds(&rt, is_row(&view, i, &mut room[..]));
    }
    same(&rt, &room[0], &Target::NoRoute);
    same(&rt, &room[1], &Target::Local);
}
