//! Updates of several tables, whose answers were worked out by hand, or are compared with each table by itself.

ghost use Rattle.std.specs.Prelude.{◌≡◌, ◌<◌};

use crate::draw::next_draw;
use crate::same::{same, same_list};
use crate::table_tests::{copied, some_op, some_prefix, ten, ten_one, ten_zero, update_table};
use dn_model::{Prefix, RouterId, Run, TableOp, Target, Way};
use route_table::{Lane, RouteTable, RouteTables, TableUpdate};
use std::alloc::Global;
use std::marker::Brand;
use std::process::Abort;
use std::sync::ledger::{Blank, Ledger};
use step_count::Steps;

/// What an update is to tell: what is done after it, and where.
#[derive(Clone, Copy)]
struct Told<'a> {
    after: Option<Target>,
    runs: &'a [Run],
}

fn answer(after: Target, runs: &[Run]) -> Told<'_> {
    Told {
        after: Some(after),
        runs,
    }
}

/// An update of the table of a router, which is looked for first at a row. It answers what is done after it, and where.
fn updated<L: Ledger>(
    rt: &impl Abort,
    alloc: Global,
    tables: &mut RouteTables,
    place: (RouterId, u64),
    update: &TableUpdate,
    steps: &mut Steps<L>,
) -> (Option<Way>, Vec<Run>) {
    let (router, near) = place;
    let mut runs = Vec::new(alloc);
    let told = tables
        .update(alloc, Lane::of(router), update, near, &mut runs, steps)
        .expect(rt, "memory");
    (told.after, runs)
}

/// An update of the third of four tables, which is looked for first at the first row, tells this.
fn compare_update<L: Ledger>(
    rt: &impl Abort,
    alloc: Global,
    tables: &mut RouteTables,
    op: TableOp,
    want: Told<'_>,
    steps: &mut Steps<L>,
) {
    let update = TableUpdate { op, alone: false };
    let (after, runs) = updated(rt, alloc, tables, (RouterId(2), 0), &update, steps);
    let way = match want.after {
        Some(target) => Some(Way::Straight(target)),
        None => None,
    };
    same(rt, &after, &way);
    same_list(rt, runs.as_slice(), want.runs);
}

/// A route is put.
fn setting(prefix: Prefix, metric: u32, target: Target) -> TableOp {
    TableOp::Put {
        prefix,
        metric,
        way: Way::Straight(target),
    }
}

/// All routes of a prefix are cleared.
fn clearing(prefix: Prefix) -> TableOp {
    TableOp::Clear {
        prefix,
        metric: None,
    }
}

/// A route is put in one of the tables.
fn put<L: Ledger>(
    rt: &impl Abort,
    alloc: Global,
    tables: &mut RouteTables,
    router: RouterId,
    op: TableOp,
    steps: &mut Steps<L>,
) {
    let update = TableUpdate { op, alone: false };
    let _told = updated(rt, alloc, tables, (router, 0), &update, steps);
}

/// Its neighbours set the same prefixes and some within and around them, which is nothing to the third router.
fn set_at_neighbours<L: Ledger>(
    rt: &impl Abort,
    alloc: Global,
    tables: &mut RouteTables,
    steps: &mut Steps<L>,
) {
    let all = setting(Prefix::new(0, 0), 1, Target::Local);
    let within = setting(Prefix::new(0x0A01_0200, 24), 1, Target::Exit(9));
    let again = setting(ten_one(), 1, Target::Exit(9));
    put(rt, alloc, tables, RouterId(1), all, steps);
    put(rt, alloc, tables, RouterId(3), within, steps);
    put(rt, alloc, tables, RouterId(3), again, steps);
}

fn updates_of_one_in_another<L: Ledger>(rt: &impl Abort, alloc: Global, blank: Blank)
    requires name { blank.name ≡ L.name }
    requires parts { blank.parts ≡ L.parts }
    requires some { 0 < blank.parts }
{
    let steps = &mut Steps::<L>::new(blank);
    let tables = &mut RouteTables::new();
    let ten_all = [Run {
        lo: 0x0A00_0000,
        hi: 0x0AFF_FFFF,
    }];
    let one_all = [Run {
        lo: 0x0A01_0000,
        hi: 0x0A01_FFFF,
    }];
    let around_one = [
        Run {
            lo: 0x0A00_0000,
            hi: 0x0A00_FFFF,
        },
        Run {
            lo: 0x0A02_0000,
            hi: 0x0AFF_FFFF,
        },
    ];
    let inner = Target::Exit(1);
    let outer = Target::Exit(2);
    let nothing = Told {
        after: None,
        runs: &[],
    };
    let set_ten = setting(ten(), 20, Target::Local);
    let local = answer(Target::Local, &ten_all);
    compare_update(rt, alloc, tables, set_ten, local, steps);
    set_at_neighbours(rt, alloc, tables, steps);
    let set_again = setting(ten(), 20, Target::Local);
    compare_update(rt, alloc, tables, set_again, nothing, steps);
    let set_one = setting(ten_one(), 5, inner);
    compare_update(rt, alloc, tables, set_one, answer(inner, &one_all), steps);
    let set_less = setting(ten(), 10, outer);
    compare_update(
        rt,
        alloc,
        tables,
        set_less,
        answer(outer, &around_one),
        steps,
    );
    compare_update(rt, alloc, tables, clearing(ten_zero()), nothing, steps);
    let clear_one = clearing(ten_one());
    compare_update(rt, alloc, tables, clear_one, answer(outer, &one_all), steps);
    let none = answer(Target::NoRoute, &ten_all);
    compare_update(rt, alloc, tables, clearing(ten()), none, steps);
}

#[test]
fn an_update_tells_the_own_addresses_of_its_prefix(rt: HostRuntime) {
    updates_of_one_in_another::<Brand>(&rt, rt.alloc(), Blank::new(1));
}

/// The way of an address by a table.
fn way_of(table: &RouteTable, a: u32) -> Way {
    match table.best(a) {
        Some(route) => route.way,
        None => Way::Straight(Target::NoRoute),
    }
}

/// At addresses in these runs a table does what was answered, at all others what it did before.
fn compare_turned(
    rt: &impl Abort,
    before: &RouteTable,
    table: &RouteTable,
    runs: &[Run],
    after: Option<Way>,
) {
    for k in 0..60u32 {
        let a = some_prefix(k * 5).base();
        let mut want = way_of(before, a);
        if let Some(way) = after {
            if runs.iter().any(|run| run.lo <= a && a <= run.hi) {
                want = way;
            }
        }
        same(rt, &way_of(table, a), &want);
    }
}

/// An update of the first of four tables or of the last, and of the table of that router by itself, which shows whether
/// what the first told is so. The last router replaces by prefix.
fn update_beside<L: Ledger>(
    rt: &impl Abort,
    alloc: Global,
    tables: &mut RouteTables,
    router: RouterId,
    own: &mut RouteTable,
    draw: u64,
    steps: &mut Steps<L>,
) {
    let update = TableUpdate {
        op: some_op(draw),
        alone: router == RouterId(3),
    };
    let before = copied(rt, own);
    let near = (draw >> 50) % 400;
    let (after, runs) = updated(rt, alloc, tables, (router, near), &update, steps);
    update_table(rt, alloc, own, &update);
    compare_turned(rt, &before, own, runs.as_slice(), after);
}

/// Updates of the first and the last of four tables in turn.
fn update_in_turn<L: Ledger>(
    rt: &impl Abort,
    alloc: Global,
    tables: &mut RouteTables,
    first: &mut RouteTable,
    last: &mut RouteTable,
    seed: u64,
    steps: &mut Steps<L>,
) {
    let mut draw = seed;
    for _ in 0..200u32 {
        draw = next_draw(draw);
        update_beside(rt, alloc, tables, RouterId(0), first, draw, steps);
        draw = next_draw(draw);
        update_beside(rt, alloc, tables, RouterId(3), last, draw, steps);
    }
}

fn updates_near_any_place<L: Ledger>(rt: &impl Abort, alloc: Global, blank: Blank)
    requires name { blank.name ≡ L.name }
    requires parts { blank.parts ≡ L.parts }
    requires some { 0 < blank.parts }
{
    let steps = &mut Steps::<L>::new(blank);
    let tables = &mut RouteTables::new();
    let first = &mut RouteTable::new();
    let last = &mut RouteTable::new();
    update_in_turn(rt, alloc, tables, first, last, 3, steps);
    let held = &mut tables.copy().expect(rt, "memory");
    let held_first = &mut copied(rt, first);
    let held_last = &mut copied(rt, last);
    update_in_turn(rt, alloc, tables, first, last, 4, steps);
    update_in_turn(rt, alloc, held, held_first, held_last, 5, steps);
    update_in_turn(rt, alloc, tables, first, last, 6, steps);
}

/// Some hundred prefixes stand in several pages, many within others, and a copy is held and then changed too.
#[test]
fn tables_side_by_side_do_what_each_alone_does(rt: HostRuntime) {
    updates_near_any_place::<Brand>(&rt, rt.alloc(), Blank::new(1));
}
