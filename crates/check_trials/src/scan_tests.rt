//! Answers of threads beside those of one thread. A view of up to 1,027 rows is cut into ranges of 256, however many
//! processors there are; where 256 divides their number, one more range has none.

ghost use Rattle.std.specs.Prelude.{◌≡◌, ◌≤◌, ◌<◌};
ghost use Rattle.base.specs.Forwarding.{IsForwarding};

use crate::network::{FIRST, LAST, PAST, SECOND, TO_FIRST, TO_SECOND, row};
use crate::one_thread::{holes_alone, loops_alone, reach_alone};
use crate::same::{compare_cycle, compare_cycles, compare_hole, compare_holes, same, same_list};
use base::{DropKind, ForwardingRow, List, RouterId, Run, Target};
use label_view::ListView;
use std::alloc::Global;
use std::process::Abort;
use std::thread::Threads;

const REFUSED: Target = Target::Dropped(DropKind::Unreachable);

/// The row with a number, from 0. Up to 1,023 r1 goes on to r2, which refuses the addresses of the first 512 rows and
/// sends the others back; from 1,024 on r1 has no route.
fn row_at(rt: &impl Abort, alloc: Global, number: u64, low: u64, past: u64) -> ForwardingRow
    ensures low { result.low ≡ low }
    ensures past { result.past ≡ past }
    ensures form { IsForwarding 2 result }
{
    if number < 512 {
        return row(rt, alloc, low, past, &[TO_SECOND, REFUSED][..]);
    }
    if number < 1024 {
        return row(rt, alloc, low, past, &[TO_SECOND, TO_FIRST][..]);
    }
    row(rt, alloc, low, past, &[Target::NoRoute, Target::Local][..])
}

/// Rows of ten addresses each up to the last, which has all that are left.
fn long(rt: &impl Abort, alloc: Global, last: u64) -> ListView
    requires { last ≤ 1026 }
    ensures { result.routers ≡ 2 }
{
    let mut rows = List::new(alloc);
    for i in 0..last {
        rows.push(row_at(rt, alloc, i, i * 10, i * 10 + 10))
            .expect(rt, "memory");
    }
    rows.push(row_at(rt, alloc, last, last * 10, PAST))
        .expect(rt, "memory");
    ListView::new(2, rows)
}

/// By threads and by one alone the addresses that come from r1 to r2 are these.
fn compare_reach(rt: &(impl Threads + Abort + Sync), alloc: Global, view: &ListView, want: Run)
    requires { view.now.routers ≡ 2 }
{
    let alone = reach_alone(rt, alloc, view, FIRST, SECOND);
    same_list(rt, alone.as_slice(), &[want][..]);
    let whole = par_scan::reach(rt, alloc, view, FIRST, SECOND).expect(rt, "memory");
    same_list(rt, whole.as_slice(), alone.as_slice());
}

/// By threads and by one alone there are so many holes of r1's walks. The last one, at r2, has the addresses of the
/// first 512 rows.
fn compare_blackholes(
    rt: &(impl Threads + Abort + Sync),
    alloc: Global,
    view: &ListView,
    count: usize,
)
    requires { view.now.routers ≡ 2 }
{
    let alone = holes_alone(rt, alloc, view, FIRST);
    same(rt, &alone.len(), &count);
    let refused = [Run { lo: 0, hi: 5119 }];
    let place = count.saturating_sub(1);
    compare_hole(rt, alone.as_slice(), place, SECOND, REFUSED, &refused[..]);
    let whole = par_scan::blackholes(rt, alloc, view, FIRST).expect(rt, "memory");
    compare_holes(rt, whole.as_slice(), alone.as_slice());
}

/// By threads and by one alone there is one cycle, of r1 and r2, in which so many addresses go round.
fn compare_loops(
    rt: &(impl Threads + Abort + Sync),
    alloc: Global,
    view: &ListView,
    addresses: u64,
) {
    let alone = loops_alone(rt, alloc, view);
    same(rt, &alone.len(), &1);
    compare_cycle(
        rt,
        alone.as_slice(),
        0,
        &[FIRST, SECOND][..],
        5120,
        addresses,
    );
    let whole = par_scan::loops(rt, alloc, view).expect(rt, "memory");
    compare_cycles(rt, whole.as_slice(), alone.as_slice());
}

#[test]
fn runs_that_touch_where_ranges_meet_are_one(rt: HostRuntime) {
    let alloc = rt.alloc();
    let view = long(&rt, alloc, 1024);
    compare_reach(&rt, alloc, &view, Run { lo: 0, hi: 10_239 });
    let even = long(&rt, alloc, 1023);
    compare_reach(&rt, alloc, &even, Run { lo: 0, hi: LAST });
}

#[test]
fn holes_of_two_ranges_are_told_once(rt: HostRuntime) {
    let alloc = rt.alloc();
    let view = long(&rt, alloc, 1024);
    compare_blackholes(&rt, alloc, &view, 2);
    let even = long(&rt, alloc, 1023);
    compare_blackholes(&rt, alloc, &even, 1);
}

#[test]
fn cycles_of_two_ranges_are_told_once(rt: HostRuntime) {
    let alloc = rt.alloc();
    let view = long(&rt, alloc, 1024);
    compare_loops(&rt, alloc, &view, 5120);
    let even = long(&rt, alloc, 1023);
    compare_loops(&rt, alloc, &even, PAST - 5120);
}
