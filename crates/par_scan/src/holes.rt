//! Where walks end without a way on.

ghost use Rattle.std.specs.Prelude.{◌≡◌, ◌+◌, ◌*◌, ◌<◌, ◌≤◌, ◌^◌, ℕ, IfOk, length};
ghost use Rattle.base.specs.Forwarding.{does};
ghost use Rattle.base.specs.Holes.{AreHoles};
ghost use Rattle.par_scan.specs.HolesByRange.{AreHolesByRange, AreHolesWithin};
ghost use Rattle.par_scan.specs.Ranges.{range_begin};

use crate::hole_pieces::join_holes;
use crate::one_thread::holes_alone;
use crate::part::Part;
use crate::ranges::Ranges;
use base::{Hole, List, OutOfMemory, RouterId};
use label_view::LabelView;
use rayon::current_num_threads;
use rayon::prelude::*;
use std::alloc::Global;
use std::thread::Threads;

/// The black holes of the addresses of one range of rows.
fn holes_in<V: LabelView>(
    alloc: Global,
    view: &V,
    ranges: Ranges,
    k: u64,
    first: RouterId,
) -> Result<List<Hole>, OutOfMemory>
    requires rows { ranges.rows ≡ length (V.rows view.now) }
    requires number { k < 2 ^ 63 }
    requires router { first.0 < V.width view.now }
    ensures { IfOk result (AreHolesWithin
        (range_begin (V.rows view.now) ranges.size k)
        (range_begin (V.rows view.now) ranges.size (k + 1))
        (V.width view.now) (does (V.rows view.now)) first) }
{
    let part = Part::of_range(view, ranges, k);
    holes_alone(alloc, &part, first)
}

/// The black holes of each range of rows, by as many threads as there are processors.
pub(crate) fn holes_by_range<V: LabelView + Sync>(
    rt: &(impl Threads + Sync),
    alloc: Global,
    view: &V,
    ranges: Ranges,
    first: RouterId,
) -> Result<Vec<List<Hole>>, OutOfMemory>
    requires rows { ranges.rows ≡ length (V.rows view.now) }
    requires router { first.0 < V.width view.now }
    ensures all { IfOk result (λ pieces. length (V.rows view.now) ≤ ranges.size * length pieces.items) }
    ensures each { IfOk result (λ pieces. AreHolesByRange (range_begin (V.rows view.now) ranges.size)
        (V.width view.now) (does (V.rows view.now)) first pieces.items) }
{
    let _form = view.atoms();
    (0..ranges.count())
        .into_par_iter()
        .with_min_len(1)
        .map(
            move |k: u64| -> Result<List<Hole>, OutOfMemory>
                requires { (ranges.rows ≡ length (V.rows view.now)) × (k < 2 ^ 63) × (first.0 < V.width view.now) }
                ensures { IfOk result (AreHolesWithin
                    (range_begin (V.rows view.entry.now) ranges.size k)
                    (range_begin (V.rows view.entry.now) ranges.size (k + 1))
                    (V.width view.entry.now) (does (V.rows view.entry.now)) first) }
            { holes_in(alloc, view, ranges, k, first) },
        )
        .collect::<Result<Vec<List<Hole>>, OutOfMemory>>(rt, alloc)?
}

/// The addresses whose walks from a router end without a way on, as `blackhole::blackholes` answers them, by as many
/// threads as there are processors: for each last router and cause that has any, their runs; by router, then by cause.
/// Where no thread can be made, the caller's own does the work.
pub fn blackholes<V: LabelView + Sync>(
    rt: &(impl Threads + Sync),
    alloc: Global,
    view: &V,
    first: RouterId,
) -> Result<List<Hole>, OutOfMemory>
    requires { first.0 < V.width view.now }
    ensures { IfOk result (λ holes. AreHoles (V.width view.now) (does (V.rows view.now)) first holes) }
{
    let ranges = Ranges::new(view.atoms(), current_num_threads(rt));
    let pieces = holes_by_range(rt, alloc, view, ranges, first)?;
    join_holes(alloc, pieces.as_slice())
}
