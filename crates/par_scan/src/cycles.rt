//! In which cycles addresses go round.

ghost use Rattle.std.specs.Prelude.{◌≡◌, ◌+◌, ◌*◌, ◌<◌, ◌≤◌, ◌^◌, ℕ, IfOk, length};
ghost use Rattle.base.specs.Cycles.{AreCycles};
ghost use Rattle.base.specs.Forwarding.{does};
ghost use Rattle.loop_check.specs.CyclesByRange.{AreCyclesByRange, AreCyclesWithin};
ghost use Rattle.par_scan.specs.Ranges.{range_begin};

use crate::one_thread::loops_alone;
use crate::part::Part;
use crate::ranges::Ranges;
use base::{Cycle, List, OutOfMemory};
use label_view::LabelView;
use loop_check::join_cycles;
use rayon::current_num_threads;
use rayon::prelude::*;
use std::alloc::Global;
use std::thread::Threads;

/// The cycles of the addresses of one range of rows.
fn cycles_in<V: LabelView>(
    alloc: Global,
    view: &V,
    ranges: Ranges,
    k: u64,
) -> Result<List<Cycle>, OutOfMemory>
    requires rows { ranges.rows ≡ length (V.rows view.now) }
    requires number { k < 2 ^ 63 }
    ensures { IfOk result (AreCyclesWithin
        (range_begin (V.rows view.now) ranges.size k)
        (range_begin (V.rows view.now) ranges.size (k + 1))
        (does (V.rows view.now))) }
{
    let part = Part::of_range(view, ranges, k);
    loops_alone(alloc, &part)
}

/// The cycles of each range of rows, by as many threads as there are processors.
pub(crate) fn cycles_by_range<V: LabelView + Sync>(
    rt: &(impl Threads + Sync),
    alloc: Global,
    view: &V,
    ranges: Ranges,
) -> Result<Vec<List<Cycle>>, OutOfMemory>
    requires { ranges.rows ≡ length (V.rows view.now) }
    ensures all { IfOk result (λ pieces. length (V.rows view.now) ≤ ranges.size * length pieces.items) }
    ensures each { IfOk result (λ pieces. AreCyclesByRange (range_begin (V.rows view.now) ranges.size)
        (does (V.rows view.now)) pieces.items) }
{
    let _form = view.atoms();
    (0..ranges.count())
        .into_par_iter()
        .with_min_len(1)
        .map(
            move |k: u64| -> Result<List<Cycle>, OutOfMemory>
                requires { (ranges.rows ≡ length (V.rows view.now)) × (k < 2 ^ 63) }
                ensures { IfOk result (AreCyclesWithin
                    (range_begin (V.rows view.entry.now) ranges.size k)
                    (range_begin (V.rows view.entry.now) ranges.size (k + 1))
                    (does (V.rows view.entry.now))) }
            { cycles_in(alloc, view, ranges, k) },
        )
        .collect::<Result<Vec<List<Cycle>>, OutOfMemory>>(rt, alloc)?
}

/// The cycles in which addresses go round for ever, as `loop_check::loops` answers them, by as many threads as there
/// are processors: by least address, then by first router, each once, with the least address that goes round it and the
/// number of all that do. Where no thread can be made, the caller's own does the work.
pub fn loops<V: LabelView + Sync>(
    rt: &(impl Threads + Sync),
    alloc: Global,
    view: &V,
) -> Result<List<Cycle>, OutOfMemory>
    ensures { IfOk result (λ cycles. AreCycles (does (V.rows view.now)) cycles) }
{
    let ranges = Ranges::new(view.atoms(), current_num_threads(rt));
    let pieces = cycles_by_range(rt, alloc, view, ranges)?;
    join_cycles(alloc, pieces.as_slice())
}
