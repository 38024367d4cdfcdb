//! Which addresses come to a router.

ghost use Rattle.std.specs.Prelude.{◌≡◌, ◌+◌, ◌*◌, ◌<◌, ◌≤◌, ◌^◌, ℕ, true, IfOk, length};
ghost use Rattle.base.specs.Forwarding.{does};
ghost use Rattle.base.specs.Reach.{reaches};
ghost use Rattle.base.specs.Runs.{AreRuns};
ghost use Rattle.loop_check.specs.Bounds.{AreRunsByRange, only_within};
ghost use Rattle.par_scan.specs.Ranges.{range_begin};

use crate::more_runs::join_runs;
use crate::one_thread::reach_alone;
use crate::part::Part;
use crate::ranges::Ranges;
use base::{List, OutOfMemory, RouterId, Run};
use label_view::LabelView;
use rayon::current_num_threads;
use rayon::prelude::*;
use std::alloc::Global;
use std::thread::Threads;

/// The runs of the addresses of one range of rows that come from a router to another one.
fn reach_in<V: LabelView>(
    alloc: Global,
    view: &V,
    ranges: Ranges,
    k: u64,
    first: RouterId,
    to: RouterId,
) -> Result<List<Run>, OutOfMemory>
    requires rows { ranges.rows ≡ length (V.rows view.now) }
    requires number { k < 2 ^ 63 }
    requires router { first.0 < V.width view.now }
    requires differ { first.0 ≡ to.0 → ⊥ }
    ensures { IfOk result (λ runs. AreRuns runs (only_within
        (range_begin (V.rows view.now) ranges.size k)
        (range_begin (V.rows view.now) ranges.size (k + 1))
        (reaches (V.width view.now) (does (V.rows view.now)) first to))) }
{
    let part = Part::of_range(view, ranges, k);
    reach_alone(alloc, &part, first, to)
}

/// The runs of each range of rows, by as many threads as there are processors.
pub(crate) fn reach_by_range<V: LabelView + Sync>(
    rt: &(impl Threads + Sync),
    alloc: Global,
    view: &V,
    ranges: Ranges,
    first: RouterId,
    to: RouterId,
) -> Result<Vec<List<Run>>, OutOfMemory>
    requires rows { ranges.rows ≡ length (V.rows view.now) }
    requires router { first.0 < V.width view.now }
    requires differ { first.0 ≡ to.0 → ⊥ }
    ensures all { IfOk result (λ pieces. length (V.rows view.now) ≤ ranges.size * length pieces.items) }
    ensures each { IfOk result (λ pieces. AreRunsByRange (range_begin (V.rows view.now) ranges.size)
        (reaches (V.width view.now) (does (V.rows view.now)) first to) pieces.items) }
{
    let _form = view.atoms();
    (0..ranges.count())
        .into_par_iter()
        .with_min_len(1)
        .map(
            move |k: u64| -> Result<List<Run>, OutOfMemory>
                requires { (ranges.rows ≡ length (V.rows view.now)) × (k < 2 ^ 63)
                    × (first.0 < V.width view.now) × (first.0 ≡ to.0 → ⊥) }
                ensures { IfOk result (λ runs. AreRuns runs (only_within
                    (range_begin (V.rows view.entry.now) ranges.size k)
                    (range_begin (V.rows view.entry.now) ranges.size (k + 1))
                    (reaches (V.width view.entry.now) (does (V.rows view.entry.now)) first to))) }
            { reach_in(alloc, view, ranges, k, first, to) },
        )
        .collect::<Result<Vec<List<Run>>, OutOfMemory>>(rt, alloc)?
}

/// The one run of all addresses.
fn all_addresses(alloc: Global) -> Result<List<Run>, OutOfMemory>
    ensures { IfOk result (λ runs. AreRuns runs (λ a. true)) }
{
    let mut runs = List::new(alloc);
    runs.push(Run {
        lo: 0,
        hi: u32::MAX,
    })?;
    Ok(runs)
}

/// The runs of the addresses whose walk from a router meets another, in order, no two touching, as `walk_check::reach`
/// answers them, by as many threads as there are processors. The first router is met at once. Where no thread can be
/// made, the caller's own does the work.
pub fn reach<V: LabelView + Sync>(
    rt: &(impl Threads + Sync),
    alloc: Global,
    view: &V,
    first: RouterId,
    to: RouterId,
) -> Result<List<Run>, OutOfMemory>
    requires { first.0 < V.width view.now }
    ensures { IfOk result (λ runs. AreRuns runs (reaches (V.width view.now) (does (V.rows view.now)) first to)) }
{
    if first.0 == to.0 {
        return all_addresses(alloc);
    }
    let ranges = Ranges::new(view.atoms(), current_num_threads(rt));
    let pieces = reach_by_range(rt, alloc, view, ranges, first, to)?;
    join_runs(alloc, pieces.as_slice())
}
