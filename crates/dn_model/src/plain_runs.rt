//! The plain evaluator of sets of addresses: a test on the elementary intervals between the ends of all routers'
//! prefixes, from the last interval down.

ghost use Rattle.std.specs.Prelude.{◌≡◌, ◌==◌, ◌+◌, ◌<◌, ◌≤◌, ◌^◌, IfOk, OnOk};
ghost use Rattle.base.specs.Runs.{AreRuns};
ghost use Rattle.base.specs.RunsFrom.{with_run, AreRunsFrom};
ghost use Rattle.dn_model.specs.Test.{passes};
ghost use Rattle.dn_model.specs.Network.{does_in, routers_in};

use crate::network::Network;
use crate::plain_intervals::interval_below;
use crate::plain_test::{Test, is_passed};
use base::{List, OutOfMemory, Run};
use std::alloc::Global;

/// Whether the second run begins where the first ends.
fn is_touching(first: Run, second: Run) -> bool
    ensures { result ≡ (first.hi + 1 == second.lo) }
{
    first.hi < second.lo && second.lo - first.hi == 1
}

/// Puts a run before others: one with the first of them where the two touch.
fn put_run(runs: &mut Vec<Run>, run: Run) -> Result<(), OutOfMemory>
    ensures { OnOk result (runs.new.items ≡ with_run run runs.old.items) }
{
    if !runs.is_empty() && is_touching(run, runs[0]) {
        runs[0] = Run {
            lo: run.lo,
            hi: runs[0].hi,
        };
        return Ok(());
    }
    runs.insert(0, run)?;
    Ok(())
}

/// Puts the last elementary interval below `past` before the runs, where its addresses pass the test, and gives where
/// the interval begins.
fn put_interval(
    alloc: Global,
    net: &Network,
    test: &Test,
    runs: &mut Vec<Run>,
    past: u64,
) -> Result<u64, OutOfMemory>
    requires some { 0 < past }
    requires below { past ≤ 2 ^ 32 }
    requires runs { AreRunsFrom past (passes (routers_in net.now) (does_in net.now) test.now) runs.old.items }
    ensures lower { IfOk result (λ low. low < past) }
    ensures told { IfOk result (λ low.
        AreRunsFrom low (passes (routers_in net.now) (does_in net.now) test.now) runs.new.items) }
{
    let low = interval_below(net, past);
    let last = (past - 1) as u32;
    if is_passed(alloc, net, test, last)? {
        put_run(
            runs,
            Run {
                lo: low as u32,
                hi: last,
            },
        )?;
    }
    Ok(low)
}

/// The runs of the addresses that pass a test.
pub(crate) fn plain_runs(
    alloc: Global,
    net: &Network,
    test: &Test,
) -> Result<List<Run>, OutOfMemory>
    ensures { IfOk result (λ runs.
        AreRuns runs (passes (routers_in net.now) (does_in net.now) test.now)) }
{
    let mut runs = Vec::new(alloc);
    let mut past: u64 = 1 << 32;
    while past > 0 {
        past = put_interval(alloc, net, test, &mut runs, past)?;
    }
    Ok(List::from_vec(runs))
}
