//! Runs of addresses that come after others.

ghost use Rattle.std.specs.Prelude.{◌≡◌, ℕ, Bool, [], ◌∷◌, IfOk, OnOk, length};
ghost use Rattle.base.specs.Runs.{AreRuns};
ghost use Rattle.loop_check.specs.Joined.{joined};
ghost use Rattle.loop_check.specs.Bounds.{AreBounds, AreRunsByRange, only_within};

use base::{List, OutOfMemory, Run};
use std::alloc::Global;

/// Adds a run after others. If the last of them touches it, the two become one.
fn add_run(runs: &mut Vec<Run>, run: Run) -> Result<(), OutOfMemory>
    ensures { OnOk result (runs.new.items ≡ joined runs.old.items (run ∷ [])) }
{
    let Some(last) = runs.pop() else {
        runs.push(run)?;
        return Ok(());
    };
    if u64::from(last.hi) + 1 == u64::from(run.lo) {
        runs.push(Run {
            lo: last.lo,
            hi: run.hi,
        })?;
        return Ok(());
    }
    runs.push(last)?;
    runs.push(run)?;
    Ok(())
}

/// Adds runs after others. If the last of these touches the first of them, the two become one.
pub(crate) fn add_runs(runs: &mut Vec<Run>, more: &[Run]) -> Result<(), OutOfMemory>
    ensures { OnOk result (runs.new.items ≡ joined runs.old.items more.now) }
{
    let [first, rest @ ..] = more else {
        return Ok(());
    };
    add_run(runs, *first)?;
    runs.extend_from_slice(rest)?;
    Ok(())
}

/// The runs of all ranges, where each has those of its own addresses. Runs that touch where two ranges meet become one.
pub(crate) fn join_runs(alloc: Global, pieces: &[List<Run>]) -> Result<List<Run>, OutOfMemory>
    ensures { IfOk result (λ runs. (at : ℕ → ℕ) (test : ℕ → Bool) → AreBounds at → AreRunsByRange at test pieces.now
        → AreRuns runs (only_within 0 (at (length pieces.now)) test)) }
{
    let mut runs = Vec::new(alloc);
    for k in 0..pieces.len() {
        add_runs(&mut runs, pieces[k].as_slice())?;
    }
    Ok(List::from_vec(runs))
}
