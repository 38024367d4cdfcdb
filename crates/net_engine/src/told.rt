//! What is told of an update.

ghost use Rattle.std.specs.Prelude.{◌≡◌, ℕ, true, ◌+◌, ◌≤◌, None, IfOk, OnOk};
ghost use Rattle.base.specs.Delta.{AreChanges, change_at};
ghost use Rattle.base.specs.Links.{without};
ghost use Rattle.base.specs.Runs.{holds};
ghost use Rattle.net_engine.specs.Told.{AreShown};
ghost use Rattle.net_engine.specs.Walked.{IsTold};

use crate::link_set::LinkSet;
use delta_graph::Delta;
use dn_model::{Change, OutOfMemory};
use std::alloc::Global;

/// It is told that a router does something else than before with each address of a run. It fails for want of memory alone.
pub fn tell(delta: &mut Delta, change: Change) -> Result<(), OutOfMemory>
    requires order { change.run.lo ≤ change.run.hi }
    requires differ { change.before ≡ change.after → ⊥ }
    requires form { AreChanges delta.old }
    requires free { (a : ℕ) → holds a change.run ≡ true → change_at delta.old change.router a ≡ None }
    ensures { OnOk result (IsTold delta.old delta.new change.router change.run.lo (change.run.hi + 1)
        change.before change.after) }
{
    delta.push(change)
}

/// The same with links that are down: it is told of what is shown then, if that is something else than before.
fn tell_shown(delta: &mut Delta, change: Change, down: &LinkSet) -> Result<(), OutOfMemory>
    requires order { change.run.lo ≤ change.run.hi }
    requires form { AreChanges delta.old }
    requires free { (a : ℕ) → holds a change.run ≡ true → change_at delta.old change.router a ≡ None }
    ensures { OnOk result (IsTold delta.old delta.new change.router change.run.lo (change.run.hi + 1)
        (without down.now change.before) (without down.now change.after)) }
{
    let before = down.shown(change.before);
    let after = down.shown(change.after);
    if before == after {
        return Ok(());
    }
    tell(
        delta,
        Change {
            router: change.router,
            run: change.run,
            before,
            after,
        },
    )
}

/// What is told of an update where links are down, by what it changes while all are up. Where none is down that is the
/// same. It fails for want of memory alone.
pub fn shown_changes(alloc: Global, told: Delta, down: &LinkSet) -> Result<Delta, OutOfMemory>
    ensures form { IfOk result AreChanges }
    ensures changes { IfOk result (AreShown down.now told) }
{
    if down.is_empty() {
        return Ok(told);
    }
    let mut shown = Delta::new(alloc);
    for change in told.changes() {
        tell_shown(&mut shown, *change, down)?;
    }
    Ok(shown)
}
