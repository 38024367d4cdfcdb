//! Two changes beside each other, and the places that a change has among others.

ghost use Rattle.std.specs.Prelude.{◌≡◌, ◌+◌, ◌-◌, ◌<◌, ◌≤◌, ◌∷◌, ◌++◌, IsTrue, IsFalse, OnOk, OnErr, length, take, drop};
ghost use Rattle.base.specs.Delta.{GoesBefore, GoesOn, IsApart};

use base::{Change, OutOfMemory, Run};

/// Whether a change goes before another: by router, then address.
pub fn goes_before(first: &Change, second: &Change) -> bool
    ensures yes { IsTrue result → GoesBefore first.now second.now }
    ensures refused { IsFalse result → GoesBefore first.now second.now → ⊥ }
{
    first.router.0 < second.router.0
        || (first.router.0 == second.router.0 && first.run.hi < second.run.lo)
}

/// Whether the second change is the first going on: it begins where the first ends, with the same targets.
pub fn goes_on(first: &Change, second: &Change) -> bool
    ensures yes { IsTrue result → GoesOn first.now second.now }
    ensures refused { IsFalse result → GoesOn first.now second.now → ⊥ }
{
    first.router.0 == second.router.0
        && first.run.hi < second.run.lo
        && second.run.lo - first.run.hi == 1
        && first.before == second.before
        && first.after == second.after
}

/// Whether the second change goes behind the first and doesn't touch it, which is seen without a look at the targets.
pub fn stands_off(first: &Change, second: &Change) -> bool
    ensures { IsTrue result → IsApart first.now second.now }
{
    first.router.0 < second.router.0
        || (first.router.0 == second.router.0
            && first.run.hi < second.run.lo
            && second.run.lo - first.run.hi != 1)
}

/// Two changes as one, from where the first begins to where the second ends.
pub fn joined(first: &Change, second: &Change) -> Change
    requires { GoesOn first.now second.now }
    ensures router { result.router ≡ first.now.router }
    ensures lo { result.run.lo ≡ first.now.run.lo }
    ensures hi { result.run.hi ≡ second.now.run.hi }
    ensures before { result.before ≡ first.now.before }
    ensures after { result.after ≡ first.now.after }
{
    Change {
        router: first.router,
        run: Run {
            lo: first.run.lo,
            hi: second.run.hi,
        },
        before: first.before,
        after: first.after,
    }
}

/// Puts a change in the place of those from one place up to another, of which there are at most two.
pub fn replace(
    changes: &mut Vec<Change>,
    from: usize,
    to: usize,
    change: Change,
) -> Result<(), OutOfMemory>
    requires ordered { from ≤ to }
    requires few { to ≤ from + 2 }
    requires inside { to ≤ length changes.old.items }
    ensures ok { OnOk result (changes.new.items ≡ take from changes.old.items ++ change ∷ drop to changes.old.items) }
    ensures err { OnErr result (changes.new.items ≡ changes.old.items) }
{
    if from == to {
        changes.insert(from, change)?;
        return Ok(());
    }
    changes[from] = change;
    if from + 1 == to {
        return Ok(());
    }
    let _second = changes.remove(from + 1);
    Ok(())
}
