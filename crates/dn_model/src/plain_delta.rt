//! The plain evaluator of `delta`: per router, the targets before and after the last update on the elementary
//! intervals between the ends of its routes' prefixes, from the last interval of the last router down.

ghost use Rattle.std.specs.Prelude.{◌≡◌, ◌+◌, ◌-◌, ◌<◌, ◌≤◌, ◌^◌, ◌∷◌, ℕ, IsTrue, IsFalse, IfOk, OnOk, All, List as ListIs};
ghost use Rattle.base.specs.Delta.{AreChanges, GoesOn, IsChange, IsDelta};
ghost use Rattle.dn_model.specs.LastDelta.{IsDeltaOf, less_last};
ghost use Rattle.base.specs.DeltaFrom.{CoversAlike, BeginFrom, IsJoined, IsPutFirst, TellsPart, IsDeltaFrom};
ghost use Rattle.dn_model.specs.Entry.{IsEntryOf};
ghost use Rattle.dn_model.specs.Network.{does_in, routers_in};
ghost use Rattle.dn_model.specs.Table.{Object, target_in};

use crate::entry::{Entry, Route};
use crate::network::Network;
use crate::topology::Topology;
use base::{Change, List, OutOfMemory, Prefix, RouterId, Run, Target};
use std::alloc::Global;

/// The end of a prefix that is the last below `past`, if it is above `low`; else `low`. A prefix has two ends: its
/// first address, and the one after its last.
fn end_below(prefix: Prefix, low: u64, past: u64) -> u64
    requires { low < past }
    ensures low { low ≤ result }
    ensures below { result < past }
    ensures alike { CoversAlike result past prefix }
{
    let base = prefix.base() as u64;
    let end = base + (1u64 << (32 - prefix.len()));
    if low < end && end < past {
        return end;
    }
    if low < base && base < past {
        return base;
    }
    low
}

/// The last end below `past` of the prefixes of these routes, if it is above `low`; else `low`.
pub(crate) fn last_end(routes: &[Route], low: u64, past: u64) -> u64
    requires { low < past }
    ensures low { low ≤ result }
    ensures below { result < past }
    ensures alike { (objects : ListIs Object) → (a : ℕ) → result ≤ a → a < past →
        target_in objects routes.now a ≡ target_in objects routes.now (past - 1) }
{
    let mut last = low;
    for route in routes {
        last = end_below(route.prefix, last, past);
    }
    last
}

/// Whether the second change is the first going on: it begins where the first ends, with the same targets.
fn is_going_on(first: &Change, second: &Change) -> bool
    ensures yes { IsTrue result → GoesOn first.now second.now }
    ensures refused { IsFalse result → GoesOn first.now second.now → ⊥ }
{
    first.router.0 == second.router.0
        && first.run.hi < second.run.lo
        && second.run.lo - first.run.hi == 1
        && first.before == second.before
        && first.after == second.after
}

/// Two changes, of which the second is the first going on, as one.
fn as_one(first: &Change, second: &Change) -> Change
    requires { GoesOn first.now second.now }
    ensures { IsJoined first.now second.now result }
{
    Change {
        router: first.router,
        run: Run {
            lo: first.run.lo,
            hi: second.run.hi,
        },
        before: first.before,
        after: first.after,
    }
}

/// Puts a change before others, none of which begins before its run has ended. The first of them that is the change
/// going on becomes one with it.
fn put_first(changes: &mut Vec<Change>, change: Change) -> Result<(), OutOfMemory>
    requires form { AreChanges changes.old.items }
    requires sound { IsChange change }
    requires begin { BeginFrom change.router.0 (change.run.hi + 1) changes.old.items }
    ensures { OnOk result (IsPutFirst change changes.old.items changes.new.items) }
{
    if !changes.is_empty() && is_going_on(&change, &changes[0]) {
        let next = changes.remove(0);
        changes.insert(0, as_one(&change, &next))?;
        return Ok(());
    }
    changes.insert(0, change)?;
    Ok(())
}

/// Whether two targets are the same.
fn is_same(before: Target, after: Target) -> bool
    ensures yes { IsTrue result → before ≡ after }
    ensures refused { IsFalse result → before ≡ after → ⊥ }
{
    before == after
}

/// Puts the change of a run of a router's addresses before others, if its target before is another one than after.
fn tell_run(
    changes: &mut Vec<Change>,
    router: RouterId,
    run: Run,
    before: Target,
    after: Target,
) -> Result<(), OutOfMemory>
    requires order { run.lo ≤ run.hi }
    requires form { AreChanges changes.old.items }
    requires begin { BeginFrom router.0 (run.hi + 1) changes.old.items }
    ensures { OnOk result
        (TellsPart router.0 run.lo (run.hi + 1) (λ _. before) (λ _. after) changes.old.items changes.new.items) }
{
    if is_same(before, after) {
        return Ok(());
    }
    put_first(
        changes,
        Change {
            router,
            run,
            before,
            after,
        },
    )
}

/// Puts the change of a router's last elementary interval below `past` before others, by what it did before and does
/// after, and gives where the interval begins.
fn tell_interval(
    changes: &mut Vec<Change>,
    router: RouterId,
    before: &Network,
    after: &Network,
    past: u64,
) -> Result<u64, OutOfMemory>
    requires some { 0 < past }
    requires below { past ≤ 2 ^ 32 }
    requires form { AreChanges changes.old.items }
    requires begin { BeginFrom router.0 past changes.old.items }
    ensures lower { IfOk result (λ low. low < past) }
    ensures told { IfOk result (λ low.
        TellsPart router.0 low past (does_in before.now router) (does_in after.now router)
        changes.old.items changes.new.items) }
{
    let low = before.end_below(router, 0, past);
    let low = after.end_below(router, low, past);
    let last = (past - 1) as u32;
    let run = Run {
        lo: low as u32,
        hi: last,
    };
    tell_run(
        changes,
        router,
        run,
        before.target(router, last),
        after.target(router, last),
    )?;
    Ok(low)
}

/// Puts the changes of a router before those of the routers after it.
fn tell_router(
    changes: &mut Vec<Change>,
    router: RouterId,
    before: &Network,
    after: &Network,
) -> Result<(), OutOfMemory>
    requires { IsDeltaFrom (does_in before.now) (does_in after.now) (router.0 + 1) 0 changes.old.items }
    ensures { OnOk result (IsDeltaFrom (does_in before.now) (does_in after.now) router.0 0 changes.new.items) }
{
    let mut past: u64 = 1 << 32;
    while past > 0 {
        past = tell_interval(changes, router, before, after, past)?;
    }
    Ok(())
}

/// Where what the routers of a network do differs between two moments.
fn changes_between(
    alloc: Global,
    before: &Network,
    after: &Network,
) -> Result<List<Change>, OutOfMemory>
    requires { routers_in before.now ≡ routers_in after.now }
    ensures { IfOk result (IsDelta (does_in before.now) (does_in after.now)) }
{
    let mut changes = Vec::new(alloc);
    let mut left = after.router_count();
    while left > 0 {
        left -= 1;
        tell_router(&mut changes, RouterId(left), before, after)?;
    }
    Ok(List::from_vec(changes))
}

/// The updates but for the last one.
fn all_but_last(entries: &[Entry]) -> &[Entry]
    ensures { result.now ≡ less_last entries.now }
{
    &entries[..entries.len().saturating_sub(1)]
}

/// What the last update of a history changed.
pub fn plain_delta(
    alloc: Global,
    t: &Topology,
    entries: &[Entry],
) -> Result<List<Change>, OutOfMemory>
    requires { All (IsEntryOf t.now) entries.now }
    ensures { IfOk result (λ changes. IsDeltaOf t.now entries.now changes) }
{
    let before = Network::after(alloc, t, all_but_last(entries), &[])?;
    let after = Network::after(alloc, t, entries, &[])?;
    changes_between(alloc, &before, &after)
}
