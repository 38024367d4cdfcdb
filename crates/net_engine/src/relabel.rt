//! What a router does with the atoms of some runs of addresses.

ghost use Rattle.std.specs.Prelude.{◌≡◌, ℕ, ◌+◌, ◌<◌, ◌≤◌, ◌^◌, true, IfOk, OnOk};
ghost use Rattle.std.specs.List.{list_any};
ghost use Rattle.atom_map.specs.Spans.{AreSpans, Span, is_boundary};
ghost use Rattle.base.specs.Runs.{AreApart, holds};
ghost use Rattle.net_engine.specs.Paired.{AreLabelled, does_at};
ghost use Rattle.net_engine.specs.Rerouted.{AtomBegins, AtomsEnd, IsMoved, IsRelabelled, RunsOfAtoms};

use crate::told::tell;
use atom_map::Bounds;
use delta_graph::Delta;
use dn_model::{Change, OutOfMemory, RouterId, Run, Target};
use std::alloc::Global;
use target_rows::TargetRows;

/// What a router does with a run of addresses after an update.
#[derive(Clone, Copy, Debug, PartialEq, Eq)]
struct Turn {
    router: RouterId,
    run: Run,
    after: Target,
}

/// What a router did with a run of addresses before an update, the place of the run's first atom, and of the one behind
/// its last.
#[derive(Clone, Copy, Debug, PartialEq, Eq)]
struct Turned {
    before: Target,
    first: u64,
    past: u64,
}

/// What a router does with the addresses of some runs after an update. The first atom is looked for first near a place
/// that may be at hand.
#[derive(Clone, Copy, Debug, PartialEq, Eq)]
pub struct Aim {
    pub router: RouterId,
    pub after: Target,
    pub near: Option<u64>,
}

/// What is told of an update, and the place of the first atom that it looked at: whoever looks there next begins with it.
#[derive(Drop)]
pub struct Moved {
    pub delta: Delta,
    pub place: u64,
}

/// The place of the first atom of a run, and that behind its last. The first is looked for first near a place that may be
/// at hand.
fn places(atoms: &Bounds, run: Run, near: Option<u64>) -> (u64, u64)
    requires form { AreSpans atoms.now }
    requires order { run.lo ≤ run.hi }
    requires first { is_boundary atoms.now run.lo ≡ true }
    requires last { run.hi + 1 < 2 ^ 32 → is_boundary atoms.now (run.hi + 1) ≡ true }
    ensures first { AtomBegins atoms.now result.0 run.lo }
    ensures past { AtomsEnd atoms.now result.1 (run.hi + 1) }
{
    let (first, last) = atoms.places_from(near, run.lo, run.hi);
    (first, last + 1)
}

/// A router does something with each atom of a run, at whose ends atoms begin, where it did one and the same, which is
/// answered. The first atom is looked for first near a place that may be at hand. It fails for want of memory alone, and
/// then nothing is said of the labels.
fn turn_run(
    alloc: Global,
    atoms: &Bounds,
    labels: &mut TargetRows,
    turn: Turn,
    near: Option<u64>,
) -> Result<Turned, OutOfMemory>
    requires router { turn.router.0 < labels.old.routers }
    requires labelled { AreLabelled atoms.now labels.old }
    requires order { turn.run.lo ≤ turn.run.hi }
    requires first { is_boundary atoms.now turn.run.lo ≡ true }
    requires last { turn.run.hi + 1 < 2 ^ 32 → is_boundary atoms.now (turn.run.hi + 1) ≡ true }
    requires same { (a : ℕ) → holds a turn.run ≡ true →
        does_at atoms.now labels.old turn.router.0 a ≡ does_at atoms.now labels.old turn.router.0 turn.run.lo }
    ensures moved { OnOk result (IsRelabelled atoms.now labels.old labels.new turn.router.0 turn.run.lo
        (turn.run.hi + 1) turn.after) }
    ensures before { IfOk result (λ turned.
        turned.before ≡ does_at atoms.now labels.old turn.router.0 turn.run.lo) }
{
    let (first, past) = places(atoms, turn.run, near);
    let before = labels.turn_run(alloc, turn.router, first, past, turn.after)?;
    Ok(Turned {
        before,
        first,
        past,
    })
}

/// A router does something with each atom of some runs, where it did one and the same, and it is told of them if it is
/// something else, in the memory of a delta that is at hand. It fails for want of memory alone, and then nothing is said
/// of the labels.
pub fn reroute(
    alloc: Global,
    atoms: &Bounds,
    labels: &mut TargetRows,
    runs: &[Run],
    aim: Aim,
    spare: Delta,
) -> Result<Moved, OutOfMemory>
    requires router { aim.router.0 < labels.old.routers }
    requires labelled { AreLabelled atoms.now labels.old }
    requires apart { AreApart runs.now }
    requires ends { RunsOfAtoms atoms.now runs.now }
    requires same { (a b : ℕ) → list_any (holds a) runs.now ≡ true → list_any (holds b) runs.now ≡ true →
        does_at atoms.now labels.old aim.router.0 a ≡ does_at atoms.now labels.old aim.router.0 b }
    ensures { IfOk result (λ moved.
        IsMoved atoms.now labels.old labels.new moved.delta aim.router runs.now aim.after) }
{
    let mut delta = spare.emptied();
    let mut place = u64::MAX;
    let mut near = aim.near;
    for run in runs {
        let turn = Turn {
            router: aim.router,
            run: *run,
            after: aim.after,
        };
        let turned = turn_run(alloc, atoms, labels, turn, near)?;
        place = place.min(turned.first);
        if turned.before == aim.after {
            return Ok(Moved { delta, place });
        }
        let change = Change {
            router: aim.router,
            run: *run,
            before: turned.before,
            after: turn.after,
        };
        tell(&mut delta, change)?;
        near = Some(turned.past);
    }
    Ok(Moved { delta, place })
}
