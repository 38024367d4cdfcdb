//! Black holes of all addresses, put together from those of each range.

ghost use Rattle.std.specs.Prelude.{◌≡◌, ◌<◌, ℕ, IfOk, OnOk};
ghost use Rattle.base.specs.Holes.{AreHoles, falls};
ghost use Rattle.base.specs.HolesFrom.{AreSomeHoles};
ghost use Rattle.base.specs.Runs.{AreRuns};
ghost use Rattle.base.specs.declared.hole.Hole.{Hole as HoleIs};
ghost use Rattle.base.specs.declared.ids.RouterId.{RouterId as RouterIs};
ghost use Rattle.base.specs.declared.target.Target.{Target as TargetIs};
ghost use Rattle.par_scan.specs.HolesByRange.{AreHolePieces, AreHolesWithin, IsHoleWithin, TellsHoleAt, TellsHolesOf};

use crate::hole_order::{has_hole, put_hole, runs_at};
use crate::more_runs::add_runs;
use base::{Hole, List, OutOfMemory, RouterId, Run, Target};
use std::alloc::Global;

/// The runs of all addresses that fall at a router by a cause.
fn all_runs(
    alloc: Global,
    pieces: &[List<Hole>],
    last: RouterId,
    cause: Target,
) -> Result<List<Run>, OutOfMemory>
    ensures { IfOk result (λ runs. (n : ℕ) (does : RouterIs → ℕ → TargetIs) (first : RouterIs)
        → AreHolePieces n does first pieces.now → AreRuns runs (falls n does first last cause)) }
{
    let mut runs = Vec::new(alloc);
    for k in 0..pieces.len() {
        add_runs(&mut runs, runs_at(pieces[k].as_slice(), last, cause))?;
    }
    Ok(List::from_vec(runs))
}

/// Tells the hole of all addresses at a router by a cause, of which one range has a hole, if it isn't told yet.
fn tell_hole(
    alloc: Global,
    holes: &mut Vec<Hole>,
    pieces: &[List<Hole>],
    last: RouterId,
    cause: Target,
) -> Result<(), OutOfMemory>
    ensures { OnOk result ((n : ℕ) (does : RouterIs → ℕ → TargetIs) (first : RouterIs) (low past : ℕ) (h : HoleIs)
        → AreHolePieces n does first pieces.now → IsHoleWithin low past n does first h
        → h.router ≡ last → h.cause ≡ cause
        → AreSomeHoles n does first holes.old.items
        → TellsHoleAt n does first last cause holes.old.items holes.new.items) }
{
    if has_hole(holes.as_slice(), last, cause) {
        return Ok(());
    }
    let runs = all_runs(alloc, pieces, last, cause)?;
    put_hole(
        holes,
        Hole {
            router: last,
            cause,
            runs,
        },
    )
}

/// Tells the holes of all addresses at each router by each cause of which one range has a hole.
fn tell_holes(
    alloc: Global,
    holes: &mut Vec<Hole>,
    pieces: &[List<Hole>],
    piece: &[Hole],
) -> Result<(), OutOfMemory>
    ensures { OnOk result ((n : ℕ) (does : RouterIs → ℕ → TargetIs) (first : RouterIs) (low past : ℕ)
        → AreHolePieces n does first pieces.now → AreHolesWithin low past n does first piece.now
        → AreSomeHoles n does first holes.old.items
        → TellsHolesOf n does first piece.now holes.old.items holes.new.items) }
{
    for i in 0..piece.len() {
        let hole = &piece[i];
        tell_hole(alloc, holes, pieces, hole.router, hole.cause)?;
    }
    Ok(())
}

/// The holes of all addresses, where each range has those of its own addresses.
pub(crate) fn join_holes(alloc: Global, pieces: &[List<Hole>]) -> Result<List<Hole>, OutOfMemory>
    ensures { IfOk result (λ holes. (n : ℕ) (does : RouterIs → ℕ → TargetIs) (first : RouterIs)
        → AreHolePieces n does first pieces.now → AreHoles n does first holes) }
{
    let mut holes = Vec::new(alloc);
    for k in 0..pieces.len() {
        tell_holes(alloc, &mut holes, pieces, pieces[k].as_slice())?;
    }
    Ok(List::from_vec(holes))
}
