//! Segments: the cycles that addresses go round, from one address up to the next segment's.

ghost use Rattle.std.specs.Prelude.{◌≡◌, ◌++◌, ◌∷◌, [], IfOk, IsTrue, IsFalse, OnOk, Contains, if◌then◌else◌};
ghost use Rattle.std.specs.List.{list_any};
ghost use Rattle.loop_check.specs.Following.{is_among};
ghost use Rattle.loop_keeper.specs.Edits.{IsChangedBy, cycles_without};
ghost use Rattle.loop_keeper.specs.declared.segment.Edit.TheVariants.{Without, With};

use crate::kept_cycle::KeptCycle;
use base::{OutOfMemory, RouterId};
use loop_check::are_same_routers;
use std::alloc::{AllocError, Global};
use std::marker::Model;
use std::sync::Arc;
use version_pages::Keyed;

/// The cycles that all addresses go round from one on, up to, and without, the next segment's first one. A copy shares
/// the cycles.
#[derive(Drop)]
pub(crate) struct Segment {
    low: u32,
    cycles: Arc<Vec<KeptCycle>, Global>,
}

/// How the cycles of a segment change.
#[derive(Drop)]
pub(crate) enum Edit {
    /// Those that have this router go.
    Without(RouterId),
    /// This one comes, if it isn't there.
    With(KeptCycle),
}

impl Model for Segment {
    ghost use Rattle.std.specs.Arc.{arc_value};
    ghost use Rattle.loop_keeper.specs.Kept.{Kept, kept_code};

    ghost Value = { Kept };

    ghost coded = { kept_code };

    ghost view = { λ s. record { low = s.low; cycles = (arc_value s.cycles).items } };
}

impl Clone for Segment {
    ghost is_clone = { λ segment copy. copy ≡ segment };

    fn clone(&self) -> Result<Segment, AllocError> {
        let cycles = Arc::try_clone(&self.cycles)?;
        Ok(Segment {
            low: self.low,
            cycles,
        })
    }
}

/// The key is the first address.
impl Keyed for Segment {
    ghost use Rattle.std.proofs.Common.{rules};

    ghost key_of = { λ segment. segment.low };

    ghost clones = { Prim.search rules };

    fn key(&self) -> u64 {
        u64::from(self.low)
    }
}

/// The same cycles again.
fn copies_of(alloc: Global, cycles: &[KeptCycle]) -> Result<Vec<KeptCycle>, OutOfMemory>
    ensures { IfOk result (λ copies. copies.items ≡ cycles.now) }
{
    let mut copies = Vec::with_capacity(alloc, cycles.len())?;
    for one in cycles {
        copies.push(one.copy()?)?;
    }
    Ok(copies)
}

/// Puts a cycle behind others, unless it has a router.
fn push_without(
    cycles: &mut Vec<KeptCycle>,
    one: &KeptCycle,
    router: RouterId,
) -> Result<(), OutOfMemory>
    ensures { OnOk result (cycles.new.items ≡ cycles.old.items ++ (if is_among one.now router then [] else one.now ∷ [])) }
{
    if one.has_router(router) {
        return Ok(());
    }
    cycles.push(one.copy()?)?;
    Ok(())
}

/// The cycles that don't have a router, in order.
fn rest_of(
    alloc: Global,
    cycles: &[KeptCycle],
    router: RouterId,
) -> Result<Vec<KeptCycle>, OutOfMemory>
    ensures { IfOk result (λ left. left.items ≡ cycles_without router cycles.now) }
{
    let mut left = Vec::new(alloc);
    for one in cycles {
        push_without(&mut left, one, router)?;
    }
    Ok(left)
}

/// The cycles that don't have a router.
fn without(
    alloc: Global,
    cycles: &[KeptCycle],
    router: RouterId,
) -> Result<Vec<KeptCycle>, OutOfMemory>
    ensures { IfOk result (λ left. IsChangedBy (Without router) cycles.now left.items) }
{
    let left = rest_of(alloc, cycles, router)?;
    Ok(left)
}

/// Whether a cycle of these routers is among cycles.
fn has_cycle(cycles: &[KeptCycle], routers: &[RouterId]) -> bool
    ensures yes { IsTrue result → Contains cycles.now routers.now }
    ensures refused { IsFalse result → Contains cycles.now routers.now → ⊥ }
{
    for one in cycles {
        if are_same_routers(one.routers(), routers) {
            return true;
        }
    }
    false
}

/// Cycles with one more, if it isn't there.
fn with(alloc: Global, cycles: &[KeptCycle], one: &KeptCycle) -> Result<Vec<KeptCycle>, OutOfMemory>
    ensures { IfOk result (λ more. IsChangedBy (With one.now) cycles.now more.items) }
{
    let mut more = copies_of(alloc, cycles)?;
    if has_cycle(cycles, one.routers()) {
        return Ok(more);
    }
    more.push(one.copy()?)?;
    Ok(more)
}

/// Cycles changed by an edit.
fn edited(alloc: Global, cycles: &[KeptCycle], edit: &Edit) -> Result<Vec<KeptCycle>, OutOfMemory>
    ensures { IfOk result (λ more. IsChangedBy edit.now cycles.now more.items) }
{
    match edit {
        Edit::Without(router) => without(alloc, cycles, *router),
        Edit::With(one) => with(alloc, cycles, one),
    }
}

impl Segment {
    /// No cycle from an address on.
    pub(crate) fn empty_from(alloc: Global, low: u32) -> Result<Segment, OutOfMemory>
        ensures low { IfOk result (λ segment. segment.low ≡ low) }
        ensures none { IfOk result (λ segment. segment.cycles ≡ []) }
    {
        let cycles = Arc::new(alloc, Vec::new(alloc))?;
        Ok(Segment { low, cycles })
    }

    /// The same cycles from another address on.
    pub(crate) fn again_from(&self, low: u32) -> Result<Segment, OutOfMemory>
        ensures low { IfOk result (λ segment. segment.low ≡ low) }
        ensures same { IfOk result (λ segment. segment.cycles ≡ self.now.cycles) }
    {
        let cycles = Arc::try_clone(&self.cycles)?;
        Ok(Segment { low, cycles })
    }

    /// The first address.
    pub(crate) fn low(&self) -> u32
        ensures { result ≡ self.now.low }
    {
        self.low
    }

    /// The cycles.
    pub(crate) fn cycles(&self) -> &[KeptCycle]
        ensures { result.now ≡ self.now.cycles }
    {
        self.cycles.as_slice()
    }

    /// Whether there is no cycle.
    pub(crate) fn is_empty(&self) -> bool
        ensures { IsTrue result → self.now.cycles ≡ [] }
    {
        self.cycles().is_empty()
    }

    /// Whether one of the cycles has a router.
    pub(crate) fn has_router(&self, router: RouterId) -> bool
        ensures { result ≡ list_any (λ rs. is_among rs router) self.now.cycles }
    {
        self.cycles().iter().any(|one| one.has_router(router))
    }

    /// The segment with its cycles changed.
    pub(crate) fn edited(&self, alloc: Global, edit: &Edit) -> Result<Segment, OutOfMemory>
        ensures low { IfOk result (λ segment. segment.low ≡ self.now.low) }
        ensures cycles { IfOk result (λ segment. IsChangedBy edit.now self.now.cycles segment.cycles) }
    {
        let cycles = edited(alloc, self.cycles(), edit)?;
        let cycles = Arc::new(alloc, cycles)?;
        Ok(Segment {
            low: self.low,
            cycles,
        })
    }
}
