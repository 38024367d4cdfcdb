//! What stands after a history: its version, and the loops of the network.

ghost use Rattle.std.specs.Prelude.{◌≡◌, ℕ, ◌<◌, ◌++◌, ◌∷◌, [], List, IfOk, OnOk};
ghost use Rattle.std.specs.Arc.{arc_value};
ghost use Rattle.base.specs.Delta.{IsDelta};
ghost use Rattle.dn_model.specs.LastDelta.{IsDeltaOf};
ghost use Rattle.base.specs.Forwarding.{does};
ghost use Rattle.net_engine.specs.Version.{KeptStandsFor, forwarding_of};
ghost use Rattle.dn_model.specs.declared.entry.Entry.{Entry as EntryIs};
ghost use Rattle.base.specs.declared.ids.RouterId.{RouterId as RouterIs};
ghost use Rattle.base.specs.declared.target.Target.{Target as TargetIs};
ghost use Rattle.dn_model.specs.declared.topology.Topology.{Topology as TopologyIs};
ghost use Rattle.loop_keeper.specs.Kept.{AreKept};
ghost use Rattle.version_store.specs.Kept.{IsPictureOf, IsTaken, StandsWith};

use crate::picture::Picture;
use delta_graph::Delta;
use dn_model::{Entry, OutOfMemory, Topology};
use loop_keeper::KeptLoops;
use net_engine::Version;
use std::alloc::Global;
use std::marker::Brand;
use std::sync::Arc;
use std::sync::ledger::{Blank, Ledger};
use step_count::Steps;

/// The version after one more entry, and where that changes what routers do. Nobody reads the count of steps, which takes no
/// bytes.
fn update<L: Ledger>(
    alloc: Global,
    version: Version,
    entry: &Entry,
    blank: Blank,
) -> Result<(Version, Delta), OutOfMemory>
    requires name { blank.name ≡ L.name }
    requires parts { blank.parts ≡ L.parts }
    requires some { 0 < blank.parts }
    requires entry { IsTaken version.topology entry.now }
    ensures topology { IfOk result (λ made. made.0.topology ≡ version.topology) }
    ensures stands { IfOk result (λ made. (history : List EntryIs) → KeptStandsFor version history
        → KeptStandsFor made.0 (history ++ entry.now ∷ [])) }
    ensures delta { IfOk result (λ made. (history : List EntryIs) → KeptStandsFor version history
        → IsDeltaOf version.topology (history ++ entry.now ∷ []) made.1) }
{
    let mut steps = Steps::<L>::new(blank);
    version.advance(alloc, entry, &mut steps)
}

/// From how many changes on loops are kept by what the version shows, which gives many rows at a time. It is made for that, so
/// that few changes are looked at in the version itself.
const MANY: usize = 64;

/// Keeps loops through an entry to a version, by its delta, which may be of several routers. Nobody reads the count of
/// steps, which takes no bytes.
fn keep<L: Ledger>(
    alloc: Global,
    loops: &mut KeptLoops,
    version: &Version,
    delta: &Delta,
    blank: Blank,
) -> Result<(), OutOfMemory>
    requires name { blank.name ≡ L.name }
    requires parts { blank.parts ≡ L.parts }
    requires some { 0 < blank.parts }
    ensures { OnOk result ((before : RouterIs → ℕ → TargetIs) → AreKept before loops.old
        → IsDelta before (does (forwarding_of version.now)) delta.now
        → AreKept (does (forwarding_of version.now)) loops.new) }
{
    let mut steps = Steps::<L>::new(blank);
    if delta.changes().len() < MANY {
        return loops.advance(alloc, version, delta, version.near(), &mut steps);
    }
    let shown = version.shown()?;
    loops.advance(alloc, &shown, delta, version.near(), &mut steps)
}

/// Before any update: no router has a route, and no address goes round.
pub(crate) fn empty_standing(
    alloc: Global,
    topology: Arc<Topology, Global>,
) -> Result<(Version, KeptLoops), OutOfMemory>
    ensures { IfOk result (λ made. StandsWith (arc_value topology) [] made.0 made.1) }
{
    let version = Version::empty(alloc, topology)?;
    Ok((version, KeptLoops::empty()))
}

/// What stands after one more entry, and the changes that this entry makes. Both the version and the loops are changed in
/// their own place; at `OutOfMemory`, for which alone it fails, the version is dropped, and the loops are of neither history.
pub(crate) fn advance(
    alloc: Global,
    version: Version,
    loops: &mut KeptLoops,
    entry: &Entry,
) -> Result<(Version, Delta), OutOfMemory>
    requires { IsTaken version.topology entry.now }
    ensures stands { IfOk result (λ made. (t : TopologyIs) → (history : List EntryIs)
        → StandsWith t history version loops.old → StandsWith t (history ++ entry.now ∷ []) made.0 loops.new) }
    ensures delta { IfOk result (λ made. (t : TopologyIs) → (history : List EntryIs)
        → StandsWith t history version loops.old → IsDeltaOf t (history ++ entry.now ∷ []) made.1) }
{
    let (next, delta) = update::<Brand>(alloc, version, entry, Blank::new(1))?;
    keep::<Brand>(alloc, loops, &next, &delta, Blank::new(1))?;
    Ok((next, delta))
}

/// What queries read of what stands, which shares all with it. It fails for want of memory alone.
pub(crate) fn picture_with(version: &Version, loops: &KeptLoops) -> Result<Picture, OutOfMemory>
    ensures { IfOk result (λ picture. (t : TopologyIs) → (history : List EntryIs)
        → StandsWith t history version.now loops.now → IsPictureOf t history picture) }
{
    let rows = version.shown()?;
    let loops = loops.copy()?;
    Ok(Picture { rows, loops })
}
