//! What stands after a history of a network's entries.

ghost use Rattle.std.specs.Prelude.{◌≡◌, IfOk, IfSome};
ghost use Rattle.std.specs.Arc.{arc_value};
ghost use Rattle.dn_model.specs.LastDelta.{IsDeltaOf};
ghost use Rattle.dn_model.specs.Entry.{entries};
ghost use Rattle.version_store.specs.Kept.{AreOf, IsPictureOf, IsTaken, StandsWith, entries_with};

use crate::history::History;
use crate::picture::Picture;
use crate::standing::{advance, empty_standing, picture_with};
use delta_graph::Delta;
use dn_model::{Entry, OutOfMemory, Posted, Topology};
use loop_keeper::KeptLoops;
use net_engine::Version;
use std::alloc::Global;
use std::sync::Arc;
use version_pages::Pages;

/// What stands after entries in pages, made update by update. It fails for want of memory alone.
fn standing_after(
    alloc: Global,
    topology: &Arc<Topology, Global>,
    history: &Pages<Posted>,
) -> Result<(Version, KeptLoops), OutOfMemory>
    requires { AreOf (arc_value topology.now) history.now }
    ensures { IfOk result (λ made. StandsWith (arc_value topology.now) (entries history.now) made.0 made.1) }
{
    let (mut version, mut loops) = empty_standing(alloc, Arc::try_clone(topology)?)?;
    for i in 0..history.len() {
        let Some(posted) = history.get(i) else {
            unreachable!()
        };
        let (next, _) = advance(alloc, version, &mut loops, &posted.entry)?;
        version = next;
    }
    Ok((version, loops))
}

/// What stands after a history, made update by update. It fails for want of memory alone.
fn made_standing(
    alloc: Global,
    topology: &Arc<Topology, Global>,
    history: &History,
) -> Result<(Version, KeptLoops), OutOfMemory>
    requires { AreOf (arc_value topology.now) history.now }
    ensures { IfOk result (λ made. StandsWith (arc_value topology.now) (entries history.now) made.0 made.1) }
{
    let pages = history.in_pages(alloc)?;
    standing_after(alloc, topology, &pages)
}

/// The version after a history, beside its loops: what there is, or both made update by update. It fails for want of
/// memory alone.
fn some_version(
    alloc: Global,
    topology: &Arc<Topology, Global>,
    history: &History,
    version: Option<Version>,
    loops: &mut KeptLoops,
) -> Result<Version, OutOfMemory>
    requires own { AreOf (arc_value topology.now) history.now }
    requires stands { IfSome version (λ v. StandsWith (arc_value topology.now) (entries history.now) v loops.old) }
    ensures { IfOk result (λ v. StandsWith (arc_value topology.now) (entries history.now) v loops.new) }
{
    if let Some(version) = version {
        return Ok(version);
    }
    let (version, made) = made_standing(alloc, topology, history)?;
    *loops = made;
    Ok(version)
}

/// The version after a history and one more entry, beside its loops, and the changes that this entry makes. What there is
/// goes on in its own place; at `OutOfMemory`, for which alone it fails, the version is dropped, and the loops are of
/// neither history.
pub(crate) fn next_version(
    alloc: Global,
    topology: &Arc<Topology, Global>,
    history: &History,
    version: Option<Version>,
    loops: &mut KeptLoops,
    entry: &Entry,
) -> Result<(Version, Delta), OutOfMemory>
    requires own { AreOf (arc_value topology.now) history.now }
    requires stands { IfSome version (λ v. StandsWith (arc_value topology.now) (entries history.now) v loops.old) }
    requires entry { IsTaken (arc_value topology.now) entry.now }
    ensures stands { IfOk result (λ made.
        StandsWith (arc_value topology.now) (entries_with history.now entry.now) made.0 loops.new) }
    ensures changes { IfOk result (λ made. IsDeltaOf (arc_value topology.now) (entries_with history.now entry.now) made.1) }
{
    let version = some_version(alloc, topology, history, version, loops)?;
    let (next, changes) = advance(alloc, version, loops, entry)?;
    Ok((next, changes))
}

/// The picture of a history: of what there is, or made update by update. It fails for want of memory alone.
pub(crate) fn picture_of(
    alloc: Global,
    topology: &Arc<Topology, Global>,
    history: &History,
    version: &Option<Version>,
    loops: &KeptLoops,
) -> Result<Picture, OutOfMemory>
    requires own { AreOf (arc_value topology.now) history.now }
    requires stands { IfSome version.now (λ v. StandsWith (arc_value topology.now) (entries history.now) v loops.now) }
    ensures { IfOk result (IsPictureOf (arc_value topology.now) (entries history.now)) }
{
    if let Some(version) = version {
        let picture = picture_with(version, loops)?;
        return Ok(picture);
    }
    let (version, loops) = made_standing(alloc, topology, history)?;
    let picture = picture_with(&version, &loops)?;
    Ok(picture)
}
