//! The two ends of a prefix, at which its atoms begin and end.

ghost use Rattle.std.specs.Prelude.{◌≡◌, ◌+◌, ◌≤◌, ◌^◌, OnOk};
ghost use Rattle.base.specs.Cidr.{IsCidr, size};
ghost use Rattle.net_engine.specs.Cuts.{AreEndsCut, AreEndsCutIf, IsCutThere};
ghost use Rattle.net_engine.specs.Paired.{AreLabelled};

use atom_map::Bounds;
use dn_model::{OutOfMemory, Prefix};
use std::alloc::Global;
use target_rows::TargetRows;

/// The address after the last.
const END: u64 = 0x1_0000_0000;

/// The address after a prefix's last, which is at most 2^32.
pub fn past_of(prefix: Prefix) -> u64
    ensures value { result ≡ prefix.base + size prefix }
    ensures end { result ≤ 2 ^ 32 }
    ensures sound { IsCidr prefix }
{
    u64::from(prefix.base()) + (1u64 << (32 - prefix.len()))
}

/// Cuts the atom that has an address in two there, if it doesn't begin there: both parts have what the whole has. It looks for
/// the atom first near a place that may be at hand, and answers the place of the atom that begins at the address then. It
/// fails for want of memory alone, and then nothing is said of the atoms.
fn cut(
    alloc: Global,
    atoms: &mut Bounds,
    labels: &mut TargetRows,
    at: u32,
    near: Option<u64>,
) -> Result<u64, OutOfMemory>
    requires { AreLabelled atoms.old labels.old }
    ensures { OnOk result (IsCutThere atoms.old atoms.new labels.old labels.new at) }
{
    let spot = atoms.spot_near(near, at);
    let next = spot.place + 1;
    if !atoms.cut_at(alloc, spot, at)? {
        return Ok(spot.place);
    }
    labels.part(alloc, spot.place)?;
    Ok(next)
}

/// Cuts atoms at both ends of a prefix, the second of which is looked for from the first on. It answers the place of the atom
/// that begins where the prefix does. It fails for want of memory alone, and then nothing is said of them.
fn cut_ends(
    alloc: Global,
    atoms: &mut Bounds,
    labels: &mut TargetRows,
    prefix: Prefix,
) -> Result<u64, OutOfMemory>
    requires { AreLabelled atoms.old labels.old }
    ensures { OnOk result (AreEndsCut atoms.old atoms.new labels.old labels.new prefix) }
{
    let past = past_of(prefix);
    let first = cut(alloc, atoms, labels, prefix.base(), None)?;
    if past == END {
        return Ok(first);
    }
    cut(alloc, atoms, labels, past as u32, Some(first))?;
    Ok(first)
}

/// Cuts atoms at both ends of a prefix, as `cut_ends` does, where the prefix is new; else they begin there already, and
/// no place is at hand.
pub fn cut_if_new(
    alloc: Global,
    atoms: &mut Bounds,
    labels: &mut TargetRows,
    is_new: bool,
    prefix: Prefix,
) -> Result<Option<u64>, OutOfMemory>
    requires { AreLabelled atoms.old labels.old }
    ensures { OnOk result (AreEndsCutIf is_new atoms.old atoms.new labels.old labels.new prefix) }
{
    if !is_new {
        return Ok(None);
    }
    let first = cut_ends(alloc, atoms, labels, prefix)?;
    Ok(Some(first))
}
