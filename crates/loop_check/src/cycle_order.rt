//! Cycles in the order in which they are told: by least address, then by first router.

ghost use Rattle.std.specs.Prelude.{◌≡◌, ◌<◌, ◌≤◌, ◌++◌, ℕ, OnOk, IsTrue, IsFalse, Contains, false, length, slice_index_or};
ghost use Rattle.std.specs.List.Sorted.{IsPermutation};
ghost use Rattle.base.specs.Cycles.{AreInOrder, HasCycle, first_router};
ghost use Rattle.base.specs.CyclesFrom.{is_before, IsPutAmong};
ghost use Rattle.base.specs.declared.cycle.Cycle.{Cycle as CycleIs};
ghost use Rattle.base.specs.declared.ids.RouterId.{RouterId as Router};
ghost use Rattle.base.specs.declared.target.Target.{Target as TargetIs};
ghost use Rattle.loop_check.specs.CycleOrder.{AreUnsorted, listed_cycle, order_key};

use crate::first_order::first_number;
use base::{Cycle, OutOfMemory, RouterId};

/// Whether two lists of routers are the same: as many, and the same one at each place.
pub fn are_same_routers(x: &[RouterId], y: &[RouterId]) -> bool
    ensures yes { IsTrue result → x.now ≡ y.now }
    ensures refused { IsFalse result → x.now ≡ y.now → ⊥ }
{
    x == y
}

/// Puts cycles of a network in order, no two of which are of the same routers: by least address, then by first router.
pub fn sort_cycles(cycles: &mut Vec<Cycle>)
    ensures same { IsPermutation cycles.old.items cycles.new.items }
    ensures order { (does_so : Router → ℕ → TargetIs) → AreUnsorted does_so cycles.old.items
        → AreInOrder cycles.new.items }
{
    cycles.sort_unstable_by_key(
        |cycle| -> (u32, u16)
            ensures { result ≡ order_key cycle.now }
        { (cycle.least, first_number(cycle.routers.as_slice())) },
    );
}

/// Puts a cycle behind others, if there is one.
pub fn push_cycle(cycles: &mut Vec<Cycle>, cycle: Option<Cycle>) -> Result<(), OutOfMemory>
    ensures { OnOk result (cycles.new.items ≡ cycles.old.items ++ listed_cycle cycle) }
{
    if let Some(cycle) = cycle {
        cycles.push(cycle)?;
    }
    Ok(())
}
