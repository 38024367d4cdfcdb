//! Why a text is no topology.

use dn_model::OutOfMemory;

/// The part of a topology's text that a fault is in.
#[derive(Clone, Copy, Debug, PartialEq, Eq)]
pub enum TopoPart {
    /// The text as a whole, and its keys at the top.
    Top,
    /// The list `routers`.
    Routers,
    /// The tables `vrf`.
    Vrf,
    /// The tables `link`.
    Link,
    /// The tables `edge`.
    Edge,
    /// The tables `router`, which mark routers.
    Router,
}

/// The first fault of a text that is no topology.
#[derive(Clone, Copy, Debug, PartialEq, Eq)]
pub struct TopoFault {
    pub part: TopoPart,
    /// The entry within the part, from 1; at the top 0.
    pub entry: u32,
    /// The cause, by its number in the module `topology_cause`.
    pub cause: u8,
}

/// Why a topology was not read.
#[derive(Clone, Copy, Debug, PartialEq, Eq)]
pub enum TopoRefused {
    /// The text is no topology, and this is its first fault.
    Fault(TopoFault),
    /// Memory was wanted and there was none.
    OutOfMemory,
}

impl From<OutOfMemory> for TopoRefused {
    ghost use Rattle.std.specs.Prelude.{◌≡◌};
    ghost use Rattle.dn_formats.specs.declared.topology_fault.TopoRefused.TheVariants as variant;

    ghost from_gives = { λ _ e. e ≡ variant.OutOfMemory };

    fn from(_error: OutOfMemory) -> Self {
        TopoRefused::OutOfMemory
    }
}
