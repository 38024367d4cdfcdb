//! The routers of a topology.

use dn_model::{List, Name, RouterTable};

/// The routers of a topology, the devices first, then their VRFs: their names, and whose table each is.
#[derive(Drop)]
pub struct Routers {
    pub names: List<Name>,
    pub tables: List<RouterTable>,
}
