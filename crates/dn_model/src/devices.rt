//! Whose routing table each router of a network is.

ghost use Rattle.std.specs.Prelude.{◌≡◌, ◌<◌, IfSome, length, position, ◌&&◌, ◌==◌};
ghost use Rattle.dn_model.specs.Tables.{device_of, is_prefix, replaces_prefix, vrf_of};

use crate::topology::{Replace, Topology};
use base::RouterId;

/// Whether routes are replaced by prefix.
fn is_by_prefix(replace: Replace) -> bool
    ensures { result ≡ is_prefix replace }
{
    match replace {
        Replace::Key => false,
        Replace::Prefix => true,
    }
}

/// The device whose table a router is; a device is its own.
pub fn device_of(t: &Topology, router: RouterId) -> RouterId
    ensures { result ≡ device_of t.now router }
{
    match t.tables.as_slice().get(router.0 as usize) {
        Some(table) => table.device,
        None => router,
    }
}

/// Whether a route that is set at a router takes the place of all routes of its prefix.
pub fn replaces_prefix(t: &Topology, router: RouterId) -> bool
    ensures { result ≡ replaces_prefix t.now router }
{
    match t.tables.as_slice().get(router.0 as usize) {
        Some(table) => is_by_prefix(table.replace),
        None => false,
    }
}

/// The first router that is the table with this number of this device.
#[tactic(auto, using(crate::proofs::DeviceTables::place_device))]
fn place_of_table(t: &Topology, device: RouterId, number: u32) -> Option<usize>
    ensures value { result ≡ position (λ table. (table.device.0 == device.0) && (table.number == number)) t.now.tables }
    ensures device { IfSome result (λ i. device_of t.now (record { 0 = i }) ≡ device) }
    ensures within { IfSome result (λ i. i < length t.now.tables) }
{
    t.tables.as_slice().iter().position(|table| table.device.0 == device.0
        && table.number == number)
}

/// The router that is the VRF of a device with this table; None exactly where the device has none such. 254 is the
/// number of a device's own main table, and no VRF's. It takes no memory.
pub fn vrf(topology: &Topology, device: RouterId, table: u32) -> Option<RouterId>
    ensures value { result ≡ vrf_of topology.now device table }
    ensures device { IfSome result (λ r. device_of topology.now r ≡ device) }
    ensures within { IfSome result (λ r. r.0 < length topology.now.routers) }
{
    if table == 254 {
        return None;
    }
    match place_of_table(topology, device, table) {
        Some(place) => Some(RouterId(place as u16)),
        None => None,
    }
}
