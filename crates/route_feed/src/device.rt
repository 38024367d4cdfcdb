//! The device whose feed is read, and the tables that it has.

ghost use Rattle.std.specs.Prelude.{◌≡◌, ◌≢◌, ◌<◌, IfOk, IfSome, OnErr, OnOk, Some, length};
ghost use Rattle.route_feed.specs.FeedReader.{KnowsTables};
ghost use Rattle.feed_model.specs.Feed.{router_by, tables_of};
ghost use Rattle.dn_model.specs.Tables.{device_of, vrf_of};

use dn_model::{List, OutOfMemory, RouterId, Topology, vrf};
use feed_model::MAIN_TABLE;
use std::alloc::Global;
use std::marker::Model;

/// The device whose feed is read: a router of the network, and the numbers of the tables whose routes are read.
#[derive(Clone, Copy)]
pub struct Device<'a> {
    pub topology: &'a Topology,
    pub router: RouterId,
    pub tables: &'a [u32],
}

/// The numbers of a device's tables, in the order of their routers.
fn tables_of(alloc: Global, topology: &Topology, device: RouterId) -> Result<List<u32>, OutOfMemory>
    ensures { IfOk result (λ tables. tables ≡ tables_of topology.now device) }
{
    let mut numbers = List::new(alloc);
    for table in topology.tables.as_slice() {
        if table.device.0 == device.0 {
            numbers.push(table.number)?;
        }
    }
    Ok(numbers)
}

/// Looks a device's tables up, unless that was done: a device has its main one at least, so an empty list has none of
/// them yet.
pub fn look_up(
    alloc: Global,
    numbers: &mut List<u32>,
    topology: &Topology,
    device: RouterId,
) -> Result<(), OutOfMemory>
    ensures known { KnowsTables topology.now device numbers.old
        → OnOk result (numbers.new ≡ tables_of topology.now device) }
    ensures same { OnErr result (numbers.new ≡ numbers.old) }
{
    if numbers.is_empty() {
        *numbers = tables_of(alloc, topology, device)?;
    }
    Ok(())
}

/// How many tables have a place of their own. One whose number is larger shares the place of another.
const PLACES: u32 = 64;

/// For the tables of one device, which router each was last time. What was noted is a guess, which is tested at each
/// use, and no contract speaks of it.
#[derive(Drop)]
pub struct VrfHints {
    routers: [u16; 64],
}

impl Model for VrfHints {
    ghost Value = { Unit {0} };

    ghost view = { λ hints. tt };
}

/// The router of this number, if it is the VRF of a device with this table.
fn vrf_at(topology: &Topology, place: u16, device: RouterId, table: u32) -> Option<RouterId>
    requires { table ≢ 254 }
    ensures { IfSome result (λ r. vrf_of topology.now device table ≡ Some r) }
{
    match topology.tables.as_slice().get(place as usize) {
        Some(found) if found.device.0 == device.0 && found.number == table => {
            Some(RouterId(place))
        }
        _ => None,
    }
}

impl VrfHints {
    /// No VRF was found yet: the first router is a device, which no guess takes.
    pub fn new() -> Self {
        VrfHints { routers: [0; 64] }
    }

    /// The VRF of a device with this table, if it has one.
    fn vrf(&mut self, topology: &Topology, device: RouterId, table: u32) -> Option<RouterId>
        requires { table ≢ 254 }
        ensures { result ≡ vrf_of topology.now device table }
    {
        let place = (table % PLACES) as usize;
        if let Some(router) = vrf_at(topology, self.routers[place], device, table) {
            return Some(router);
        }
        let router = vrf(topology, device, table)?;
        self.routers[place] = router.0;
        Some(router)
    }
}

/// The router that a route in a device's feed belongs to, by its table's number: the VRF that has the table, or else
/// the device.
pub fn router_by(
    topology: &Topology,
    device: RouterId,
    table: u32,
    hints: &mut VrfHints,
) -> RouterId
    ensures value { result ≡ router_by topology.now device table }
    ensures within { device.0 < length topology.now.routers → result.0 < length topology.now.routers }
    ensures own { device_of topology.now result ≡ device_of topology.now device }
{
    if table == MAIN_TABLE {
        return device;
    }
    hints.vrf(topology, device, table).unwrap_or(device)
}
