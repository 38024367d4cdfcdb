//! Entries of `vrf`.

ghost use Rattle.std.specs.Prelude.{◌≡◌, ◌<◌, ◌≤◌, IfSome, length, option_map, option_and_then};
ghost use Rattle.std.specs.Option.{ForSome};
ghost use Rattle.toml.specs.Data.{as_table};
ghost use Rattle.toml.specs.View.{view, table_view};
ghost use Rattle.dn_formats.specs.TopologyText.{passes, has_key_besides, is_vrf_key, has_table, router_in, table_in, vrf_number, device_of_entry, number_of_entry, vrf_from, vrf_of_entry};
ghost use Rattle.topology.specs.Faults.{lacks_vrf_value};
ghost use Rattle.topology.specs.Reading.{first_at_vrf};

use crate::end::place_of;
use crate::name::{is_bad_name, is_named_before};
use crate::value::{has_unknown_vrf_key, number_at, text_at};
use dn_formats::topology_cause::{
    BAD_NAME, BAD_TABLE, MISSING_KEY, NO_SUCH_ROUTER, TABLE_TWICE, TOO_MANY, TWICE_NAMED,
    UNKNOWN_KEY,
};
use dn_model::{Name, Replace, RouterId, RouterTable};
use toml::{Table, Value};

/// The number of a device's own main table, which is no VRF's.
const MAIN_TABLE: i64 = 254;

/// The most that a table's number may be.
const MOST_TABLE: i64 = 4_294_967_295;

/// The name of a VRF's device.
fn device_name_of_entry(entry: &Value) -> Option<&str>
    ensures { option_map (λ s. s.now) result ≡ option_and_then router_in (as_table (view entry.now)) }
{
    match entry.as_table() {
        Some(table) => text_at(table, "router"),
        None => None,
    }
}

/// The place of a VRF's device among the devices.
fn device_of_entry(devices: &[Name], entry: &Value) -> Option<usize>
    ensures value { result ≡ device_of_entry devices.now (view entry.now) }
    ensures within { IfSome result (λ i. i < length devices.now) }
{
    match device_name_of_entry(entry) {
        Some(text) => place_of(devices, text.as_bytes()),
        None => None,
    }
}

/// The number that a whole number is of a table that is no main one.
fn vrf_number(number: i64) -> Option<u32>
    ensures { result ≡ vrf_number number }
{
    if 1 <= number && number <= MOST_TABLE && number != MAIN_TABLE {
        Some(number as u32)
    } else {
        None
    }
}

/// The whole number at a VRF's `table`.
fn table_of_entry(entry: &Value) -> Option<i64>
    ensures { result ≡ option_and_then table_in (as_table (view entry.now)) }
{
    match entry.as_table() {
        Some(table) => number_at(table, "table"),
        None => None,
    }
}

/// The number of a VRF's table.
fn number_of_entry(entry: &Value) -> Option<u32>
    ensures { result ≡ number_of_entry (view entry.now) }
{
    match table_of_entry(entry) {
        Some(number) => vrf_number(number),
        None => None,
    }
}

/// The table of this number of the device at this place.
fn vrf_from(device: Option<usize>, number: Option<u32>) -> Option<RouterTable>
    requires { ForSome device (λ d. d < 1024) }
    ensures { result ≡ vrf_from device number }
{
    match (device, number) {
        (Some(device), Some(number)) => Some(RouterTable {
            device: RouterId(device as u16),
            number,
            replace: Replace::Key,
        }),
        _ => None,
    }
}

/// The table of an entry of `vrf`.
pub fn vrf_of_entry(devices: &[Name], entry: &Value) -> Option<RouterTable>
    requires { length devices.now ≤ 1024 }
    ensures { result ≡ vrf_of_entry devices.now (view entry.now) }
{
    let device = device_of_entry(devices, entry);
    let number = number_of_entry(entry);
    vrf_from(device, number)
}

/// Whether an entry is a table with a key without a meaning.
fn has_unknown_key(entry: &Value) -> bool
    ensures { result ≡ passes (has_key_besides is_vrf_key) (as_table (view entry.now)) }
{
    match entry.as_table() {
        Some(table) => has_unknown_vrf_key(table),
        None => false,
    }
}

/// Whether a table of a VRF lacks one of its values.
fn lacks_value(table: &Table) -> bool
    ensures { result ≡ lacks_vrf_value (table_view table.now) }
{
    text_at(table, "router").is_none()
        || number_at(table, "table").is_none()
        || text_at(table, "name").is_none()
}

/// Whether an entry is a table that lacks one of a VRF's values.
fn is_short(entry: &Value) -> bool
    ensures { result ≡ passes lacks_vrf_value (as_table (view entry.now)) }
{
    match entry.as_table() {
        Some(table) => lacks_value(table),
        None => false,
    }
}

/// Whether one of the tables is this one of this device.
fn has_table(tables: &[RouterTable], table: RouterTable) -> bool
    ensures { result ≡ has_table tables.now table }
{
    tables.iter().any(|other| other.device.0 == table.device.0 && other.number == table.number)
}

/// Whether the entry's table is one of the tables.
fn is_table_taken(tables: &[RouterTable], table: Option<RouterTable>) -> bool
    ensures { result ≡ passes (has_table tables.now) table }
{
    match table {
        Some(table) => has_table(tables, table),
        None => false,
    }
}

/// The first cause that stands at an entry of `vrf`, which routers of these names and tables stand before, the devices
/// first.
pub fn vrf_cause(
    devices: &[Name],
    names: &[Name],
    tables: &[RouterTable],
    entry: &Value,
) -> Option<u8>
    requires { length devices.now ≤ 1024 }
    ensures { result ≡ first_at_vrf devices.now names.now tables.now (view entry.now) }
{
    let table = vrf_of_entry(devices, entry);
    if names.len() >= 1024 {
        Some(TOO_MANY)
    } else if !entry.is_table() {
        Some(MISSING_KEY)
    } else if has_unknown_key(entry) {
        Some(UNKNOWN_KEY)
    } else if is_short(entry) {
        Some(MISSING_KEY)
    } else if is_bad_name(entry) {
        Some(BAD_NAME)
    } else if is_named_before(names, entry) {
        Some(TWICE_NAMED)
    } else if device_of_entry(devices, entry).is_none() {
        Some(NO_SUCH_ROUTER)
    } else if number_of_entry(entry).is_none() {
        Some(BAD_TABLE)
    } else if is_table_taken(tables, table) {
        Some(TABLE_TWICE)
    } else {
        None
    }
}
