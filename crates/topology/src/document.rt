//! The document that a topology's text is, and what it says.

ghost use Rattle.std.specs.Prelude.{◌≡◌, ◌≤◌, [], IfOk, IfErr, Ok, length, option_map};
ghost use Rattle.toml.specs.Parse.{parse_document};
ghost use Rattle.toml.specs.View.{table_view};
ghost use Rattle.dn_formats.specs.TopologyText.{said_by, lacks_list, top_causes, top_fault, main_tables, list_faults, parts_said, faults_of, parts_of, unless_faulty, document_of, IsTopologyText, IsTopologyRefused};
ghost use Rattle.dn_model.specs.Tables.{parts};
ghost use Rattle.topology.specs.Reading.{first_standing, IsFirstFault, IsSaidRefusal, SayAllRouters};
ghost use Rattle.topology.specs.Sections.{sections};

use crate::all_routers::Routers;
use crate::lists::{read_edges, read_links, read_marks, read_routers, read_vrfs};
use crate::mark::marked_tables;
use crate::sections::{Sections, sections_of};
use crate::value::{has_unknown_top_key, list_at, list_or_none_at};
use dn_formats::topology_cause::{MISSING_KEY, NOT_TOML, TOO_LONG, UNKNOWN_KEY};
use dn_formats::{TopoFault, TopoPart, TopoRefused};
use dn_model::{List, Name, OutOfMemory, Replace, RouterId, RouterTable, Topology};
use std::alloc::Global;
use toml::{Table, Value};

/// The most bytes of a topology's text.
const BYTES: usize = 16_777_216;

/// Whether a list at the top is absent or none.
fn lacks_list(table: &Table) -> bool
    ensures { result ≡ lacks_list (table_view table.now) }
{
    list_at(table, "routers").is_none()
        || list_or_none_at(table, "vrf").is_none()
        || list_or_none_at(table, "link").is_none()
        || list_or_none_at(table, "edge").is_none()
        || list_or_none_at(table, "router").is_none()
}

/// The first cause that stands at the top of a document.
fn top_cause(table: &Table) -> Option<u8>
    ensures { result ≡ first_standing top_causes (table_view table.now) }
{
    if has_unknown_top_key(table) {
        Some(UNKNOWN_KEY)
    } else if lacks_list(table) {
        Some(MISSING_KEY)
    } else {
        None
    }
}

/// The refusal for a cause at the top.
fn top_refusal(cause: u8) -> TopoRefused
    ensures { result ≡ TopoRefused.Fault (top_fault cause) }
{
    TopoRefused::Fault(TopoFault {
        part: TopoPart::Top,
        entry: 0,
        cause,
    })
}

/// The main table of each device.
fn main_tables(alloc: Global, devices: &[Name]) -> Result<List<RouterTable>, OutOfMemory>
    requires { length devices.now ≤ 1024 }
    ensures { IfOk result (λ tables. tables ≡ main_tables devices.now) }
{
    let mut tables = List::new(alloc);
    for device in 0..devices.len() as u16 {
        tables.push(RouterTable {
            device: RouterId(device),
            number: 254,
            replace: Replace::Key,
        })?;
    }
    Ok(tables)
}

/// The devices and the VRFs that lists of entries say, or the first fault of these.
fn read_all_routers(alloc: Global, lists: &Sections<'_>) -> Result<Routers, TopoRefused>
    ensures ok { IfOk result (SayAllRouters (sections lists.now)) }
    ensures refused { IfErr result (IsFirstFault (list_faults (sections lists.now))) }
{
    let mut names = read_routers(alloc, lists.routers)?;
    let mut tables = main_tables(alloc, names.as_slice())?;
    read_vrfs(alloc, &mut names, &mut tables, lists.vrfs)?;
    Ok(Routers { names, tables })
}

/// What lists of entries say beside these routers, or the first fault of these.
fn read_beside(
    alloc: Global,
    routers: Routers,
    lists: &Sections<'_>,
) -> Result<Topology, TopoRefused>
    requires { SayAllRouters (sections lists.now) routers }
    ensures faultless { IfOk result (λ t. list_faults (sections lists.now) ≡ []) }
    ensures said { IfOk result (λ t. parts t ≡ parts_said (sections lists.now)) }
    ensures refused { IfErr result (IsFirstFault (list_faults (sections lists.now))) }
{
    let Routers { names, tables } = routers;
    let links = read_links(alloc, names.as_slice(), tables.as_slice(), lists.links)?;
    let edges = read_edges(
        alloc,
        names.as_slice(),
        tables.as_slice(),
        links.as_slice(),
        lists.edges,
    )?;
    let marks = read_marks(alloc, names.as_slice(), lists.marks)?;
    Ok(Topology {
        routers: names,
        tables: marked_tables(tables, marks.as_slice()),
        links,
        edges,
    })
}

/// What lists of entries say, or their first fault.
fn read_lists(alloc: Global, lists: &Sections<'_>) -> Result<Topology, TopoRefused>
    ensures faultless { IfOk result (λ t. list_faults (sections lists.now) ≡ []) }
    ensures said { IfOk result (λ t. parts t ≡ parts_said (sections lists.now)) }
    ensures refused { IfErr result (IsFirstFault (list_faults (sections lists.now))) }
{
    let routers = read_all_routers(alloc, lists)?;
    read_beside(alloc, routers, lists)
}

/// What a document says, or its first fault.
fn read_document(alloc: Global, table: &Table) -> Result<Topology, TopoRefused>
    ensures ok { IfOk result (λ t. unless_faulty (faults_of (table_view table.now)) (parts_of (table_view table.now)) ≡ Ok (parts t)) }
    ensures refused { IfErr result (IsFirstFault (faults_of (table_view table.now))) }
{
    match top_cause(table) {
        Some(cause) => Err(top_refusal(cause)),
        None => read_lists(alloc, &sections_of(table)),
    }
}

/// The document that a text is, if it is one.
fn document_of_text(alloc: Global, text: &str) -> Result<Option<Table>, OutOfMemory>
    ensures { IfOk result (λ d. option_map table_view d ≡ parse_document text.now) }
{
    match toml::table_from_str(alloc, text) {
        Ok(table) => Ok(Some(table)),
        Err(error) => {
            if error.is_memory() {
                Err(OutOfMemory)
            } else {
                Ok(None)
            }
        }
    }
}

/// The document that bytes are, if they are one.
fn document_of(alloc: Global, bytes: &[u8]) -> Result<Option<Table>, OutOfMemory>
    ensures { IfOk result (λ d. option_map table_view d ≡ document_of bytes.now) }
{
    match std::str::from_utf8(bytes) {
        Ok(text) => document_of_text(alloc, text),
        Err(_) => Ok(None),
    }
}

/// What the document of some bytes says, or the first fault, by the document.
fn read_said(alloc: Global, document: Option<Table>) -> Result<Topology, TopoRefused>
    ensures ok { IfOk result (λ t. said_by (option_map table_view document) ≡ Ok (parts t)) }
    ensures refused { IfErr result (IsSaidRefusal (option_map table_view document)) }
{
    match document {
        Some(table) => read_document(alloc, &table),
        None => Err(top_refusal(NOT_TOML)),
    }
}

/// The topology that bytes say, or their first fault. The fault has the part, the entry and the number of the cause
/// (module `topology_cause` of `dn_formats`).
pub fn read_topology(alloc: Global, bytes: &[u8]) -> Result<Topology, TopoRefused>
    ensures ok { IfOk result (IsTopologyText bytes.now) }
    ensures refused { IfErr result (IsTopologyRefused bytes.now) }
{
    if bytes.len() > BYTES {
        return Err(top_refusal(TOO_LONG));
    }
    let document = document_of(alloc, bytes)?;
    read_said(alloc, document)
}
