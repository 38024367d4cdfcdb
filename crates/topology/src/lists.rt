//! The lists of a topology's text.

ghost use Rattle.std.specs.Prelude.{◌≡◌, ◌≤◌, [], OnOk, IfOk, IfErr, length, map};
ghost use Rattle.toml.specs.View.{view};
ghost use Rattle.dn_formats.specs.TopologyText.{faults_along, main_tables, router_rows};
ghost use Rattle.topology.specs.Faults.{vrf_faults, link_faults, edge_faults, mark_faults};
ghost use Rattle.topology.specs.Reading.{IsFirstFault, SayRouters, SayVrfs, SayLinks, SayEdges, SayMarks};

use crate::steps::{add_edge, add_link, add_mark, add_router, add_vrf};
use crate::taken::{TakenEnds, ends_of_links};
use dn_formats::{Mark, TopoPart, TopoRefused};
use dn_model::{List, Name, RouterTable, TopoEnd, TopoLink};
use std::alloc::Global;
use toml::Value;

/// The names that the entries of `routers` say, or their first fault.
pub fn read_routers(alloc: Global, entries: &[Value]) -> Result<List<Name>, TopoRefused>
    ensures ok { IfOk result (SayRouters (map view entries.now)) }
    ensures refused { IfErr result (IsFirstFault
        (faults_along TopoPart.Routers router_rows [] (map view entries.now))) }
{
    let mut names = List::new(alloc);
    for entry in entries {
        add_router(alloc, &mut names, entry)?;
    }
    Ok(names)
}

/// Adds the VRFs that the entries of `vrf` say to the devices and their main tables, or answers their first fault.
pub fn read_vrfs(
    alloc: Global,
    names: &mut List<Name>,
    tables: &mut List<RouterTable>,
    entries: &[Value],
) -> Result<(), TopoRefused>
    requires few { length names.old ≤ 1024 }
    requires main { tables.old ≡ main_tables names.old }
    ensures ok { OnOk result (SayVrfs names.old (map view entries.now) names.new tables.new) }
    ensures refused { IfErr result (IsFirstFault (vrf_faults names.old (map view entries.now))) }
{
    let devices = names.len();
    for entry in entries {
        add_vrf(alloc, devices, names, tables, entry)?;
    }
    Ok(())
}

/// The links that the entries of `link` say, between routers of these names and tables, or their first fault.
pub fn read_links(
    alloc: Global,
    routers: &[Name],
    tables: &[RouterTable],
    entries: &[Value],
) -> Result<List<TopoLink>, TopoRefused>
    requires { length routers.now ≤ 1024 }
    ensures ok { IfOk result (SayLinks routers.now tables.now (map view entries.now)) }
    ensures refused { IfErr result (IsFirstFault (link_faults routers.now tables.now (map view entries.now))) }
{
    let mut links = List::new(alloc);
    let mut taken = TakenEnds::new(alloc, tables)?;
    for entry in entries {
        add_link(alloc, routers, &mut links, &mut taken, entry)?;
    }
    Ok(links)
}

/// The interfaces that the entries of `edge` say, or their first fault.
pub fn read_edges(
    alloc: Global,
    routers: &[Name],
    tables: &[RouterTable],
    links: &[TopoLink],
    entries: &[Value],
) -> Result<List<TopoEnd>, TopoRefused>
    requires { length routers.now ≤ 1024 }
    ensures ok { IfOk result (SayEdges routers.now tables.now links.now (map view entries.now)) }
    ensures refused { IfErr result (IsFirstFault
        (edge_faults routers.now tables.now links.now (map view entries.now))) }
{
    let mut edges = List::new(alloc);
    let mut taken = ends_of_links(alloc, tables, links)?;
    for entry in entries {
        add_edge(routers, &mut edges, &mut taken, entry)?;
    }
    Ok(edges)
}

/// The marks that the entries of `router` say, or their first fault.
pub fn read_marks(
    alloc: Global,
    routers: &[Name],
    entries: &[Value],
) -> Result<List<Mark>, TopoRefused>
    requires { length routers.now ≤ 1024 }
    ensures ok { IfOk result (SayMarks routers.now (map view entries.now)) }
    ensures refused { IfErr result (IsFirstFault (mark_faults routers.now (map view entries.now))) }
{
    let mut marks = List::new(alloc);
    for entry in entries {
        add_mark(routers, &mut marks, entry)?;
    }
    Ok(marks)
}
