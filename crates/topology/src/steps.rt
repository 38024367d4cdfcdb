//! One entry of a topology's text: what it says is added, or its first cause is answered.

ghost use Rattle.std.specs.Prelude.{◌≡◌, ◌≤◌, ◌+◌, ◌-◌, ◌++◌, ◌∷◌, [], OnOk, IfOk, IfErr, length, take, not, None, false, option_map};
ghost use Rattle.std.specs.Option.{option_to_list};
ghost use Rattle.toml.specs.Data.{as_str};
ghost use Rattle.toml.specs.View.{view, table_view};
ghost use Rattle.base.specs.Name.{is_name_text};
ghost use Rattle.dn_model.specs.Topology.{all_ends};
ghost use Rattle.dn_formats.specs.TopologyText.{passes, router_causes, vrf_of_entry, mark_of_entry, link_from, name_in, link_of_table, link_of_entry, name_of_entry, end_of_entry};
ghost use Rattle.topology.specs.Reading.{first_standing, first_at_vrf, first_at_link, first_at_edge, first_at_mark, fault_at, IsRefusalAt};
ghost use Rattle.topology.specs.Faults.{IsLinkRefused, IsEdgeRefused, IsMarkRefused};
ghost use Rattle.topology.specs.Taken.{with_ends};

use crate::edge::{edge_cause, end_of_entry};
use crate::link::{ends_of_table, link_cause};
use crate::mark::{mark_cause, mark_of_entry};
use crate::name::name_of_entry;
use crate::router::router_cause;
use crate::taken::TakenEnds;
use crate::value::{flag_or_none_at, text_at};
use crate::vrf::{vrf_cause, vrf_of_entry};
use dn_formats::{Mark, TopoFault, TopoPart, TopoRefused};
use dn_model::{List, Name, OutOfMemory, RouterTable, TopoEnd, TopoLink};
use std::alloc::Global;
use toml::{Table, Value};

/// The refusal for a cause at the entry that so many entries stand before.
fn refusal(part: TopoPart, earlier: usize, cause: u8) -> TopoRefused
    requires { earlier ≤ 16384 }
    ensures { result ≡ TopoRefused.Fault (fault_at part (earlier + 1) cause) }
{
    TopoRefused::Fault(TopoFault {
        part,
        entry: earlier as u32 + 1,
        cause,
    })
}

/// Adds the name that an entry says.
fn push_router(alloc: Global, names: &mut List<Name>, entry: &Value) -> Result<(), OutOfMemory>
    requires { passes (λ name. not (is_name_text name)) (as_str (view entry.now)) ≡ false }
    ensures { OnOk result (names.new ≡ names.old ++ option_to_list (as_str (view entry.now))) }
{
    match entry.as_str() {
        Some(text) => names.push(Name::from_text(alloc, text.as_bytes())?),
        None => Ok(()),
    }
}

/// Takes an entry of `routers`, which these names stand before.
pub fn add_router(alloc: Global, names: &mut List<Name>, entry: &Value) -> Result<(), TopoRefused>
    requires { length names.old ≤ 1024 }
    ensures faultless { OnOk result (first_standing (router_causes (length names.old) names.old) (view entry.now) ≡ None) }
    ensures said { OnOk result (names.new ≡ names.old ++ option_to_list (as_str (view entry.now))) }
    ensures refused { IfErr result (IsRefusalAt TopoPart.Routers (length names.old + 1) (first_standing (router_causes (length names.old) names.old) (view entry.now))) }
{
    match router_cause(names.as_slice(), entry) {
        Some(cause) => Err(refusal(TopoPart::Routers, names.len(), cause)),
        None => {
            push_router(alloc, names, entry)?;
            Ok(())
        }
    }
}

/// Adds the name that an entry of `vrf` says.
fn push_vrf_name(alloc: Global, names: &mut List<Name>, entry: &Value) -> Result<(), OutOfMemory>
    requires { passes (λ name. not (is_name_text name)) (name_of_entry (view entry.now)) ≡ false }
    ensures { OnOk result (names.new ≡ names.old ++ option_to_list (name_of_entry (view entry.now))) }
{
    match name_of_entry(entry) {
        Some(text) => names.push(Name::from_text(alloc, text.as_bytes())?),
        None => Ok(()),
    }
}

/// Adds a table, if there is one.
fn push_vrf_table(
    tables: &mut List<RouterTable>,
    table: Option<RouterTable>,
) -> Result<(), OutOfMemory>
    ensures { OnOk result (tables.new ≡ tables.old ++ option_to_list table) }
{
    match table {
        Some(table) => tables.push(table),
        None => Ok(()),
    }
}

/// Takes an entry of `vrf`, which routers of these names and tables stand before; so many of them are devices.
pub fn add_vrf(
    alloc: Global,
    devices: usize,
    names: &mut List<Name>,
    tables: &mut List<RouterTable>,
    entry: &Value,
) -> Result<(), TopoRefused>
    requires within { devices ≤ length names.old }
    requires few { length names.old ≤ 1024 }
    ensures faultless { OnOk result
        (first_at_vrf (take devices names.old) names.old tables.old (view entry.now) ≡ None) }
    ensures named { OnOk result (names.new ≡ names.old ++ option_to_list (name_of_entry (view entry.now))) }
    ensures said { OnOk result (tables.new
        ≡ tables.old ++ option_to_list (vrf_of_entry (take devices names.old) (view entry.now))) }
    ensures refused { IfErr result (IsRefusalAt TopoPart.Vrf (length names.old - devices + 1)
        (first_at_vrf (take devices names.old) names.old tables.old (view entry.now))) }
{
    let table = vrf_of_entry(&names.as_slice()[..devices], entry);
    match vrf_cause(
        &names.as_slice()[..devices],
        names.as_slice(),
        tables.as_slice(),
        entry,
    ) {
        Some(cause) => Err(refusal(TopoPart::Vrf, names.len() - devices, cause)),
        None => {
            push_vrf_name(alloc, names, entry)?;
            push_vrf_table(tables, table)?;
            Ok(())
        }
    }
}

/// The link of a name, two ends and a mark.
fn make_link(
    alloc: Global,
    name: Option<&str>,
    ends: Option<(TopoEnd, TopoEnd)>,
    mark: Option<bool>,
) -> Result<Option<TopoLink>, OutOfMemory>
    requires { passes (λ text. not (is_name_text text)) (option_map (λ s. s.now) name) ≡ false }
    ensures { IfOk result (λ l. l ≡ link_from (option_map (λ s. s.now) name.entry) ends mark) }
{
    match (name, ends, mark) {
        (Some(text), Some((first, second)), Some(unnumbered)) => {
            let name = Name::from_text(alloc, text.as_bytes())?;
            Ok(Some(TopoLink {
                name,
                first,
                second,
                unnumbered,
            }))
        }
        _ => Ok(None),
    }
}

/// The link that a table says.
fn make_link_of_table(
    alloc: Global,
    routers: &[Name],
    table: &Table,
) -> Result<Option<TopoLink>, OutOfMemory>
    requires few { length routers.now ≤ 1024 }
    requires named { passes (λ text. not (is_name_text text)) (name_in (table_view table.now)) ≡ false }
    ensures { IfOk result (λ l. l ≡ link_of_table routers.now (table_view table.now)) }
{
    let name = text_at(table, "name");
    let ends = ends_of_table(routers, table);
    let mark = flag_or_none_at(table, "unnumbered");
    make_link(alloc, name, ends, mark)
}

/// The link that an entry says.
fn make_link_of_entry(
    alloc: Global,
    routers: &[Name],
    entry: &Value,
) -> Result<Option<TopoLink>, OutOfMemory>
    requires few { length routers.now ≤ 1024 }
    requires named { passes (λ text. not (is_name_text text)) (name_of_entry (view entry.now)) ≡ false }
    ensures { IfOk result (λ l. l ≡ link_of_entry routers.now (view entry.now)) }
{
    match entry.as_table() {
        Some(table) => make_link_of_table(alloc, routers, table),
        None => Ok(None),
    }
}

/// Adds a link and its interfaces.
fn push_some_link(
    links: &mut List<TopoLink>,
    taken: &mut TakenEnds,
    link: TopoLink,
) -> Result<(), OutOfMemory>
    requires { taken.old ≡ record { tables = taken.old.tables; ends = all_ends links.old } }
    ensures said { OnOk result (links.new ≡ links.old ++ link ∷ []) }
    ensures held { OnOk result (taken.new ≡ record { tables = taken.old.tables; ends = all_ends links.new }) }
{
    taken.add(link.first)?;
    taken.add(link.second)?;
    links.push(link)?;
    Ok(())
}

/// Adds a link and its interfaces, if there is one.
fn push_link(
    links: &mut List<TopoLink>,
    taken: &mut TakenEnds,
    link: Option<TopoLink>,
) -> Result<(), OutOfMemory>
    requires { taken.old ≡ record { tables = taken.old.tables; ends = all_ends links.old } }
    ensures said { OnOk result (links.new ≡ links.old ++ option_to_list link) }
    ensures held { OnOk result (taken.new ≡ record { tables = taken.old.tables; ends = all_ends links.new }) }
{
    match link {
        Some(link) => push_some_link(links, taken, link),
        None => Ok(()),
    }
}

/// Adds the link that an entry says.
fn push_link_of_entry(
    alloc: Global,
    routers: &[Name],
    links: &mut List<TopoLink>,
    taken: &mut TakenEnds,
    entry: &Value,
) -> Result<(), OutOfMemory>
    requires few { length routers.now ≤ 1024 }
    requires named { passes (λ text. not (is_name_text text)) (name_of_entry (view entry.now)) ≡ false }
    requires held { taken.old ≡ record { tables = taken.old.tables; ends = all_ends links.old } }
    ensures said { OnOk result (links.new ≡ links.old ++ option_to_list (link_of_entry routers.now (view entry.now))) }
    ensures held { OnOk result (taken.new ≡ record { tables = taken.old.tables; ends = all_ends links.new }) }
{
    let link = make_link_of_entry(alloc, routers, entry)?;
    push_link(links, taken, link)
}

/// Takes an entry of `link`, which these links stand before, whose interfaces are taken.
pub fn add_link(
    alloc: Global,
    routers: &[Name],
    links: &mut List<TopoLink>,
    taken: &mut TakenEnds,
    entry: &Value,
) -> Result<(), TopoRefused>
    requires few { length routers.now ≤ 1024 }
    requires few_links { length links.old ≤ 4096 }
    requires held { taken.old ≡ record { tables = taken.old.tables; ends = all_ends links.old } }
    ensures held { OnOk result (taken.new ≡ record { tables = taken.old.tables; ends = all_ends links.new }) }
    ensures faultless { OnOk result (first_at_link routers.now taken.old links.old (view entry.now) ≡ None) }
    ensures said { OnOk result (links.new ≡ links.old ++ option_to_list (link_of_entry routers.now (view entry.now))) }
    ensures refused { IfErr result (IsLinkRefused routers.now taken.old links.old (view entry.now)) }
{
    match link_cause(routers, links.as_slice(), taken, entry) {
        Some(cause) => Err(refusal(TopoPart::Link, links.len(), cause)),
        None => {
            push_link_of_entry(alloc, routers, links, taken, entry)?;
            Ok(())
        }
    }
}

/// Adds an edge, if there is one, which takes its interface.
fn push_edge(
    edges: &mut List<TopoEnd>,
    taken: &mut TakenEnds,
    end: Option<TopoEnd>,
) -> Result<(), OutOfMemory>
    ensures said { OnOk result (edges.new ≡ edges.old ++ option_to_list end) }
    ensures held { OnOk result (taken.new ≡ with_ends taken.old (option_to_list end)) }
{
    match end {
        Some(end) => {
            taken.add(end)?;
            edges.push(end)
        }
        None => Ok(()),
    }
}

/// Takes an entry of `edge`, which these edges stand before, where these interfaces are taken.
pub fn add_edge(
    routers: &[Name],
    edges: &mut List<TopoEnd>,
    taken: &mut TakenEnds,
    entry: &Value,
) -> Result<(), TopoRefused>
    requires few { length routers.now ≤ 1024 }
    requires few_edges { length edges.old ≤ 16384 }
    ensures faultless { OnOk result (first_at_edge routers.now taken.old (length edges.old) (view entry.now) ≡ None) }
    ensures said { OnOk result (edges.new ≡ edges.old ++ option_to_list (end_of_entry routers.now (view entry.now))) }
    ensures held { OnOk result (taken.new
        ≡ with_ends taken.old (option_to_list (end_of_entry routers.now (view entry.now)))) }
    ensures refused { IfErr result (IsEdgeRefused routers.now taken.old (length edges.old) (view entry.now)) }
{
    match edge_cause(routers, edges.len(), taken, entry) {
        Some(cause) => Err(refusal(TopoPart::Edge, edges.len(), cause)),
        None => {
            push_edge(edges, taken, end_of_entry(routers, entry))?;
            Ok(())
        }
    }
}

/// Adds a mark, if there is one.
fn push_mark(marks: &mut List<Mark>, mark: Option<Mark>) -> Result<(), OutOfMemory>
    ensures { OnOk result (marks.new ≡ marks.old ++ option_to_list mark) }
{
    match mark {
        Some(mark) => marks.push(mark),
        None => Ok(()),
    }
}

/// Takes an entry of `router`, which these marks stand before.
pub fn add_mark(routers: &[Name], marks: &mut List<Mark>, entry: &Value) -> Result<(), TopoRefused>
    requires few { length routers.now ≤ 1024 }
    requires few_marks { length marks.old ≤ 1024 }
    ensures faultless { OnOk result (first_at_mark routers.now marks.old (view entry.now) ≡ None) }
    ensures said { OnOk result (marks.new ≡ marks.old ++ option_to_list (mark_of_entry routers.now (view entry.now))) }
    ensures refused { IfErr result (IsMarkRefused routers.now marks.old (view entry.now)) }
{
    match mark_cause(routers, marks.as_slice(), entry) {
        Some(cause) => Err(refusal(TopoPart::Router, marks.len(), cause)),
        None => {
            push_mark(marks, mark_of_entry(routers, entry))?;
            Ok(())
        }
    }
}
