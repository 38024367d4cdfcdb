//! Which names and interfaces are taken.

ghost use Rattle.std.specs.Prelude.{◌≡◌, ◌∷◌, [], IfOk, OnOk, map};
ghost use Rattle.std.specs.List.{list_any};
ghost use Rattle.base.specs.Name.{same_text};
ghost use Rattle.dn_model.specs.Topology.{all_ends, device_in, same_end};
ghost use Rattle.dn_formats.specs.TopologyText.{has_text, has_end};
ghost use Rattle.topology.specs.Taken.{with_ends};

use dn_model::{OutOfMemory, RouterId, RouterTable, TopoEnd, TopoLink};
use std::alloc::Global;
use std::collections::HashSet;
use std::marker::Model;

/// The device whose table a router is, by all tables; a router without one is its own.
fn device_in(tables: &[RouterTable], router: RouterId) -> RouterId
    ensures { result ≡ device_in tables.now router }
{
    match tables.get(router.0 as usize) {
        Some(table) => table.device,
        None => router,
    }
}

/// The interfaces that links and edges have so far, found by their device and number: a device and its VRFs share one
/// space of numbers. A contract sees the tables of all routers and the ends, in order.
#[derive(Drop)]
pub struct TakenEnds {
    tables: Vec<RouterTable>,
    ends: Vec<TopoEnd>,
    found: HashSet<(u16, u32)>,
}

impl Model for TakenEnds {
    ghost use Rattle.std.specs.Prelude.{◌≡◌};
    ghost use Rattle.dn_model.specs.declared.topology.TopoEnd.{TopoEnd};
    ghost use Rattle.dn_formats.specs.TopologyText.{has_end};
    ghost use Rattle.topology.specs.Taken.{Taken, contains_end};

    ghost Value = { Taken };

    ghost view = { λ t. record { tables = t.tables.items; ends = t.ends.items } };

    ghost invariant = { λ t. (e : TopoEnd) →
        contains_end t.found t.tables.items e ≡ has_end t.tables.items t.ends.items e };
}

impl TakenEnds {
    /// No interface, at routers of these tables.
    pub fn new(alloc: Global, tables: &[RouterTable]) -> Result<Self, OutOfMemory>
        ensures { IfOk result (λ taken. taken ≡ record { tables = tables.now; ends = [] }) }
    {
        let mut all = Vec::new(alloc);
        all.extend_from_slice(tables)?;
        Ok(TakenEnds {
            tables: all,
            ends: Vec::new(alloc),
            found: HashSet::new(alloc),
        })
    }

    /// Whether the interface that an end is is among them.
    pub fn has(&self, end: TopoEnd) -> bool
        ensures { result ≡ has_end self.now.tables self.now.ends end }
    {
        let device = device_in(self.tables.as_slice(), end.router);
        self.found.contains(&(device.0, end.index))
    }

    /// Whether two ends are one interface.
    pub fn is_one_interface(&self, first: TopoEnd, second: TopoEnd) -> bool
        ensures { result ≡ same_end self.now.tables first second }
    {
        let tables = self.tables.as_slice();
        device_in(tables, first.router).0 == device_in(tables, second.router).0
            && first.index == second.index
    }

    /// Adds an end.
    pub fn add(&mut self, end: TopoEnd) -> Result<(), OutOfMemory>
        ensures { OnOk result (self.new ≡ with_ends self.old (end ∷ [])) }
    {
        let device = device_in(self.tables.as_slice(), end.router);
        self.ends.push(end)?;
        match self.found.insert((device.0, end.index)) {
            Ok(_) => Ok(()),
            Err(_) => {
                self.ends.pop();
                Err(OutOfMemory)
            }
        }
    }
}

/// The interfaces of links between routers of these tables.
pub fn ends_of_links(
    alloc: Global,
    tables: &[RouterTable],
    links: &[TopoLink],
) -> Result<TakenEnds, OutOfMemory>
    ensures { IfOk result (λ taken. taken ≡ record { tables = tables.now; ends = all_ends links.now }) }
{
    let mut taken = TakenEnds::new(alloc, tables)?;
    for link in links {
        taken.add(link.first)?;
        taken.add(link.second)?;
    }
    Ok(taken)
}

/// Whether one of the links has this name.
pub fn has_link_name(links: &[TopoLink], name: &[u8]) -> bool
    ensures { result ≡ has_text (map (λ l. l.name) links.now) name.now }
{
    is_among_link_names(links, name)
}

/// Whether one of the links has this name, link by link.
fn is_among_link_names(links: &[TopoLink], name: &[u8]) -> bool
    ensures { result ≡ list_any (λ l. same_text l.name name.now) links.now }
{
    links.iter().any(|link| link.name.as_bytes() == name)
}
