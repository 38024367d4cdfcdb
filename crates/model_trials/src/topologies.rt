//! Small networks: three routers, and a VRF of the first one.

ghost use Rattle.std.specs.Prelude.{◌≡◌, ◌++◌, ◌∷◌, [], IsTrue, IfOk, OnOk, codes};
ghost use Rattle.base.specs.Name.{is_name_text};
ghost use Rattle.dn_model.specs.Tables.{parts};
ghost use Rattle.model_trials.specs.Networks.{end_at, four_links, four_names, four_tables, link_of, table_of, three, three_and_vrf, three_links, three_names, three_tables};

use dn_model::{
    List, Name, OutOfMemory, Replace, RouterId, RouterTable, TopoEnd, TopoLink, Topology,
};
use std::alloc::Global;

/// An interface of a router.
fn end_at(router: u16, index: u32) -> TopoEnd
    ensures { result ≡ end_at router index }
{
    TopoEnd {
        router: RouterId(router),
        index,
    }
}

/// A link.
fn link_of(
    alloc: Global,
    name: &[u8],
    first: TopoEnd,
    second: TopoEnd,
) -> Result<TopoLink, OutOfMemory>
    requires { IsTrue (is_name_text name.now) }
    ensures { IfOk result (λ link. link ≡ link_of name.now first second) }
{
    Ok(TopoLink {
        name: Name::from_text(alloc, name)?,
        first,
        second,
        unnumbered: false,
    })
}

/// A table of a device.
fn table_of(device: u16, number: u32, replace: Replace) -> RouterTable
    ensures { result ≡ table_of device number replace }
{
    RouterTable {
        device: RouterId(device),
        number,
        replace,
    }
}

/// One more name stands behind others.
fn push_name(alloc: Global, names: &mut List<Name>, name: &[u8]) -> Result<(), OutOfMemory>
    requires { IsTrue (is_name_text name.now) }
    ensures { OnOk result (names.new ≡ names.old ++ name.now ∷ []) }
{
    names.push(Name::from_text(alloc, name)?)?;
    Ok(())
}

/// The names r1, r2 and r3.
fn three_names(alloc: Global) -> Result<List<Name>, OutOfMemory>
    ensures { IfOk result (λ names. names ≡ three_names) }
{
    let mut names = List::new(alloc);
    push_name(alloc, &mut names, b"r1")?;
    push_name(alloc, &mut names, b"r2")?;
    push_name(alloc, &mut names, b"r3")?;
    Ok(names)
}

/// The same and v1.
fn four_names(alloc: Global) -> Result<List<Name>, OutOfMemory>
    ensures { IfOk result (λ names. names ≡ four_names) }
{
    let mut names = three_names(alloc)?;
    push_name(alloc, &mut names, b"v1")?;
    Ok(names)
}

/// The main tables of three devices; how the first one replaces routes.
fn three_tables(alloc: Global, first: Replace) -> Result<List<RouterTable>, OutOfMemory>
    ensures { IfOk result (λ tables. tables ≡ three_tables first) }
{
    let mut tables = List::new(alloc);
    tables.push(table_of(0, 254, first))?;
    tables.push(table_of(1, 254, Replace::Key))?;
    tables.push(table_of(2, 254, Replace::Key))?;
    Ok(tables)
}

/// The same and the table of the VRF.
fn four_tables(alloc: Global, first: Replace) -> Result<List<RouterTable>, OutOfMemory>
    ensures { IfOk result (λ tables. tables ≡ four_tables first) }
{
    let mut tables = three_tables(alloc, first)?;
    tables.push(table_of(0, 10, Replace::Key))?;
    Ok(tables)
}

/// A link between each two of the three.
fn three_links(alloc: Global) -> Result<List<TopoLink>, OutOfMemory>
    ensures { IfOk result (λ links. links ≡ three_links) }
{
    let mut links = List::new(alloc);
    links.push(link_of(alloc, b"a", end_at(0, 2), end_at(1, 2))?)?;
    links.push(link_of(alloc, b"c", end_at(0, 3), end_at(2, 3))?)?;
    links.push(link_of(alloc, b"b", end_at(1, 3), end_at(2, 2))?)?;
    Ok(links)
}

/// The same and the link of the VRF.
fn four_links(alloc: Global) -> Result<List<TopoLink>, OutOfMemory>
    ensures { IfOk result (λ links. links ≡ four_links) }
{
    let mut links = three_links(alloc)?;
    links.push(link_of(alloc, b"d", end_at(3, 5), end_at(1, 5))?)?;
    Ok(links)
}

/// Three routers, `r1`, `r2` and `r3`, with a link `a` from r1 to r2, a link `c` from r1 to r3 and a link `b` from r2
/// to r3; how r1 replaces routes.
#[tactic(auto, using(crate::proofs::Sound::three_sound))]
pub fn three(alloc: Global, first: Replace) -> Result<Topology, OutOfMemory>
    ensures { IfOk result (λ t. parts t ≡ three first) }
{
    let routers = three_names(alloc)?;
    let tables = three_tables(alloc, first)?;
    let links = three_links(alloc)?;
    Ok(Topology {
        routers,
        tables,
        links,
        edges: List::new(alloc),
    })
}

/// The same with a VRF of r1, `v1`, by its table 10, and a link `d` from v1 to r2.
#[tactic(auto, using(crate::proofs::Sound::three_and_vrf_sound))]
pub fn three_and_vrf(alloc: Global, first: Replace) -> Result<Topology, OutOfMemory>
    ensures { IfOk result (λ t. parts t ≡ three_and_vrf first) }
{
    let routers = four_names(alloc)?;
    let tables = four_tables(alloc, first)?;
    let links = four_links(alloc)?;
    Ok(Topology {
        routers,
        tables,
        links,
        edges: List::new(alloc),
    })
}
