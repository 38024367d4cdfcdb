//! The network and the script of the generated input, as values.

ghost use Rattle.std.specs.Prelude.{◌≡◌, ◌<◌, ◌∷◌, [], IsTrue, IfOk, codes, map};
ghost use Rattle.base.specs.Name.{is_byte_of_name};
ghost use Rattle.dn_model.specs.Tables.{parts};
ghost use Rattle.dn_run.specs.Made.{made_end, made_link, made_lines, made_network, made_table, made_take, numbered};
ghost use Rattle.dn_run.specs.Made.{router_numbers};

use dn_formats::{Asked, Line, Script};
use dn_model::{
    Ask, List, Name, OutOfMemory, Query, Replace, RouterId, RouterTable, TopoEnd, TopoLink,
    Topology,
};
use std::alloc::Global;

/// How many routers the ring has.
const ROUTERS: u16 = 8;

/// A name of a letter and a digit.
#[tactic(auto, using(crate::proofs::RingLemmas::digit_name, crate::proofs::RingLemmas::digit_text))]
fn name(alloc: Global, letter: u8, digit: u16) -> Result<Name, OutOfMemory>
    requires letter { IsTrue (is_byte_of_name letter) }
    requires digit { digit < 10 }
    ensures { IfOk result (λ name. name ≡ numbered (letter ∷ []) digit) }
{
    Name::from_text(alloc, &[letter, b'0' + digit as u8])
}

/// The names of the routers.
#[tactic(auto, using(crate::proofs::RingLemmas::rows))]
fn routers(alloc: Global) -> Result<List<Name>, OutOfMemory>
    ensures { IfOk result (λ names. names ≡ map (numbered (codes "m")) router_numbers) }
{
    let mut names = List::new(alloc);
    for i in 0..ROUTERS {
        names.push(name(alloc, b'm', i)?)?;
    }
    Ok(names)
}

/// The table of a router, which is a device: its main one.
fn table(router: u16) -> RouterTable
    ensures { result ≡ made_table router }
{
    RouterTable {
        device: RouterId(router),
        number: 254,
        replace: Replace::Key,
    }
}

/// The tables of the routers.
#[tactic(auto, using(crate::proofs::RingLemmas::rows))]
fn tables(alloc: Global) -> Result<List<RouterTable>, OutOfMemory>
    ensures { IfOk result (λ tables. tables ≡ map made_table router_numbers) }
{
    let mut tables = List::new(alloc);
    for i in 0..ROUTERS {
        tables.push(table(i))?;
    }
    Ok(tables)
}

/// An interface of a router.
fn end(index: u32, router: u16) -> TopoEnd
    ensures { result ≡ made_end index router }
{
    TopoEnd {
        router: RouterId(router),
        index,
    }
}

/// The link from a router to the next one.
fn link(alloc: Global, i: u16) -> Result<TopoLink, OutOfMemory>
    requires { i < 8 }
    ensures { IfOk result (λ link. link ≡ made_link i) }
{
    Ok(TopoLink {
        name: name(alloc, b'l', i)?,
        first: end(2, i),
        second: end(3, (i + 1) % ROUTERS),
        unnumbered: false,
    })
}

/// The links.
#[tactic(auto, using(crate::proofs::RingLemmas::rows))]
fn links(alloc: Global) -> Result<List<TopoLink>, OutOfMemory>
    ensures { IfOk result (λ links. links ≡ map made_link router_numbers) }
{
    let mut links = List::new(alloc);
    for i in 0..ROUTERS {
        links.push(link(alloc, i)?)?;
    }
    Ok(links)
}

/// The edges.
#[tactic(auto, using(crate::proofs::RingLemmas::rows))]
fn edges(alloc: Global) -> Result<List<TopoEnd>, OutOfMemory>
    ensures { IfOk result (λ edges. edges ≡ map (made_end 1) router_numbers) }
{
    let mut edges = List::new(alloc);
    for i in 0..ROUTERS {
        edges.push(end(1, i))?;
    }
    Ok(edges)
}

/// The network of the generated input: eight routers in a ring, each with an edge.
pub fn made_topology(alloc: Global) -> Result<Topology, OutOfMemory>
    ensures { IfOk result (λ t. parts t ≡ made_network) }
{
    let routers = routers(alloc)?;
    let tables = tables(alloc)?;
    let links = links(alloc)?;
    let edges = edges(alloc)?;
    Ok(Topology {
        routers,
        tables,
        links,
        edges,
    })
}

/// The line that takes all of a router's feed.
fn take(i: u16) -> Line
    requires { i < 8 }
    ensures { result ≡ made_take i }
{
    Line::Take {
        line: u32::from(i) + 1,
        router: RouterId(i),
        count: None,
    }
}

/// The lines that take the feeds.
#[tactic(auto, using(crate::proofs::RingLemmas::rows))]
fn takes(alloc: Global) -> Result<List<Line>, OutOfMemory>
    ensures { IfOk result (λ lines. lines ≡ map made_take router_numbers) }
{
    let mut lines = List::new(alloc);
    for i in 0..ROUTERS {
        lines.push(take(i))?;
    }
    Ok(lines)
}

/// The script of the generated input: it takes every feed, in order, and then asks for the loops.
pub fn made_script(alloc: Global) -> Result<Script, OutOfMemory>
    ensures { IfOk result (λ script. script.lines ≡ made_lines) }
{
    let mut lines = takes(alloc)?;
    let query = Asked::new(alloc, Query::of(alloc, Ask::Loops))?;
    lines.push(Line::Ask {
        line: u32::from(ROUTERS) + 1,
        query,
    })?;
    Ok(Script { lines })
}
