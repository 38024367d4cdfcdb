//! Guesses of routers by the bytes of their names.

ghost use Rattle.std.specs.Prelude.{◌≡◌, ◌++◌, ◌∷◌, [], All, IfOk, IfSome, OnOk};
ghost use Rattle.query_lang.specs.NameIndex.{IsIndex, IsNamed};

use crate::name_index::{name_of, router_at};
use dn_model::{OutOfMemory, RouterId, Topology};
use std::alloc::Global;
use std::collections::HashMap;

/// A name, and the first of the routers with a feed that has it.
#[derive(Clone, Copy)]
pub struct Named<'a> {
    pub name: &'a [u8],
    pub router: RouterId,
}

/// Names of routers that have a feed, and a place among them for each number that a name may have. The name there may be
/// another one, so whoever takes its router compares them.
#[derive(Drop)]
pub struct Guesses<'a> {
    pub named: Vec<Named<'a>>,
    places: [u8; 256],
}

/// A number that few names share: names of one network mostly differ in their first byte or their last two.
fn number_of(name: &[u8]) -> u8 {
    match name {
        [] => 0,
        [last] => *last,
        [first, last] => first.wrapping_mul(31).wrapping_add(*last),
        [first, .., before, last] => first
            .wrapping_mul(101)
            .wrapping_add(before.wrapping_mul(31))
            .wrapping_add(*last),
    }
}

/// A router's name with the first router with a feed that has it.
fn named_of<'a>(
    topology: &'a Topology,
    fed: &[RouterId],
    index: &HashMap<&'a [u8], RouterId>,
    router: RouterId,
) -> Option<Named<'a>>
    requires { IsIndex topology.now.routers fed.now index.now.entries }
    ensures { IfSome result (IsNamed topology.now.routers fed.now) }
{
    let name = name_of(topology, router)?;
    let router = router_at(index, name)?;
    Some(Named { name, router })
}

impl<'a> Guesses<'a> {
    /// Adds a name behind the others. Its number leads to it from now on.
    fn add(&mut self, named: Named<'a>) -> Result<(), OutOfMemory>
        ensures { OnOk result (self.new.named.items ≡ self.old.named.items ++ named.entry ∷ []) }
    {
        let place = (self.named.len() % 256) as u8;
        self.places[usize::from(number_of(named.name))] = place;
        self.named.push(named)?;
        Ok(())
    }

    /// The place to which the number of a name leads.
    pub fn place_of(&self, name: &[u8]) -> usize {
        usize::from(self.places[usize::from(number_of(name))])
    }
}

/// The guesses by the names of these routers, of which this is the index.
pub fn guesses_of<'a>(
    alloc: Global,
    topology: &'a Topology,
    fed: &[RouterId],
    index: &HashMap<&'a [u8], RouterId>,
) -> Result<Guesses<'a>, OutOfMemory>
    requires { IsIndex topology.now.routers fed.now index.now.entries }
    ensures { IfOk result (λ guesses. All (IsNamed topology.now.routers fed.now) guesses.named.items) }
{
    let mut guesses = Guesses {
        named: Vec::new(alloc),
        places: [0; 256],
    };
    for router in fed {
        if let Some(named) = named_of(topology, fed, index, *router) {
            guesses.add(named)?;
        }
    }
    Ok(guesses)
}
