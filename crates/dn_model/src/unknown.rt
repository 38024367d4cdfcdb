//! Names of a query that the topology doesn't have.

ghost use Rattle.std.specs.Prelude.{◌≡◌, ◌∷◌, [], ◌≤◌, ◌<◌, ◌+◌, ◌^◌, length};
ghost use Rattle.dn_model.specs.Query.{RouterName, first_unknown, link_names, names_asked, unknown_of};

use crate::lookup::{link, router};
use crate::query::{Ask, Query, Unknown};
use crate::topology::Topology;
use base::Name;

/// The first of these names that is no link's, by its place; the first name has the place 1.
fn unknown_link(topology: &Topology, names: &[Name]) -> Option<Unknown>
    requires { length names.now < 2 ^ 32 }
    ensures { result ≡ first_unknown topology.now 1 (link_names names.now) }
{
    let mut place: u64 = 1;
    for name in names {
        if link(topology, name).is_none() {
            return Some(Unknown::Link(place as u32));
        }
        place += 1;
    }
    None
}

/// A name that is no router's, by its place.
fn unknown_router(topology: &Topology, name: &Name, place: u64) -> Option<Unknown>
    requires { place < 2 ^ 32 }
    ensures { result ≡ first_unknown topology.now place (RouterName name.now ∷ []) }
{
    if router(topology, name).is_none() {
        return Some(Unknown::Router(place as u32));
    }
    None
}

/// The first of two names that is no router's; the first of them has this place.
fn unknown_of_two(topology: &Topology, first: &Name, second: &Name, place: u64) -> Option<Unknown>
    requires { place + 1 < 2 ^ 32 }
    ensures { result ≡ first_unknown topology.now place (RouterName first.now ∷ RouterName second.now ∷ []) }
{
    match unknown_router(topology, first, place) {
        Some(unknown) => Some(unknown),
        None => unknown_router(topology, second, place + 1),
    }
}

/// The first name in what is asked that the topology doesn't have; its first name has this place.
fn unknown_asked(topology: &Topology, place: u64, ask: &Ask) -> Option<Unknown>
    requires { place + length (names_asked ask.now) ≤ 2 ^ 32 }
    ensures { result ≡ first_unknown topology.now place (names_asked ask.now) }
{
    match ask {
        Ask::Path(first, _) | Ask::Blackholes(first) => unknown_router(topology, first, place),
        Ask::Reach(first, to) => unknown_of_two(topology, first, to, place),
        Ask::Uses(name) => {
            if link(topology, name).is_none() {
                return Some(Unknown::Link(place as u32));
            }
            None
        }
        Ask::Waypoint(first, to, through) => match unknown_of_two(topology, first, to, place) {
            Some(unknown) => Some(unknown),
            None => unknown_router(topology, through, place + 2),
        },
        Ask::Loops | Ask::Delta => None,
    }
}

impl Query {
    /// The first name of the query, from the left, that the topology doesn't have, and None exactly where it has all.
    /// It takes no memory.
    pub fn unknown(&self, topology: &Topology) -> Option<Unknown>
        ensures { result ≡ unknown_of topology.now self.now }
    {
        let without = self.without();
        let ask = self.ask();
        match unknown_link(topology, without) {
            Some(unknown) => Some(unknown),
            None => unknown_asked(topology, without.len() as u64 + 1, ask),
        }
    }
}
