//! Queries.

ghost use Rattle.std.specs.Prelude.{◌≡◌, [], IfOk};
ghost use Rattle.dn_model.specs.Query.{IsQuestion};

use base::{List, Name, OutOfMemory};
use std::alloc::Global;
use std::marker::Model;

/// What is asked. Routers and links are named; a name that the topology doesn't have is told when the query's turn
/// comes.
#[derive(Drop)]
pub enum Ask {
    /// The walk of an address (0 to 2^32 - 1) from a router.
    Path(Name, u32),
    /// The addresses whose walk from the first router comes to the second; from a router to itself, all.
    Reach(Name, Name),
    /// The addresses that each end of a link sends over it.
    Uses(Name),
    /// The cycles of routers in which addresses go round.
    Loops,
    /// The addresses whose walk from a router ends without a way on, by its last router and the cause.
    Blackholes(Name),
    /// The addresses whose walk from the first router comes to the second without having met the third, the waypoint.
    Waypoint(Name, Name, Name),
    /// What the last update of the history changed.
    Delta,
}

/// A query: what is asked, with some links taken as down. It has fewer than 2^32 names, and for `Ask::Delta` no link is
/// down. A contract sees it as a `Question`, with both parts.
#[derive(Drop)]
pub struct Query {
    without: List<Name>,
    ask: Ask,
}

impl Model for Query {
    ghost use Rattle.dn_model.specs.Query.{Question, IsQuestion};

    ghost Value = { Question };

    ghost view = { λ q. record { without = q.without; ask = q.ask } };

    ghost invariant = { λ q. IsQuestion (record { without = q.without; ask = q.ask }) };
}

/// The first name of a query that the topology doesn't have, by its place among the query's names from 1, the
/// links of `without` first.
#[derive(Clone, Copy, Debug, PartialEq, Eq)]
pub enum Unknown {
    Router(u32),
    Link(u32),
}

/// A copy of names.
fn copy_names(alloc: Global, names: &[Name]) -> Result<List<Name>, OutOfMemory>
    ensures { IfOk result (λ copied. copied ≡ names.now) }
{
    let mut copied = List::new(alloc);
    for name in names {
        copied.push(name.copy(alloc)?)?;
    }
    Ok(copied)
}

impl Ask {
    /// A copy.
    pub fn copy(&self, alloc: Global) -> Result<Self, OutOfMemory>
        ensures { IfOk result (λ ask. ask ≡ self.now) }
    {
        match self {
            Ask::Path(first, address) => Ok(Ask::Path(first.copy(alloc)?, *address)),
            Ask::Reach(first, to) => Ok(Ask::Reach(first.copy(alloc)?, to.copy(alloc)?)),
            Ask::Uses(link) => Ok(Ask::Uses(link.copy(alloc)?)),
            Ask::Loops => Ok(Ask::Loops),
            Ask::Blackholes(first) => Ok(Ask::Blackholes(first.copy(alloc)?)),
            Ask::Waypoint(first, to, through) => Ok(Ask::Waypoint(
                first.copy(alloc)?,
                to.copy(alloc)?,
                through.copy(alloc)?,
            )),
            Ask::Delta => Ok(Ask::Delta),
        }
    }
}

impl Query {
    /// The query that asks this with these links taken as down.
    pub fn new(without: List<Name>, ask: Ask) -> Self
        requires { IsQuestion (record { without = without; ask = ask }) }
        ensures { result ≡ record { without = without; ask = ask } }
    {
        Query { without, ask }
    }

    /// The query that asks this with no link down.
    pub fn of(alloc: Global, ask: Ask) -> Self
        ensures without { result.without ≡ [] }
        ensures ask { result.ask ≡ ask }
    {
        Query {
            without: List::new(alloc),
            ask,
        }
    }

    /// The links that are taken as down, as they were written: one may stand there twice.
    pub fn without(&self) -> &[Name]
        ensures value { result.now ≡ self.now.without }
        ensures form { IsQuestion self.now }
    {
        self.without.as_slice()
    }

    /// What is asked.
    pub fn ask(&self) -> &Ask
        ensures value { result.now ≡ self.now.ask }
        ensures form { IsQuestion self.now }
    {
        &self.ask
    }

    /// A copy.
    pub fn copy(&self, alloc: Global) -> Result<Self, OutOfMemory>
        ensures { IfOk result (λ query. query ≡ self.now) }
    {
        let without = copy_names(alloc, self.without.as_slice())?;
        let ask = self.ask.copy(alloc)?;
        Ok(Query { without, ask })
    }
}
