//! Why a query has no answer.

ghost use Rattle.std.specs.Prelude.{Some};
ghost use Rattle.version_store.specs.Asked.{IsAskRefusal};

use dn_model::{OutOfMemory, Unknown};

/// Why a query has no answer. Places count from 1 among the query's names, the links that are taken as down first.
#[derive(Clone, Copy, Debug, PartialEq, Eq)]
pub enum AskRefused {
    /// The name at this place is the first that the topology doesn't have. It is a router's.
    UnknownRouter(u32),
    /// The name at this place is the first that the topology doesn't have. It is a link's.
    UnknownLink(u32),
    /// There was no memory.
    OutOfMemory,
}

/// The refusal of a query with this unknown name.
pub(crate) fn refusal_of(unknown: Unknown) -> AskRefused
    ensures { IsAskRefusal (Some unknown) result }
{
    match unknown {
        Unknown::Router(place) => AskRefused::UnknownRouter(place),
        Unknown::Link(place) => AskRefused::UnknownLink(place),
    }
}
