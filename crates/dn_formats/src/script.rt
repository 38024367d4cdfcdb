//! Scripts: what a job does, line by line.

use crate::asked::Asked;
use dn_model::{List, Name, RouterId};

/// A line of a script that does something. Lines count from 1, those that pass included.
#[derive(Drop)]
pub enum Line {
    /// Takes this many frames of the router's feed, or the rest of it where no count is given.
    Take {
        line: u32,
        router: RouterId,
        count: Option<u32>,
    },
    /// Asks a query.
    Ask {
        line: u32,
        query: Asked,
    },
    /// Says that the link of this name goes down, or comes up again. The network may have no such link.
    Link {
        line: u32,
        link: Name,
        down: bool,
    },
}

/// A script: its lines that do something, in order.
#[derive(Drop)]
pub struct Script {
    pub lines: List<Line>,
}
