//! What the report prints of jobs.

use dn_model::{Answer, List, Name, Query, Unknown};

/// What is told of a line of a script that takes no frames. Lines count from 1.
#[derive(Drop)]
pub enum Told {
    /// It asks a query.
    Asked {
        line: u32,
        query: Query,
        outcome: Outcome,
    },
    /// It says that the link of this name goes down, or comes up again.
    Linked {
        line: u32,
        link: Name,
        down: bool,
        outcome: LinkOutcome,
    },
}

/// What became of a query.
#[derive(Drop)]
pub enum Outcome {
    /// It was answered from the first `number` entries of the history.
    Answered { number: u32, answer: Answer },
    /// It has an unknown name.
    Unknown(Unknown),
}

/// What became of a line that says that a link goes down or comes up.
#[derive(Clone, Copy, Debug, PartialEq, Eq)]
pub enum LinkOutcome {
    /// It is the entry at this position of the history, from 1.
    At(u32),
    /// The history was full.
    Full,
    /// The network has no link of this name.
    UnknownLink,
}

/// What is told of a job. Jobs count from 1.
#[derive(Drop)]
pub struct JobTold {
    pub number: u32,
    pub told: List<Told>,
}
