//! The query of a script's line.

ghost use Rattle.std.specs.Prelude.{◌≡◌, IfOk};

use dn_model::{OutOfMemory, Query};
use std::alloc::Global;
use std::marker::Model;

/// A query on the heap, so that a line of a script is small, which mostly takes frames. A contract sees the query.
#[derive(Drop)]
pub struct Asked {
    query: Box<Query>,
}

impl Model for Asked {
    ghost use Rattle.dn_model.specs.Query.{Question};

    ghost Value = { Question };

    ghost view = { λ a. a.query.value };
}

impl Asked {
    /// Puts a query on the heap. After `OutOfMemory`, for which alone it fails, the query is dropped.
    pub fn new(alloc: Global, query: Query) -> Result<Asked, OutOfMemory>
        ensures { IfOk result (λ asked. asked ≡ query) }
    {
        let query = Box::new(alloc, query)?;
        Ok(Asked { query })
    }

    /// The query.
    pub fn get(&self) -> &Query
        ensures { result.now ≡ self.now }
    {
        &self.query
    }
}
