//! What is done at one prefix of one routing table.

ghost use Rattle.std.specs.Prelude.{◌≡◌};
ghost use Rattle.dn_model.specs.Table.{prefix_of_op};

use crate::way::Way;
use base::Prefix;

/// One update of one routing table, at one prefix.
#[derive(Clone, Copy, Debug, PartialEq, Eq)]
pub enum TableOp {
    /// Puts the route of this prefix and metric.
    Put {
        prefix: Prefix,
        metric: u32,
        way: Way,
    },
    /// Clears the route of this prefix and metric; without a metric all routes of the prefix.
    Clear {
        prefix: Prefix,
        metric: Option<u32>,
    },
}

impl TableOp {
    /// The prefix at which the table is updated.
    pub fn prefix(&self) -> Prefix
        ensures { result ≡ prefix_of_op self.now }
    {
        match self {
            TableOp::Put { prefix, .. } | TableOp::Clear { prefix, .. } => *prefix,
        }
    }
}
