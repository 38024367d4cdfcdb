//! What the route of a metric does.

ghost use Rattle.std.specs.Prelude.{◌≡◌};
ghost use Rattle.route_table.specs.Targets.{route_at};

use dn_model::{Prefix, Route, Way};
use version_pages::Keyed;

/// A metric with what the route of that metric does.
#[derive(Clone, Copy, Debug, PartialEq, Eq)]
pub struct MetricWay {
    pub metric: u32,
    pub way: Way,
}

impl MetricWay {
    /// The route of a prefix that has this metric and does this.
    pub fn route(self, prefix: Prefix) -> Route
        ensures { result ≡ route_at prefix self }
    {
        Route {
            prefix,
            metric: self.metric,
            way: self.way,
        }
    }
}

/// They are searched by their metrics.
impl Keyed for MetricWay {
    ghost use Rattle.std.proofs.Common.{rules};

    ghost key_of = { λ entry. entry.metric };

    ghost clones = { Prim.search rules };

    fn key(&self) -> u64 {
        u64::from(self.metric)
    }
}
