//! What the routes of one prefix do.

ghost use Rattle.std.specs.Prelude.{◌≡◌, ◌<◌, ◌≤◌, ◌∷◌, ◌++◌, ◌↔◌, [], IfOk, IfSome, IfNone, OnOk, OnErr, IsFalse, IsTrue, Contains, IsPermutation, length, map};
ghost use Rattle.route_table.specs.Ascending.{AscendsFrom};
ghost use Rattle.route_table.specs.Targets.{cleared, metric_of, placed, route_at, targets_of, with_target, IsPlaced};
ghost use Rattle.route_table.specs.declared.metric_way.MetricWay.{MetricWay as Entry};

use crate::metric_way::MetricWay;
use crate::metrics::{
    does_among, drop_metric, has_metric, least_of, only_of, pair_of, push_routes, put,
};
use dn_model::{OutOfMemory, Prefix, Route, Way};
use std::alloc::Global;
use std::marker::Model;
use version_pages::Pages;

/// What the routes of one prefix do, by ascending metric, each metric once. A contract sees the list. Almost all
/// prefixes have one route: that stands here and takes no memory; more stand in shared pages behind a pointer, and a call
/// takes a time that grows as the logarithm of their number.
#[derive(Drop)]
pub struct TargetsByMetric {
    held: Held,
    /// Where a second route takes memory from; it has no size.
    alloc: Global,
}

/// How they are held.
#[derive(Drop)]
pub enum Held {
    Nothing,
    One(MetricWay),
    /// Two or more.
    More(Box<Pages<MetricWay>>),
}

impl Model for TargetsByMetric {
    ghost use Rattle.std.specs.Prelude.{List};
    ghost use Rattle.route_table.specs.Ascending.{AscendsFrom};
    ghost use Rattle.route_table.specs.Targets.{metric_of, targets_of};
    ghost use Rattle.route_table.specs.declared.metric_way.MetricWay.{MetricWay};

    ghost Value = { List MetricWay };

    ghost view = { λ t. targets_of t.held };

    ghost invariant = { λ t. AscendsFrom metric_of 0 (targets_of t.held) };
}

impl TargetsByMetric {
    /// No route.
    pub fn none(alloc: Global) -> Self
        ensures { result ≡ [] }
    {
        TargetsByMetric {
            held: Held::Nothing,
            alloc,
        }
    }

    /// One route, which takes no memory.
    pub fn one(alloc: Global, metric: u32, way: Way) -> Self
        ensures { result ≡ record { metric = metric; way = way } ∷ [] }
    {
        TargetsByMetric {
            held: Held::One(MetricWay { metric, way }),
            alloc,
        }
    }

    /// Whether there is a route of this metric that does this.
    fn does(&self, metric: u32, way: Way) -> bool
        ensures { IsTrue result → Contains self.now (record { metric = metric; way = way }) }
    {
        match &self.held {
            Held::Nothing => false,
            Held::One(entry) => entry.metric == metric && entry.way == way,
            Held::More(ways) => does_among(ways, metric, way),
        }
    }

    /// Whether there is a route of this metric alone, and does this.
    fn does_alone(&self, metric: u32, way: Way) -> bool
        ensures { IsTrue result → self.now ≡ record { metric = metric; way = way } ∷ [] }
    {
        match &self.held {
            Held::One(entry) => entry.metric == metric && entry.way == way,
            _ => false,
        }
    }

    /// Whether a route that is put changes nothing: alone, it takes the place of all.
    pub fn has_put(&self, alone: bool, metric: u32, way: Way) -> bool
        ensures { IsTrue result → IsPlaced alone self.now metric way }
    {
        if alone {
            return self.does_alone(metric, way);
        }
        self.does(metric, way)
    }

    /// The one with the least metric.
    pub fn first(&self) -> Option<MetricWay>
        ensures none { IfNone result (self.now ≡ []) }
        ensures some { IfSome result (λ x. Contains self.now x ×
            ((y : Entry) → Contains self.now y → x.metric ≤ y.metric)) }
        ensures metrics { AscendsFrom metric_of 0 self.now }
    {
        match &self.held {
            Held::Nothing => None,
            Held::One(entry) => Some(*entry),
            Held::More(ways) => least_of(ways),
        }
    }

    /// Whether there is none.
    pub fn is_empty(&self) -> bool
        ensures { IsTrue result ↔ self.now ≡ [] }
    {
        match &self.held {
            Held::Nothing => true,
            Held::One(_) => false,
            Held::More(ways) => ways.len() == 0,
        }
    }

    /// Whether a clearing of this metric, or without a metric of all, would change anything.
    pub fn has(&self, metric: Option<u32>) -> bool
        ensures same { IsFalse result → cleared self.now metric ≡ self.now }
        ensures some { IsTrue result → 0 < length self.now }
    {
        let Some(metric) = metric else {
            return !self.is_empty();
        };
        match &self.held {
            Held::Nothing => false,
            Held::One(entry) => entry.metric == metric,
            Held::More(ways) => has_metric(ways, metric),
        }
    }

    /// Adds the routes of a prefix that do this at the end of a list, by ascending metric.
    pub fn push_routes(&self, routes: &mut Vec<Route>, prefix: Prefix) -> Result<(), OutOfMemory>
        ensures { OnOk result (routes.new.items ≡ routes.old.items ++ map (route_at prefix) self.now) }
    {
        match &self.held {
            Held::Nothing => Ok(()),
            Held::One(entry) => {
                routes.push(entry.route(prefix))?;
                Ok(())
            }
            Held::More(ways) => push_routes(routes, prefix, ways),
        }
    }

    /// Puts a route: alone, it takes the place of all, and else of the one with its metric. After `OutOfMemory`, for
    /// which alone it fails, all is as before.
    pub fn put(&mut self, alone: bool, metric: u32, way: Way) -> Result<(), OutOfMemory>
        ensures ok { OnOk result (IsPermutation self.new (placed alone self.old metric way)) }
        ensures err { OnErr result (self.new ≡ self.old) }
    {
        if alone {
            self.held = Held::One(MetricWay { metric, way });
            return Ok(());
        }
        return self.set(metric, way);
    }

    /// Sets what the route of a metric does. After `OutOfMemory`, for which alone it fails, all is as before.
    fn set(&mut self, metric: u32, way: Way) -> Result<(), OutOfMemory>
        ensures ok { OnOk result (IsPermutation self.new (with_target self.old metric way)) }
        ensures err { OnErr result (self.new ≡ self.old) }
    {
        let entry = MetricWay { metric, way };
        match &mut self.held {
            Held::Nothing => {
                self.held = Held::One(entry);
                return Ok(());
            }
            Held::One(other) => {
                let held = put_beside(self.alloc, *other, entry)?;
                self.held = held;
                return Ok(());
            }
            Held::More(ways) => {
                return put(self.alloc, ways, entry);
            }
        }
    }

    /// Clears the route of a metric, without a metric all. After `OutOfMemory`, for which alone it fails, all is as
    /// before: one of several metrics that a copy shares is cleared in a page of its own.
    pub fn clear(&mut self, metric: Option<u32>) -> Result<(), OutOfMemory>
        ensures ok { OnOk result (self.new ≡ cleared self.old metric) }
        ensures err { OnErr result (self.new ≡ self.old) }
    {
        let Some(metric) = metric else {
            self.held = Held::Nothing;
            return Ok(());
        };
        match &mut self.held {
            Held::Nothing => {}
            Held::One(entry) => {
                if entry.metric == metric {
                    self.held = Held::Nothing;
                }
            }
            Held::More(ways) => {
                drop_metric(self.alloc, ways, metric)?;
                if let Some(entry) = only_of(ways) {
                    self.held = Held::One(entry);
                }
            }
        }
        Ok(())
    }

    /// The same again. More than one route are shared, and not copied.
    pub fn copy(&self) -> Result<TargetsByMetric, OutOfMemory>
        ensures { IfOk result (λ copy. copy ≡ self.now) }
    {
        let held = match &self.held {
            Held::Nothing => Held::Nothing,
            Held::One(entry) => Held::One(*entry),
            Held::More(ways) => Held::More(Box::new(self.alloc, ways.copy()?)?),
        };
        Ok(TargetsByMetric {
            held,
            alloc: self.alloc,
        })
    }
}

/// A route beside another, or in its place where it has the same metric.
fn put_beside(alloc: Global, other: MetricWay, entry: MetricWay) -> Result<Held, OutOfMemory>
    ensures put { IfOk result (λ held.
        IsPermutation (targets_of held) (with_target (other ∷ []) entry.metric entry.way)) }
    ensures metrics { IfOk result (λ held. AscendsFrom metric_of 0 (targets_of held)) }
{
    if other.metric == entry.metric {
        return Ok(Held::One(entry));
    }
    let ways = pair_of(alloc, other, entry)?;
    let ways = Box::new(alloc, ways)?;
    Ok(Held::More(ways))
}
