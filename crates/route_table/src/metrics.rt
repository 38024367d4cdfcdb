//! Routes of one prefix in order of their metrics, in shared pages.

ghost use Rattle.std.specs.Prelude.{◌≡◌, ◌<◌, ◌≤◌, ◌∷◌, ◌++◌, [], OnOk, OnErr, IfOk, IfSome, IfNone, IsFalse, IsTrue, Contains, IsPermutation, length, map};
ghost use Rattle.route_table.specs.Ascending.{AscendsFrom, IsFound, IsGap, IsPlace};
ghost use Rattle.route_table.specs.Targets.{metric_of, route_at, with_target, without_metric};
ghost use Rattle.route_table.specs.declared.metric_way.MetricWay.{MetricWay as Entry};

use crate::metric_way::MetricWay;
use dn_model::{OutOfMemory, Prefix, Route, Way};
use std::alloc::Global;
use version_pages::Pages;

/// The place of the first whose metric isn't below this one.
fn place_of_metric(ways: &Pages<MetricWay>, metric: u32) -> u64
    requires { AscendsFrom metric_of 0 ways.now }
    ensures { IsPlace metric_of ways.now metric result }
{
    ways.count_below(u64::from(metric))
}

/// Whether the metric at a place, below which all before it are, is this one.
fn has_at(ways: &Pages<MetricWay>, place: u64, metric: u32) -> bool
    requires { IsPlace metric_of ways.now metric place }
    ensures found { IsTrue result → IsFound metric_of ways.now metric place }
    ensures gap { IsFalse result → IsGap metric_of ways.now metric place }
{
    match ways.get(place) {
        Some(entry) => entry.metric == metric,
        None => false,
    }
}

/// Whether one of the metrics is this one.
pub fn has_metric(ways: &Pages<MetricWay>, metric: u32) -> bool
    requires { AscendsFrom metric_of 0 ways.now }
    ensures same { IsFalse result → without_metric ways.now metric ≡ ways.now }
    ensures some { IsTrue result → 0 < length ways.now }
{
    let place = place_of_metric(ways, metric);
    has_at(ways, place, metric)
}

/// Whether there is one of this metric that does this.
pub fn does_among(ways: &Pages<MetricWay>, metric: u32, way: Way) -> bool
    ensures { IsTrue result → Contains ways.now (record { metric = metric; way = way }) }
{
    match ways.get(ways.count_below(u64::from(metric))) {
        Some(entry) => entry.metric == metric && entry.way == way,
        None => false,
    }
}

/// The one with the least metric.
pub fn least_of(ways: &Pages<MetricWay>) -> Option<MetricWay>
    requires { AscendsFrom metric_of 0 ways.now }
    ensures none { IfNone result (ways.now ≡ []) }
    ensures some { IfSome result (λ x. Contains ways.now x ×
        ((y : Entry) → Contains ways.now y → x.metric ≤ y.metric)) }
{
    let Some(entry) = ways.get(0) else {
        return None;
    };
    Some(*entry)
}

/// The only one, where there is one alone.
pub fn only_of(ways: &Pages<MetricWay>) -> Option<MetricWay>
    ensures { IfSome result (λ entry. ways.now ≡ entry ∷ []) }
{
    let Some(entry) = ways.get(0) else {
        return None;
    };
    if ways.len() > 1 {
        return None;
    }
    Some(*entry)
}

/// Puts a route among others, in the place of the one with the same metric. After `OutOfMemory`, for which alone it
/// fails, they are as before.
pub fn put(alloc: Global, ways: &mut Pages<MetricWay>, entry: MetricWay) -> Result<(), OutOfMemory>
    requires { AscendsFrom metric_of 0 ways.old }
    ensures ok { OnOk result (IsPermutation ways.new (with_target ways.old entry.metric entry.way)) }
    ensures err { OnErr result (ways.new ≡ ways.old) }
    ensures metrics { AscendsFrom metric_of 0 ways.new }
{
    let place = place_of_metric(ways, entry.metric);
    if has_at(ways, place, entry.metric) {
        return ways.put(alloc, place, entry);
    }
    return ways.insert_at(alloc, place, entry);
}

/// Two routes, the first of which has a metric of its own.
pub fn pair_of(
    alloc: Global,
    other: MetricWay,
    entry: MetricWay,
) -> Result<Pages<MetricWay>, OutOfMemory>
    ensures put { IfOk result (λ ways. IsPermutation ways (with_target (other ∷ []) entry.metric entry.way)) }
    ensures metrics { IfOk result (AscendsFrom metric_of 0) }
{
    let mut ways = Pages::new();
    ways.push(alloc, other)?;
    put(alloc, &mut ways, entry)?;
    Ok(ways)
}

/// Takes out the one with this metric. After `OutOfMemory`, for which alone it fails, all are as before.
pub fn drop_metric(
    alloc: Global,
    ways: &mut Pages<MetricWay>,
    metric: u32,
) -> Result<(), OutOfMemory>
    requires { AscendsFrom metric_of 0 ways.old }
    ensures ok { OnOk result (ways.new ≡ without_metric ways.old metric) }
    ensures err { OnErr result (ways.new ≡ ways.old) }
    ensures metrics { AscendsFrom metric_of 0 ways.new }
{
    let place = place_of_metric(ways, metric);
    if has_at(ways, place, metric) {
        return ways.remove_run(alloc, place, 1);
    }
    Ok(())
}

/// Adds the routes of a prefix that do what one page says at the end of a list.
fn push_page(routes: &mut Vec<Route>, prefix: Prefix, page: &[MetricWay]) -> Result<(), OutOfMemory>
    ensures { OnOk result (routes.new.items ≡ routes.old.items ++ map (route_at prefix) page.now) }
{
    for entry in page {
        routes.push(entry.route(prefix))?;
    }
    Ok(())
}

/// Adds the routes of a prefix at the end of a list.
pub fn push_routes(
    routes: &mut Vec<Route>,
    prefix: Prefix,
    ways: &Pages<MetricWay>,
) -> Result<(), OutOfMemory>
    ensures { OnOk result (routes.new.items ≡ routes.old.items ++ map (route_at prefix) ways.now) }
{
    let mut place = 0;
    'pages: while place < ways.len() {
        let page = ways.run_from(place);
        push_page(routes, prefix, page)?;
        place += page.len() as u64;
    }
    Ok(())
}
