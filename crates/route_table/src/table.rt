//! The routing table of one router.

ghost use Rattle.std.specs.Prelude.{◌≡◌, ◌≤◌, [], ◌++◌, OnOk, OnErr, IfOk, Contains, IsFalse, IsTrue, IfSome, IfNone, IsPermutation, None, false, true};
ghost use Rattle.base.specs.Cidr.{covers};
ghost use Rattle.dn_model.specs.Routes.{IsTable};
ghost use Rattle.dn_model.specs.Table.{is_of_prefix, after_table_op, best};
ghost use Rattle.dn_model.specs.declared.table_op.TableOp.TheVariants.{Put, Clear};
ghost use Rattle.dn_model.specs.declared.entry.Route.{Route as RouteIs};
ghost use Rattle.route_table.specs.Rows.{slot_in, slots_in};
ghost use Rattle.route_table.specs.Slots.{routes_at, routes_of};

use crate::lane::Lane;
use crate::lengths::Lengths;
use crate::prefix::prefix_around;
use crate::rows::{PrefixRow, place_of, row_at};
use crate::table_update::TableUpdate;
use crate::update::make;
use dn_model::{List, OutOfMemory, Prefix, Route, TableOp, Way};
use std::alloc::Global;
use std::marker::Model;
use version_pages::Pages;

/// The routes of one router. A contract sees it as the list of its routes, whose order means nothing: each prefix
/// and metric is there once.
///
/// They stand by prefix in shared pages: a copy is one count, and an update copies only the page of its prefix and the
/// way to it, where a copy holds them too. A prefix whose routes are all cleared keeps its row, so a table takes memory
/// for each prefix that was ever set. A row has room for the routes of four tables, of which this one uses the first:
/// `RouteTables` uses all.
#[derive(Drop)]
pub struct RouteTable {
    rows: Pages<PrefixRow>,
    /// The lengths of these prefixes.
    lengths: Lengths,
}

impl Model for RouteTable {
    ghost use Rattle.std.specs.Prelude.{List};
    ghost use Rattle.dn_model.specs.declared.entry.Route.{Route};
    ghost use Rattle.route_table.specs.Rows.{slots_in, AreWhole};
    ghost use Rattle.route_table.specs.Slots.{routes_of};

    ghost Value = { List Route };

    ghost view = { λ t. routes_of (slots_in 0 t.rows) };

    ghost invariant = { λ t. AreWhole t.rows t.lengths };
}

impl RouteTable {
    /// The table with no route, which takes no memory.
    pub fn new() -> Self
        ensures { result ≡ [] }
    {
        RouteTable {
            rows: Pages::new(),
            lengths: Lengths::new(),
        }
    }

    /// The route of this prefix with the least metric. It is none exactly where the table has no route of the prefix.
    /// It takes no memory.
    pub fn least_of(&self, prefix: Prefix) -> Option<Route>
        ensures table { IsTable self.now }
        ensures none { IfNone result ((r : RouteIs) → Contains self.now r → IsFalse (is_of_prefix prefix r)) }
        ensures some { IfSome result (λ b. Contains self.now b × (b.prefix ≡ prefix) ×
            ((r : RouteIs) → Contains self.now r → IsTrue (is_of_prefix prefix r) → b.metric ≤ r.metric)) }
    {
        let place = place_of(&self.rows, prefix);
        let Some(row) = row_at(&self.rows, place, prefix) else {
            return None;
        };
        let Some(first) = row.targets(Lane::FIRST).first() else {
            return None;
        };
        Some(first.route(prefix))
    }

    /// Sets the route of this prefix and metric, in place of the one that has them. After `OutOfMemory`, for which
    /// alone it fails, the table is as before. One that is there already changes nothing.
    pub fn set(
        &mut self,
        alloc: Global,
        prefix: Prefix,
        metric: u32,
        way: Way,
    ) -> Result<(), OutOfMemory>
        ensures ok { OnOk result (IsPermutation self.new (after_table_op false self.old (Put prefix metric way))) }
        ensures err { OnErr result (self.new ≡ self.old) }
    {
        let op = TableOp::Put {
            prefix,
            metric,
            way,
        };
        let update = TableUpdate { op, alone: false };
        make(
            alloc,
            &mut self.rows,
            Lane::FIRST,
            &mut self.lengths,
            &update,
            0,
        )?;
        Ok(())
    }

    /// Sets the route of this prefix and metric, in place of all routes of the prefix. After `OutOfMemory`, for which
    /// alone it fails, the table is as before. Where it is the prefix's only route already, that changes nothing.
    pub fn set_alone(
        &mut self,
        alloc: Global,
        prefix: Prefix,
        metric: u32,
        way: Way,
    ) -> Result<(), OutOfMemory>
        ensures ok { OnOk result (IsPermutation self.new (after_table_op true self.old (Put prefix metric way))) }
        ensures err { OnErr result (self.new ≡ self.old) }
    {
        let op = TableOp::Put {
            prefix,
            metric,
            way,
        };
        let update = TableUpdate { op, alone: true };
        make(
            alloc,
            &mut self.rows,
            Lane::FIRST,
            &mut self.lengths,
            &update,
            0,
        )?;
        Ok(())
    }

    /// Removes the route of this prefix and metric; without a metric all routes of the prefix. One that isn't there
    /// changes nothing, and takes no memory. After `OutOfMemory`, for which alone it fails, the table is as before.
    pub fn clear(
        &mut self,
        alloc: Global,
        prefix: Prefix,
        metric: Option<u32>,
    ) -> Result<(), OutOfMemory>
        ensures ok { OnOk result (IsPermutation self.new (after_table_op false self.old (Clear prefix metric))) }
        ensures err { OnErr result (self.new ≡ self.old) }
    {
        let op = TableOp::Clear { prefix, metric };
        let update = TableUpdate { op, alone: false };
        make(
            alloc,
            &mut self.rows,
            Lane::FIRST,
            &mut self.lengths,
            &update,
            0,
        )?;
        Ok(())
    }

    /// Of the routes whose prefixes have this length and cover an address the one with the least metric.
    fn best_of_length(&self, a: u32, len: u8) -> Option<Route>
        requires { len ≤ 32 }
        ensures none { IfNone result ((r : RouteIs) →
            Contains self.now r → IsTrue (covers r.prefix a) → r.prefix.len ≡ len → ⊥) }
        ensures some { IfSome result (λ b.
            Contains self.now b × IsTrue (covers b.prefix a) × (b.prefix.len ≡ len) × ((r : RouteIs) →
            Contains self.now r → IsTrue (covers r.prefix a) → r.prefix.len ≡ len → b.metric ≤ r.metric)) }
    {
        self.least_of(prefix_around(a, len))
    }

    /// The route of an address: of those whose prefixes cover it the one with the longest prefix, and of these the one
    /// with the least metric. It is none exactly where none covers the address. It looks at one place of the table for
    /// each length.
    pub fn best(&self, a: u32) -> Option<Route>
        ensures value { result ≡ best self.now a }
        ensures table { IsTable self.now }
    {
        if self.rows.len() == 0 {
            return None;
        }
        for len in (0..33u8).rev() {
            if let Some(route) = self.best_of_length(a, len) {
                return Some(route);
            }
        }
        None
    }

    /// The routes, in an order that means nothing.
    pub fn routes(&self, alloc: Global) -> Result<List<Route>, OutOfMemory>
        ensures value { IfOk result (λ routes. routes ≡ self.now) }
        ensures table { IsTable self.now }
    {
        let mut routes = Vec::new(alloc);
        push_all(&mut routes, &self.rows)?;
        Ok(List::from_vec(routes))
    }

    /// A table with the same routes, which shares them with this one.
    pub fn copy(&self) -> Result<RouteTable, OutOfMemory>
        ensures { IfOk result (λ table. table ≡ self.now) }
    {
        let rows = self.rows.copy()?;
        Ok(RouteTable {
            rows,
            lengths: self.lengths.copy(),
        })
    }
}

/// Adds the routes of the first table in all rows at the end of a list.
fn push_all(routes: &mut Vec<Route>, rows: &Pages<PrefixRow>) -> Result<(), OutOfMemory>
    ensures { OnOk result (routes.new.items ≡ routes.old.items ++ routes_of (slots_in 0 rows.now)) }
{
    let mut place = 0;
    'rows: while place < rows.len() {
        let run = rows.run_from(place);
        push_run(routes, run)?;
        place += run.len() as u64;
    }
    Ok(())
}

/// Adds the routes of the first table in some rows at the end of a list.
fn push_run(routes: &mut Vec<Route>, run: &[PrefixRow]) -> Result<(), OutOfMemory>
    ensures { OnOk result (routes.new.items ≡ routes.old.items ++ routes_of (slots_in 0 run.now)) }
{
    for row in run {
        push_slot(routes, row)?;
    }
    Ok(())
}

/// Adds the routes of the first table in a row at the end of a list.
fn push_slot(routes: &mut Vec<Route>, row: &PrefixRow) -> Result<(), OutOfMemory>
    ensures { OnOk result (routes.new.items ≡ routes.old.items ++ routes_at (slot_in 0 row.now)) }
{
    return row.targets(Lane::FIRST).push_routes(routes, row.prefix);
}
