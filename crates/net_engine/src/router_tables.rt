//! The routes of all routers.

ghost use Rattle.std.specs.Prelude.{◌≡◌, ◌<◌, [], IfOk, length, replicate, slice_set};
ghost use Rattle.dn_model.specs.Routes.{IsTable};
ghost use Rattle.dn_model.specs.Table.{prefix_of_op};
ghost use Rattle.net_engine.specs.Updates.{its_routes};
ghost use Rattle.route_table.specs.Own.{IsLooked};
ghost use Rattle.route_table.specs.Tables.{IsUpdateIn};

use crate::router_group::RouterGroup;
use crate::update::Update;
use dn_model::{OutOfMemory, Run};
use route_table::{LANES, Lane, Told};
use std::alloc::Global;
use std::marker::Model;
use std::sync::ledger::Ledger;
use step_count::Steps;

/// The routes of each router. Four neighbours are a group, whose routes of a prefix stand side by side: an update of
/// one of them finds at hand what an update of another has just read. A contract sees a list of routes for each router,
/// in order.
#[derive(Drop)]
pub struct RouterTables {
    routers: u32,
    groups: Vec<RouterGroup>,
}

impl Model for RouterTables {
    ghost use Rattle.std.specs.Prelude.{List};
    ghost use Rattle.dn_model.specs.declared.entry.Route.{Route};
    ghost use Rattle.net_engine.specs.Grouped.{AreGroups, tables_in};

    ghost Value = { List (List Route) };

    ghost view = { λ t. tables_in t.routers t.groups.items };

    ghost invariant = { λ t. AreGroups t.routers t.groups.items };
}

impl RouterTables {
    /// So many routers without a route.
    pub fn new(alloc: Global, routers: u32) -> Result<RouterTables, OutOfMemory>
        ensures { IfOk result (λ tables. tables ≡ replicate routers []) }
    {
        let groups = no_routes(alloc, routers.div_ceil(LANES as u32))?;
        Ok(RouterTables { routers, groups })
    }

    /// Makes an update of a router, and tells the runs of the own addresses of its prefix, at which the router has no
    /// route of a longer one: it answers what the router does there after it. Where it answers nothing, the router does
    /// the same everywhere. It tells beside that whether it put a route of a prefix of which neither the router nor its
    /// neighbours had one. It fails for want of memory alone, and then the router's routes may be changed. Its steps are
    /// those of `RouteTables::update`.
    pub fn update<L: Ledger>(
        &mut self,
        alloc: Global,
        update: &Update,
        runs: &mut Vec<Run>,
        steps: &mut Steps<L>,
    ) -> Result<Told, OutOfMemory>
        requires { update.now.router.0 < length self.old }
        ensures made { IfOk result (λ told.
            IsUpdateIn update.now.router.0 self.old self.new update.now.table told runs.new.items) }
        ensures others { self.new ≡ slice_set self.old update.now.router.0 (its_routes update.now self.new) }
        ensures form { IsTable (its_routes update.now self.new) }
        ensures cost { IsLooked (its_routes update.now self.old) (prefix_of_op update.now.table.op)
            steps.old steps.new }
    {
        let group = &mut self.groups[usize::from(update.router.0) / LANES];
        group.update(alloc, Lane::of(update.router), &update.table, runs, steps)
    }

    /// The same routes again.
    pub fn copy(&self, alloc: Global) -> Result<RouterTables, OutOfMemory>
        ensures { IfOk result (λ tables. tables ≡ self.now) }
    {
        let groups = copies(alloc, &self.groups)?;
        Ok(RouterTables {
            routers: self.routers,
            groups,
        })
    }
}

/// So many groups of routers without a route.
fn no_routes(alloc: Global, count: u32) -> Result<Vec<RouterGroup>, OutOfMemory>
    ensures { IfOk result (λ groups. groups.items ≡ replicate count (replicate 4 [])) }
{
    let mut groups = Vec::new(alloc);
    for _group in 0..count {
        groups.push(RouterGroup::new())?;
    }
    Ok(groups)
}

/// The routes of each group again.
fn copies(alloc: Global, groups: &[RouterGroup]) -> Result<Vec<RouterGroup>, OutOfMemory>
    ensures { IfOk result (λ copies. copies.items ≡ groups.now) }
{
    let mut copies = Vec::new(alloc);
    for group in groups {
        copies.push(group.copy()?)?;
    }
    Ok(copies)
}
