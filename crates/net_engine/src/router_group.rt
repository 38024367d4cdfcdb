//! The routes of four routers.

ghost use Rattle.std.specs.Prelude.{◌≡◌, [], IfOk, replicate, slice_set};
ghost use Rattle.dn_model.specs.Routes.{IsTable};
ghost use Rattle.dn_model.specs.Table.{prefix_of_op};
ghost use Rattle.route_table.specs.Own.{IsLooked};
ghost use Rattle.route_table.specs.Tables.{table_at, IsUpdateIn};

use atom_map::Guide;
use dn_model::{OutOfMemory, Run};
use route_table::{Lane, RouteTables, TableUpdate, Told};
use std::alloc::Global;
use std::marker::Model;
use std::sync::ledger::Ledger;
use step_count::Steps;

/// The routes of four routers, which stand side by side by prefix, with a guide to where they stand. A contract sees
/// four lists of routes, whose orders mean nothing.
#[derive(Drop)]
pub struct RouterGroup {
    tables: RouteTables,
    /// Where to look for a prefix.
    guide: Guide,
}

impl Model for RouterGroup {
    ghost use Rattle.std.specs.Prelude.{List};
    ghost use Rattle.dn_model.specs.declared.entry.Route.{Route};

    ghost Value = { List (List Route) };

    ghost view = { λ g. g.tables };
}

impl RouterGroup {
    /// Four routers without a route, which takes no memory.
    pub fn new() -> RouterGroup
        ensures { result ≡ replicate 4 [] }
    {
        RouterGroup {
            tables: RouteTables::new(),
            guide: Guide::new(),
        }
    }

    /// Makes an update of one of the routers, and tells the runs of the own addresses of its prefix, at which the
    /// router has no route of a longer one: it answers what the router does there after it. Where it answers nothing,
    /// the router does the same everywhere. It tells beside that whether it put a route of a prefix of which none of the
    /// four had one. It fails for want of memory alone, and then the router's routes may be changed. Its steps are those of
    /// `RouteTables::update`.
    pub fn update<L: Ledger>(
        &mut self,
        alloc: Global,
        lane: Lane,
        update: &TableUpdate,
        runs: &mut Vec<Run>,
        steps: &mut Steps<L>,
    ) -> Result<Told, OutOfMemory>
        ensures made { IfOk result (λ told. IsUpdateIn lane.index self.old self.new update.now told runs.new.items) }
        ensures others { self.new ≡ slice_set self.old lane.index (table_at self.new lane.index) }
        ensures form { IsTable (table_at self.new lane.index) }
        ensures cost { IsLooked (table_at self.old lane.index) (prefix_of_op update.now.op) steps.old steps.new }
    {
        let base = update.op.prefix().base();
        let before = self.tables.prefixes();
        let near = self.guide.place(base);
        let told = self.tables.update(alloc, lane, update, near, runs, steps)?;
        self.tell_guide(alloc, before, base);
        Ok(told)
    }

    /// Tells the guide of a prefix that begins at an address, where there are more prefixes than before.
    fn tell_guide(&mut self, alloc: Global, before: u64, base: u32)
        ensures { self.new ≡ self.old }
    {
        if before == self.tables.prefixes() {
            return;
        }
        if before == 0 {
            self.guide.begin(alloc);
        }
        self.guide.count(base);
    }

    /// The same routes again.
    pub fn copy(&self) -> Result<RouterGroup, OutOfMemory>
        ensures { IfOk result (λ tables. tables ≡ self.now) }
    {
        let tables = self.tables.copy()?;
        Ok(RouterGroup {
            tables,
            guide: Guide::new(),
        })
    }
}
