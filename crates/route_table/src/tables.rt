//! The routing tables of four routers.

ghost use Rattle.std.specs.Prelude.{◌≡◌, [], IfOk, replicate, slice_set};
ghost use Rattle.dn_model.specs.Routes.{IsTable};
ghost use Rattle.dn_model.specs.Table.{prefix_of_op};
ghost use Rattle.route_table.specs.Own.{IsLooked};
ghost use Rattle.route_table.specs.Tables.{table_at, IsUpdateIn};

use crate::lane::Lane;
use crate::lengths::Lengths;
use crate::own::push_own_runs;
use crate::rows::PrefixRow;
use crate::table_update::{TableUpdate, Told};
use crate::update::{done_above, make};
use dn_model::{OutOfMemory, Run};
use std::alloc::Global;
use std::marker::Model;
use std::sync::ledger::Ledger;
use step_count::Steps;
use version_pages::Pages;

/// The routes of four routers, numbered from 0. A contract sees the list of their tables, each of which is the list of
/// its routes, whose order means nothing: each prefix and metric is there once.
///
/// Their routes of a prefix stand side by side, in order of the prefixes, in shared pages: where the routers are told
/// of the same prefixes at about the same time, what one has read is still in the processor's cache for the next. A
/// copy is one count, and an update copies only the page of its prefix, with the routes of all four, and the way to it,
/// where a copy holds them too. A prefix that ever had a route at one of the routers takes memory for all four, and
/// keeps it.
#[derive(Drop)]
pub struct RouteTables {
    rows: Pages<PrefixRow>,
    /// The lengths of these prefixes.
    lengths: Lengths,
}

impl Model for RouteTables {
    ghost use Rattle.std.specs.Prelude.{List};
    ghost use Rattle.dn_model.specs.declared.entry.Route.{Route};
    ghost use Rattle.route_table.specs.Rows.{tables_in, AreWhole};

    ghost Value = { List (List Route) };

    ghost view = { λ t. tables_in t.rows };

    ghost invariant = { λ t. AreWhole t.rows t.lengths };
}

impl RouteTables {
    /// The tables of four routers, none of which has a route. They take no memory.
    pub fn new() -> Self
        ensures { result ≡ replicate 4 [] }
    {
        RouteTables {
            rows: Pages::new(),
            lengths: Lengths::new(),
        }
    }

    /// How many prefixes ever had a route at one of the routers.
    pub fn prefixes(&self) -> u64 {
        self.rows.len()
    }

    /// Makes an update of one of the routers, and tells the runs of the own addresses of its
    /// prefix, at which the router has no route of a longer one: it answers what the router does there after it. Where
    /// it answers nothing, the router does the same everywhere. It tells beside that whether it put a route of a prefix of
    /// which none of the four routers had one. The other routers' tables stay as they are. The row of the prefix is looked
    /// for first near a place: any will do. It fails for want of memory alone, and then the router's table may be
    /// changed.
    ///
    /// A step is a look at the router's routes of one prefix that has some, or at what it does above one that has none.
    /// It takes two at most, and one for each of some different addresses of the prefix at which prefixes of the
    /// router's routes begin: those of the longer prefixes with routes within it, of which none lies in another. Rows
    /// in which the router has no route are passed over without a step. A clearing of a prefix without routes answers
    /// nothing.
    pub fn update<L: Ledger>(
        &mut self,
        alloc: Global,
        lane: Lane,
        update: &TableUpdate,
        near: u64,
        runs: &mut Vec<Run>,
        steps: &mut Steps<L>,
    ) -> Result<Told, OutOfMemory>
        ensures made { IfOk result (λ told. IsUpdateIn lane.index self.old self.new update.now told runs.new.items) }
        ensures others { self.new ≡ slice_set self.old lane.index (table_at self.new lane.index) }
        ensures form { IsTable (table_at self.new lane.index) }
        ensures cost { IsLooked (table_at self.old lane.index) (prefix_of_op update.now.op) steps.old steps.new }
    {
        let prefix = update.op.prefix();
        runs.clear();
        steps.tick();
        let Some(made) = make(alloc, &mut self.rows, lane, &mut self.lengths, update, near)? else {
            return Ok(Told {
                after: None,
                is_new: false,
            });
        };
        let is_new = made.is_new;
        if made.first.is_some() && made.first == made.before {
            return Ok(Told {
                after: None,
                is_new,
            });
        }
        let after = match made.first {
            Some(way) => way,
            None => done_above(&self.rows, lane, &self.lengths, prefix, made, steps),
        };
        push_own_runs(&self.rows, lane, made.place, prefix, runs, steps)?;
        Ok(Told {
            after: Some(after),
            is_new,
        })
    }

    /// The same tables again, which share their routes with these.
    pub fn copy(&self) -> Result<RouteTables, OutOfMemory>
        ensures { IfOk result (λ tables. tables ≡ self.now) }
    {
        let rows = self.rows.copy()?;
        Ok(RouteTables {
            rows,
            lengths: self.lengths.copy(),
        })
    }
}
