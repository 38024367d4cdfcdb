//! The addresses of a prefix at which no longer prefix has a route.

ghost use Rattle.std.specs.Prelude.{◌≡◌, ◌<◌, ◌≤◌, ◌+◌, ◌^◌, ◌++◌, [], true, IfOk, OnOk, IsTrue, length};
ghost use Rattle.base.specs.Cidr.{IsCidr, size};
ghost use Rattle.route_table.specs.Along.{along, begins_past, gap};
ghost use Rattle.route_table.specs.Ascending.{IsFound};
ghost use Rattle.route_table.specs.Own.{AreOwnRuns, IsPassed};
ghost use Rattle.route_table.specs.Rows.{slots_in};
ghost use Rattle.route_table.specs.Slots.{AreSlots, key_of, routes_of, slot_key};

use crate::lane::Lane;
use crate::rows::PrefixRow;
use dn_model::{OutOfMemory, Prefix, Run};
use std::sync::ledger::Ledger;
use step_count::Steps;
use version_pages::Pages;

/// The address after a prefix's last, which is at most 2^32.
fn past_of(prefix: Prefix) -> u64
    ensures value { result ≡ prefix.base + size prefix }
    ensures end { result ≤ 2 ^ 32 }
    ensures sound { IsCidr prefix }
{
    u64::from(prefix.base()) + (1u64 << (32 - prefix.len()))
}

/// Adds the addresses from `at` up to, and without, `past`, if there is any.
fn push_gap(runs: &mut Vec<Run>, at: u64, past: u64) -> Result<(), OutOfMemory>
    requires { past ≤ 2 ^ 32 }
    ensures { OnOk result (runs.new.items ≡ runs.old.items ++ gap at past) }
{
    if at < past {
        runs.push(Run {
            lo: at as u32,
            hi: (past - 1) as u32,
        })?;
    }
    Ok(())
}

/// How far a walk over slots has come: from this address on none was met, and whether one began past all.
#[derive(Clone, Copy, Debug, PartialEq, Eq)]
struct Walk {
    at: u64,
    ended: bool,
}

/// Goes over the slots of one table in some rows, and adds the gaps between those with routes. It looks at the routes
/// of those alone that don't lie within one that it has gone past.
fn walk_page<L: Ledger>(
    page: &[PrefixRow],
    lane: Lane,
    at: u64,
    past: u64,
    runs: &mut Vec<Run>,
    steps: &mut Steps<L>,
) -> Result<Walk, OutOfMemory>
    requires form { AreSlots (slots_in lane.index page.now) }
    requires past { past ≤ 2 ^ 32 }
    ensures at { IfOk result (λ walk.
        walk.at ≡ (along past (record { at = at; runs = runs.old.items; begun = [] }) (slots_in lane.index page.now)).at) }
    ensures runs { OnOk result (runs.new.items ≡
        (along past (record { at = at; runs = runs.old.items; begun = [] }) (slots_in lane.index page.now)).runs) }
    ensures ended { IfOk result (λ walk. IsTrue walk.ended → begins_past past (slots_in lane.index page.now) ≡ true) }
    ensures cost { steps.new ≤ steps.old +
        length (along past (record { at = at; runs = runs.old.items; begun = [] }) (slots_in lane.index page.now)).begun }
{
    let mut at = at;
    for row in page {
        let base = u64::from(row.prefix.base());
        if base >= past {
            return Ok(Walk { at, ended: true });
        }
        if base >= at && !row.targets(lane).is_empty() {
            steps.tick();
            push_gap(runs, at, base)?;
            at = past_of(row.prefix);
        }
    }
    Ok(Walk { at, ended: false })
}

/// Adds the runs of a prefix's own addresses, where there is none yet. The place is that of its row.
pub fn push_own_runs<L: Ledger>(
    rows: &Pages<PrefixRow>,
    lane: Lane,
    place: u64,
    prefix: Prefix,
    runs: &mut Vec<Run>,
    steps: &mut Steps<L>,
) -> Result<(), OutOfMemory>
    requires form { AreSlots (slots_in lane.index rows.now) }
    requires place { IsFound slot_key (slots_in lane.index rows.now) (key_of prefix) place }
    requires empty { runs.old.items ≡ [] }
    ensures own { OnOk result (AreOwnRuns (routes_of (slots_in lane.index rows.now)) prefix runs.new.items) }
    ensures cost { IsPassed (routes_of (slots_in lane.index rows.now)) prefix steps.old steps.new }
    ensures sound { IsCidr prefix }
{
    let past = past_of(prefix);
    let mut at = u64::from(prefix.base());
    let mut place = place + 1;
    let mut ended = false;
    'pages: while !ended && place < rows.len() {
        let page = rows.run_from(place);
        let walk = walk_page(page, lane, at, past, runs, steps)?;
        at = walk.at;
        ended = walk.ended;
        place += page.len() as u64;
    }
    push_gap(runs, at, past)
}
