//! The types of `deltanet`, the definitions that its contracts cite (`specs/`), and a plain evaluator of them.
//!
//! Addresses are IPv4 destination addresses as numbers from 0 to 2^32 - 1.
#![tactic(auto)]

mod alarm;
mod answer;
mod devices;
mod entry;
mod laws;
mod lookup;
mod moment;
mod network;
mod plain;
mod plain_cycle;
mod plain_delta;
mod plain_holes;
mod plain_intervals;
mod plain_loops;
mod plain_reach;
mod plain_runs;
mod plain_test;
mod policy;
mod ports;
mod query;
mod rule;
mod table_op;
mod topology;
mod unknown;
mod way;

pub use alarm::Alarm;
pub use answer::Answer;
pub use base::{
    AtomId, Change, Cycle, DropKind, ForwardingRow, Hole, Keyed, LinkId, List, Name, OutOfMemory,
    PathEnd, Prefix, RouterId, Run, Target, cycles_are_unique, deltas_are_unique, holes_are_unique,
    is_name, loops_are_true, runs_are_unique, walks_end_at_the_last_router,
};
pub use devices::{device_of, replaces_prefix, vrf};
pub use entry::{Entry, Op, Posted, Route};
pub use laws::{
    answers_are_unique, best_goes_first, best_has_no_order, changes_are_unique,
    histories_lead_within, links_are_as_last_told, objects_are_as_last_told, tables_have_keys_once,
    tables_have_prefixes_once,
};
pub use lookup::{link, port, router};
pub use plain::{plain_answer, plain_downs, plain_objects, plain_routes, plain_target, plain_walk};
pub use policy::Policy;
pub use ports::Port;
pub use query::{Ask, Query, Unknown};
pub use rule::Rule;
pub use table_op::TableOp;
pub use topology::{Replace, RouterTable, TopoEnd, TopoLink, Topology};
pub use way::Way;
