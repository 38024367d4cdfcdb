//! Routing tables of routers: routes by prefix and metric (rtnetlink(7)), and the route of an address (longest
//! prefix, then least metric: RFC 1812).
#![tactic(auto)]

mod above;
mod lane;
mod lengths;
mod metric_way;
mod metrics;
mod own;
mod prefix;
mod rows;
mod search;
mod table;
mod table_update;
mod tables;
mod targets;
mod update;

pub use lane::{LANES, Lane};
pub use table::RouteTable;
pub use table_update::{TableUpdate, Told};
pub use tables::RouteTables;
