//! What all of `deltanet` stands on: names, addresses and runs of them, what routers do with addresses, and what following
//! the addresses hop by hop gives (walks, cycles, black holes, changes), where what each router does is given. Nothing here
//! knows tables, histories or topologies.
//!
//! Addresses are IPv4 destination addresses as numbers from 0 to 2^32 - 1.
#![tactic(auto)]

mod change;
mod cycle;
mod forwarding_row;
mod hole;
mod ids;
mod keyed;
mod laws;
mod list;
mod memory;
mod name;
mod path_end;
mod prefix;
mod run;
mod target;

pub use change::Change;
pub use cycle::Cycle;
pub use forwarding_row::ForwardingRow;
pub use hole::Hole;
pub use ids::{AtomId, LinkId, RouterId};
pub use keyed::Keyed;
pub use laws::{
    cycles_are_unique, deltas_are_unique, holes_are_unique, loops_are_true, runs_are_unique,
    walks_end_at_the_last_router,
};
pub use list::List;
pub use memory::OutOfMemory;
pub use name::{Name, is_name};
pub use path_end::PathEnd;
pub use prefix::Prefix;
pub use run::Run;
pub use target::{DropKind, Target};
