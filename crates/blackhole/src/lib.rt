//! Black holes: where walks end without a way on, for which cause, and with which addresses.
#![tactic(auto)]

mod fall;
mod falls;
mod holes;
mod row_fall;

pub use holes::blackholes;
