//! What routers do where links are down: a view of a network with some links taken out of it.
#![tactic(auto)]

mod links;
mod without;

pub use without::Without;
