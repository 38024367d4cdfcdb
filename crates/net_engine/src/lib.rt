//! What all routers do with all addresses, kept up update by update (Delta-net, NSDI 2017): atoms between the ends of
//! prefixes, what each router does with each atom while all links are up, each router's routes by prefix, and the links that
//! are down. An update touches the atoms of its prefix alone, and a link that goes down or comes up none of them.
#![tactic(auto)]

mod ends;
mod kept_rows;
mod link_set;
mod link_turn;
mod net;
mod relabel;
mod router_group;
mod router_tables;
mod shown;
mod state;
mod told;
mod update;
mod version;

pub use shown::Shown;
pub use version::Version;
