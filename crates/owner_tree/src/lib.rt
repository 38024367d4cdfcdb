//! The rules of one router at one atom, of which the one in force goes before all others: the longest prefix, then the
//! least metric (the owners of Delta-net, NSDI 2017).
#![tactic(auto)]

mod owners;

pub use dn_model::Rule;
pub use owners::Owners;
