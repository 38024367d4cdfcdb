//! Topologies of networks, read from their text: a document of TOML 1.1 with the routers, their VRFs, the links between
//! them, the edges of the network, and marks of routers that replace routes by prefix.
//!
//! A text is read whole or refused with the first of its faults, by the part of the text, the entry within the part and
//! the number of the cause (module `topology_cause` of `dn_formats`).
#![tactic(auto)]

mod all_routers;
mod document;
mod edge;
mod end;
mod link;
mod lists;
mod mark;
mod name;
mod router;
mod sections;
mod steps;
mod taken;
mod value;
mod vrf;

pub use dn_model::{Port, port};
pub use document::read_topology;
