//! The labels of Delta-net (NSDI 2017): what each router does with each atom, and for each router and target the set of
//! the atoms that have it, which is the label of the edge that the target stands for.
#![tactic(auto)]

mod atom_set;
mod bits;
mod chunk;
mod code_rows;
mod label_graph;
mod sets;

pub use atom_set::AtomSet;
pub use label_graph::LabelGraph;
