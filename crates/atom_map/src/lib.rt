//! Atoms: the addresses cut into half-closed intervals at the boundaries of prefixes, with an ordered table from
//! boundary to atom (Delta-net, NSDI 2017).
#![tactic(auto)]

mod atom_row;
mod bounds;
mod guide;
mod laws;
mod map;
mod search;

pub use atom_row::AtomRow;
pub use bounds::{BoundSpot, Bounds};
pub use guide::Guide;
pub use laws::{
    addresses_have_one_place, cuts_keep_all_other_rows, cuts_part_one_row, meeting_is_sharing,
};
pub use map::AtomMap;
pub use search::AtomSpot;
