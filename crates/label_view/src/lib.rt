//! What all routers do with all addresses, by rows: what each check of a network stands on. A row is an interval of
//! addresses that every router treats alike (the atoms and labels of Delta-net, NSDI 2017).
#![tactic(auto)]

mod column;
mod list_view;
pub mod runs;
mod view;

pub use column::{Column, PAGE, Rows};
pub use list_view::ListView;
pub use view::LabelView;
