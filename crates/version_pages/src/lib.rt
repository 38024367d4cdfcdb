//! Lists in shared pages. A write works in place where nobody else holds a page, and copies the page and the way to it
//! where somebody does. Other lists read as before.
#![tactic(auto)]

mod growth;
mod halving;
mod page;
mod pages;
mod tree;

pub use base::Keyed;
pub use halving::count_below_from;
pub use pages::Pages;
