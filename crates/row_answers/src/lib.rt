//! The answer to a query by rows: by any view of what all routers do with all addresses, with links taken as down.
#![tactic(auto)]

mod answers;
mod asked;
mod named;
mod wide;

pub use answers::answer;
pub use wide::answer_wide;
