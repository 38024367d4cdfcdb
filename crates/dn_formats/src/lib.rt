//! The texts that `deltanet` reads and prints: the types of topologies, scripts and reports, the definitions that
//! contracts cite of them (`specs/`), and the printers that the report is made of.
//!
//! What a network does stands in `dn_model`, what a feed is in `feed_model`, on which this crate stands; no crate that
//! follows routes or reads feeds stands on this one.
#![tactic(auto)]

mod ask_kind;
mod asked;
mod decimal;
mod error_line;
mod laws;
mod mark;
mod print;
mod query_laws;
mod script;
pub mod script_cause;
mod text;
mod told;
pub mod topology_cause;
mod topology_fault;

pub use ask_kind::AskKind;
pub use asked::Asked;
pub use decimal::read_number;
pub use error_line::ErrorLine;
pub use laws::{causes_have_their_numbers, feeds_are_kept_whole};
pub use mark::Mark;
pub use print::{
    print_address, print_prefix, print_run, print_target, push_address, push_bytes, push_decimal,
    push_labelled, push_link, push_prefix, push_router, push_run, push_target,
};
pub use query_laws::{printed_queries_are_read, read_queries_are_printed};
pub use script::{Line, Script};
pub use text::Text;
pub use told::{JobTold, LinkOutcome, Outcome, Told};
pub use topology_fault::{TopoFault, TopoPart, TopoRefused};
