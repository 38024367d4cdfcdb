//! Scripts and queries, read from their text, and what is told of their lines, as text.
//!
//! A script is read whole or refused with the first of its faults, by the line and the number of the cause (module
//! `script_cause` of `dn_formats`).
#![tactic(auto)]

mod address;
mod answer_lines;
mod name_guess;
mod name_index;
mod query_line;
mod query_text;
mod script_line;
mod script_text;
mod text_cut;
mod told_text;

pub use query_line::read_query;
pub use script_text::{ScriptRefused, read_script};
pub use told_text::{answer_text, push_told};
