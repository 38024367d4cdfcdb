//! What each router does with each atom, in the order of addresses: a row of codes for each atom, one for each router,
//! and a book of what the codes stand for.
#![tactic(auto)]

mod chunk_rows;
mod code_book;
mod code_chunk;
mod code_rows;
mod codes;
mod guesses;
mod over;
mod reading;
mod rows;
mod split_codes;

pub use code_book::CodeBook;
pub use code_rows::{FirstRow, first_row};
pub use codes::Edge;
pub use rows::TargetRows;
