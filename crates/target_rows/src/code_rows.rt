//! The first row of codes, and how one is read.

ghost use Rattle.std.specs.Prelude.{◌≡◌, ℕ, ◌<◌, length, IfOk, slice_index_or};
ghost use Rattle.target_rows.specs.Rows.{AreFirst};

use crate::code_book::CodeBook;
use crate::codes::Edge;
use base::{OutOfMemory, Target};
use std::alloc::Global;
use version_pages::Pages;

/// The first row, and what its codes stand for.
#[derive(Drop)]
pub struct FirstRow {
    pub codes: Pages<u32>,
    pub book: CodeBook,
}

/// A code for no route for each router.
pub fn first_row(alloc: Global, routers: u32) -> Result<FirstRow, OutOfMemory>
    ensures { IfOk result (λ first. AreFirst routers first.codes first.book) }
{
    let mut codes = Pages::new();
    let mut book = CodeBook::new(alloc)?;
    for r in 0..routers {
        let edge = Edge {
            router: r,
            target: Target::NoRoute,
        };
        let code = book.code_of(alloc, edge)?;
        codes.push(alloc, code)?;
    }
    Ok(FirstRow { codes, book })
}

/// The element at a place of a list in pages.
pub fn read(codes: &Pages<u32>, i: u64) -> u32
    requires { i < length codes.now }
    ensures { (d : ℕ) → result ≡ slice_index_or codes.now i d }
{
    match codes.get(i) {
        Some(code) => *code,
        None => unreachable!(),
    }
}
