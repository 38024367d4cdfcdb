//! Codes of what routers do with atoms, in rows: a row for each atom, by its number, with a code for each router.

ghost use Rattle.std.specs.Prelude.{◌≡◌, ℕ, ◌+◌, ◌*◌, ◌^◌, ◌<◌, ◌≤◌, ◌++◌, length, take, drop, IfOk, IsTrue, OnOk, slice_index_or};

use base::{AtomId, OutOfMemory, RouterId, Target};
use std::alloc::Global;
use version_pages::Pages;

/// Whether two targets are the same.
pub fn is_same(first: &Target, second: &Target) -> bool
    ensures { IsTrue result → first.now ≡ second.now }
{
    *first == *second
}

/// Where the row of an atom begins.
pub fn row_of(routers: u32, atom: AtomId) -> u64
    ensures at { result ≡ atom.0 * routers }
    ensures fits { result + routers < 2 ^ 64 }
{
    atom.0 as u64 * routers as u64
}

/// Where the code of a router stands at an atom.
pub fn place_of(routers: u32, r: RouterId, atom: AtomId) -> u64
    requires { r.0 < routers }
    ensures { result ≡ atom.0 * routers + r.0 }
{
    atom.0 as u64 * routers as u64 + r.0 as u64
}

/// The element at a place of a list in pages.
pub fn read(codes: &Pages<u32>, i: u64) -> u32
    requires { i < length codes.now }
    ensures { (d : ℕ) → result ≡ slice_index_or codes.now i d }
{
    match codes.get(i) {
        Some(code) => *code,
        None => unreachable!(),
    }
}

/// So many codes from a place on. It goes down to each page of them once.
pub fn codes_from(
    alloc: Global,
    codes: &Pages<u32>,
    from: u64,
    count: u32,
) -> Result<Vec<u32>, OutOfMemory>
    requires inside { from + count ≤ length codes.now }
    requires fits { from + count < 2 ^ 64 }
    ensures { IfOk result (λ row. row.items ≡ take count (drop from codes.now)) }
{
    let count = count as usize;
    let mut row = Vec::with_capacity(alloc, count)?;
    'pages: while row.len() < count {
        let run = codes.run_from(from + row.len() as u64);
        let more = run.len().min(count - row.len());
        row.extend_from_slice(&run[..more])?;
    }
    Ok(row)
}

/// Adds a row of codes at the end.
pub fn push_row(alloc: Global, codes: &mut Pages<u32>, row: &[u32]) -> Result<(), OutOfMemory>
    ensures { OnOk result (codes.new ≡ codes.old ++ row.now) }
{
    codes.extend(alloc, row)
}
