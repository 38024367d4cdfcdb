//! Routers that go on over a link.

ghost use Rattle.std.specs.Prelude.{◌≡◌, ℕ, true, false, ◌<◌, length, slice_index_or, IfOk};
ghost use Rattle.target_rows.specs.Codes.{edge_at};
ghost use Rattle.base.specs.Reach.{is_over};

use crate::codes::Edge;
use base::{LinkId, OutOfMemory, Target};
use std::alloc::Global;

/// Whether a target goes on over a link.
fn is_over(target: Target, link: LinkId) -> bool
    ensures { result ≡ is_over link target }
{
    match target {
        Target::To(_, over) => over.0 == link.0,
        _ => false,
    }
}

/// No mark for each of so many routers.
fn no_marks(alloc: Global, routers: u32) -> Result<Vec<bool>, OutOfMemory>
    ensures { IfOk result (λ marks. length marks.items ≡ routers) }
{
    let mut marks = Vec::new(alloc);
    for _router in 0..routers {
        marks.push(false)?;
    }
    Ok(marks)
}

/// Marks each router that has a code for going on over a link.
fn mark(edges: &[Edge], link: LinkId, marks: &mut [bool])
    requires { (c : ℕ) → c < length edges.now → (edge_at edges.now c).router < length marks.old }
    ensures room { length marks.new ≡ length marks.old }
    ensures marked { (c : ℕ) → c < length edges.now → is_over link (edge_at edges.now c).target ≡ true →
        slice_index_or marks.new (edge_at edges.now c).router false ≡ true }
{
    for edge in edges {
        if is_over(edge.target, link) {
            marks[edge.router as usize] = true;
        }
    }
}

/// A mark for each of so many routers that has a code for going on over a link, and none for the others. It fails for
/// want of memory alone.
pub fn routers_over(
    alloc: Global,
    edges: &[Edge],
    routers: u32,
    link: LinkId,
) -> Result<Vec<bool>, OutOfMemory>
    requires { (c : ℕ) → c < length edges.now → (edge_at edges.now c).router < routers }
    ensures room { IfOk result (λ marks. length marks.items ≡ routers) }
    ensures marked { IfOk result (λ marks. (c : ℕ) → c < length edges.now →
        is_over link (edge_at edges.now c).target ≡ true →
        slice_index_or marks.items (edge_at edges.now c).router false ≡ true) }
{
    let mut marks = no_marks(alloc, routers)?;
    mark(edges, link, &mut marks);
    Ok(marks)
}
