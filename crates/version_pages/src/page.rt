//! Pages: short lists, each in one block.

ghost use Rattle.std.specs.Prelude.{◌≡◌, ◌++◌, ◌∷◌, [], OnOk, IfOk};

use base::OutOfMemory;
use std::alloc::Global;
use std::vec::VecCloneMethods;

/// Adds copies of elements at a page's end.
pub fn add_copies<T: Clone>(page: &mut Vec<T>, items: &[T]) -> Result<(), OutOfMemory>
    requires { (x y : T) → T.is_clone x y → y ≡ x }
    ensures { OnOk result (page.new.items ≡ page.old.items ++ items.now) }
{
    page.extend_from_slice(items)?;
    Ok(())
}

/// A page of one element, with room for as many.
pub fn page_of_one<T: Drop>(alloc: Global, room: usize, value: T) -> Result<Vec<T>, OutOfMemory>
    ensures { IfOk result (λ page. page.items ≡ value ∷ []) }
{
    let mut page = Vec::with_capacity(alloc, room)?;
    page.push(value)?;
    Ok(page)
}

/// A page of copies of these elements, with room for as many.
pub fn page_of<T: Clone>(alloc: Global, room: usize, items: &[T]) -> Result<Vec<T>, OutOfMemory>
    requires { (x y : T) → T.is_clone x y → y ≡ x }
    ensures { IfOk result (λ page. page.items ≡ items.now) }
{
    let mut page = Vec::with_capacity(alloc, room)?;
    add_copies(&mut page, items)?;
    Ok(page)
}

/// A page of these elements, which are copied at once, with room for as many.
pub fn page_of_copies<T: Copy>(
    alloc: Global,
    room: usize,
    items: &[T],
) -> Result<Vec<T>, OutOfMemory>
    ensures { IfOk result (λ page. page.items ≡ items.now) }
{
    let mut page = Vec::with_capacity(alloc, room)?;
    page.extend_from_slice(items)?;
    Ok(page)
}
