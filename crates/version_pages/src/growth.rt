//! How a list grows by one element.

ghost use Rattle.std.specs.Prelude.{◌≡◌, ◌<◌, is_ok, if◌then◌else◌};
ghost use Rattle.version_pages.specs.Growth.{grown, CanGrow};

use base::OutOfMemory;

/// How a list grows by one element at a place.
#[derive(Drop)]
pub enum Growth<T> {
    /// One more, before the one that stands there now.
    Before(T),
    /// Two in the place of the one that stands there.
    Parts(T, T),
}

/// Has a page grow. After `OutOfMemory` it is as before.
pub fn grow_page<T: Drop>(page: &mut Vec<T>, i: usize, growth: Growth<T>) -> Result<(), OutOfMemory>
    requires { CanGrow growth page.old.items i }
    ensures { page.new.items ≡ (if is_ok result then grown growth page.old.items i else page.old.items) }
{
    match growth {
        Growth::Before(value) => {
            page.insert(i, value)?;
            return Ok(());
        }
        Growth::Parts(lower, upper) => {
            page.insert(i + 1, upper)?;
            page[i] = lower;
            return Ok(());
        }
    }
}
