//! A search within a page.

ghost use Rattle.std.specs.Prelude.{◌↔◌, ◌≤◌, IsTrue, length};
ghost use Rattle.version_pages.specs.Search.{EndsBelow};

use base::Keyed;

/// Whether the elements that have a key below this one end at a place.
fn ends_at<T: Keyed>(items: &[T], key: u64, at: usize) -> bool
    requires { at ≤ length items.now }
    ensures { IsTrue result ↔ EndsBelow T.key_of items.now key at }
{
    if at > 0 && items[at - 1].key() >= key {
        return false;
    }
    at == items.len() || items[at].key() >= key
}

/// Where the elements end that have a key below this one. Each look is the same few steps, whichever way it turns out.
pub fn search_page<T: Keyed>(items: &[T], key: u64) -> usize
    ensures { EndsBelow T.key_of items.now key result }
{
    let mut low = 0;
    let mut left = items.len();
    'halving: while left > 0 {
        let half = left / 2;
        let is_below = items[low + half].key() < key;
        low = if is_below { low + half + 1 } else { low };
        left = if is_below { left - half - 1 } else { half };
    }
    low
}

/// How many of these elements have a key below this one, where keys ascend: the element before that place has a key below
/// it, and the one at the place has none below it, also where keys don't ascend. It looks first at the two elements
/// between which it is about so many, and else at some six of 64.
pub fn count_below_from<T: Keyed>(items: &[T], key: u64, about: usize) -> usize
    ensures { EndsBelow T.key_of items.now key result }
{
    let near = about.min(items.len());
    if ends_at(items, key, near) {
        return near;
    }
    search_page(items, key)
}
