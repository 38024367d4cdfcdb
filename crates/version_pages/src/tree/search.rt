//! A search in one descent: a fork looks at the keys of its children's first elements, which it has beside them, and a
//! page at its elements.

ghost use Rattle.std.specs.Prelude.{◌≡◌, ◌<◌, ◌^◌, length, slice_index_or};
ghost use Rattle.version_pages.specs.Keys.{first_key};
ghost use Rattle.version_pages.specs.Shape.{Shape};
ghost use Rattle.version_pages.specs.Search.{EndsBelow, EndsIn};

use super::{Kid, Node, Tree, start};
use crate::halving::search_page;
use base::Keyed;

/// A child at or before the one in which the elements end that have a key below this one. It looks at every fourth child,
/// as long as there is one.
fn skip_kids<T: Keyed>(kids: &Vec<Kid<T>>, key: u64) -> usize
    requires { 0 < length kids.now.items }
    ensures inside { result < length kids.now.items }
    ensures here { (e : Shape T) → 0 < result → first_key T.key_of (slice_index_or kids.now.items result e).items < key }
{
    let mut k = 0;
    'fours: while kids.len() - k > 4 {
        if kids[k + 4].key() >= key {
            break;
        }
        k += 4;
    }
    k
}

/// The child in which the elements end that have a key below this one.
fn search_kids<T: Keyed>(kids: &Vec<Kid<T>>, key: u64) -> usize
    requires { 0 < length kids.now.items }
    ensures { EndsIn T.key_of kids.now.items key result }
{
    let last = kids.len() - 1;
    let mut k = skip_kids(kids, key);
    'kids: while k < last {
        if kids[k + 1].key() >= key {
            break;
        }
        k += 1;
    }
    k
}

impl<T: Keyed> Tree<T> {
    /// Where the elements end that have a key below this one.
    pub fn count_below(&self, key: u64) -> u64
        requires { length self.now.items < 2 ^ 64 }
        ensures { EndsBelow T.key_of self.now.items key result }
    {
        match &self.node {
            Node::Page(items) => search_page(items, key) as u64,
            Node::Fork { kids, ends, .. } => {
                let k = search_kids(kids, key);
                start(ends, k) + kids[k].tree().count_below(key)
            }
        }
    }
}

impl<T: Keyed> Kid<T> {
    /// Where the elements end that have a key below this one.
    pub fn count_below(&self, key: u64) -> u64
        ensures { EndsBelow T.key_of self.now.items key result }
    {
        let len = self.len;
        prove!(len <= u64::MAX);
        self.tree.count_below(key)
    }
}
