//! A tree of pages (Bayer and McCreight 1972). All pages stand equally deep; a node has one pointer for each list that
//! holds it.

ghost use Rattle.std.specs.Prelude.{ℕ, ◌≡◌, ◌+◌, ◌-◌, ◌<◌, ◌≤◌, ◌^◌, ◌*◌, ◌↔◌, ◌++◌, IfOk, IsTrue, length, take, slice_index_or, All, Contains};
ghost use Rattle.std.specs.Arc.{arc_value};
ghost use Rattle.version_pages.specs.Shape.{Shape, IsDeep, IsUnder, AreKids, AreEnds, IsAt, IsWithin, end_before, joined};
ghost use Rattle.version_pages.specs.Keys.{first_key};

mod change;
mod cut;
mod end;
mod graft;
mod grow;
mod hang;
mod insertion;
mod joining;
mod own;
mod parts;
mod removal;
mod search;
mod split;

use base::Keyed;
pub use parts::page_kid;
use std::alloc::Global;
use std::marker::Model;
use std::sync::Arc;

/// The most elements that a page has.
pub const FULL: usize = 64;

/// A list is shorter than this, so that lengths can be added.
pub const LONG: u64 = 1 << 62;

/// The most children that a fork has.
pub const WIDE: usize = 128;

/// A tree of pages. A contract sees its elements in order, its height, how many more elements or children its top node
/// may take, and how many it may lose.
#[cycle(tree)]
#[derive(Drop)]
pub struct Tree<T: Keyed> {
    node: Node<T>,
}

/// What a tree is made of.
#[cycle(tree)]
#[derive(Drop)]
enum Node<T: Keyed> {
    /// 1 to 64 elements.
    Page(Vec<T>),
    /// 2 to 128 trees of equal height, one after another.
    Fork {
        kids: Vec<Kid<T>>,
        /// How many forks stand above each page, this one among them.
        height: u64,
        /// How many elements each child and those before it have together.
        ends: Vec<u64>,
        /// About how many children there are to 2^32 elements: by it the child of a place is guessed, without a division. No
        /// clause and no invariant speaks of it.
        density: u64,
    },
}

/// A tree that others may hold too, with the number of its elements, which is below 2^62, and the key of the first. A
/// contract sees it as the tree.
#[cycle(tree)]
#[derive(Drop)]
pub struct Kid<T: Keyed> {
    tree: Arc<Tree<T>, Global>,
    len: u64,
    key: u64,
}

impl<T: Keyed> Model for Tree<T> {
    ghost use Rattle.std.specs.Prelude.{◌*◌};
    ghost use Rattle.version_pages.specs.Shape.{Shape};

    ghost Value = { Shape T };

    ghost use Rattle.version_pages.specs.Nodes.{shape_of, IsKept};

    ghost view = { λ t. shape_of t.node };

    ghost invariant = { λ t. IsKept t.node };

    ghost size = { λ s. 2 * s.height };

    ghost use Rattle.version_pages.specs.Falls.{deep_le-height};

    ghost size_decreases = { λ t h. deep_le-height (record { key_of = T.key_of }) (record { is_clone = T.is_clone; is_infallible = T.is_infallible }) t.node h };
}

impl<T: Keyed> Model for Kid<T> {
    ghost use Rattle.std.specs.Prelude.{◌≡◌, ◌+◌, ◌*◌, ◌<◌, ◌^◌, length};
    ghost use Rattle.std.specs.Arc.{arc_value};
    ghost use Rattle.version_pages.specs.Keys.{first_key};
    ghost use Rattle.version_pages.specs.Shape.{Shape};

    ghost Value = { Shape T };

    ghost view = { λ k. arc_value k.tree };

    ghost invariant = { λ k. (k.len ≡ length (arc_value k.tree).items) × (k.key ≡ first_key T.key_of (arc_value k.tree).items) × (k.len < 2 ^ 62) };

    ghost size = { λ s. 2 * s.height + 1 };

    ghost use Rattle.std.proofs.Common.{arith};

    ghost size_decreases = { λ k h. Prim.grind arith };
}

impl<T: Keyed> Kid<T> {
    /// How many elements there are.
    pub fn len(&self) -> u64
        ensures value { result ≡ length self.now.items }
        ensures few { result < 2 ^ 62 }
    {
        self.len
    }

    /// The key of the first element.
    pub fn key(&self) -> u64
        ensures { result ≡ first_key T.key_of self.now.items }
    {
        self.key
    }

    /// The tree.
    pub fn tree(&self) -> &Tree<T>
        ensures { result.now ≡ self.now }
    {
        &self.tree
    }
}

/// How many elements stand before a child.
fn start(ends: &Vec<u64>, k: usize) -> u64
    requires { k ≤ length ends.now.items }
    ensures { result ≡ end_before ends.now.items k }
{
    if k == 0 {
        return 0;
    }
    ends[k - 1]
}

/// About how many children there are to 2^32 elements.
fn density_of(ends: &Vec<u64>) -> u64 {
    match ends.as_slice() {
        [.., all] => ((ends.len() as u64) << 32) / (*all).max(1),
        [] => 0,
    }
}

/// A child that may have the element at a place, guessed as if all had equally many. A wrong guess costs time alone.
fn guess(density: u64, last: usize, i: u64) -> usize
    ensures { result ≤ last }
{
    let k = i.wrapping_mul(density) >> 32;
    k.min(last as u64) as usize
}

/// A child at or before this one that starts no later than at a place, and how many elements stand before it.
fn back(ends: &Vec<u64>, from: usize, i: u64) -> (usize, u64)
    requires { from < length ends.now.items }
    ensures child { result.0 ≤ from }
    ensures start { result.1 ≡ end_before ends.now.items result.0 }
    ensures before { result.1 ≤ i }
{
    let mut k = from;
    let mut first = start(ends, k);
    'back: while first > i {
        k -= 1;
        first = start(ends, k);
    }
    (k, first)
}

/// The first child from this one on, before which so many elements stand, that ends behind a place, or the last, and how
/// many elements stand before it.
fn on(ends: &Vec<u64>, last: usize, from: usize, first: u64, i: u64) -> (usize, u64)
    requires last { last + 1 ≡ length ends.now.items }
    requires child { from ≤ last }
    requires start { first ≡ end_before ends.now.items from }
    requires before { first ≤ i }
    ensures child { result.0 ≤ last }
    ensures start { result.1 ≡ end_before ends.now.items result.0 }
    ensures before { result.1 ≤ i }
    ensures end { (d : ℕ) → result.0 < last → i < slice_index_or ends.now.items result.0 d }
{
    let mut k = from;
    let mut first = first;
    'on: while k < last {
        let end = ends[k];
        if i < end {
            break;
        }
        first = end;
        k += 1;
    }
    (k, first)
}

/// The child that has the element at a place, or the last where there is none, with the element's place in it. It looks
/// first where it would be if all children had equally many elements.
fn find<T: Keyed>(kids: &Vec<Kid<T>>, ends: &Vec<u64>, density: u64, i: u64) -> (usize, u64)
    requires some { 0 < length kids.now.items }
    requires ends { AreEnds ends.now.items kids.now.items }
    ensures { IsAt kids.now.items i result.0 result.1 }
{
    let last = kids.len() - 1;
    let (near, before) = back(ends, guess(density, last, i), i);
    let (k, first) = on(ends, last, near, before, i);
    (k, i - first)
}

/// The child that has the element at a place, with the element's place in it.
fn child_at<'a, T: Keyed>(
    kids: &'a Vec<Kid<T>>,
    ends: &Vec<u64>,
    density: u64,
    i: u64,
) -> (&'a Tree<T>, u64)
    requires inside { i < length (joined kids.now.items) }
    requires ends { AreEnds ends.now.items kids.now.items }
    ensures inside { result.1 < length result.0.now.items }
    ensures within { IsWithin (joined kids.now.items) result.0.now.items i result.1 }
    ensures kid { Contains kids.now.items result.0.now }
{
    let (k, j) = find(kids, ends, density, i);
    (kids[k].tree(), j)
}

impl<T: Keyed> Tree<T> {
    /// How many forks stand above each page.
    pub fn height(&self) -> u64
        ensures value { result ≡ self.now.height }
        ensures deep { IsDeep self.now }
    {
        match &self.node {
            Node::Page(_) => 0,
            Node::Fork { height, .. } => *height,
        }
    }

    /// The key of the first element.
    pub fn key(&self) -> u64
        ensures { result ≡ first_key T.key_of self.now.items }
    {
        match &self.node {
            Node::Page(items) => items[0].key(),
            Node::Fork { kids, .. } => kids[0].key(),
        }
    }

    /// The element at a place.
    pub fn get(&self, i: u64) -> &T
        requires { i < length self.now.items }
        ensures { (d : T) → result.now ≡ slice_index_or self.now.items i d }
    {
        match &self.node {
            Node::Page(items) => &items[i as usize],
            Node::Fork {
                kids,
                ends,
                density,
                ..
            } => {
                let (child, j) = child_at(kids, ends, *density, i);
                child.get(j)
            }
        }
    }

    /// The page that has the element at a place, and the element's place in it.
    pub fn page_at(&self, i: u64) -> (&Vec<T>, u64)
        requires { i < length self.now.items }
        ensures inside { result.1 < length result.0.now.items }
        ensures within { IsWithin self.now.items result.0.now.items i result.1 }
    {
        match &self.node {
            Node::Page(items) => (items, i),
            Node::Fork {
                kids,
                ends,
                density,
                ..
            } => {
                let (child, j) = child_at(kids, ends, *density, i);
                child.page_at(j)
            }
        }
    }

    /// The elements from a place to the end of its page.
    pub fn run_from(&self, i: u64) -> &[T]
        requires { i < length self.now.items }
        ensures some { 0 < length result.now }
        ensures run { IsWithin self.now.items result.now i 0 }
    {
        match &self.node {
            Node::Page(items) => &items[i as usize..],
            Node::Fork {
                kids,
                ends,
                density,
                ..
            } => {
                let (child, j) = child_at(kids, ends, *density, i);
                child.run_from(j)
            }
        }
    }
}

/// The key of a tree's first element after a change at a place, before which it was this one. Where another element was
/// changed, the tree isn't looked at.
fn key_after<T: Keyed>(tree: &Tree<T>, i: u64, key: u64) -> u64
    requires { 0 < i → key ≡ first_key T.key_of tree.now.items }
    ensures { result ≡ first_key T.key_of tree.now.items }
{
    if i == 0 { tree.key() } else { key }
}
