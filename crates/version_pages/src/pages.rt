//! A list in shared pages.

ghost use Rattle.std.specs.Prelude.{◌≡◌, ◌+◌, ◌*◌, ◌<◌, ◌≤◌, ◌^◌, ◌↔◌, ◌++◌, ◌∷◌, []};
ghost use Rattle.std.specs.Prelude.{IfErr, IfOk, OnErr, OnOk, IfSome, IsSome, is_ok, if◌then◌else◌, length, set, insert, take, drop, slice_index_or};
ghost use Rattle.version_pages.specs.Changes.{Changes, ChangesRun, IsExtended, IsInserted};
ghost use Rattle.version_pages.specs.Growth.{grown, CanGrow};
ghost use Rattle.version_pages.specs.Search.{EndsBelow};

mod removal;

use crate::growth::Growth;
use crate::page::{page_of_copies, page_of_one};
use crate::tree::{FULL, Kid, LONG, page_kid};
use base::{Keyed, OutOfMemory};
use std::alloc::Global;
use std::marker::Model;

/// A list whose elements stand in pages of 1 to 64. A contract sees it as the list of its elements, in order.
///
/// A copy is one count. A write changes in place the pages, and the nodes above them, that no other list holds, and
/// copies those that another list holds too: what the other list reads stays.
#[derive(Drop)]
pub struct Pages<T: Keyed> {
    root: Option<Kid<T>>,
}

impl<T: Keyed> Model for Pages<T> {
    ghost use Rattle.std.specs.Prelude.{List, [], option_map, unwrap_or};
    ghost use Rattle.version_pages.specs.Shape.{items_of};

    ghost Value = { List T };

    ghost view = { λ p. unwrap_or (option_map items_of p.root) [] };
}

impl<T: Keyed> Pages<T> {
    /// The empty list, which takes no memory.
    pub fn new() -> Pages<T>
        ensures { result ≡ [] }
    {
        Pages { root: None }
    }

    /// How many elements there are, in constant time.
    pub fn len(&self) -> u64
        ensures { result ≡ length self.now }
    {
        match &self.root {
            None => 0,
            Some(root) => root.len(),
        }
    }

    /// How many forks stand above each page: all pages stand equally deep, so it is a logarithm of the length, between
    /// the one of base 2 and that of base 128. Each call that goes to a place passes through so many forks.
    pub fn height(&self) -> u64
        ensures many { 2 ^ result ≤ length self.now + 1 }
        ensures few { length self.now ≤ 64 * 128 ^ result }
    {
        match &self.root {
            None => 0,
            Some(root) => root.tree().height(),
        }
    }

    /// The element at a place, counted from 0, and none where there are not so many. It takes no memory, and a time
    /// that grows as the logarithm of the length.
    pub fn get(&self, i: u64) -> Option<&T>
        ensures inside { IsSome result ↔ (i < length self.now) }
        ensures element { (d : T) → IfSome result (λ x. x.now ≡ slice_index_or self.now i d) }
    {
        let Some(root) = &self.root else {
            return None;
        };
        if i < root.len() {
            return Some(root.tree().get(i));
        }
        None
    }

    /// The page that has the element at a place, and the place of the page's first element; no elements where there is none
    /// at the place. So a search that is about right at first looks at one page.
    pub fn page_at(&self, i: u64) -> (&[T], u64)
        ensures from { result.1 ≤ i }
        ensures some { i < length self.now → i < result.1 + length result.0.now }
        ensures page { take (length result.0.now) (drop result.1 self.now) ≡ result.0.now }
    {
        let Some(root) = &self.root else {
            return (&[], i);
        };
        if i < root.len() {
            let (page, j) = root.tree().page_at(i);
            return (page.as_slice(), i - j);
        }
        (&[], i)
    }

    /// The page of the element at a place, or the last page where there are fewer, with the place of its first element, and
    /// how many of its elements go before that place. So a search that is about right looks at one page.
    pub fn page_near(&self, near: u64) -> (&[T], u64, usize)
        ensures near { near < length self.now → result.1 + result.2 ≡ near }
        ensures some { 0 < length self.now → result.2 < length result.0.now }
        ensures page { take (length result.0.now) (drop result.1 self.now) ≡ result.0.now }
    {
        let Some(root) = &self.root else {
            return (&[], 0, 0);
        };
        let place = near.min(root.len().saturating_sub(1));
        if place >= root.len() {
            return (&[], 0, 0);
        }
        let (page, j) = root.tree().page_at(place);
        (page.as_slice(), place - j, j as usize)
    }

    /// The elements from a place to the end of its page, at least one where there is one at the place. So a loop over
    /// many elements goes down the tree once for each page.
    pub fn run_from(&self, i: u64) -> &[T]
        ensures some { i < length self.now → 0 < length result.now }
        ensures run { take (length result.now) (drop i self.now) ≡ result.now }
    {
        let Some(root) = &self.root else {
            return &[];
        };
        if i < root.len() {
            return root.tree().run_from(i);
        }
        &[]
    }
}

impl<T: Keyed> Pages<T> {
    /// The same list again, which shares all pages with this one. It fails for want of memory alone.
    pub fn copy(&self) -> Result<Pages<T>, OutOfMemory>
        ensures { IfOk result (λ pages. pages ≡ self.now) }
    {
        match &self.root {
            None => Ok(Pages { root: None }),
            Some(root) => Ok(Pages {
                root: Some(root.clone()?),
            }),
        }
    }
}

impl<T: Keyed> Pages<T> {
    /// Has an element changed in its place. After `OutOfMemory` the list is as before, and the change was not called.
    pub fn change<R, F: FnOnce(&mut T) -> R>(
        &mut self,
        alloc: Global,
        i: u64,
        change: F,
    ) -> Result<R, OutOfMemory>
        requires inside { i < length self.old }
        requires callable { F.IsAlwaysCallable change }
        ensures changed { IfOk result (Changes F.FnOnce change self.old self.new i) }
        ensures same { OnErr result (self.new ≡ self.old) }
    {
        let Some(root) = &mut self.root else {
            return Err(OutOfMemory);
        };
        return root.change(alloc, i, change);
    }

    /// Has the elements from a place to the end of its page, as `run_from` shows them, changed in their places: many
    /// neighbours in one descent. After `OutOfMemory` the list is as before, and the change was not called.
    pub fn change_run<R, F: FnOnce(&mut [T]) -> R>(
        &mut self,
        alloc: Global,
        i: u64,
        change: F,
    ) -> Result<R, OutOfMemory>
        requires inside { i < length self.old }
        requires callable { F.IsAlwaysCallable change }
        ensures changed { IfOk result (ChangesRun F.FnOnce change self.old self.new i) }
        ensures same { OnErr result (self.new ≡ self.old) }
    {
        let Some(root) = &mut self.root else {
            return Err(OutOfMemory);
        };
        return root.change_run(alloc, i, change);
    }

    /// Puts another value in the place of an element. After `OutOfMemory` the list is as before.
    pub fn put(&mut self, alloc: Global, i: u64, value: T) -> Result<(), OutOfMemory>
        requires inside { i < length self.old }
        ensures { self.new ≡ (if is_ok result then set self.old i value else self.old) }
    {
        self.change(alloc, i, |element| *element = value)
    }

    /// Grows by one element at a place. After `OutOfMemory` the list is as before.
    fn grow(&mut self, alloc: Global, i: u64, growth: Growth<T>) -> Result<(), OutOfMemory>
        requires inside { CanGrow growth self.old i }
        requires some { 0 < length self.old }
        ensures { self.new ≡ (if is_ok result then grown growth self.old i else self.old) }
    {
        let Some(root) = &mut self.root else {
            return Err(OutOfMemory);
        };
        return root.grow_whole(alloc, i, growth);
    }

    /// Puts one more element before the one that stands at the place now, or at the end. After `OutOfMemory` the list
    /// is as before.
    pub fn insert_at(&mut self, alloc: Global, i: u64, value: T) -> Result<(), OutOfMemory>
        requires inside { i ≤ length self.old }
        ensures { self.new ≡ (if is_ok result then insert self.old i value else self.old) }
    {
        if self.len() == 0 {
            self.root = Some(page_kid(alloc, page_of_one(alloc, 1, value)?)?);
            return Ok(());
        }
        return self.grow(alloc, i, Growth::Before(value));
    }

    /// Puts one more element at the end where that takes no more than room in the last page. Else it hands the element
    /// back, and the list is as before.
    fn push_alone(&mut self, value: T) -> Result<(), T>
        ensures items { self.new ≡ (if is_ok result then insert self.old (length self.old) value else self.old) }
        ensures back { IfErr result (λ x. x ≡ value) }
    {
        let Some(root) = &mut self.root else {
            return Err(value);
        };
        if root.len() >= LONG - 1 {
            return Err(value);
        }
        return root.push_alone(value);
    }

    /// How many more elements the last page may take.
    fn end_room(&self) -> usize {
        match &self.root {
            None => 0,
            Some(root) => root.tree().end_room(),
        }
    }

    /// How many elements a new page behind the last one has memory for. The first page has no more than it takes, since
    /// many lists stay short.
    fn page_room(&self, count: usize) -> usize {
        if self.len() == 0 { count } else { FULL }
    }

    /// Puts a page behind the last one. After `OutOfMemory` the list is as before.
    fn graft(&mut self, alloc: Global, page: Vec<T>) -> Result<(), OutOfMemory>
        requires some { 0 < length page.items }
        requires few { length page.items ≤ FULL }
        ensures items { OnOk result (self.new ≡ self.old ++ page.items) }
        ensures same { OnErr result (self.new ≡ self.old) }
    {
        let page = page_kid(alloc, page)?;
        let Some(root) = &mut self.root else {
            self.root = Some(page);
            return Ok(());
        };
        return root.graft_whole(alloc, page);
    }

    /// Puts one more element at the end, in a new page where the last one is full. After `OutOfMemory` the list is as
    /// before.
    fn push_more(&mut self, alloc: Global, value: T) -> Result<(), OutOfMemory>
        ensures { self.new ≡ (if is_ok result then self.old ++ value ∷ [] else self.old) }
    {
        if self.end_room() > 0 {
            let len = self.len();
            return self.insert_at(alloc, len, value);
        }
        let room = self.page_room(1);
        return self.graft(alloc, page_of_one(alloc, room, value)?);
    }

    /// Puts one more element at the end. After `OutOfMemory` the list is as before.
    pub fn push(&mut self, alloc: Global, value: T) -> Result<(), OutOfMemory>
        ensures { self.new ≡ (if is_ok result then self.old ++ value ∷ [] else self.old) }
    {
        match self.push_alone(value) {
            Ok(()) => Ok(()),
            Err(value) => self.push_more(alloc, value),
        }
    }

    /// Puts two elements in the place of one. After `OutOfMemory` the list is as before.
    pub fn replace_by_two(
        &mut self,
        alloc: Global,
        i: u64,
        lower: T,
        upper: T,
    ) -> Result<(), OutOfMemory>
        requires inside { i < length self.old }
        ensures { self.new ≡ (if is_ok result then set (insert self.old (i + 1) upper) i lower else self.old) }
    {
        return self.grow(alloc, i, Growth::Parts(lower, upper));
    }

    /// The list of the elements of a `Vec`.
    pub fn from_vec(alloc: Global, items: Vec<T>) -> Result<Pages<T>, OutOfMemory>
        ensures { IfOk result (λ pages. pages ≡ items.items) }
    {
        let mut pages = Pages::new();
        for item in items {
            pages.push(alloc, item)?;
        }
        Ok(pages)
    }
}

impl<T: Keyed + Copy> Pages<T> {
    /// Puts the first of some elements at the end, as many as the last page has room for. It answers how many.
    fn extend_alone(&mut self, items: &[T]) -> usize
        ensures within { result ≤ length items.now }
        ensures items { self.new ≡ self.old ++ take result items.now }
    {
        let Some(root) = &mut self.root else {
            return 0;
        };
        if root.len() >= LONG - 64 {
            return 0;
        }
        return root.extend_alone(items);
    }

    /// Puts the first of some elements at the end of the last page, as many as it has room for, or one where somebody
    /// else holds it. It answers how many. After `OutOfMemory` the list is as before.
    fn fill_end(&mut self, alloc: Global, items: &[T]) -> Result<usize, OutOfMemory>
        requires some { 0 < length items.now }
        ensures some { IfOk result (λ count. 0 < count) }
        ensures within { IfOk result (λ count. count ≤ length items.now) }
        ensures items { IfOk result (λ count. self.new ≡ self.old ++ take count items.now) }
        ensures same { OnErr result (self.new ≡ self.old) }
    {
        let count = self.extend_alone(items);
        if count > 0 {
            return Ok(count);
        }
        let len = self.len();
        self.insert_at(alloc, len, items[0])?;
        Ok(1)
    }

    /// Puts the first of some elements behind the last page, as many as a page has. It answers how many. After
    /// `OutOfMemory` the list is as before.
    fn add_page(&mut self, alloc: Global, items: &[T]) -> Result<usize, OutOfMemory>
        requires some { 0 < length items.now }
        ensures some { IfOk result (λ count. 0 < count) }
        ensures within { IfOk result (λ count. count ≤ length items.now) }
        ensures items { IfOk result (λ count. self.new ≡ self.old ++ take count items.now) }
        ensures same { OnErr result (self.new ≡ self.old) }
    {
        let count = items.len().min(FULL);
        let room = self.page_room(count);
        self.graft(alloc, page_of_copies(alloc, room, &items[..count])?)?;
        Ok(count)
    }

    /// Puts the first of some elements behind the last page, as pages. It answers how many, one at least. After
    /// `OutOfMemory` the list is as before.
    fn add_pages(&mut self, alloc: Global, items: &[T]) -> Result<usize, OutOfMemory>
        requires some { 0 < length items.now }
        ensures some { IfOk result (λ count. 0 < count) }
        ensures within { IfOk result (λ count. count ≤ length items.now) }
        ensures items { IfOk result (λ count. self.new ≡ self.old ++ take count items.now) }
        ensures same { OnErr result (self.new ≡ self.old) }
    {
        let Some(root) = &mut self.root else {
            return self.add_page(alloc, items);
        };
        return root.add_some(alloc, items);
    }

    /// Puts the first of some elements at the end, in a new page where the last one is full. It answers how many, one at
    /// least. After `OutOfMemory` the list is as before.
    fn extend_some(&mut self, alloc: Global, items: &[T]) -> Result<usize, OutOfMemory>
        requires some { 0 < length items.now }
        ensures some { IfOk result (λ count. 0 < count) }
        ensures within { IfOk result (λ count. count ≤ length items.now) }
        ensures items { IfOk result (λ count. self.new ≡ self.old ++ take count items.now) }
        ensures same { OnErr result (self.new ≡ self.old) }
    {
        if self.end_room() > 0 {
            return self.fill_end(alloc, items);
        }
        return self.add_pages(alloc, items);
    }

    /// Puts some elements at the end: first as many as the last page has room for, and then pages of them. After
    /// `OutOfMemory` the first of them may be there.
    pub fn extend(&mut self, alloc: Global, items: &[T]) -> Result<(), OutOfMemory>
        ensures all { OnOk result (self.new ≡ self.old ++ items.now) }
        ensures front { IsExtended self.old self.new items.now }
    {
        let mut at = 0;
        'pages: while at < items.len() {
            at += self.extend_some(alloc, &items[at..])?;
        }
        Ok(())
    }

    /// Puts the first of some elements before the one that stands at a place now, as many as its page has room for. It
    /// answers how many, one at least. After `OutOfMemory` the list is as before.
    fn insert_some(&mut self, alloc: Global, i: u64, items: &[T]) -> Result<usize, OutOfMemory>
        requires some { 0 < length items.now }
        requires inside { i < length self.old }
        ensures some { IfOk result (λ count. 0 < count) }
        ensures within { IfOk result (λ count. count ≤ length items.now) }
        ensures items { IfOk result (λ count. self.new ≡ take i self.old ++ take count items.now ++ drop i self.old) }
        ensures same { OnErr result (self.new ≡ self.old) }
    {
        let Some(root) = &mut self.root else {
            return Err(OutOfMemory);
        };
        return root.insert_whole(alloc, i, items);
    }

    /// Puts some elements before the one that stands at a place now, page by page.
    fn insert_inside(&mut self, alloc: Global, i: u64, items: &[T]) -> Result<(), OutOfMemory>
        requires inside { i < length self.old }
        ensures all { OnOk result (self.new ≡ take i self.old ++ items.now ++ drop i self.old) }
        ensures front { IsInserted self.old self.new items.now i }
    {
        let behind = self.len() - i;
        let mut at = 0;
        'pages: while at < items.len() {
            let place = self.len() - behind;
            let count = self.insert_some(alloc, place, &items[at..])?;
            at += count;
        }
        Ok(())
    }

    /// Puts some elements before the one that stands at a place now, or at the end. After `OutOfMemory` the first of them
    /// may be there.
    pub fn insert_all(&mut self, alloc: Global, i: u64, items: &[T]) -> Result<(), OutOfMemory>
        requires inside { i ≤ length self.old }
        ensures all { OnOk result (self.new ≡ take i self.old ++ items.now ++ drop i self.old) }
        ensures front { IsInserted self.old self.new items.now i }
    {
        if i == self.len() {
            return self.extend(alloc, items);
        }
        return self.insert_inside(alloc, i, items);
    }
}

impl<T: Keyed> Pages<T> {
    /// How many elements have a key below this one, where keys ascend: the element before that place has a key below it,
    /// and the one at the place has none below it, also where keys don't ascend. It goes down once, takes no memory, and
    /// looks at the elements of one page alone: each fork on the way has the keys of its children's first elements.
    pub fn count_below(&self, key: u64) -> u64
        ensures { EndsBelow T.key_of self.now key result }
    {
        match &self.root {
            None => 0,
            Some(root) => root.count_below(key),
        }
    }
}
