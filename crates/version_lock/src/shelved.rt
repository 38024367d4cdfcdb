//! A book on the heap.

ghost use Rattle.std.specs.Prelude.{◌≡◌, ◌<◌, ◌++◌, ◌∷◌, [], length, IfOk, IfErr, OnOk, OnErr};
ghost use Rattle.version_lock.specs.History.{IsRefusedAt};

use crate::book::{Book, PostRefused};
use dn_model::{Entry, OutOfMemory};
use std::alloc::Global;
use std::marker::Model;

/// A book on the heap: what takes it out of the lock's slot and puts it back moves its address alone. A contract sees
/// the book.
#[derive(Drop)]
pub(crate) struct Shelved<B: Book> {
    book: Box<B>,
}

impl<B: Book> Model for Shelved<B> {
    ghost Value = { B };

    ghost view = { λ s. s.book.value };
}

impl<B: Book> Shelved<B> {
    /// Puts a book on the heap. After `OutOfMemory`, for which alone it fails, the book is dropped.
    pub(crate) fn new(alloc: Global, book: B) -> Result<Shelved<B>, OutOfMemory>
        ensures { IfOk result (λ s. s ≡ book) }
    {
        let book = Box::new(alloc, book)?;
        Ok(Shelved { book })
    }

    /// The book.
    pub(crate) fn into_book(self) -> B
        ensures { result ≡ self }
    {
        let Shelved { book } = self;
        Box::into_inner(book)
    }

    /// Adds an entry under a seat's number, and answers how many entries there are then.
    pub(crate) fn post(&mut self, seat: u32, entry: &Entry) -> Result<u32, PostRefused>
        requires { B.takes (B.basis self.old) entry.now }
        ensures basis { B.basis self.new ≡ B.basis self.old }
        ensures ok { OnOk result (B.history self.new ≡ B.history self.old ++ record { seat = seat; entry = entry.now } ∷ []) }
        ensures number { IfOk result (λ n. n ≡ length (B.history self.new)) }
        ensures room { OnOk result (length (B.history self.old) < (B.basis self.old).limit) }
        ensures err { OnErr result (B.history self.new ≡ B.history self.old) }
        ensures full { IfErr result (IsRefusedAt (B.basis self.old).limit (B.history self.old)) }
    {
        self.book.post(seat, entry)
    }

    /// A snapshot of the history so far.
    pub(crate) fn snap(&self) -> Result<B::Snap, OutOfMemory>
        ensures shown { IfOk result (λ s. B.shown s ≡ B.history self.now) }
        ensures topology { IfOk result (λ s. B.shown_topology s ≡ (B.basis self.now).topology) }
    {
        self.book.snap()
    }
}
