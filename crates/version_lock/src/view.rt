//! What the seats of a lock know, and the rule that the lock keeps.

use crate::book::{Basis, Book};
use crate::shelved::Shelved;
use atomic_table::{Seat, Shared, Table, TableRule};
use dn_model::{List, Posted};
use std::alloc::Global;
use std::marker::PhantomData;
use std::snapshot::Snapshot;

/// What is fixed of a lock: its book's basis, and how many numbers its seats have between them. No value of it is made.
pub struct Setup {
    pub basis: Basis,
    pub seats: u32,
}

/// What one of two seats that were joined had seen, and which numbers it brought. No value of it is made.
pub struct Past {
    pub seen: List<Posted>,
    pub numbers: List<u32>,
}

/// What a seat or a note knows. No value of it is made.
pub struct View {
    /// Of which lock it is. A seat that was joined into another is of none.
    pub setup: Option<Setup>,
    /// The beginning of the history that it has seen.
    pub seen: List<Posted>,
    /// The two that were put together when it was last joined, until its next step.
    pub olds: List<Past>,
    /// The first number of its span, which is its own.
    pub first: u32,
    /// How many numbers its span has, from `first` on. A note has none.
    pub span: u32,
    /// The numbers whose entries are all seen: its own, and each that was joined into it.
    pub used: List<u32>,
    /// Whether it has the turn, and with it the book.
    pub turn: bool,
}

/// What a lock was made of, which clauses alone read.
#[derive(Drop)]
pub struct Opening<B> {
    pub(crate) book: Snapshot<B>,
    pub(crate) seats: u32,
}

/// The rule of a lock: word 0 is the turn, word 1 counts the entries, and slot 0 has the book while the turn is free.
pub struct LockRule<B> {
    book: PhantomData<B>,
}

impl<B: Book> TableRule<Option<Shelved<B>>, View, Opening<B>> for LockRule<B> {
    ghost use Rattle.version_lock.specs.Rule.{Kept, first_view, setup_of};

    ghost holds = { λ opening. Kept B.history B.basis (setup_of B.basis opening) };

    ghost first = { λ opening. first_view (setup_of B.basis opening) };
}

/// The table without its memory, as all seats see it.
pub(crate) type Board<B> = Shared<Option<Shelved<B>>, View, Opening<B>, LockRule<B>>;

/// The table with its memory.
pub(crate) type Desk<B> = Table<Option<Shelved<B>>, View, Opening<B>, LockRule<B>, Global>;

/// A seat at the table.
pub(crate) type Token<B> = Seat<Option<Shelved<B>>, View>;
