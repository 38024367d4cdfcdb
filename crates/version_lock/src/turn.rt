//! What a call does between winning the turn and setting it free.

ghost use Rattle.std.specs.Prelude.{◌≡◌, ◌+◌, ◌^◌, ◌<◌, ◌++◌, ◌∷◌, [], true, length, Some, None, IfOk, IfErr, OnOk, OnErr};
ghost use mathlib.Core.List.{IsPrefix};
ghost use Rattle.dn_model.specs.declared.entry.Entry.{Entry};
ghost use Rattle.version_lock.specs.History.{HasSameOf, IsRefusedAt};
ghost use Rattle.version_lock.specs.Rule.{setup_of};
ghost use Rattle.version_lock.specs.Steps.{holding, having_seen, without_turn};
ghost use Rattle.version_lock.specs.Tokens.{IsTokenOf, IsSameToken, IsReady, HasTurn, IsFreed};

use crate::book::{Book, PostRefused};
use crate::plays::{Applies, Frees, Pins, Wins};
use crate::shelved::Shelved;
use crate::view::{Board, Token};
use dn_model::{Entry, OutOfMemory};
use std::sync::Wait;
use std::time::Duration;

/// The word that is 1 while somebody has the turn.
pub(crate) const TURN: usize = 0;

/// The word that counts the entries.
pub(crate) const COUNT: usize = 1;

/// The slot of the book.
pub(crate) const BOOK: usize = 0;

/// Of so many entries one wakes a caller that waits for the turn. Each time the turn goes to another processor, that one
/// has little of the book in its caches; so the callers take turns of many entries rather than of one.
const ENTRIES_A_WAKE: u32 = 64;

/// The most milliseconds that a caller sleeps between two tries for the turn, whether or not it is woken.
const NAP: u64 = 4;

/// Waits until the turn is won, and takes the book out of its slot. Between two tries it sleeps, a few milliseconds at most.
pub(crate) fn take_book<B: Book, R: Wait>(
    rt: &R,
    board: &Board<B>,
    token: &mut Token<B>,
) -> Shelved<B>
    requires board { IsTokenOf board.now.table_id token.old }
    requires ready { IsReady token.old }
    requires setup { token.old.me.0.setup ≡ Some (setup_of B.basis board.now.key) }
    ensures same { IsSameToken token.old token.new }
    ensures holds { token.new.me ≡ (holding (B.history result) token.old.me.0, (0, None) ∷ []) }
    ensures seen { IsPrefix token.old.me.0.seen (B.history result) }
    ensures own { HasSameOf token.old.me.0.used token.old.me.0.seen (B.history result) }
    ensures basis { B.basis result ≡ (setup_of B.basis board.now.key).basis }
{
    for _ in rt.forever() {
        if board.compare_exchange::<Wins>(token, TURN, 0, 1) == 0 {
            return board.exchange(token, BOOK, None).unwrap();
        }
        board.park_timeout(rt, TURN, 1, Duration::from_millis(NAP));
    }
    unreachable!()
}

/// Sets the turn free, with the book in its slot, and wakes one who waits for it, if that is due.
fn set_free<B: Book>(board: &Board<B>, token: &mut Token<B>, wakes: bool)
    requires board { IsTokenOf board.now.table_id token.old }
    requires turn { token.old.me.0.turn ≡ true }
    requires book { (book : B) × (token.old.me.1 ≡ (0, Some book) ∷ []) × (B.history book ≡ token.old.me.0.seen) × (B.basis book ≡ (setup_of B.basis board.now.key).basis) }
    ensures same { IsSameToken token.old token.new }
    ensures freed { token.new.me ≡ (without_turn token.old.me.0, []) }
{
    board.store::<Frees>(token, TURN, 0);
    if wakes {
        board.wake_one(TURN);
    }
}

/// Puts the book back with one more entry of the seat, which joins the history at this position, and sets the turn free.
fn settle_applied<B: Book>(board: &Board<B>, token: &mut Token<B>, book: Shelved<B>, position: u32)
    requires board { IsTokenOf board.now.table_id token.old }
    requires turn { HasTurn token.old }
    requires basis { B.basis book ≡ (setup_of B.basis board.now.key).basis }
    requires posted { (e : Entry) × (B.history book ≡ token.old.me.0.seen ++ record { seat = token.old.me.0.first; entry = e } ∷ []) }
    requires fits { length (B.history book) < 2 ^ 32 }
    ensures same { IsSameToken token.old token.new }
    ensures applied { token.new.me ≡ (without_turn (having_seen (B.history book) token.old.me.0), []) }
{
    board.exchange(token, BOOK, Some(book));
    board.fetch_add::<Applies>(token, COUNT, 1);
    set_free(board, token, position % ENTRIES_A_WAKE == 0);
}

/// Puts the book back with the history that it had, and sets the turn free.
fn settle<B: Book>(board: &Board<B>, token: &mut Token<B>, book: Shelved<B>)
    requires board { IsTokenOf board.now.table_id token.old }
    requires turn { HasTurn token.old }
    requires basis { B.basis book ≡ (setup_of B.basis board.now.key).basis }
    requires same { B.history book ≡ token.old.me.0.seen }
    ensures same { IsSameToken token.old token.new }
    ensures freed { token.new.me ≡ (without_turn token.old.me.0, []) }
{
    board.exchange(token, BOOK, Some(book));
    board.load::<Pins>(token, COUNT);
    set_free(board, token, true);
}

/// Posts an entry in the book of the turn, and sets the turn free.
pub(crate) fn post_in<B: Book>(
    board: &Board<B>,
    token: &mut Token<B>,
    book: Shelved<B>,
    number: u32,
    entry: &Entry,
) -> Result<u32, PostRefused>
    requires board { IsTokenOf board.now.table_id token.old }
    requires turn { HasTurn token.old }
    requires basis { B.basis book ≡ (setup_of B.basis board.now.key).basis }
    requires same { B.history book ≡ token.old.me.0.seen }
    requires number { number ≡ token.old.me.0.first }
    requires entry { B.takes (B.basis book) entry.now }
    ensures same { IsSameToken token.old token.new }
    ensures freed { IsFreed token.old token.new }
    ensures seen { IsPrefix token.old.me.0.seen token.new.me.0.seen }
    ensures ok { OnOk result (token.new.me ≡ (without_turn (having_seen (token.old.me.0.seen ++ record { seat = number; entry = entry.now } ∷ []) token.old.me.0), [])) }
    ensures number { IfOk result (λ n. n ≡ length token.old.me.0.seen + 1) }
    ensures room { OnOk result (length token.old.me.0.seen < (B.basis book).limit) }
    ensures err { OnErr result (token.new.me ≡ (without_turn token.old.me.0, [])) }
    ensures full { IfErr result (IsRefusedAt (B.basis book).limit token.old.me.0.seen) }
{
    let mut book = book;
    match book.post(number, entry) {
        Ok(position) => {
            settle_applied(board, token, book, position);
            Ok(position)
        }
        Err(refused) => {
            settle(board, token, book);
            Err(refused)
        }
    }
}

/// A snapshot of the book of the turn, which is set free.
pub(crate) fn snap_in<B: Book>(
    board: &Board<B>,
    token: &mut Token<B>,
    book: Shelved<B>,
) -> Result<B::Snap, OutOfMemory>
    requires board { IsTokenOf board.now.table_id token.old }
    requires turn { HasTurn token.old }
    requires basis { B.basis book ≡ (setup_of B.basis board.now.key).basis }
    requires same { B.history book ≡ token.old.me.0.seen }
    ensures same { IsSameToken token.old token.new }
    ensures freed { IsFreed token.old token.new }
    ensures seen { token.new.me.0.seen ≡ token.old.me.0.seen }
    ensures shown { IfOk result (λ s. B.shown s ≡ B.history book) }
    ensures topology { IfOk result (λ s. B.shown_topology s ≡ (B.basis book).topology) }
{
    let snap = book.snap();
    settle(board, token, book);
    snap
}
