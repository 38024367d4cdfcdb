//! What a call does that parts a seat, or takes another in.

ghost use Rattle.std.specs.Prelude.{◌≡◌, ◌<◌, [], false};
ghost use mathlib.Core.List.{IsPrefix};
ghost use Rattle.version_lock.specs.History.{HasSameOf, posted_by};
ghost use Rattle.version_lock.specs.Rule.{keeps_lower, has_upper, joined, numbers_of, upper_of};
ghost use Rattle.version_lock.specs.Steps.{without_olds};
ghost use Rattle.version_lock.specs.Tokens.{IsTokenOf, IsSameToken, IsFree};

use crate::book::Book;
use crate::plays::{Gives, Recalls, Share, TakesIn};
use crate::turn::TURN;
use crate::view::{Board, Token};

/// The upper numbers of the seat's span go to a new seat.
pub(crate) fn give<B: Book, C: Share>(
    board: &Board<B>,
    token: &mut Token<B>,
    count: u32,
) -> Token<B>
    requires board { IsTokenOf board.now.table_id token.old }
    requires free { IsFree token.old }
    requires count { count ≡ C.count }
    requires some_number { 0 < count }
    requires fewer { count < token.old.me.0.span }
    ensures same { IsSameToken token.old token.new }
    ensures left { token.new.me ≡ (keeps_lower count token.old.me.0, []) }
    ensures table { result.table_id ≡ token.old.table_id }
    ensures given { result.me ≡ (without_olds (has_upper count token.old.me.0), []) }
    ensures own { posted_by (upper_of count token.old.me.0) token.old.me.0.seen ≡ [] }
{
    let mut given = board.split_seat::<Gives<C>>(token);
    board.load::<Recalls>(&mut given, TURN);
    given
}

/// The seat takes in what another has seen, and its numbers.
pub(crate) fn take_in<B: Book>(board: &Board<B>, token: &mut Token<B>, other: Token<B>)
    requires board { IsTokenOf board.now.table_id token.old }
    requires free { IsFree token.old }
    requires other { IsTokenOf board.now.table_id other }
    requires other_free { IsFree other }
    ensures same { IsSameToken token.old token.new }
    ensures both { token.new.me ≡ (without_olds (joined token.old.me.0 other.me.0), []) }
    ensures mine { IsPrefix token.old.me.0.seen token.new.me.0.seen }
    ensures theirs { IsPrefix other.me.0.seen token.new.me.0.seen }
    ensures own { HasSameOf token.old.me.0.used token.old.me.0.seen token.new.me.0.seen }
    ensures brought { HasSameOf (numbers_of other.me.0.first other.me.0.span other.me.0.used) other.me.0.seen token.new.me.0.seen }
{
    board.join_seat::<TakesIn>(token, other);
    board.load::<Recalls>(token, TURN);
}
