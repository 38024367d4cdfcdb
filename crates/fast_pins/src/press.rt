//! The right to publish.

ghost use Rattle.std.specs.Prelude.{◌≡◌, ◌<◌, ◌++◌, ◌∷◌, [], List, length, Some};
ghost use mathlib.Core.List.{IsPrefix};
ghost use Rattle.logbook.specs.Pages.{may_write};
ghost use Rattle.fast_pins.specs.Law.{head_of, line_in, next_in, topology_in, list_in, lists_of, Ends, IsOfLine};

use crate::law::{Add, Arm, Begin, Draft, Front, Head, Look, Nothing};
use crate::shot::Shot;
use logbook::{Offer, Pen, Seen, Start, Word};
use std::snapshot::Snapshot;

/// The right to add to a line, which its publisher alone has, and what it has seen of the book: all of its line.
#[derive(Drop)]
pub(crate) struct Press {
    head: Head,
    pub(crate) seen: Front,
    pen: Pen,
    ghost head_is: { head ≡ head_of seen.book },
    ghost pen_is: { (pen.book ≡ seen.book) × (pen.nib.right ≡ may_write) × (pen.nib.key ≡ next_in seen.log) },
    pub(crate) ghost some_issue: { 0 < length seen.log },
}

/// A right to write a cell of its own.
fn arm<S: Shot>(head: &Head, seen: &Front, snap: &S) -> Pen
    requires head { head.now ≡ head_of seen.now.book }
    ensures book { result.book ≡ seen.now.book }
    ensures right { result.nib.right ≡ may_write }
{
    let about = Snapshot::of(snap);
    let mut look = seen.again();
    let mut offer: Offer<_, _, _, Nothing> = seen.plain::<Nothing, Snapshot<S>, Arm>(&about);
    let mut pen = seen.no_pen();
    head.compare_exchange::<Arm, Nothing>(0, 0, &mut look, &mut offer, &mut pen);
    drop(Head::tracked(0, &mut pen));
    pen
}

impl Press {
    /// Begins a line with a first snapshot.
    pub(crate) fn begin<S: Shot>(snap: &S) -> Press
        ensures ends { Ends result.seen.log (S.shown_topology snap.now) (S.shown snap.now) }
        ensures lists { lists_of (line_in result.seen.log) result.seen.log ≡ S.shown snap.now ∷ [] }
    {
        let (mut seen, mut first, _second): (Front, Pen, Pen) = Seen::open(Start::alone(), 0, 0);
        let head = Word::tracked(0, &mut first);
        let mut pen = arm(&head, &seen, snap);
        let draft = Draft {
            snap: Snapshot::of(snap),
            next: arm(&head, &seen, snap),
        };
        let mut offer: Offer<_, _, _, Nothing> = seen.plain::<Nothing, Draft<S>, Begin>(&draft);
        head.compare_exchange::<Begin, Nothing>(0, 0, &mut seen, &mut offer, &mut pen);
        let Draft { snap: _, next } = draft;
        Press {
            head,
            seen,
            pen: next,
        }
    }

    /// Adds a snapshot to the line.
    pub(crate) fn add<S: Shot>(&mut self, snap: &S)
        requires topology { topology_in self.old.seen.log ≡ Some (S.shown_topology snap.now) }
        requires begins { IsPrefix (list_in self.old.seen.log) (S.shown snap.now) }
        ensures book { self.new.seen.book ≡ self.old.seen.book }
        ensures ends { Ends self.new.seen.log (S.shown_topology snap.now) (S.shown snap.now) }
        ensures line { line_in self.new.seen.log ≡ line_in self.old.seen.log }
        ensures lists { lists_of (line_in self.old.seen.log) self.new.seen.log
            ≡ lists_of (line_in self.old.seen.log) self.old.seen.log ++ S.shown snap.now ∷ [] }
    {
        let draft = Draft {
            snap: Snapshot::of(snap),
            next: arm(&self.head, &self.seen, snap),
        };
        let mut offer: Offer<_, _, _, Nothing> = self.seen.plain::<Nothing, Draft<S>, Add>(&draft);
        self.head
            .compare_exchange::<Add, Nothing>(0, 0, &mut self.seen, &mut offer, &mut self.pen);
        let Draft { snap: _, next } = draft;
        self.pen = next;
    }

    /// Whatever was seen of the line is a beginning of it, and its last list begins the line's. The snapshot is any.
    pub(crate) fn confirm<S: Shot>(&mut self, snap: &S, seen: &Front)
        requires book { seen.now.book ≡ self.old.seen.book }
        ensures same { self.new.seen ≡ self.old.seen }
        ensures lists { IsPrefix (lists_of (line_in self.old.seen.log) seen.now.log)
            (lists_of (line_in self.old.seen.log) self.old.seen.log) }
        ensures begins { IsOfLine seen.now.log self.old.seen.log
            → IsPrefix (list_in seen.now.log) (list_in self.old.seen.log) }
    {
        let about = Snapshot::of(snap);
        let mut both = self.seen.again();
        both.learn(seen);
        let mut offer: Offer<_, _, _, Nothing> = both.plain::<Nothing, Snapshot<S>, Look>(&about);
        self.head
            .compare_exchange::<Look, Nothing>(0, 0, &mut both, &mut offer, &mut self.pen);
    }
}
