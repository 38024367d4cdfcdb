//! The publisher.

ghost use Rattle.std.specs.Prelude.{◌≡◌, ◌++◌, ◌∷◌, [], List, IfOk, OnOk, OnErr};
ghost use Rattle.std.specs.Arc.{arc_value};
ghost use mathlib.Core.List.{IsPrefix};
ghost use Rattle.fast_pins.specs.Known.{published};

use crate::edition::Edition;
use crate::press::Press;
use crate::reader::{FastReader, Mark};
use crate::shelf::{Shelf, put_back, seat, show};
use crate::shot::Shot;
use dn_model::OutOfMemory;
use left_right::Absorb;
use left_right::writer::Writer;
use std::alloc::Global;
use std::marker::Model;
use std::sync::{Arc, Wait};

/// What makes publishers.
pub struct FastPins;

/// The one that publishes. A contract sees the lists that it published, in order.
///
/// It is not `Drop`: end it by `close`. Its bound always holds.
pub struct Publisher<S: Shot>
where
    Edition<S>: Absorb<Edition<S>, State = Edition<S>>,
{
    alloc: Global,
    own: Edition<S>,
    press: Press,
    // A call that shows has it.
    shelf: Option<Shelf<S>>,
}

impl<S: Shot> Model for Publisher<S>
where
    Edition<S>: Absorb<Edition<S>, State = Edition<S>>,
{
    ghost use Rattle.fast_pins.specs.Known.{Known};
    ghost use Rattle.std.specs.Prelude.{◌≡◌, Some, IfSome};
    ghost use Rattle.left_right.specs.Sides.{view as view_of};
    ghost use Rattle.fast_pins.specs.Publishing.{IsPublisher};

    ghost Value = { Known };

    ghost view = { λ p. p.own };

    ghost invariant = { λ p. IsPublisher p.own p.press.seen.book p.press.seen.log
        × IfSome p.shelf (λ w. (w.desk.shown.value.origin ≡ p.own.origin) × (view_of w.desk.place ≡ Some p.own.origin)) };
}

impl FastPins {
    /// A publisher of a first snapshot. At most `readers` of its readers, and one at least, take the shown snapshot from
    /// it at one time.
    pub fn new<S: Shot, R: Wait>(
        rt: &R,
        alloc: Global,
        first: S,
        readers: u32,
    ) -> Result<Publisher<S>, OutOfMemory>
        ensures topology { IfOk result (λ p. p.topology ≡ S.shown_topology first) }
        ensures lists { IfOk result (λ p. p.lists ≡ S.shown first ∷ []) }
    {
        let press = Press::begin(&first);
        let own = Edition::of(Arc::new(alloc, first)?, &press.seen);
        let (one, two, three) = (own.again()?, own.again()?, own.again()?);
        let shelf = Writer::new(alloc, one, two, readers.max(1) as usize)?;
        let (shelf, shown) = show(rt, shelf, three);
        if shown.is_err() {
            drop(shelf.take(rt));
            return Err(OutOfMemory);
        }
        Ok(Publisher {
            alloc,
            own,
            press,
            shelf: Some(shelf),
        })
    }
}

impl<S: Shot> Publisher<S> {
    /// A reader, which knows all that was published so far. Where each place for readers is in use, it is one that
    /// pins what it was told of.
    pub fn reader(&mut self) -> Result<FastReader<S>, OutOfMemory>
        ensures same { self.new ≡ self.old }
        ensures known { IfOk result (λ r. r ≡ self.old) }
    {
        let own = self.own.again()?;
        let place = match &mut self.shelf {
            Some(shelf) => seat(shelf),
            None => None,
        };
        Ok(FastReader::of(own, place))
    }

    /// Publishes a snapshot, in one step. It waits for readers that are still taking one. After `OutOfMemory`, for which
    /// alone it fails, what was published is published.
    pub fn publish<R: Wait>(&mut self, rt: &R, snap: S) -> Result<(), OutOfMemory>
        requires topology { S.shown_topology snap ≡ self.old.topology }
        requires begins { IsPrefix (published self.old) (S.shown snap) }
        ensures ok { OnOk result (self.new ≡ record self.old { lists = self.old.lists ++ S.shown snap ∷ [] }) }
        ensures err { OnErr result (self.new ≡ self.old) }
    {
        let snap = Arc::new(self.alloc, snap)?;
        let told = Arc::try_clone(&snap)?;
        self.press.add::<S>(&snap);
        self.own = Edition::of(snap, &self.press.seen);
        let edition = Edition::of(told, &self.press.seen);
        // From here on nothing can be taken back. Where there is no memory to show it, a later publication does.
        if let Some(shelf) = self.shelf.take() {
            let (shelf, _shown) = show(rt, shelf, edition);
            put_back(rt, &mut self.shelf, shelf);
        }
        Ok(())
    }

    /// A mark of all that was published so far.
    pub fn mark(&self) -> Result<Mark<S>, OutOfMemory>
        ensures { IfOk result (λ m. m ≡ self.now) }
    {
        Ok(Mark::of(self.own.again()?))
    }

    /// Shows that all that one of its readers knows, and so each list that it pinned, was published, and that the list
    /// that it knows last is a beginning of the list that was published last. It is there for proofs: nothing changes.
    pub fn confirm(&mut self, reader: &FastReader<S>)
        requires own { reader.now.origin ≡ self.old.origin }
        ensures same { self.new ≡ self.old }
        ensures published { IsPrefix reader.now.lists self.new.lists }
        ensures begins { IsPrefix (published reader.now) (published self.new) }
    {
        reader.own().confirm(&mut self.press);
    }

    /// Ends the publisher. It waits for readers that are still taking a snapshot. Readers go on to pin what they know.
    pub fn close<R: Wait>(self, rt: &R) {
        let Publisher {
            alloc: _,
            own: _own,
            press: _press,
            shelf,
        } = self;
        if let Some(shelf) = shelf {
            drop(shelf.take(rt));
        }
    }
}
