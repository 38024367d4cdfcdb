//! The publisher of the job that applies, and the readers of the other jobs.

ghost use Rattle.std.specs.Prelude.{◌≡◌, All, length, IfOk};
ghost use Rattle.version_lock.specs.Callers.{IsSeatOf};
ghost use Rattle.feed_threads.specs.Beside.{ShowsTo};
ghost use Rattle.feed_threads.specs.Room.{HasRoom};
ghost use Rattle.feed_threads.specs.Seats.{LooksOn};

use crate::site::Site;
use dn_io::Gate;
use dn_model::OutOfMemory;
use fast_pins::{FastPins, FastReader, Publisher};
use std::sync::Wait;
use version_lock::Seat;
use version_store::Snapshot;

/// A publisher, and readers of it, which know what it has published. It isn't `Drop`, since a publisher is to be ended.
pub(crate) struct ShownReaders {
    pub(crate) publisher: Publisher<Snapshot>,
    pub(crate) readers: Vec<FastReader<Snapshot>>,
}

/// So many readers of a publisher, which have room. Where memory is wanting the publisher is ended.
fn with_readers<R: Wait>(
    rt: &R,
    publisher: Publisher<Snapshot>,
    room: Vec<FastReader<Snapshot>>,
    count: usize,
) -> Result<ShownReaders, OutOfMemory>
    requires { HasRoom count room }
    ensures publisher { IfOk result (λ shown. shown.publisher ≡ publisher) }
    ensures readers { IfOk result (λ shown. All (λ r. r ≡ publisher) shown.readers.items) }
    ensures count { IfOk result (λ shown. length shown.readers.items ≡ count) }
{
    let mut publisher = publisher;
    let mut readers = room;
    for made in 0..count {
        let _ = made;
        match publisher.reader() {
            Ok(reader) => readers.push_reserved(reader),
            Err(OutOfMemory) => {
                publisher.close(rt);
                return Err(OutOfMemory);
            }
        }
    }
    Ok(ShownReaders { publisher, readers })
}

/// A publisher that shows what the seat then sees, and so many readers of it.
pub(crate) fn show_readers<G: Gate, R: Wait>(
    rt: &R,
    site: &Site<'_, G>,
    seat: &mut Seat,
    count: u32,
) -> Result<ShownReaders, OutOfMemory>
    requires lock { IsSeatOf site.now seat.old }
    ensures looks { LooksOn seat.old seat.new }
    ensures shown { IfOk result (ShowsTo site.now seat.new count) }
{
    let alloc = site.alloc;
    let room = Vec::with_capacity(alloc, count as usize)?;
    let _number = seat.number();
    let pinned = site.lock.pin(rt, seat)?;
    let publisher = FastPins::new(rt, alloc, pinned.snap, count)?;
    with_readers(rt, publisher, room, count as usize)
}
