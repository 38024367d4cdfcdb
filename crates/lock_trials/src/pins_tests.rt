//! Pins that wait for nobody, over small histories.

ghost use Rattle.std.specs.Prelude.{◌≡◌, ◌^◌, ◌<◌, ◌∷◌, [], length, IfOk};
ghost use Rattle.std.specs.Arc.{arc_value};
ghost use Rattle.fast_pins.specs.Known.{published};

use crate::same::same;
use dn_model::{Entry, List, Op, OutOfMemory, Posted, Prefix, RouterId, Topology};
use fast_pins::{FastPins, FastReader, Publisher, Shot};
use std::alloc::Global;
use std::sync::{Arc, Wait};
use std::test::Fail;

/// A snapshot that keeps its list.
#[derive(Drop)]
struct PlainShot {
    alloc: Global,
    topology: Arc<Topology, Global>,
    posted: List<Posted>,
    ghost few: { length posted < 2 ^ 32 },
}

impl Shot for PlainShot {
    ghost use Rattle.std.specs.Arc.{arc_value};

    ghost shown = { λ s. s.posted };

    ghost shown_topology = { λ s. arc_value s.topology };

    fn number(&self) -> u32 {
        self.posted.len() as u32
    }

    fn copy(&self) -> Result<PlainShot, OutOfMemory> {
        let posted = Vec::from_slice(self.alloc, self.posted.as_slice())?;
        Ok(PlainShot {
            alloc: self.alloc,
            topology: Arc::try_clone(&self.topology)?,
            posted: List::from_vec(posted),
        })
    }
}

/// An empty network.
fn network(alloc: Global) -> Result<Arc<Topology, Global>, OutOfMemory> {
    Ok(Arc::new(
        alloc,
        Topology {
            routers: List::new(alloc),
            tables: List::new(alloc),
            links: List::new(alloc),
            edges: List::new(alloc),
        },
    )?)
}

/// A snapshot of nothing.
fn nothing(alloc: Global, topology: &Arc<Topology, Global>) -> Result<PlainShot, OutOfMemory>
    ensures topology { IfOk result (λ s. arc_value s.topology ≡ arc_value topology.now) }
    ensures posted { IfOk result (λ s. s.posted ≡ []) }
{
    Ok(PlainShot {
        alloc,
        topology: Arc::try_clone(topology)?,
        posted: List::new(alloc),
    })
}

/// A snapshot of one entry.
fn one(alloc: Global, topology: &Arc<Topology, Global>) -> Result<PlainShot, OutOfMemory>
    ensures topology { IfOk result (λ s. arc_value s.topology ≡ arc_value topology.now) }
{
    let mut posted = List::new(alloc);
    posted.push(Posted {
        seat: 0,
        entry: Entry::Route {
            router: RouterId(0),
            feed_no: 1,
            op: Op::Clear {
                prefix: Prefix::new(0, 0),
                metric: None,
            },
        },
    })?;
    Ok(PlainShot {
        alloc,
        topology: Arc::try_clone(topology)?,
        posted,
    })
}

/// What goes to another thread.
fn moves<T: Send>(_value: &T) {}

/// How many entries two readers pin of a publisher that publishes one entry after none: what `pin_around` tells, and
/// then what the first pins once the publisher has ended.
fn pin_to_the_end<R: Wait>(rt: &R, alloc: Global) -> Result<[u32; 6], OutOfMemory> {
    let network = network(alloc)?;
    let snap = one(alloc, &network)?;
    let mut publisher = FastPins::new(rt, alloc, nothing(alloc, &network)?, 1)?;
    moves(&publisher);
    let pinned = pin_around(rt, &mut publisher, snap);
    publisher.close(rt);
    let (mut reader, [early, shown, learnt, untold, told]) = pinned?;
    Ok([early, shown, learnt, untold, told, reader.pin()?.number()])
}

/// The first reader has the one place and the second has none. How many entries the first pinned before the publication
/// and holds after it, pins then untold, and pins when it has learnt a mark; and what `pin_untold_and_told` tells of
/// the second.
fn pin_around<R: Wait>(
    rt: &R,
    publisher: &mut Publisher<PlainShot>,
    snap: PlainShot,
) -> Result<(FastReader<PlainShot>, [u32; 5]), OutOfMemory>
    requires topology { arc_value snap.topology ≡ publisher.old.topology }
    requires nothing { published publisher.old ≡ [] }
{
    let mut placed = publisher.reader()?;
    let mut placeless = publisher.reader()?;
    moves(&placed);
    let early = placed.pin()?;
    publisher.publish(rt, snap)?;
    let shown = placed.pin()?.number();
    placed.learn(publisher.mark()?);
    let learnt = placed.pin()?.number();
    let [untold, told] = pin_untold_and_told(publisher, &mut placeless)?;
    Ok((placed, [early.number(), shown, learnt, untold, told]))
}

/// How many entries a reader pins before and after it learns a mark of all that was published.
fn pin_untold_and_told(
    publisher: &mut Publisher<PlainShot>,
    reader: &mut FastReader<PlainShot>,
) -> Result<[u32; 2], OutOfMemory>
    requires own { reader.old.origin ≡ publisher.old.origin }
{
    let untold = reader.pin()?.number();
    let mark = publisher.mark()?;
    moves(&mark);
    reader.learn(mark);
    let told = reader.pin()?.number();
    publisher.confirm(reader);
    Ok([untold, told])
}

#[test]
fn a_reader_pins_what_is_shown_or_told(rt: HostRuntime) -> Result<(), Fail> {
    same(&rt, &pin_to_the_end(&rt, rt.alloc())?, &[0, 1, 1, 0, 1, 1]);
    Ok(())
}
