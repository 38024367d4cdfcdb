//! Routers at a moment.

ghost use Rattle.std.specs.Prelude.{◌≡◌, IfOk};
ghost use Rattle.dn_model.specs.Moment.{AreMoments, IsMoment};

use crate::entry::{Entry, Route};
use crate::plain::{plain_objects, plain_routes};
use crate::topology::Topology;
use base::{List, OutOfMemory, RouterId, Target};
use std::alloc::Global;

/// What a router does at a moment comes of this, and of the links that are down: its routes, and its device's next-hop
/// objects.
#[derive(Drop)]
pub(crate) struct Moment {
    pub(crate) routes: List<Route>,
    pub(crate) objects: Vec<(u32, Target)>,
}

/// A router after a history.
fn moment_after(
    alloc: Global,
    t: &Topology,
    entries: &[Entry],
    router: RouterId,
) -> Result<Moment, OutOfMemory>
    ensures { IfOk result (IsMoment t.now entries.now router) }
{
    let routes = plain_routes(alloc, t, entries, router)?;
    let objects = plain_objects(alloc, t, entries, router)?;
    Ok(Moment { routes, objects })
}

/// All routers of a network after a history, in their order.
pub(crate) fn moments_after(
    alloc: Global,
    t: &Topology,
    entries: &[Entry],
) -> Result<Vec<Moment>, OutOfMemory>
    ensures { IfOk result (λ moments. AreMoments t.now entries.now moments.items) }
{
    let count = t.router_count();
    let mut moments = Vec::new(alloc);
    let mut next = 0;
    while next < count {
        let moment = moment_after(alloc, t, entries, RouterId(next as u16))?;
        moments.push(moment)?;
        next += 1;
    }
    Ok(moments)
}
