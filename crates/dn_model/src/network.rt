//! A network at a moment.

ghost use Rattle.std.specs.Prelude.{◌≤◌, length};

use crate::entry::Entry;
use crate::moment::{Moment, moments_after};
use crate::plain::{plain_downs, plain_target};
use crate::plain_delta::last_end;
use crate::topology::Topology;
use base::{LinkId, List, OutOfMemory, PathEnd, RouterId, Target};
use std::alloc::Global;

/// A network at a moment: its routers, and the links that are down or taken as down.
#[derive(Drop)]
pub(crate) struct Network {
    pub(crate) routers: Vec<Moment>,
    pub(crate) down: Vec<LinkId>,
    ghost few: { length routers.items ≤ 1024 },
}

impl Network {
    ghost use Rattle.std.specs.Prelude.{◌≡◌, ◌-◌, ◌<◌, ℕ, IfOk};
    ghost use Rattle.base.specs.Walk.{at_address, walk, walk_end};
    ghost use Rattle.dn_model.specs.Network.{IsNetwork, does_in, routers_in};

    /// A network after a history, with these links down besides those that are down after it.
    pub(crate) fn after(
        alloc: Global,
        t: &Topology,
        entries: &[Entry],
        down: &[LinkId],
    ) -> Result<Network, OutOfMemory>
        ensures { IfOk result (IsNetwork t.now entries.now down.now) }
    {
        let routers = moments_after(alloc, t, entries)?;
        let mut all = plain_downs(alloc, entries)?;
        all.extend_from_slice(down)?;
        Ok(Network { routers, down: all })
    }

    /// How many routers there are, at most 1,024.
    pub(crate) fn router_count(&self) -> u16
        ensures { result ≡ routers_in self.now }
    {
        self.routers.len() as u16
    }

    /// What a router does with an address.
    pub(crate) fn target(&self, router: RouterId, a: u32) -> Target
        ensures { result ≡ does_in self.now router a }
    {
        match self.routers.as_slice().get(router.0 as usize) {
            Some(moment) => plain_target(
                moment.routes.as_slice(),
                moment.objects.as_slice(),
                self.down.as_slice(),
                a,
            ),
            None => Target::NoRoute,
        }
    }

    /// The last end below `past` of the prefixes of a router's routes, if it is above `low`; else `low`.
    pub(crate) fn end_below(&self, router: RouterId, low: u64, past: u64) -> u64
        requires { low < past }
        ensures low { low ≤ result }
        ensures below { result < past }
        ensures alike { (a : ℕ) → result ≤ a → a < past →
            does_in self.now router a ≡ does_in self.now router (past - 1) }
    {
        match self.routers.as_slice().get(router.0 as usize) {
            Some(moment) => last_end(moment.routes.as_slice(), low, past),
            None => low,
        }
    }

    /// The walk of an address from a router: its routers in order, the first one included, and how it ends.
    pub(crate) fn walk(
        &self,
        alloc: Global,
        first: RouterId,
        a: u32,
    ) -> Result<(List<RouterId>, PathEnd), OutOfMemory>
        ensures routers { IfOk result (λ answer.
            answer.0 ≡ walk (at_address (does_in self.now) a) (routers_in self.now) first) }
        ensures end { IfOk result (λ answer.
            answer.1 ≡ walk_end (at_address (does_in self.now) a) (routers_in self.now) first) }
    {
        let mut routers = Vec::new(alloc);
        let mut router = first;
        let mut left = self.router_count();
        while left > 0 {
            routers.push(router)?;
            match self.target(router, a) {
                Target::To(far, _) => router = far,
                last => return Ok((List::from_vec(routers), PathEnd::At(last))),
            }
            left -= 1;
        }
        routers.push(router)?;
        Ok((List::from_vec(routers), PathEnd::Loop))
    }
}
