//! The routers of a run's feeds.

ghost use Rattle.std.specs.Prelude.{◌≡◌, ◌<◌, ◌==◌, ◌∷◌, [], map, length, All, Ok, Some, IsTrue, IfOk, IfErr, IfSome, false};
ghost use Rattle.std.specs.List.{list_any};
ghost use Rattle.base.specs.Lists.{all_differ};
ghost use Rattle.dn_run.specs.Jobs.{same_router};
ghost use Rattle.dn_run.specs.PartsRead.{feed_texts};
ghost use Rattle.dn_run.specs.RoutersFound.{AreRoutersRefused};
ghost use Rattle.dn_run.specs.Run.{device_named, router_faults, routers_of};

use crate::parts::FeedPart;
use dn_formats::ErrorLine;
use dn_model::{Name, OutOfMemory, RouterId, Topology, device_of, router};
use std::alloc::{AllocError, AllocFailed, Global};

/// Why the routers of feeds aren't found.
#[derive(Clone, Copy, Debug, PartialEq, Eq)]
pub enum RoutersRefused {
    /// The line that tells the first fault.
    Line(ErrorLine),
    /// Memory ran out.
    OutOfMemory,
}

impl<T: Drop> From<AllocFailed<T>> for RoutersRefused {
    ghost use Rattle.std.specs.Prelude.{◌≡◌};
    ghost use Rattle.dn_run.specs.declared.routers.RoutersRefused.TheVariants as variant;

    ghost from_gives = { λ _ e. e ≡ variant.OutOfMemory };

    fn from(_error: AllocFailed<T>) -> Self {
        RoutersRefused::OutOfMemory
    }
}

impl From<ErrorLine> for RoutersRefused {
    ghost use Rattle.std.specs.Prelude.{◌≡◌};
    ghost use Rattle.dn_run.specs.declared.routers.RoutersRefused.TheVariants as variant;

    ghost from_gives = { λ line e. e ≡ variant.Line line };

    fn from(line: ErrorLine) -> Self {
        RoutersRefused::Line(line)
    }
}

/// Whether a router is among these.
pub fn is_among(routers: &[RouterId], router: RouterId) -> bool
    ensures { result ≡ list_any (λ q. q.0 == router.0) routers.now }
{
    routers.iter().any(|other| other.0 == router.0)
}

/// The router of a name, if it is a device: a VRF has no feed.
fn device_named(topology: &Topology, name: &Name) -> Option<RouterId>
    ensures value { result ≡ device_named topology.now name.now }
    ensures within { IfSome result (λ r. r.0 < length topology.now.routers) }
{
    let router = router(topology, name)?;
    if device_of(topology, router).0 == router.0 {
        Some(router)
    } else {
        None
    }
}

/// The device of a feed, which these devices of feeds stand before; or the line that tells why it may not have the
/// feed.
fn find_router(
    topology: &Topology,
    before: &[RouterId],
    feed: &FeedPart,
) -> Result<RouterId, ErrorLine>
    ensures found { IfOk result (λ r. device_named topology.now feed.now.router ≡ Some r) }
    ensures within { IfOk result (λ r. r.0 < length topology.now.routers) }
    ensures fresh { IfOk result (λ r. list_any (λ q. q.0 == r.0) before.now ≡ false) }
    ensures refused { IfErr result (λ line. router_faults before.now feed.now.part
        (device_named topology.now feed.now.router) ≡ line ∷ []) }
{
    let Some(router) = device_named(topology, &feed.router) else {
        return Err(ErrorLine::UnknownRouter { part: feed.part });
    };
    if is_among(before, router) {
        return Err(ErrorLine::RouterTwice { part: feed.part });
    }
    Ok(router)
}

/// The devices of feeds, in order: each is in the topology, and no two feeds have one device; or the line that tells
/// the first fault.
pub fn find_routers(
    alloc: Global,
    topology: &Topology,
    feeds: &[FeedPart],
) -> Result<Vec<RouterId>, RoutersRefused>
    ensures ok { IfOk result (λ routers. routers_of topology.now (map feed_texts feeds.now) ≡ Ok routers.items) }
    ensures refused { IfErr result (λ e. AreRoutersRefused e (routers_of topology.now (map feed_texts feeds.now))) }
    ensures within { IfOk result (λ routers. All (λ r. r.0 < length topology.now.routers) routers.items) }
    ensures apart { IfOk result (λ routers. IsTrue (all_differ same_router routers.items)) }
    ensures len { IfOk result (λ routers. length routers.items ≡ length feeds.now) }
{
    let mut routers = Vec::new(alloc);
    let mut rest = feeds;
    while let [feed, after @ ..] = rest {
        let router = find_router(topology, routers.as_slice(), feed)?;
        routers.push(router)?;
        rest = after;
    }
    Ok(routers)
}
