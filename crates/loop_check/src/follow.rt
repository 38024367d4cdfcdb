//! The cycle of one row that has a router.

ghost use Rattle.std.specs.Prelude.{◌≡◌, ◌<◌, IfOk, length};
ghost use Rattle.loop_check.specs.Following.{IsCycleAt, IsFollowed, LeadInside, hops};

use base::{OutOfMemory, RouterId, Target};

/// How following a row from a router on ends.
pub(crate) enum Followed {
    /// It came back to the router: the routers passed are a cycle, of which it is the first.
    Round,
    /// No cycle has the router.
    Ends,
    /// It came to this router, which stands before that one in the topology's order.
    Earlier(RouterId),
}

/// What a router does.
pub(crate) fn target_at(targets: &[Target], router: RouterId) -> Target
    requires { router.0 < length targets.now }
    ensures { result ≡ hops targets.now router }
{
    targets[router.0 as usize]
}

/// Follows a row from a router on until it comes back, or to a router that stands before it, or ends. The routers
/// passed are left in `path`. A way that doesn't come back makes as many hops as there are routers at most.
fn follow(
    targets: &[Target],
    first: RouterId,
    path: &mut Vec<RouterId>,
) -> Result<Followed, OutOfMemory>
    requires inside { first.0 < length targets.now }
    requires within { LeadInside targets.now }
    ensures { IfOk result (λ followed. IsFollowed (hops targets.now) first path.new.items followed) }
{
    path.clear();
    path.push(first)?;
    let mut last = first;
    let mut left = targets.len();
    while left > 0 {
        let Target::To(far, _) = target_at(targets, last) else {
            return Ok(Followed::Ends);
        };
        if far.0 == first.0 {
            return Ok(Followed::Round);
        }
        if far.0 < first.0 {
            return Ok(Followed::Earlier(far));
        }
        path.push(far)?;
        last = far;
        left -= 1;
    }
    Ok(Followed::Ends)
}

/// Whether a cycle of a row has a router. The cycle's routers are left in `path`, from its first one on. It makes about
/// as many hops as twice the cycle has routers, since a way that comes to an earlier router goes on from there.
pub(crate) fn find_cycle(
    targets: &[Target],
    router: RouterId,
    path: &mut Vec<RouterId>,
) -> Result<bool, OutOfMemory>
    requires inside { router.0 < length targets.now }
    requires within { LeadInside targets.now }
    ensures { IfOk result (λ found. IsCycleAt (hops targets.now) router path.new.items found) }
{
    let mut first = router;
    'earlier: loop {
        match follow(targets, first, path)? {
            Followed::Round => return Ok(true),
            Followed::Ends => return Ok(false),
            Followed::Earlier(far) => first = far,
        }
    }
}
