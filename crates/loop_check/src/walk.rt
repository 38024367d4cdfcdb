//! Walks over one row that mark the routers that they pass.

ghost use Rattle.std.specs.Prelude.{◌≡◌, ◌<◌, ◌⊎◌, List, None, Some, IfSome, IsSomeAnd, IsTrue, length, slice_index_or, slice_set};
ghost use Rattle.base.specs.Cycles.{is_cycle};
ghost use Rattle.base.specs.declared.ids.RouterId.{RouterId as Router};
ghost use Rattle.loop_check.specs.Following.{IsPassed, LeadInside, MeetsPassed, hops, is_among};

use crate::follow::target_at;
use base::{RouterId, Target};

/// The start of the walk that passed a router first, if any did.
fn mark_of(passed: &[Option<RouterId>], router: RouterId) -> Option<RouterId>
    requires { router.0 < length passed.now }
    ensures { result ≡ slice_index_or passed.now router.0 None }
{
    passed[router.0 as usize]
}

/// Marks a router as passed by the walk from another.
fn mark(passed: &mut [Option<RouterId>], router: RouterId, start: RouterId)
    requires { router.0 < length passed.old }
    ensures { passed.new ≡ slice_set passed.old router.0 (Some start) }
{
    passed[router.0 as usize] = Some(start);
}

/// Walks over a row from a router on, as far as no router was passed before, and marks the routers that it passes. It
/// gives the router where it came back to itself, if it did. Walks over one row pass each router once between them.
pub(crate) fn walk_from(
    targets: &[Target],
    passed: &mut [Option<RouterId>],
    start: RouterId,
) -> Option<RouterId>
    requires inside { start.0 < length targets.now }
    requires room { length passed.old ≡ length targets.now }
    requires within { LeadInside targets.now }
    ensures start { IsPassed passed.new start }
    ensures kept { (r : Router) → IsPassed passed.old r → IsPassed passed.new r }
    ensures met { IfSome result (λ r. r.0 < length targets.now) }
    ensures told { (routers : List Router) → IsTrue (is_cycle (hops targets.now) routers)
        → MeetsPassed passed.new routers → MeetsPassed passed.old routers ⊎ IsSomeAnd result (λ r. IsTrue (is_among routers r)) }
{
    let mut router = start;
    'passing: while mark_of(passed, router).is_none() {
        mark(passed, router, start);
        let Target::To(far, _) = target_at(targets, router) else {
            return None;
        };
        router = far;
    }
    match mark_of(passed, router) {
        Some(by) if by.0 == start.0 => Some(router),
        _ => None,
    }
}
