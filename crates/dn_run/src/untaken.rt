//! How many jobs a run has.

ghost use Rattle.std.specs.Prelude.{◌≡◌, ◌+◌, ◌≤◌, nat_lt, not, length, filter, map};
ghost use Rattle.std.specs.List.{list_any};
ghost use Rattle.dn_formats.specs.Lawful.{takes};
ghost use Rattle.dn_run.specs.Jobs.{scripts_of};
ghost use Rattle.dn_run.specs.Limits.{most_jobs};
ghost use Rattle.dn_run.specs.Run.{untaken, takes_router};

use dn_formats::{Line, Script};
use dn_model::RouterId;

/// A run has at most this many jobs.
pub const MOST_JOBS: usize = 64;

/// Whether a line takes frames of this router's feed.
fn is_take_of(line: &Line, router: RouterId) -> bool
    ensures { result ≡ takes router line.now }
{
    match line {
        Line::Take { router: taken, .. } => *taken == router,
        Line::Ask { .. } => false,
        Line::Link { .. } => false,
    }
}

/// Whether some line of a script takes frames of this router's feed.
pub fn takes_feed(lines: &[Line], router: RouterId) -> bool
    ensures { result ≡ takes_router router lines.now }
{
    lines.iter().any(|line| is_take_of(line, router))
}

/// Whether some line of this script takes frames of this router's feed.
fn script_takes(script: &Script, router: RouterId) -> bool
    ensures { result ≡ takes_router router script.now.lines }
{
    takes_feed(script.lines.as_slice(), router)
}

/// Whether some script takes this router's feed.
fn is_taken(scripts: &[Script], router: RouterId) -> bool
    ensures { result ≡ list_any (λ script. takes_router router script.lines) scripts.now }
{
    scripts.iter().any(|script| script_takes(script, router))
}

/// Whether no script takes this router's feed, so that it is a job of its own.
pub fn is_own_feed(scripts: &[Script], router: RouterId) -> bool
    ensures { result ≡ not (list_any (takes_router router) (scripts_of scripts.now)) }
{
    !is_taken(scripts, router)
}

/// Whether these scripts, and the feeds of these routers that none of them takes, are more jobs than a run has.
pub fn has_too_many_jobs(routers: &[RouterId], scripts: &[Script]) -> bool
    requires feeds { length routers.now ≤ 64 }
    requires scripts { length scripts.now ≤ 64 }
    ensures { result ≡ nat_lt most_jobs (length (scripts_of scripts.now) + length
        (untaken (scripts_of scripts.now) routers.now)) }
{
    let mut jobs = scripts.len();
    let mut rest = routers;
    while let [router, after @ ..] = rest {
        if is_own_feed(scripts, *router) {
            jobs += 1;
        }
        rest = after;
    }
    jobs > MOST_JOBS
}
