//! Links that are down.

ghost use Rattle.std.specs.Prelude.{◌≡◌, map};
ghost use Rattle.base.specs.Links.{is_down, without};

use base::{LinkId, Target};

/// Whether a link is one of these.
fn is_down_link(down: &[LinkId], link: LinkId) -> bool
    ensures { result ≡ is_down down.now link }
{
    down.iter().any(|l| l.0 == link.0)
}

/// A target, where these links are down.
pub fn with_links_down(down: &[LinkId], target: Target) -> Target
    ensures { result ≡ without down.now target }
{
    match target {
        Target::To(router, link) => {
            if is_down_link(down, link) {
                Target::LinkDown(link)
            } else {
                Target::To(router, link)
            }
        }
        other => other,
    }
}

/// Puts in the place of a target what it is where these links are down. It is written only where that is something
/// else.
fn take_link_down(down: &[LinkId], target: &mut Target)
    ensures { target.new ≡ without down.now target.old }
{
    let Target::To(_, link) = *target else {
        return;
    };
    if is_down_link(down, link) {
        *target = Target::LinkDown(link);
    }
}

/// Puts in the place of each of these targets what it is where these links are down.
pub fn take_links_down(down: &[LinkId], targets: &mut [Target])
    ensures { targets.new ≡ map (without down.now) targets.old }
{
    for target in targets.iter_mut() {
        take_link_down(down, target);
    }
}
