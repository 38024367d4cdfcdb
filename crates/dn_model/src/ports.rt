//! What stands at the interfaces of routers.

use base::{LinkId, RouterId};

/// What is at an interface of a router.
#[derive(Clone, Copy, Debug, PartialEq, Eq)]
pub enum Port {
    /// An end of this link. A route without a gateway leads to the far router only where the link is `unnumbered`.
    Link {
        far: RouterId,
        link: LinkId,
        unnumbered: bool,
    },
    /// An edge of the network.
    Edge,
}
