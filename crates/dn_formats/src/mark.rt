//! Marks of routers.

use dn_model::{Replace, RouterId};

/// What an entry of `router` in a topology's text says: how this router, by its place among the routers and VRFs,
/// replaces routes.
#[derive(Clone, Copy, Debug, PartialEq, Eq)]
pub struct Mark {
    pub router: RouterId,
    pub replace: Replace,
}
