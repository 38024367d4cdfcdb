//! What objects and their users are found by.

ghost use Rattle.std.specs.Prelude.{◌≡◌};
ghost use Rattle.nexthop_objects.specs.Keys.{first_key, key_of, last_key, IsUserKey};
ghost use Rattle.nexthop_objects.specs.Objects.{user_of};

use dn_model::{Prefix, RouterId};

/// A next-hop object: its device, and its id there.
#[derive(Clone, Copy, Debug, PartialEq, Eq, PartialOrd, Ord)]
pub struct ObjectKey {
    pub device: RouterId,
    pub id: u32,
}

/// A route by an object, with the object first: so the users of an object stand together, by router, prefix and metric.
#[derive(Clone, Copy, Debug, PartialEq, Eq, PartialOrd, Ord)]
pub struct UserKey {
    pub object: ObjectKey,
    pub router: RouterId,
    pub base: u32,
    pub len: u8,
    pub metric: u32,
}

impl UserKey {
    /// The route of this router, prefix and metric by an object.
    pub fn new(object: ObjectKey, router: RouterId, prefix: Prefix, metric: u32) -> UserKey
        ensures value { result ≡ key_of object (router, prefix, metric) }
        ensures sound { IsUserKey result }
    {
        UserKey {
            object,
            router,
            base: prefix.base(),
            len: prefix.len(),
            metric,
        }
    }

    /// No user of an object stands before this one.
    pub fn first(object: ObjectKey) -> UserKey
        ensures { result ≡ first_key object }
    {
        UserKey {
            object,
            router: RouterId(0),
            base: 0,
            len: 0,
            metric: 0,
        }
    }

    /// No user of an object stands behind this one.
    pub fn last(object: ObjectKey) -> UserKey
        ensures { result ≡ last_key object }
    {
        UserKey {
            object,
            router: RouterId(u16::MAX),
            base: u32::MAX,
            len: u8::MAX,
            metric: u32::MAX,
        }
    }

    /// The router, prefix and metric of the route.
    pub fn user(&self) -> (RouterId, Prefix, u32)
        requires { IsUserKey self.now }
        ensures { result ≡ user_of self.now }
    {
        (self.router, Prefix::new(self.base, self.len), self.metric)
    }
}
