//! The book of next-hop objects and their users.

ghost use Rattle.std.specs.Prelude.{◌≡◌, IfOk, None, OnErr, OnOk, Some, false, is_some, true};
ghost use Rattle.nexthop_objects.specs.Keys.{AreUserKeys};
ghost use Rattle.nexthop_objects.specs.Objects.{nothing, target_of, users_among, users_of};
ghost use Rattle.nexthop_objects.specs.Objects.{AreInOrder, AreOnce, SetsTarget, SetsUser};

use crate::keys::{ObjectKey, UserKey};
use dn_model::{List, OutOfMemory, Prefix, RouterId, Target};
use std::alloc::Global;
use std::collections::{BTreeMap, BTreeSet};
use std::marker::Model;
use std::ops::Bound;

/// What each next-hop object of each device does, and which routes go by it. An object has its device and its id there
/// as its key. Users are kept of objects that aren't there too, since one may be set later.
#[derive(Drop)]
pub struct Objects {
    alloc: Global,
    targets: BTreeMap<ObjectKey, Target>,
    users: BTreeSet<UserKey>,
}

impl Model for Objects {
    ghost use Rattle.nexthop_objects.specs.Keys.{AreUserKeys};
    ghost use Rattle.nexthop_objects.specs.Objects.{Standing};

    ghost Value = { Standing };

    ghost view = { λ o. record { targets = o.targets.entries; users = o.users.keys } };

    ghost invariant = { λ o. AreUserKeys o.users.keys };
}

impl Objects {
    /// No objects and no users. It takes no memory.
    pub fn new(alloc: Global) -> Self
        ensures { result ≡ nothing }
    {
        Objects {
            alloc,
            targets: BTreeMap::new(alloc),
            users: BTreeSet::new(alloc),
        }
    }

    /// Sets what an object of a device does, in place of what it did; its users stay. After `OutOfMemory`, for which
    /// alone it fails, all is as before.
    pub fn put(&mut self, device: RouterId, id: u32, target: Target) -> Result<(), OutOfMemory>
        ensures ok { OnOk result (SetsTarget self.old self.new device id (Some target)) }
        ensures users { self.new.users ≡ self.old.users }
        ensures err { OnErr result (self.new ≡ self.old) }
    {
        let _before = self.targets.insert(ObjectKey { device, id }, target)?;
        Ok(())
    }

    /// Takes an object of a device away; its users stay. It answers whether it was there. It takes no memory.
    pub fn take_out(&mut self, device: RouterId, id: u32) -> bool
        ensures was { result ≡ is_some (target_of self.old device id) }
        ensures left { SetsTarget self.old self.new device id None }
        ensures users { self.new.users ≡ self.old.users }
    {
        self.targets.remove(&ObjectKey { device, id }).is_some()
    }

    /// What an object of a device does; None exactly where it isn't there. It takes no memory.
    pub fn find(&self, device: RouterId, id: u32) -> Option<Target>
        ensures { result ≡ target_of self.now device id }
    {
        self.targets.get(&ObjectKey { device, id }).copied()
    }

    /// Adds the route of a router with this prefix and metric to the users of an object, whether that is there or not.
    /// One that is a user stays one. After `OutOfMemory`, for which alone it fails, all is as before.
    pub fn add_user(
        &mut self,
        device: RouterId,
        id: u32,
        router: RouterId,
        prefix: Prefix,
        metric: u32,
    ) -> Result<(), OutOfMemory>
        ensures ok { OnOk result (SetsUser self.old self.new device id (router, prefix, metric) true) }
        ensures targets { self.new.targets ≡ self.old.targets }
        ensures err { OnErr result (self.new ≡ self.old) }
    {
        let object = ObjectKey { device, id };
        let _is_new = self
            .users
            .insert(UserKey::new(object, router, prefix, metric))?;
        Ok(())
    }

    /// Takes the route of a router with this prefix and metric away from the users of an object. One that is no user
    /// changes nothing. It takes no memory.
    pub fn remove_user(
        &mut self,
        device: RouterId,
        id: u32,
        router: RouterId,
        prefix: Prefix,
        metric: u32,
    )
        ensures left { SetsUser self.old self.new device id (router, prefix, metric) false }
        ensures targets { self.new.targets ≡ self.old.targets }
    {
        let object = ObjectKey { device, id };
        let _was = self
            .users
            .remove(&UserKey::new(object, router, prefix, metric));
    }

    /// The routes by an object of a device, whether that is there or not: each once, as router, prefix and metric, in
    /// the order of router, first address, length and metric. It fails for want of memory alone.
    pub fn users(
        &self,
        device: RouterId,
        id: u32,
    ) -> Result<List<(RouterId, Prefix, u32)>, OutOfMemory>
        ensures all { IfOk result (λ users. users ≡ users_of self.now device id) }
        ensures once { AreOnce (users_of self.now device id) }
        ensures order { AreInOrder (users_of self.now device id) }
    {
        let users = users_in(self.alloc, &self.users, ObjectKey { device, id })?;
        Ok(List::from_vec(users))
    }

    /// The same objects with the same users, which later changes of this one don't touch. It fails for want of memory
    /// alone.
    pub fn copy(&self) -> Result<Objects, OutOfMemory>
        ensures { IfOk result (λ objects. objects ≡ self.now) }
    {
        let targets = self.targets.clone()?;
        let users = self.users.clone()?;
        Ok(Objects {
            alloc: self.alloc,
            targets,
            users,
        })
    }
}

/// The routes by an object, in their order.
fn users_in(
    alloc: Global,
    keys: &BTreeSet<UserKey>,
    object: ObjectKey,
) -> Result<Vec<(RouterId, Prefix, u32)>, OutOfMemory>
    requires { AreUserKeys keys.now.keys }
    ensures all { IfOk result (λ users. users.items ≡ users_among object.device object.id keys.now.keys) }
    ensures once { AreOnce (users_among object.device object.id keys.now.keys) }
    ensures order { AreInOrder (users_among object.device object.id keys.now.keys) }
{
    let first = UserKey::first(object);
    let last = UserKey::last(object);
    let mut users = Vec::new(alloc);
    for key in keys.range((Bound::Included(first), Bound::Included(last))) {
        users.push(key.user())?;
    }
    Ok(users)
}
