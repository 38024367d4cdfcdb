//! What histories with next-hop objects come to. Each function is a law: it does nothing, and its contract says it.

ghost use Rattle.std.specs.Prelude.{◌≡◌, ℕ, All, Contains, List, [], ◌∷◌, ◌++◌, ◌==◌, ◌&&◌, if◌then◌else◌};
ghost use Rattle.std.specs.List.{list_any};
ghost use Rattle.base.specs.Cidr.{IsCidr};
ghost use Rattle.base.specs.declared.ids.RouterId.{RouterId};
ghost use Rattle.base.specs.declared.target.Target.{Target};
ghost use Rattle.dn_model.specs.Downs.{downs};
ghost use Rattle.dn_model.specs.Entry.{ends_of_set, IsEntryOf};
ghost use Rattle.dn_model.specs.Table.{does_after, is_by, table, target_after, way_in};
ghost use Rattle.dn_model.specs.Tables.{device_of};
ghost use Rattle.dn_model.specs.declared.entry.Entry.{Entry};
ghost use Rattle.dn_model.specs.declared.entry.Entry.TheVariants as entries;
ghost use Rattle.dn_model.specs.declared.entry.Op.TheVariants.{NoObject, Object};
ghost use Rattle.dn_model.specs.declared.entry.Route.{Route};
ghost use Rattle.dn_model.specs.declared.topology.Topology.{Topology};
ghost use Rattle.nexthop_objects.specs.Book.{clears, AreUsersAfter};
ghost use Rattle.nexthop_objects.specs.Flat.{flat, AreLive, HasNoObject};
ghost use Rattle.nexthop_objects.specs.Objects.{User};

/// After a network's updates each router does with each address what it does where routes are set to what their objects
/// do, and set or cleared again with those, whether an object is there when a route by it is set or not. The same links
/// are down, and prefixes that were set begin and end at the same addresses.
pub fn flat_is_same()
    ensures targets { (t : Topology) (history : List Entry) → All (IsEntryOf t) history → (r : RouterId) (a : ℕ) →
        ((x : Route) → Contains (table t history r) x → IsCidr x.prefix) →
        target_after t (flat t history) r a ≡ target_after t history r a }
    ensures links { (t : Topology) (history : List Entry) → downs (flat t history) ≡ downs history }
    ensures does { (t : Topology) (history : List Entry) → All (IsEntryOf t) history → (r : RouterId) (a : ℕ) →
        ((x : Route) → Contains (table t history r) x → IsCidr x.prefix) →
        does_after t (flat t history) r a ≡ does_after t history r a }
    ensures ends { (t : Topology) (history : List Entry) (a : ℕ) →
        list_any (ends_of_set a) (flat t history) ≡ list_any (ends_of_set a) history }
{}

/// Where each object is there when a route by it is set, these are a network's updates too, and none of them is of an
/// object or by one.
pub fn flat_has_no_objects()
    ensures { (t : Topology) (history : List Entry) → All (IsEntryOf t) history → AreLive t history →
        All (IsEntryOf t) (flat t history) × All HasNoObject (flat t history) }
{}

/// A next-hop object that a device sets moves the routes by it, of the device and of its VRFs: each router does with an
/// address what the object does exactly where the route in force there is by it, and else what it did.
pub fn object_moves()
    ensures { (t : Topology) (history : List Entry) (device : RouterId) (feed id : ℕ) (target : Target)
        (r : RouterId) (a : ℕ) → target_after t (history ++ entries.Route device feed (Object id target) ∷ []) r a ≡
        (if ((device_of t r).0 == device.0) && is_by id (way_in (table t history r) a)
        then target else target_after t history r a) }
{}

/// A next-hop object that goes away from its device does to each router what a clear of each route by it does, in any
/// order.
pub fn no_object_clears()
    ensures tables { (t : Topology) (history : List Entry) (device : RouterId) (feed id : ℕ) (users : List User) →
        device_of t device ≡ device → AreUsersAfter t history device id users → (r : RouterId) →
        table t (history ++ entries.Route device feed (NoObject id) ∷ []) r ≡ table t (history ++ clears feed users) r }
    ensures targets { (t : Topology) (history : List Entry) (device : RouterId) (feed id : ℕ) (users : List User) →
        device_of t device ≡ device → AreUsersAfter t history device id users → (r : RouterId) (a : ℕ) →
        target_after t (history ++ entries.Route device feed (NoObject id) ∷ []) r a ≡
        target_after t (history ++ clears feed users) r a }
{}
