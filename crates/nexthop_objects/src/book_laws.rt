//! How objects and their users follow a history, entry by entry. Each function is a law: it does nothing, and its
//! contract says it.

ghost use Rattle.std.specs.Prelude.{◌≡◌, ℕ, Bool, List, [], ◌∷◌, ◌++◌, None, Option, Some, false, map, true};
ghost use Rattle.base.specs.Cidr.{Cidr};
ghost use Rattle.base.specs.declared.ids.LinkId.{LinkId};
ghost use Rattle.base.specs.declared.ids.RouterId.{RouterId};
ghost use Rattle.base.specs.declared.target.Target.{Target};
ghost use Rattle.dn_model.specs.Tables.{device_of};
ghost use Rattle.dn_model.specs.declared.entry.Entry.{Entry};
ghost use Rattle.dn_model.specs.declared.entry.Entry.TheVariants.{Route, Link};
ghost use Rattle.dn_model.specs.declared.entry.Op.TheVariants.{Set, SetBy, Clear, NoObject, Object};
ghost use Rattle.dn_model.specs.declared.topology.Topology.{Topology};
ghost use Rattle.nexthop_objects.specs.Book.{AreDisplaced, AreUsersAfter, IsBookAfter};
ghost use Rattle.nexthop_objects.specs.Objects.{nothing, SetsTarget, SetsUser, Standing, TakesUsers, Use, User};

/// Before the first entry there are no objects and no users.
pub fn book_begins_empty()
    ensures { (t : Topology) → IsBookAfter t [] nothing }
{}

/// A link that goes down or comes up changes neither objects nor users.
pub fn link_keeps_book()
    ensures { (t : Topology) (history : List Entry) (s : Standing) (job : ℕ) (l : LinkId) (down : Bool) →
        IsBookAfter t history s → IsBookAfter t (history ++ Link job l down ∷ []) s }
{}

/// A route that is set to a target takes away the users that it displaces: by objects of its router's device, of its
/// prefix and metric, or, where the router replaces by prefix, of its prefix.
pub fn set_takes_users()
    ensures { (t : Topology) (history : List Entry) (old new : Standing) (r : RouterId) (feed : ℕ) (p : Cidr) (m : ℕ)
        (target : Target) (uses : List Use) →
        IsBookAfter t history old → AreDisplaced t history r (Set p m target) uses →
        new.targets ≡ old.targets → TakesUsers old new (device_of t r) uses →
        IsBookAfter t (history ++ Route r feed (Set p m target) ∷ []) new }
{}

/// A clear takes away the users among the routes that it clears.
pub fn clear_takes_users()
    ensures { (t : Topology) (history : List Entry) (old new : Standing) (r : RouterId) (feed : ℕ) (p : Cidr)
        (m : Option ℕ) (uses : List Use) →
        IsBookAfter t history old → AreDisplaced t history r (Clear p m) uses →
        new.targets ≡ old.targets → TakesUsers old new (device_of t r) uses →
        IsBookAfter t (history ++ Route r feed (Clear p m) ∷ []) new }
{}

/// A route that is set by an object becomes one of its users. The other users that it displaces are taken away behind
/// that; or all that one set to a target would displace are taken away before.
pub fn set_by_adds_user()
    ensures first { (t : Topology) (history : List Entry) (old mid new : Standing) (r : RouterId) (feed : ℕ) (p : Cidr)
        (m id : ℕ) (uses : List Use) →
        IsBookAfter t history old → AreDisplaced t history r (SetBy p m id) uses → new.targets ≡ old.targets →
        SetsUser old mid (device_of t r) id (r, p, m) true → TakesUsers mid new (device_of t r) uses →
        IsBookAfter t (history ++ Route r feed (SetBy p m id) ∷ []) new }
    ensures last { (t : Topology) (history : List Entry) (old mid new : Standing) (r : RouterId) (feed : ℕ) (p : Cidr)
        (m id : ℕ) (target : Target) (uses : List Use) →
        IsBookAfter t history old → AreDisplaced t history r (Set p m target) uses → new.targets ≡ old.targets →
        TakesUsers old mid (device_of t r) uses → SetsUser mid new (device_of t r) id (r, p, m) true →
        IsBookAfter t (history ++ Route r feed (SetBy p m id) ∷ []) new }
{}

/// An object that is set keeps its users.
pub fn object_sets_target()
    ensures { (t : Topology) (history : List Entry) (old new : Standing) (device : RouterId) (feed id : ℕ)
        (target : Target) →
        IsBookAfter t history old → SetsTarget old new device id (Some target) → new.users ≡ old.users →
        IsBookAfter t (history ++ Route device feed (Object id target) ∷ []) new }
{}

/// An object that goes away, whether it is there or not, takes all its users away.
pub fn no_object_takes_users()
    ensures { (t : Topology) (history : List Entry) (old new : Standing) (device : RouterId) (feed id : ℕ)
        (users : List User) → device_of t device ≡ device →
        IsBookAfter t history old → AreUsersAfter t history device id users →
        SetsTarget old new device id None → TakesUsers old new device (map (λ (u : User). (id, u)) users) →
        IsBookAfter t (history ++ Route device feed (NoObject id) ∷ []) new }
{}

/// Users are taken away one after the other.
pub fn users_go_one_by_one()
    ensures none { (s : Standing) (device : RouterId) → TakesUsers s s device [] }
    ensures more { (old mid new : Standing) (device : RouterId) (id : ℕ) (user : User) (uses : List Use) →
        TakesUsers old mid device uses → SetsUser mid new device id user false →
        TakesUsers old new device (uses ++ (id, user) ∷ []) }
{}
