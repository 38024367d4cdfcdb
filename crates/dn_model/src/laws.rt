//! What the definitions come to: laws of tables and histories that hold of all of them. Each function is a law: it
//! does nothing, and its contract says it.

ghost use Rattle.std.specs.Prelude.{◌≡◌, ◌<◌, ℕ, List, Contains, All, IsPermutation, IsTrue, length, true, ◌==◌};
ghost use Rattle.base.specs.Cidr.{IsCidr};
ghost use Rattle.dn_model.specs.LastDelta.{IsDeltaOf};
ghost use Rattle.dn_model.specs.Entry.{IsEntryOf};
ghost use Rattle.std.specs.Map.{lookup};
ghost use Rattle.base.specs.Links.{is_down};
ghost use Rattle.base.specs.Lists.{all_differ};
ghost use Rattle.dn_model.specs.Answer.{IsAnswer};
ghost use Rattle.dn_model.specs.Downs.{downs};
ghost use Rattle.dn_model.specs.LastSays.{last_made, last_takes_down};
ghost use Rattle.dn_model.specs.Query.{Question};
ghost use Rattle.dn_model.specs.Table.{table, best, is_of_prefix, objects, ops_on, HasKeysOnce, IsBest};
ghost use Rattle.dn_model.specs.Tables.{device_of, replaces_prefix};
ghost use Rattle.dn_model.specs.declared.answer.Answer.{Answer};
ghost use Rattle.base.specs.Walk.{at_address, LeadsWithin};
ghost use Rattle.dn_model.specs.Next.{next};
ghost use Rattle.base.specs.declared.change.Change.{Change};
ghost use Rattle.dn_model.specs.declared.entry.Entry.{Entry};
ghost use Rattle.dn_model.specs.declared.entry.Route.{Route};
ghost use Rattle.base.specs.declared.ids.LinkId.{LinkId};
ghost use Rattle.base.specs.declared.ids.RouterId.{RouterId};
ghost use Rattle.dn_model.specs.declared.topology.Topology.{Topology};

/// The route of an address is one of those that cover it, and none of them goes before it. It is none exactly where
/// none covers the address.
pub fn best_goes_first()
    ensures { (routes : List Route) (a : ℕ) → IsBest routes a (best routes a) }
{}

/// A table has each prefix and metric once.
pub fn tables_have_keys_once()
    ensures { (t : Topology) (history : List Entry) (router : RouterId) → HasKeysOnce (table t history router) }
{}

/// The order of a table that has each prefix and metric once doesn't matter to the route of an address.
pub fn best_has_no_order()
    ensures { (xs ys : List Route) (a : ℕ) → ((r : Route) → Contains xs r → IsCidr r.prefix) →
        HasKeysOnce xs → IsPermutation xs ys → best xs a ≡ best ys a }
{}

/// After a network's updates each of its routers goes on to one of its routers, if to any.
pub fn histories_lead_within()
    ensures { (t : Topology) (history : List Entry) (down : List LinkId) (a : ℕ) →
        All (IsEntryOf t) history → LeadsWithin (length t.routers) (at_address (next t history down) a) }
{}

/// The last update of a history makes one list of changes.
pub fn changes_are_unique()
    ensures { (t : Topology) (history : List Entry) (xs ys : List Change) →
        IsDeltaOf t history xs → IsDeltaOf t history ys → xs ≡ ys }
{}

/// A link is down exactly where the last entry that names it takes it down.
pub fn links_are_as_last_told()
    ensures { (history : List Entry) (l : LinkId) → is_down (downs history) l ≡ last_takes_down l history }
{}

/// A next-hop object is what the last update of the router's device that names it makes of it.
pub fn objects_are_as_last_told()
    ensures { (t : Topology) (history : List Entry) (router : RouterId) (id : ℕ) →
        lookup (λ i. i == id) (objects t history router) ≡ last_made id (ops_on t (device_of t router) history) }
{}

/// On a router that replaces by prefix a table has each prefix once.
pub fn tables_have_prefixes_once()
    ensures { (t : Topology) (history : List Entry) (router : RouterId) →
        replaces_prefix t router ≡ true →
        IsTrue (all_differ (λ x y. is_of_prefix x.prefix y) (table t history router)) }
{}

/// A query has one answer over a history.
pub fn answers_are_unique()
    ensures { (t : Topology) (history : List Entry) (q : Question) (x y : Answer) →
        IsAnswer t history q x → IsAnswer t history q y → x ≡ y }
{}
