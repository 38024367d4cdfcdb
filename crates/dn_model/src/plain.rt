//! The plain evaluator: what the definitions of tables, targets and walks say, computed as they stand. It is slow
//! and simple, and shares no code with the engines that are tested against it.

ghost use Rattle.std.specs.Prelude.{◌≡◌, IfOk, OnOk, length, filter, not, None, Some, IsSome, IsSomeAnd, All, Contains, IsTrue, ◌++◌, ◌∷◌, [], ◌==◌, unwrap_or};
ghost use Rattle.dn_model.specs.Answer.{links_of, IsAnswer, IsAnswerOf};
ghost use Rattle.base.specs.Cidr.{covers};
ghost use Rattle.dn_model.specs.Entry.{IsEntryOf};
ghost use Rattle.dn_model.specs.Lookup.{router_of, link_of};
ghost use Rattle.dn_model.specs.Query.{NameAsked, is_known, names_asked, unknown_of};
ghost use Rattle.dn_model.specs.Network.{IsClosed, does_in, routers_in};
ghost use Rattle.dn_model.specs.declared.query.Ask.TheVariants.{Path, Delta};
ghost use Rattle.std.specs.Map.{lookup};
ghost use Rattle.dn_model.specs.Downs.{after_link, downs, other_links};
ghost use Rattle.base.specs.Links.{is_down, without};
ghost use Rattle.dn_model.specs.Table.{is_of_prefix, has_key, is_by, is_replaced, after_op, after_object, after_table_op, followed, objects, other_objects, table, goes_before, better, best, target_or_none, target_in};
ghost use Rattle.dn_model.specs.declared.table_op.TableOp.TheVariants.{Put, Clear};
ghost use Rattle.base.specs.declared.target.Target.TheVariants.{NoRoute};
ghost use Rattle.base.specs.Walk.{at_address, walk, walk_end};
ghost use Rattle.dn_model.specs.Next.{next};

use crate::answer::Answer;
use crate::devices::{device_of, replaces_prefix};
use crate::entry::{Entry, Op, Route};
use crate::lookup::{link, router};
use crate::network::Network;
use crate::plain_delta::plain_delta;
use crate::plain_holes::plain_holes;
use crate::plain_loops::plain_loops;
use crate::plain_reach::{known_router, plain_reach, plain_uses, plain_waypoint};
use crate::query::{Ask, Query};
use crate::topology::Topology;
use crate::way::Way;
use base::{LinkId, List, Name, OutOfMemory, PathEnd, Prefix, RouterId, Target};
use std::alloc::Global;

/// Whether a route has this prefix.
fn has_this_prefix(prefix: Prefix, route: &Route) -> bool
    ensures { result ≡ is_of_prefix prefix route.now }
{
    route.prefix.base() == prefix.base() && route.prefix.len() == prefix.len()
}

/// Whether a route has this prefix and this metric.
fn has_this_key(prefix: Prefix, metric: u32, route: &Route) -> bool
    ensures { result ≡ has_key prefix metric route.now }
{
    has_this_prefix(prefix, route) && route.metric == metric
}

/// The routes that don't have this prefix and this metric.
fn drop_key(routes: &mut Vec<Route>, prefix: Prefix, metric: u32)
    ensures { routes.new.items ≡ filter (λ r. not (has_key prefix metric r)) routes.old.items }
{
    routes.retain(|route| !has_this_key(prefix, metric, route));
}

/// The routes that don't have this prefix.
fn drop_prefix(routes: &mut Vec<Route>, prefix: Prefix)
    ensures { routes.new.items ≡ filter (λ r. not (is_of_prefix prefix r)) routes.old.items }
{
    routes.retain(|route| !has_this_prefix(prefix, route));
}

/// The routes that a route of this prefix and metric leaves where it is put: those of other keys, or, alone, of other
/// prefixes.
fn drop_replaced(routes: &mut Vec<Route>, alone: bool, prefix: Prefix, metric: u32)
    ensures { routes.new.items ≡ filter (λ r. not (is_replaced alone prefix metric r)) routes.old.items }
{
    routes.retain(|route| {
        !(has_this_prefix(prefix, route) && (alone || route.metric == metric))
    });
}

/// Whether a way is by this object.
fn is_by_object(id: u32, way: Way) -> bool
    ensures { result ≡ is_by id way }
{
    match way {
        Way::Straight(_) => false,
        Way::By(other) => other == id,
    }
}

/// The routes that aren't by this object.
fn drop_by(routes: &mut Vec<Route>, id: u32)
    ensures { routes.new.items ≡ filter (λ r. not (is_by id r.way)) routes.old.items }
{
    routes.retain(|route| !is_by_object(id, route.way));
}

/// Puts a route in the place of the one with its prefix and metric, or, alone, of all of its prefix.
fn put_route(routes: &mut Vec<Route>, alone: bool, route: Route) -> Result<(), OutOfMemory>
    ensures { OnOk result (routes.new.items ≡
        after_table_op alone routes.old.items (Put route.prefix route.metric route.way)) }
{
    drop_replaced(routes, alone, route.prefix, route.metric);
    routes.push(route)?;
    Ok(())
}

/// Takes away the route of a prefix and metric, or without a metric all of the prefix.
fn clear_routes(routes: &mut Vec<Route>, alone: bool, prefix: Prefix, metric: Option<u32>)
    ensures { routes.new.items ≡ after_table_op alone routes.old.items (Clear prefix metric) }
{
    match metric {
        None => drop_prefix(routes, prefix),
        Some(metric) => drop_key(routes, prefix, metric),
    }
}

/// What an update makes of a router's routes.
fn make_update(routes: &mut Vec<Route>, alone: bool, op: &Op) -> Result<(), OutOfMemory>
    ensures { OnOk result (routes.new.items ≡ after_op alone routes.old.items op.now) }
{
    match *op {
        Op::Set {
            prefix,
            metric,
            target,
        } => put_route(
            routes,
            alone,
            Route {
                prefix,
                metric,
                way: Way::Straight(target),
            },
        )?,
        Op::SetBy { prefix, metric, id } => put_route(
            routes,
            alone,
            Route {
                prefix,
                metric,
                way: Way::By(id),
            },
        )?,
        Op::Clear { prefix, metric } => clear_routes(routes, alone, prefix, metric),
        Op::Object { .. } => {}
        Op::NoObject { id } => drop_by(routes, id),
    }
    Ok(())
}

/// A router's routes after a history: what its updates, and those of its device's objects, in order, make of no routes.
pub fn plain_routes(
    alloc: Global,
    t: &Topology,
    entries: &[Entry],
    router: RouterId,
) -> Result<List<Route>, OutOfMemory>
    ensures { IfOk result (λ routes. routes ≡ table t.now entries.now router) }
{
    let alone = replaces_prefix(t, router);
    let mut routes = Vec::new(alloc);
    for entry in entries {
        if let Some(op) = entry.op_on(t, router) {
            make_update(&mut routes, alone, &op)?;
        }
    }
    Ok(List::from_vec(routes))
}

/// The objects with other ids.
fn drop_object(objects: &mut Vec<(u32, Target)>, id: u32)
    ensures { objects.new.items ≡ other_objects id objects.old.items }
{
    objects.retain(|object| object.0 != id);
}

/// What an update makes of a device's objects.
fn make_object(objects: &mut Vec<(u32, Target)>, op: &Op) -> Result<(), OutOfMemory>
    ensures { OnOk result (objects.new.items ≡ after_object objects.old.items op.now) }
{
    match *op {
        Op::Object { id, target } => {
            drop_object(objects, id);
            objects.push((id, target))?;
        }
        Op::NoObject { id } => drop_object(objects, id),
        Op::Set { .. } | Op::SetBy { .. } | Op::Clear { .. } => {}
    }
    Ok(())
}

/// The next-hop objects of a router's device after a history, each with what routes by it do.
pub fn plain_objects(
    alloc: Global,
    t: &Topology,
    entries: &[Entry],
    router: RouterId,
) -> Result<Vec<(u32, Target)>, OutOfMemory>
    ensures { IfOk result (λ found. found.items ≡ objects t.now entries.now router) }
{
    let device = device_of(t, router);
    let mut objects = Vec::new(alloc);
    for entry in entries {
        if let Some(op) = entry.op_on(t, device) {
            make_object(&mut objects, &op)?;
        }
    }
    Ok(objects)
}

/// The links but for one.
fn drop_link(down: &mut Vec<LinkId>, link: LinkId)
    ensures { down.new.items ≡ other_links link down.old.items }
{
    down.retain(|other| other.0 != link.0);
}

/// What an entry makes of the links that are down.
fn make_link(down: &mut Vec<LinkId>, entry: &Entry) -> Result<(), OutOfMemory>
    ensures { OnOk result (down.new.items ≡ after_link down.old.items entry.now) }
{
    match *entry {
        Entry::Link {
            link,
            down: true,
            ..
        } => {
            drop_link(down, link);
            down.push(link)?;
        }
        Entry::Link { link, .. } => drop_link(down, link),
        Entry::Route { .. } => {}
    }
    Ok(())
}

/// The links that are down after a history.
pub fn plain_downs(alloc: Global, entries: &[Entry]) -> Result<Vec<LinkId>, OutOfMemory>
    ensures { IfOk result (λ down. down.items ≡ downs entries.now) }
{
    let mut down = Vec::new(alloc);
    for entry in entries {
        make_link(&mut down, entry)?;
    }
    Ok(down)
}

/// Whether a prefix covers an address.
fn is_covered(prefix: Prefix, a: u32) -> bool
    ensures { result ≡ covers prefix a }
{
    let base = prefix.base() as u64;
    let size = 1u64 << (32 - prefix.len());
    base <= a as u64 && (a as u64) < base + size
}

/// Whether a route goes before another: the longer prefix, and of equal lengths the lesser metric.
fn is_before(x: &Route, y: &Route) -> bool
    ensures { result ≡ goes_before x.now y.now }
{
    let (x_len, y_len) = (x.prefix.len(), y.prefix.len());
    y_len < x_len || (x_len == y_len && x.metric < y.metric)
}

/// The one of two routes that goes first; the earlier one, where neither does.
fn first_of_two(x: Option<Route>, y: Route) -> Option<Route>
    ensures { result ≡ better x y }
{
    match x {
        None => Some(y),
        Some(x) => { if is_before(&y, &x) { Some(y) } else { Some(x) } }
    }
}

/// The route of an address: of those that cover it the one that goes before all others.
fn plain_best(routes: &[Route], a: u32) -> Option<Route>
    ensures { result ≡ best routes.now a }
{
    let mut first = None;
    for route in routes {
        if is_covered(route.prefix, a) {
            first = first_of_two(first, *route);
        }
    }
    first
}

/// What an object with this id does, by all of them.
fn target_of_object(objects: &[(u32, Target)], id: u32) -> Target
    ensures { result ≡ unwrap_or (lookup (λ i. i == id) objects.now) NoRoute }
{
    for object in objects {
        if object.0 == id {
            return object.1;
        }
    }
    Target::NoRoute
}

/// What a way comes to.
fn target_of_way(objects: &[(u32, Target)], way: Way) -> Target
    ensures { result ≡ followed objects.now way }
{
    match way {
        Way::Straight(target) => target,
        Way::By(id) => target_of_object(objects, id),
    }
}

/// What a router with these routes, whose device has these objects, does with an address.
pub fn target_of_routes(routes: &[Route], objects: &[(u32, Target)], a: u32) -> Target
    ensures { result ≡ target_in objects.now routes.now a }
{
    match plain_best(routes, a) {
        None => Target::NoRoute,
        Some(route) => target_of_way(objects, route.way),
    }
}

/// Whether a link is one of these.
fn is_one_of(down: &[LinkId], link: LinkId) -> bool
    ensures { result ≡ is_down down.now link }
{
    down.iter().any(|l| l.0 == link.0)
}

/// A target, where these links are down.
fn with_down(down: &[LinkId], target: Target) -> Target
    ensures { result ≡ without down.now target }
{
    match target {
        Target::To(router, link) => {
            if is_one_of(down, link) {
                Target::LinkDown(link)
            } else {
                Target::To(router, link)
            }
        }
        Target::NoRoute => Target::NoRoute,
        Target::Dropped(kind) => Target::Dropped(kind),
        Target::Local => Target::Local,
        Target::Exit(index) => Target::Exit(index),
        Target::OnLink(index) => Target::OnLink(index),
        Target::LinkDown(link) => Target::LinkDown(link),
    }
}

/// What a router with these routes, whose device has these objects, does with the address `a` (0 to 2^32 - 1), where the
/// links `down` are down: the target of the route of `a`, or `NoRoute`; and `LinkDown` in place of a `To` over a link that
/// is down.
pub fn plain_target(routes: &[Route], objects: &[(u32, Target)], down: &[LinkId], a: u32) -> Target
    ensures { result ≡ without down.now (target_in objects.now routes.now a) }
{
    with_down(down, target_of_routes(routes, objects, a))
}

/// What a router does with an address after a history, where these links are down besides.
fn plain_next(
    alloc: Global,
    t: &Topology,
    entries: &[Entry],
    down: &[LinkId],
    a: u32,
    router: RouterId,
) -> Result<Target, OutOfMemory>
    ensures { IfOk result (λ target. target ≡ next t.now entries.now down.now router a) }
{
    let routes = plain_routes(alloc, t, entries, router)?;
    let objects = plain_objects(alloc, t, entries, router)?;
    let downs = plain_downs(alloc, entries)?;
    let target = plain_target(routes.as_slice(), objects.as_slice(), downs.as_slice(), a);
    Ok(with_down(down, target))
}

/// The walk of the address `a` (0 to 2^32 - 1) from a router after a history, where the links `down` are down besides
/// those that are down after the history: its routers in order, the first one included, and how it ends. At most as many
/// hops are made as the topology has routers; a walk that has made as many is in a loop.
pub fn plain_walk(
    alloc: Global,
    t: &Topology,
    entries: &[Entry],
    down: &[LinkId],
    first: RouterId,
    a: u32,
) -> Result<(List<RouterId>, PathEnd), OutOfMemory>
    ensures routers { IfOk result (λ answer.
        answer.0 ≡ walk (at_address (next t.now entries.now down.now) a) (length t.now.routers) first) }
    ensures end { IfOk result (λ answer.
        answer.1 ≡ walk_end (at_address (next t.now entries.now down.now) a) (length t.now.routers) first) }
{
    let mut routers = Vec::new(alloc);
    let mut router = first;
    let mut left = t.routers.len();
    while left > 0 {
        routers.push(router)?;
        match plain_next(alloc, t, entries, down, a, router)? {
            Target::To(far, _) => router = far,
            last => return Ok((List::from_vec(routers), PathEnd::At(last))),
        }
        left -= 1;
    }
    routers.push(router)?;
    Ok((List::from_vec(routers), PathEnd::Loop))
}

/// The links with these names.
fn links_named(alloc: Global, t: &Topology, names: &[Name]) -> Result<Vec<LinkId>, OutOfMemory>
    ensures { IfOk result (λ links. links.items ≡ links_of t.now names.now) }
{
    let mut links = Vec::new(alloc);
    for name in names {
        if let Some(named) = link(t, name) {
            links.push(named)?;
        }
    }
    Ok(links)
}

/// The walk of an address from the router of this name.
fn plain_path(
    alloc: Global,
    t: &Topology,
    net: &Network,
    name: &Name,
    a: u32,
) -> Result<Answer, OutOfMemory>
    requires count { routers_in net.now ≡ length t.now.routers }
    requires name { IsSome (router_of t.now name.now) }
    ensures { IfOk result (λ answer. IsAnswerOf t.now (does_in net.now) (Path name.now a) answer) }
{
    let first = known_router(t, name);
    let (hops, end) = net.walk(alloc, first, a)?;
    Ok(Answer::Path { hops, end })
}

/// The answer of a network at a moment to what is asked of it.
fn answer_in(alloc: Global, t: &Topology, net: &Network, ask: &Ask) -> Result<Answer, OutOfMemory>
    requires count { routers_in net.now ≡ length t.now.routers }
    requires closed { IsClosed net.now }
    requires known { (n : NameAsked) → Contains (names_asked ask.now) n → IsTrue (is_known t.now n) }
    requires other { ask.now ≡ Delta → ⊥ }
    ensures { IfOk result (λ answer. IsAnswerOf t.now (does_in net.now) ask.now answer) }
{
    match ask {
        Ask::Path(name, a) => plain_path(alloc, t, net, name, *a),
        Ask::Reach(from, to) => plain_reach(alloc, t, net, from, to),
        Ask::Uses(name) => plain_uses(alloc, t, net, name),
        Ask::Waypoint(from, to, through) => plain_waypoint(alloc, t, net, from, to, through),
        Ask::Blackholes(name) => plain_holes(alloc, t, net, name),
        Ask::Loops => plain_loops(alloc, net),
        Ask::Delta => unreachable!(),
    }
}

/// The answer to a query after a history, with the links of its `without` down besides those that are down after the
/// history. The topology has each name of the query, and the entries are of the topology: their routers, the routers and
/// links that they go on to, and their links; an object's router is a device.
pub fn plain_answer(
    alloc: Global,
    t: &Topology,
    entries: &[Entry],
    query: &Query,
) -> Result<Answer, OutOfMemory>
    requires names { unknown_of t.now query.now ≡ None }
    requires entries { All (IsEntryOf t.now) entries.now }
    ensures { IfOk result (λ answer. IsAnswer t.now entries.now query.now answer) }
{
    let ask = query.ask();
    if let Ask::Delta = ask {
        return Ok(Answer::Delta(plain_delta(alloc, t, entries)?));
    }
    let down = links_named(alloc, t, query.without())?;
    let net = Network::after(alloc, t, entries, down.as_slice())?;
    answer_in(alloc, t, &net, ask)
}
