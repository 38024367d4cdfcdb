//! The lines of the report's history, an entry each.
//!
//! The writers `put_..` add their text at the end of `out`, which has room for it, and don't fail.

ghost use Rattle.std.specs.Prelude.{◌≡◌, ◌+◌, ◌≤◌, ◌++◌, ◌∷◌, [], codes, decimal, length, vec_len, vec_capacity};
ghost use Rattle.dn_formats.specs.Report.{op_text, entry_text, entry_line};
ghost use Rattle.dn_formats.specs.Texts.{line, link_state_text, prefix_text, drop_text, target_text};
ghost use Rattle.dn_model.specs.declared.entry.Entry.TheVariants.{Route, Link};
ghost use Rattle.dn_model.specs.declared.entry.Op.TheVariants.{Set, SetBy, Clear, Object};

use crate::line::{put_decimal, put_labelled, put_link, put_prefix, put_router, put_text};
use dn_model::{DropKind, Entry, LinkId, Op, Prefix, RouterId, Target, Topology};

/// How many bytes a line has at most: three names of 32, four numbers of 20, a prefix of 19, and the words.
pub const LONGEST_LINE: usize = 256;

/// Adds the kind of a drop.
fn put_drop_kind(out: &mut Vec<u8>, kind: DropKind)
    requires room { vec_len out.old + 11 ≤ vec_capacity out.old }
    ensures text { out.new.items ≡ out.old.items ++ drop_text kind }
    ensures len { vec_len out.new ≤ vec_len out.old + 11 }
    ensures capacity { vec_capacity out.new ≡ vec_capacity out.old }
{
    match kind {
        DropKind::Blackhole => put_text(out, b"blackhole"),
        DropKind::Unreachable => put_text(out, b"unreachable"),
        DropKind::Prohibit => put_text(out, b"prohibit"),
    }
}

/// Adds a drop.
fn put_dropped(out: &mut Vec<u8>, kind: DropKind)
    requires room { vec_len out.old + 19 ≤ vec_capacity out.old }
    ensures text { out.new.items ≡ out.old.items ++ (codes "dropped " ++ drop_text kind) }
    ensures len { vec_len out.new ≤ vec_len out.old + 19 }
    ensures capacity { vec_capacity out.new ≡ vec_capacity out.old }
{
    put_text(out, b"dropped ");
    put_drop_kind(out, kind);
}

/// Adds the router and the link that a target leads to.
fn put_hop(out: &mut Vec<u8>, t: &Topology, router: RouterId, link: LinkId)
    requires room { vec_len out.old + 71 ≤ vec_capacity out.old }
    ensures text { out.new.items ≡ out.old.items ++ target_text t.now (Target.To router link) }
    ensures len { vec_len out.new ≤ vec_len out.old + 71 }
    ensures capacity { vec_capacity out.new ≡ vec_capacity out.old }
{
    put_text(out, b"to ");
    put_router(out, t, router);
    put_text(out, b" by ");
    put_link(out, t, link);
}

/// Adds a link that is down.
fn put_link_down(out: &mut Vec<u8>, t: &Topology, link: LinkId)
    requires room { vec_len out.old + 41 ≤ vec_capacity out.old }
    ensures text { out.new.items ≡ out.old.items ++ target_text t.now (Target.LinkDown link) }
    ensures len { vec_len out.new ≤ vec_len out.old + 41 }
    ensures capacity { vec_capacity out.new ≡ vec_capacity out.old }
{
    put_text(out, b"linkdown ");
    put_link(out, t, link);
}

/// Adds a target, at most 71 bytes, with the names that the topology has for its router and its link.
fn put_target(out: &mut Vec<u8>, t: &Topology, target: Target)
    requires room { vec_len out.old + 71 ≤ vec_capacity out.old }
    ensures text { out.new.items ≡ out.old.items ++ target_text t.now target }
    ensures len { vec_len out.new ≤ vec_len out.old + 71 }
    ensures capacity { vec_capacity out.new ≡ vec_capacity out.old }
{
    match target {
        Target::NoRoute => put_text(out, b"noroute"),
        Target::Dropped(kind) => put_dropped(out, kind),
        Target::Local => put_text(out, b"local"),
        Target::Exit(interface) => put_labelled(out, b"exit ", u64::from(interface)),
        Target::OnLink(interface) => put_labelled(out, b"onlink ", u64::from(interface)),
        Target::To(router, link) => put_hop(out, t, router, link),
        Target::LinkDown(link) => put_link_down(out, t, link),
    }
}

/// Adds that the route of a prefix and a metric is set.
fn put_set_key(out: &mut Vec<u8>, prefix: Prefix, metric: u32)
    requires room { vec_len out.old + 51 ≤ vec_capacity out.old }
    ensures text { out.new.items ≡ out.old.items
        ++ (codes "set " ++ prefix_text prefix ++ codes " metric " ++ decimal metric) }
    ensures len { vec_len out.new ≤ vec_len out.old + 51 }
    ensures capacity { vec_capacity out.new ≡ vec_capacity out.old }
{
    put_text(out, b"set ");
    put_prefix(out, prefix);
    put_labelled(out, b" metric ", u64::from(metric));
}

/// Adds a route that is set.
fn put_set(out: &mut Vec<u8>, t: &Topology, prefix: Prefix, metric: u32, target: Target)
    requires room { vec_len out.old + 123 ≤ vec_capacity out.old }
    ensures text { out.new.items ≡ out.old.items ++ op_text t.now (Set prefix metric target) }
    ensures len { vec_len out.new ≤ vec_len out.old + 123 }
    ensures capacity { vec_capacity out.new ≡ vec_capacity out.old }
{
    put_set_key(out, prefix, metric);
    put_text(out, b" ");
    put_target(out, t, target);
}

/// Adds a route by a next-hop object that is set.
fn put_set_by(out: &mut Vec<u8>, t: &Topology, prefix: Prefix, metric: u32, id: u32)
    requires room { vec_len out.old + 123 ≤ vec_capacity out.old }
    ensures text { out.new.items ≡ out.old.items ++ op_text t.now (SetBy prefix metric id) }
    ensures len { vec_len out.new ≤ vec_len out.old + 123 }
    ensures capacity { vec_capacity out.new ≡ vec_capacity out.old }
{
    put_set_key(out, prefix, metric);
    put_labelled(out, b" by object ", u64::from(id));
}

/// Adds what is cleared: the route of a metric, or all routes of the prefix.
fn put_clear(out: &mut Vec<u8>, t: &Topology, prefix: Prefix, metric: Option<u32>)
    requires room { vec_len out.old + 123 ≤ vec_capacity out.old }
    ensures text { out.new.items ≡ out.old.items ++ op_text t.now (Clear prefix metric) }
    ensures len { vec_len out.new ≤ vec_len out.old + 123 }
    ensures capacity { vec_capacity out.new ≡ vec_capacity out.old }
{
    put_text(out, b"clear ");
    put_prefix(out, prefix);
    if let Some(metric) = metric {
        put_labelled(out, b" metric ", u64::from(metric));
    }
}

/// Adds a next-hop object that is set.
fn put_object(out: &mut Vec<u8>, t: &Topology, id: u32, target: Target)
    requires room { vec_len out.old + 123 ≤ vec_capacity out.old }
    ensures text { out.new.items ≡ out.old.items ++ op_text t.now (Object id target) }
    ensures len { vec_len out.new ≤ vec_len out.old + 123 }
    ensures capacity { vec_capacity out.new ≡ vec_capacity out.old }
{
    put_labelled(out, b"object ", u64::from(id));
    put_text(out, b" ");
    put_target(out, t, target);
}

/// Adds an update, at most 123 bytes.
fn put_op(out: &mut Vec<u8>, t: &Topology, op: Op)
    requires room { vec_len out.old + 123 ≤ vec_capacity out.old }
    ensures text { out.new.items ≡ out.old.items ++ op_text t.now op }
    ensures len { vec_len out.new ≤ vec_len out.old + 123 }
    ensures capacity { vec_capacity out.new ≡ vec_capacity out.old }
{
    match op {
        Op::Set {
            prefix,
            metric,
            target,
        } => put_set(out, t, prefix, metric, target),
        Op::SetBy { prefix, metric, id } => put_set_by(out, t, prefix, metric, id),
        Op::Clear { prefix, metric } => put_clear(out, t, prefix, metric),
        Op::Object { id, target } => put_object(out, t, id, target),
        Op::NoObject { id } => put_labelled(out, b"noobject ", u64::from(id)),
    }
}

/// Adds an update of a router, by its feed.
fn put_route_entry(out: &mut Vec<u8>, t: &Topology, router: RouterId, feed_no: u32, op: Op)
    requires room { vec_len out.old + 183 ≤ vec_capacity out.old }
    ensures text { out.new.items ≡ out.old.items ++ entry_text t.now (Route router feed_no op) }
    ensures len { vec_len out.new ≤ vec_len out.old + 183 }
    ensures capacity { vec_capacity out.new ≡ vec_capacity out.old }
{
    put_labelled(out, b" feed ", u64::from(feed_no));
    put_text(out, b" ");
    put_router(out, t, router);
    put_text(out, b" ");
    put_op(out, t, op);
}

/// The words for what a link does.
fn link_state(down: bool) -> &'static [u8]
    ensures state { result.now ≡ codes " " ++ link_state_text down }
    ensures short { length result.now ≤ 6 }
{
    if down { b" down " } else { b" up " }
}

/// Adds a link that goes down or comes up, by a line of a job.
fn put_link_entry(out: &mut Vec<u8>, t: &Topology, job: u32, link: LinkId, down: bool)
    requires room { vec_len out.old + 183 ≤ vec_capacity out.old }
    ensures text { out.new.items ≡ out.old.items ++ entry_text t.now (Link job link down) }
    ensures len { vec_len out.new ≤ vec_len out.old + 183 }
    ensures capacity { vec_capacity out.new ≡ vec_capacity out.old }
{
    put_labelled(out, b" job ", u64::from(job));
    put_text(out, link_state(down));
    put_link(out, t, link);
}

/// Adds an entry, at most 183 bytes.
fn put_entry(out: &mut Vec<u8>, t: &Topology, entry: &Entry)
    requires room { vec_len out.old + 183 ≤ vec_capacity out.old }
    ensures text { out.new.items ≡ out.old.items ++ entry_text t.now entry.now }
    ensures len { vec_len out.new ≤ vec_len out.old + 183 }
    ensures capacity { vec_capacity out.new ≡ vec_capacity out.old }
{
    match *entry {
        Entry::Route {
            router,
            feed_no,
            op,
        } => put_route_entry(out, t, router, feed_no, op),
        Entry::Link { job, link, down } => put_link_entry(out, t, job, link, down),
    }
}

/// Adds the line of the entry at a position of the history, from 1: at most `LONGEST_LINE` bytes.
pub fn put_entry_line(out: &mut Vec<u8>, t: &Topology, position: u64, entry: &Entry)
    requires room { vec_len out.old + 256 ≤ vec_capacity out.old }
    ensures text { out.new.items ≡ out.old.items ++ entry_line t.now position entry.now }
    ensures len { vec_len out.new ≤ vec_len out.old + 256 }
    ensures capacity { vec_capacity out.new ≡ vec_capacity out.old }
{
    put_decimal(out, position);
    put_entry(out, t, entry);
    put_text(out, b"\n");
}
