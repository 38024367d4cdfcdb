//! How answers are printed.
//!
//! A writer `push_..` adds its text at the end of `out`. After `OutOfMemory`, for which alone it fails, a part of the
//! text may have been added. A router or link that the topology hasn't has an empty name.

ghost use Rattle.std.specs.Prelude.{◌≡◌, ◌++◌, ℕ, List, OnOk, codes, decimal, option_copied};
ghost use Rattle.std.specs.List.{flat_map};
ghost use Rattle.dn_formats.specs.AnswerText.{answer_lines, end_lines, lines_or_none, link_asked, path_end_text, path_lines, uses_lines};
ghost use Rattle.dn_formats.specs.Texts.{address_text};
ghost use Rattle.dn_model.specs.declared.topology.Topology.{Topology as TopologyIs};

use dn_formats::{push_address, push_bytes, push_labelled, push_router, push_run, push_target};
use dn_model::{
    Answer, Ask, Change, Cycle, Hole, OutOfMemory, PathEnd, RouterId, Run, TopoLink, Topology, link,
};

/// What has a text in an answer, with the names of a topology.
trait Printed {
    ghost text: { TopologyIs → Self → List ℕ };

    /// Adds the text.
    fn push(&self, out: &mut Vec<u8>, t: &Topology) -> Result<(), OutOfMemory>
        ensures { OnOk result (out.new.items ≡ out.old.items ++ text t.now self.now) };
}

/// Adds the text of each.
fn push_each<T: Printed>(out: &mut Vec<u8>, t: &Topology, items: &[T]) -> Result<(), OutOfMemory>
    ensures { OnOk result (out.new.items ≡ out.old.items ++ flat_map (T.text t.now) items.now) }
{
    for item in items {
        item.push(out, t)?;
    }
    Ok(())
}

/// Adds the text of each, or the line `none` where there is none.
fn push_lines<T: Printed>(out: &mut Vec<u8>, t: &Topology, items: &[T]) -> Result<(), OutOfMemory>
    ensures { OnOk result (out.new.items ≡ out.old.items ++ lines_or_none (T.text t.now) items.now) }
{
    match items {
        [] => push_bytes(out, b"none\n"),
        [_, ..] => push_each(out, t, items),
    }
}

/// A router on a walk or a cycle: a space and its name.
impl Printed for RouterId {
    ghost use Rattle.dn_formats.specs.AnswerText.{hop_text};

    ghost text = { hop_text };

    fn push(&self, out: &mut Vec<u8>, t: &Topology) -> Result<(), OutOfMemory> {
        push_bytes(out, b" ")?;
        push_router(out, t, *self)
    }
}

/// A run: its line.
impl Printed for Run {
    ghost use Rattle.dn_formats.specs.AnswerText.{run_line};

    ghost text = { λ _ run. run_line run };

    fn push(&self, out: &mut Vec<u8>, _t: &Topology) -> Result<(), OutOfMemory> {
        push_run(out, *self)?;
        push_bytes(out, b"\n")
    }
}

/// A cycle: the line of its routers, its least address, and how many addresses go round.
impl Printed for Cycle {
    ghost use Rattle.dn_formats.specs.AnswerText.{cycle_line};

    ghost text = { cycle_line };

    fn push(&self, out: &mut Vec<u8>, t: &Topology) -> Result<(), OutOfMemory> {
        push_bytes(out, b"cycle")?;
        push_each(out, t, self.routers.as_slice())?;
        push_round(out, self)?;
        push_bytes(out, b"\n")
    }
}

/// A black hole: its router, the cause, and the runs that end there.
impl Printed for Hole {
    ghost use Rattle.dn_formats.specs.AnswerText.{hole_lines};

    ghost text = { hole_lines };

    fn push(&self, out: &mut Vec<u8>, t: &Topology) -> Result<(), OutOfMemory> {
        push_bytes(out, b"at ")?;
        push_router(out, t, self.router)?;
        push_bytes(out, b" ")?;
        push_target(out, t, self.cause)?;
        push_bytes(out, b"\n")?;
        push_each(out, t, self.runs.as_slice())
    }
}

/// A change: the line of its router, its run of addresses, and what the router does with them before and after.
impl Printed for Change {
    ghost use Rattle.dn_formats.specs.AnswerText.{change_line};

    ghost text = { change_line };

    fn push(&self, out: &mut Vec<u8>, t: &Topology) -> Result<(), OutOfMemory> {
        push_router(out, t, self.router)?;
        push_bytes(out, b" ")?;
        push_run(out, self.run)?;
        push_bytes(out, b" ")?;
        push_target(out, t, self.before)?;
        push_bytes(out, b" -> ")?;
        push_target(out, t, self.after)?;
        push_bytes(out, b"\n")
    }
}

/// Adds how a walk ends.
fn push_path_end(out: &mut Vec<u8>, t: &Topology, end: PathEnd) -> Result<(), OutOfMemory>
    ensures { OnOk result (out.new.items ≡ out.old.items ++ path_end_text t.now end) }
{
    match end {
        PathEnd::At(target) => push_target(out, t, target),
        PathEnd::Loop => push_bytes(out, b"loop"),
    }
}

/// Adds the lines of a walk: its routers, and how it ends.
fn push_path(
    out: &mut Vec<u8>,
    t: &Topology,
    hops: &[RouterId],
    end: PathEnd,
) -> Result<(), OutOfMemory>
    ensures { OnOk result (out.new.items ≡ out.old.items ++ path_lines t.now hops.now end) }
{
    push_bytes(out, b"hops")?;
    push_each(out, t, hops)?;
    push_bytes(out, b"\nend ")?;
    push_path_end(out, t, end)?;
    push_bytes(out, b"\n")
}

/// Adds the lines of a router at an end of a link, with the runs that it sends over it.
fn push_link_end(
    out: &mut Vec<u8>,
    t: &Topology,
    router: RouterId,
    runs: &[Run],
) -> Result<(), OutOfMemory>
    ensures { OnOk result (out.new.items ≡ out.old.items ++ end_lines t.now router runs.now) }
{
    push_bytes(out, b"from ")?;
    push_router(out, t, router)?;
    push_bytes(out, b"\n")?;
    push_lines(out, t, runs)
}

/// The link that a query asks about.
fn asked_link<'a>(t: &'a Topology, ask: &Ask) -> Option<&'a TopoLink>
    ensures { option_copied result ≡ link_asked t.now ask.now }
{
    match ask {
        Ask::Uses(name) => {
            let id = link(t, name)?;
            t.links.as_slice().get(usize::from(id.0))
        }
        _ => None,
    }
}

/// Adds the lines of the two ends of a link that a query asks about; nothing where it isn't there.
fn push_uses(
    out: &mut Vec<u8>,
    t: &Topology,
    ask: &Ask,
    first: &[Run],
    second: &[Run],
) -> Result<(), OutOfMemory>
    ensures { OnOk result (out.new.items ≡ out.old.items ++ uses_lines t.now (link_asked t.now ask.now) first.now second.now) }
{
    match asked_link(t, ask) {
        Some(link) => {
            push_link_end(out, t, link.first.router, first)?;
            push_link_end(out, t, link.second.router, second)
        }
        None => Ok(()),
    }
}

/// Adds the least address that goes round a cycle, and how many go round.
fn push_round(out: &mut Vec<u8>, cycle: &Cycle) -> Result<(), OutOfMemory>
    ensures { OnOk result (out.new.items ≡ out.old.items ++ (codes " least " ++ address_text cycle.now.least ++ codes " addresses " ++ decimal cycle.now.addresses)) }
{
    push_bytes(out, b" least ")?;
    push_address(out, cycle.least)?;
    push_labelled(out, b" addresses ", cycle.addresses)?;
    Ok(())
}

/// Adds the lines of the answer to what was asked.
pub fn push_answer(
    out: &mut Vec<u8>,
    t: &Topology,
    ask: &Ask,
    answer: &Answer,
) -> Result<(), OutOfMemory>
    ensures { OnOk result (out.new.items ≡ out.old.items ++ answer_lines t.now ask.now answer.now) }
{
    match answer {
        Answer::Path { hops, end } => push_path(out, t, hops.as_slice(), *end),
        Answer::Runs(runs) => push_lines(out, t, runs.as_slice()),
        Answer::Uses(first, second) => push_uses(out, t, ask, first.as_slice(), second.as_slice()),
        Answer::Loops(cycles) => push_lines(out, t, cycles.as_slice()),
        Answer::Holes(holes) => push_lines(out, t, holes.as_slice()),
        Answer::Delta(changes) => push_lines(out, t, changes.as_slice()),
    }
}
