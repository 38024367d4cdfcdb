//! What is told of a query or a link line.
//!
//! A writer `push_..` adds its text at the end of `out`. After `OutOfMemory`, for which alone it fails, a part of the
//! text may have been added.

ghost use Rattle.std.specs.Prelude.{◌≡◌, ◌++◌, ◌∷◌, [], OnOk, IfOk, codes, decimal};
ghost use Rattle.dn_formats.specs.AnswerText.{unknown_line, answer_lines, link_outcome_lines, outcome_lines, told_lines};
ghost use Rattle.dn_formats.specs.QueryWords.{query_text};
ghost use Rattle.dn_formats.specs.Texts.{line, link_state_text};
ghost use Rattle.dn_formats.specs.declared.told.Outcome.TheVariants.{Answered, Unknown as unanswered};

use crate::answer_lines::push_answer;
use crate::query_text::{push_query, push_unknown_line};
use dn_formats::{LinkOutcome, Outcome, Text, Told, push_bytes, push_labelled};
use dn_model::{Answer, Name, OutOfMemory, Query, Topology, Unknown};
use std::alloc::Global;

/// Adds the line of a query with its pin, and its answer.
fn push_answered(
    out: &mut Vec<u8>,
    t: &Topology,
    line: u32,
    query: &Query,
    number: u32,
    answer: &Answer,
) -> Result<(), OutOfMemory>
    ensures { OnOk result (out.new.items ≡ out.old.items ++ outcome_lines t.now line query.now (Answered number answer.now)) }
{
    push_labelled(out, b"line ", u64::from(line))?;
    push_labelled(out, b" at ", u64::from(number))?;
    push_bytes(out, b" ")?;
    push_query(out, query)?;
    push_bytes(out, b"\n")?;
    push_answer(out, t, query.ask(), answer)
}

/// Adds the line of a query, and its first unknown name.
fn push_unanswered(
    out: &mut Vec<u8>,
    t: &Topology,
    line: u32,
    query: &Query,
    unknown: Unknown,
) -> Result<(), OutOfMemory>
    ensures { OnOk result (out.new.items ≡ out.old.items ++ outcome_lines t.now line query.now (unanswered unknown)) }
{
    push_labelled(out, b"line ", u64::from(line))?;
    push_bytes(out, b" ")?;
    push_query(out, query)?;
    push_bytes(out, b"\n")?;
    push_unknown_line(out, query, unknown)
}

/// Adds what became of a query.
fn push_asked(
    out: &mut Vec<u8>,
    t: &Topology,
    line: u32,
    query: &Query,
    outcome: &Outcome,
) -> Result<(), OutOfMemory>
    ensures { OnOk result (out.new.items ≡ out.old.items ++ outcome_lines t.now line query.now outcome.now) }
{
    match outcome {
        Outcome::Answered { number, answer } => {
            push_answered(out, t, line, query, *number, answer)
        }
        Outcome::Unknown(unknown) => push_unanswered(out, t, line, query, *unknown),
    }
}

/// The word for what a link does, with a space behind it.
fn link_state(down: bool) -> &'static [u8]
    ensures { result.now ≡ link_state_text down }
{
    if down { b"down " } else { b"up " }
}

/// Adds that a link goes down or comes up, to the line's end.
fn push_link_state(out: &mut Vec<u8>, link: &Name, down: bool) -> Result<(), OutOfMemory>
    ensures { OnOk result (out.new.items ≡ out.old.items ++ (link_state_text down ++ link.now ++ codes "\n")) }
{
    push_bytes(out, link_state(down))?;
    push_bytes(out, link.as_bytes())?;
    push_bytes(out, b"\n")
}

/// Adds the line that says that the network has no link of this name.
fn push_no_link(out: &mut Vec<u8>, link: &Name) -> Result<(), OutOfMemory>
    ensures { OnOk result (out.new.items ≡ out.old.items ++ line (codes "unknown link " ++ link.now)) }
{
    push_bytes(out, b"unknown link ")?;
    push_bytes(out, link.as_bytes())?;
    push_bytes(out, b"\n")
}

/// Adds what became of a line that says that a link goes down or comes up.
fn push_linked(
    out: &mut Vec<u8>,
    line: u32,
    link: &Name,
    down: bool,
    outcome: LinkOutcome,
) -> Result<(), OutOfMemory>
    ensures { OnOk result (out.new.items ≡ out.old.items ++ link_outcome_lines line link.now down outcome) }
{
    push_labelled(out, b"line ", u64::from(line))?;
    match outcome {
        LinkOutcome::At(position) => {
            push_labelled(out, b" at ", u64::from(position))?;
            push_bytes(out, b" ")?;
            push_link_state(out, link, down)
        }
        LinkOutcome::Full => {
            push_bytes(out, b" full ")?;
            push_link_state(out, link, down)
        }
        LinkOutcome::UnknownLink => {
            push_bytes(out, b" ")?;
            push_link_state(out, link, down)?;
            push_no_link(out, link)
        }
    }
}

/// Adds what is told of a line: a query's line with its pin and its answer, or without a pin and with its first unknown
/// name; or a link line with the position of its entry, or why it has none. A router or link that the topology hasn't has an
/// empty name.
///
/// # Errors
///
/// `OutOfMemory` alone; a part of the text may have been added.
pub fn push_told(out: &mut Vec<u8>, t: &Topology, told: &Told) -> Result<(), OutOfMemory>
    ensures { OnOk result (out.new.items ≡ out.old.items ++ told_lines t.now told.now) }
{
    match told {
        Told::Asked {
            line,
            query,
            outcome,
        } => push_asked(out, t, *line, query, outcome),
        Told::Linked {
            line,
            link,
            down,
            outcome,
        } => push_linked(out, *line, link, *down, *outcome),
    }
}

/// What is told of a line, as a text: see `push_told`.
///
/// # Errors
///
/// `OutOfMemory` alone.
pub fn answer_text(alloc: Global, topology: &Topology, told: &Told) -> Result<Text, OutOfMemory>
    ensures { IfOk result (λ text. text ≡ told_lines topology.now told.now) }
{
    let mut out = Vec::new(alloc);
    push_told(&mut out, topology, told)?;
    Ok(Text::from_vec(out))
}
