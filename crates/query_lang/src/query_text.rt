//! How queries are printed, and their unknown names.
//!
//! A writer `push_..` adds its text at the end of `out`. After `OutOfMemory`, for which alone it fails, a part of the
//! text may have been added.

ghost use Rattle.std.specs.Prelude.{◌≡◌, ◌++◌, ◌∷◌, [], OnOk, codes, map, option_copied, slice_get, unwrap_or};
ghost use Rattle.std.specs.List.{flat_map, join_with_byte};
ghost use Rattle.dn_formats.specs.AnswerText.{name_at, unknown_line};
ghost use Rattle.dn_formats.specs.QueryWords.{addresses_in, ask_words, query_text};
ghost use Rattle.dn_formats.specs.Texts.{address_text, line};
ghost use Rattle.dn_model.specs.Query.{names_asked, text_of_name};
ghost use Rattle.query_lang.specs.Words.{word_after};

use dn_formats::{AskKind, push_address, push_bytes};
use dn_model::{Ask, Name, OutOfMemory, Query, Unknown};

/// Adds a comma and a name.
fn push_comma_name(out: &mut Vec<u8>, name: &Name) -> Result<(), OutOfMemory>
    ensures { OnOk result (out.new.items ≡ out.old.items ++ (codes "," ++ name.now)) }
{
    push_bytes(out, b",")?;
    push_bytes(out, name.as_bytes())
}

/// Adds names, each after a comma.
fn push_comma_names(out: &mut Vec<u8>, names: &[Name]) -> Result<(), OutOfMemory>
    ensures { OnOk result (out.new.items ≡ out.old.items ++ flat_map (λ n. codes "," ++ n) names.now) }
{
    for name in names {
        push_comma_name(out, name)?;
    }
    Ok(())
}

/// Adds names parted by commas, of which there is a first.
fn push_names(out: &mut Vec<u8>, first: &Name, rest: &[Name]) -> Result<(), OutOfMemory>
    ensures { OnOk result (out.new.items ≡ out.old.items ++ join_with_byte 44 (first.now ∷ rest.now)) }
{
    push_bytes(out, first.as_bytes())?;
    push_comma_names(out, rest)?;
    Ok(())
}

/// The name at a place, from 0, among the names of what is asked.
fn name_in(ask: &Ask, place: usize) -> Option<&Name>
    ensures { option_copied result ≡ slice_get (map text_of_name (names_asked ask.now)) place }
{
    match (ask, place) {
        (Ask::Path(name, _) | Ask::Blackholes(name) | Ask::Uses(name), 0) => Some(name),
        (Ask::Reach(name, _) | Ask::Waypoint(name, _, _), 0) => Some(name),
        (Ask::Reach(_, name) | Ask::Waypoint(_, name, _), 1) => Some(name),
        (Ask::Waypoint(_, _, name), 2) => Some(name),
        _ => None,
    }
}

/// The bytes of the name at a place, from 0, among the names of what is asked; none where there is no name.
fn text_in(ask: &Ask, place: usize) -> &[u8]
    ensures { result.now ≡ unwrap_or (slice_get (map text_of_name (names_asked ask.now)) place) [] }
{
    match name_in(ask, place) {
        Some(name) => name.as_bytes(),
        None => &[],
    }
}

/// Adds a space and the name at a place, from 0, among the names of what is asked; nothing where there is none.
fn push_name(out: &mut Vec<u8>, ask: &Ask, place: usize) -> Result<(), OutOfMemory>
    ensures { OnOk result (out.new.items ≡ out.old.items ++
        word_after (slice_get (map text_of_name (names_asked ask.now)) place)) }
{
    let Some(name) = name_in(ask, place) else {
        return Ok(());
    };
    push_bytes(out, b" ")?;
    push_bytes(out, name.as_bytes())
}

/// Adds a space and the address in what is asked; nothing where there is none.
fn push_address_in(out: &mut Vec<u8>, ask: &Ask) -> Result<(), OutOfMemory>
    ensures { OnOk result (out.new.items ≡ out.old.items ++
        flat_map (λ a. codes " " ++ address_text a) (addresses_in ask.now)) }
{
    match ask {
        Ask::Path(_, address) => {
            push_bytes(out, b" ")?;
            push_address(out, *address)
        }
        _ => Ok(()),
    }
}

/// Adds the words of what is asked, joined by one space.
#[tactic(auto, using(crate::proofs::QueryTexts::ask_joined))]
fn push_ask(out: &mut Vec<u8>, ask: &Ask) -> Result<(), OutOfMemory>
    ensures { OnOk result (out.new.items ≡ out.old.items ++ join_with_byte 32 (ask_words ask.now)) }
{
    push_bytes(out, AskKind::of(ask).verb())?;
    push_name(out, ask, 0)?;
    push_name(out, ask, 1)?;
    push_name(out, ask, 2)?;
    push_address_in(out, ask)
}

/// Adds the words of a query's line, joined by one space.
#[tactic(auto, using(crate::proofs::QueryTexts::query_words))]
pub fn push_query(out: &mut Vec<u8>, query: &Query) -> Result<(), OutOfMemory>
    ensures { OnOk result (out.new.items ≡ out.old.items ++ query_text query.now) }
{
    match query.without() {
        [] => push_ask(out, query.ask()),
        [first, rest @ ..] => {
            push_bytes(out, b"without ")?;
            push_names(out, first, rest)?;
            push_bytes(out, b" ")?;
            push_ask(out, query.ask())
        }
    }
}

/// Adds the name at a place, from 1, among the names of a query, the links of `without` first; nothing where there is
/// none.
fn push_name_at(out: &mut Vec<u8>, query: &Query, place: u32) -> Result<(), OutOfMemory>
    ensures { OnOk result (out.new.items ≡ out.old.items ++ name_at query.now place) }
{
    let at = place.saturating_sub(1) as usize;
    let without = query.without();
    if at < without.len() {
        push_bytes(out, without[at].as_bytes())?;
        return Ok(());
    }
    push_bytes(out, text_in(query.ask(), at - without.len()))?;
    Ok(())
}

/// Adds the line of the first unknown name of a query.
pub fn push_unknown_line(
    out: &mut Vec<u8>,
    query: &Query,
    unknown: Unknown,
) -> Result<(), OutOfMemory>
    ensures { OnOk result (out.new.items ≡ out.old.items ++ unknown_line query.now unknown) }
{
    match unknown {
        Unknown::Router(place) => push_unknown(out, b"unknown router ", query, place),
        Unknown::Link(place) => push_unknown(out, b"unknown link ", query, place),
    }
}

/// Adds a line of a label and the name at a place of a query.
fn push_unknown(
    out: &mut Vec<u8>,
    label: &[u8],
    query: &Query,
    place: u32,
) -> Result<(), OutOfMemory>
    ensures { OnOk result (out.new.items ≡ out.old.items ++ line (label.now ++ name_at query.now place)) }
{
    push_bytes(out, label)?;
    push_name_at(out, query, place)?;
    push_bytes(out, b"\n")
}
