//! Entries of `link`.

ghost use Rattle.std.specs.Prelude.{◌≡◌, ◌≤◌, ◌||◌, ◌==◌, length, map, is_none, option_map};
ghost use Rattle.toml.specs.Data.{as_table};
ghost use Rattle.toml.specs.View.{view, table_view};
ghost use Rattle.dn_formats.specs.TopologyText.{passes, has_text, has_key_besides, is_link_key, two_texts, name_in, ends_in, unnumbered_in, both_ends, ends_of_table, name_of_entry, ends_of_entry};
ghost use Rattle.topology.specs.Reading.{first_at_link};
ghost use Rattle.topology.specs.Taken.{is_pair_taken};

use crate::end::read_end;
use crate::name::{is_bad_name, name_of_entry};
use crate::taken::{TakenEnds, has_link_name};
use crate::value::{flag_or_none_at, has_unknown_link_key, list_at, text_at};
use dn_formats::topology_cause::{
    BAD_END, BAD_NAME, END_TWICE, MISSING_KEY, SELF_LINK, TOO_MANY, TWICE_NAMED, UNKNOWN_KEY,
};
use dn_model::{Name, TopoEnd, TopoLink};
use toml::{Table, Value};

/// The two texts that a list has, if it has two and they are texts.
fn two_texts(items: &[Value]) -> Option<(&str, &str)>
    ensures { option_map (λ p. (p.0.now, p.1.now)) result ≡ two_texts (map view items.now) }
{
    match items {
        [first, second] => match (first.as_str(), second.as_str()) {
            (Some(first), Some(second)) => Some((first, second)),
            _ => None,
        },
        _ => None,
    }
}

/// The texts of a link's two ends.
fn ends_in(table: &Table) -> Option<(&str, &str)>
    ensures { option_map (λ p. (p.0.now, p.1.now)) result ≡ ends_in (table_view table.now) }
{
    match list_at(table, "ends") {
        Some(items) => two_texts(items),
        None => None,
    }
}

/// Whether a table of a link lacks one of its values.
fn lacks_value(table: &Table) -> bool
    ensures { result ≡ (is_none (name_in (table_view table.now)) || is_none (ends_in (table_view table.now)) || is_none (unnumbered_in (table_view table.now))) }
{
    text_at(table, "name").is_none()
        || ends_in(table).is_none()
        || flag_or_none_at(table, "unnumbered").is_none()
}

/// The ends that two texts are.
fn both_ends(first: Option<TopoEnd>, second: Option<TopoEnd>) -> Option<(TopoEnd, TopoEnd)>
    ensures { result ≡ both_ends first second }
{
    match (first, second) {
        (Some(first), Some(second)) => Some((first, second)),
        _ => None,
    }
}

/// The ends of a link's table.
pub fn ends_of_table(routers: &[Name], table: &Table) -> Option<(TopoEnd, TopoEnd)>
    requires { length routers.now ≤ 1024 }
    ensures { result ≡ ends_of_table routers.now (table_view table.now) }
{
    match ends_in(table) {
        Some((first, second)) => both_ends(
            read_end(routers, first.as_bytes()),
            read_end(routers, second.as_bytes()),
        ),
        None => None,
    }
}

/// The ends of an entry of `link`.
pub fn ends_of_entry(routers: &[Name], entry: &Value) -> Option<(TopoEnd, TopoEnd)>
    requires { length routers.now ≤ 1024 }
    ensures { result ≡ ends_of_entry routers.now (view entry.now) }
{
    match entry.as_table() {
        Some(table) => ends_of_table(routers, table),
        None => None,
    }
}

/// Whether an entry is a table with a key without a meaning.
fn has_unknown_key(entry: &Value) -> bool
    ensures { result ≡ passes (has_key_besides is_link_key) (as_table (view entry.now)) }
{
    match entry.as_table() {
        Some(table) => has_unknown_link_key(table),
        None => false,
    }
}

/// Whether an entry is a table that lacks one of a link's values.
fn is_short(entry: &Value) -> bool
    ensures { result ≡ passes (λ ms. is_none (name_in ms) || is_none (ends_in ms) || is_none (unnumbered_in ms)) (as_table (view entry.now)) }
{
    match entry.as_table() {
        Some(table) => lacks_value(table),
        None => false,
    }
}

/// Whether an entry's name is that of one of the links.
fn is_named_before(links: &[TopoLink], entry: &Value) -> bool
    ensures { result ≡ passes (has_text (map (λ l. l.name) links.now)) (name_of_entry (view entry.now)) }
{
    match name_of_entry(entry) {
        Some(text) => has_link_name(links, text.as_bytes()),
        None => false,
    }
}

/// Whether both ends are at one router.
fn is_self_link(ends: Option<(TopoEnd, TopoEnd)>) -> bool
    ensures { result ≡ passes (λ both. both.0.router.0 == both.1.router.0) ends }
{
    match ends {
        Some((first, second)) => first.router.0 == second.router.0,
        None => false,
    }
}

/// Whether one of the ends is taken, or the second is the same interface as the first.
#[tactic(auto, using(crate::proofs::Values::second_taken))]
fn is_end_taken(taken: &TakenEnds, ends: Option<(TopoEnd, TopoEnd)>) -> bool
    ensures { result ≡ passes (is_pair_taken taken.now) ends }
{
    match ends {
        Some((first, second)) => {
            taken.has(first) || taken.has(second) || taken.is_one_interface(first, second)
        }
        None => false,
    }
}

/// The first cause that stands at an entry of `link`, which these links stand before, where these interfaces are taken.
pub fn link_cause(
    routers: &[Name],
    links: &[TopoLink],
    taken: &TakenEnds,
    entry: &Value,
) -> Option<u8>
    requires { length routers.now ≤ 1024 }
    ensures { result ≡ first_at_link routers.now taken.now links.now (view entry.now) }
{
    let ends = ends_of_entry(routers, entry);
    if links.len() >= 4096 {
        Some(TOO_MANY)
    } else if !entry.is_table() {
        Some(MISSING_KEY)
    } else if has_unknown_key(entry) {
        Some(UNKNOWN_KEY)
    } else if is_short(entry) {
        Some(MISSING_KEY)
    } else if is_bad_name(entry) {
        Some(BAD_NAME)
    } else if is_named_before(links, entry) {
        Some(TWICE_NAMED)
    } else if ends.is_none() {
        Some(BAD_END)
    } else if is_self_link(ends) {
        Some(SELF_LINK)
    } else if is_end_taken(taken, ends) {
        Some(END_TWICE)
    } else {
        None
    }
}
