//! Entries of `edge`.

ghost use Rattle.std.specs.Prelude.{◌≡◌, ◌≤◌, length, is_none, option_map, option_and_then};
ghost use Rattle.toml.specs.Data.{as_table};
ghost use Rattle.toml.specs.View.{view};
ghost use Rattle.dn_formats.specs.TopologyText.{passes, has_key_besides, is_edge_key, at_in, end_of_entry, has_end};
ghost use Rattle.topology.specs.Reading.{first_at_edge};

use crate::end::read_end;
use crate::taken::TakenEnds;
use crate::value::{has_unknown_edge_key, text_at};
use dn_formats::topology_cause::{BAD_END, END_TWICE, MISSING_KEY, TOO_MANY, UNKNOWN_KEY};
use dn_model::{Name, TopoEnd};
use toml::Value;

/// The text of an edge's interface.
fn at_of_entry(entry: &Value) -> Option<&str>
    ensures { option_map (λ s. s.now) result ≡ option_and_then at_in (as_table (view entry.now)) }
{
    match entry.as_table() {
        Some(table) => text_at(table, "at"),
        None => None,
    }
}

/// The interface of an entry of `edge`.
pub fn end_of_entry(routers: &[Name], entry: &Value) -> Option<TopoEnd>
    requires { length routers.now ≤ 1024 }
    ensures { result ≡ end_of_entry routers.now (view entry.now) }
{
    match at_of_entry(entry) {
        Some(text) => read_end(routers, text.as_bytes()),
        None => None,
    }
}

/// Whether an entry is a table with a key without a meaning.
fn has_unknown_key(entry: &Value) -> bool
    ensures { result ≡ passes (has_key_besides is_edge_key) (as_table (view entry.now)) }
{
    match entry.as_table() {
        Some(table) => has_unknown_edge_key(table),
        None => false,
    }
}

/// Whether an entry is a table without the text of an interface.
fn is_short(entry: &Value) -> bool
    ensures { result ≡ passes (λ ms. is_none (at_in ms)) (as_table (view entry.now)) }
{
    match entry.as_table() {
        Some(table) => text_at(table, "at").is_none(),
        None => false,
    }
}

/// Whether the entry's interface is taken.
fn is_end_taken(taken: &TakenEnds, end: Option<TopoEnd>) -> bool
    ensures { result ≡ passes (has_end taken.now.tables taken.now.ends) end }
{
    match end {
        Some(end) => taken.has(end),
        None => false,
    }
}

/// The first cause that stands at an entry of `edge`, which so many entries stand before, where these interfaces are
/// taken.
pub fn edge_cause(routers: &[Name], count: usize, taken: &TakenEnds, entry: &Value) -> Option<u8>
    requires { length routers.now ≤ 1024 }
    ensures { result ≡ first_at_edge routers.now taken.now count (view entry.now) }
{
    let end = end_of_entry(routers, entry);
    if count >= 16384 {
        Some(TOO_MANY)
    } else if !entry.is_table() {
        Some(MISSING_KEY)
    } else if has_unknown_key(entry) {
        Some(UNKNOWN_KEY)
    } else if is_short(entry) {
        Some(MISSING_KEY)
    } else if end.is_none() {
        Some(BAD_END)
    } else if is_end_taken(taken, end) {
        Some(END_TWICE)
    } else {
        None
    }
}
