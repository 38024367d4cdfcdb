//! Entries of `router`: how routers replace routes.

ghost use Rattle.std.specs.Prelude.{◌≡◌, ◌<◌, ◌≤◌, ◌||◌, IfSome, codes, fold, length, is_none, option_map, option_and_then};
ghost use Rattle.std.specs.Option.{ForSome};
ghost use Rattle.toml.specs.Data.{as_table};
ghost use Rattle.toml.specs.View.{view, table_view};
ghost use Rattle.dn_formats.specs.TopologyText.{passes, has_key_besides, is_mark_key, has_mark, name_in, replace_in, replace_of_text, router_of_entry, replace_of_entry, mark_from, mark_of_entry, marked};
ghost use Rattle.topology.specs.Reading.{first_at_mark};

use crate::end::place_of;
use crate::name::{is_bad_name, name_of_entry};
use crate::value::{has_unknown_mark_key, text_at, text_or_at};
use dn_formats::Mark;
use dn_formats::topology_cause::{
    BAD_NAME, BAD_REPLACE, MISSING_KEY, NO_SUCH_ROUTER, TWICE_MARKED, UNKNOWN_KEY,
};
use dn_model::{List, Name, Replace, RouterId, RouterTable};
use toml::{Table, Value};

/// The text of how the routes of a table are replaced.
fn replace_in(table: &Table) -> Option<&str>
    ensures { option_map (λ s. s.now) result ≡ replace_in (table_view table.now) }
{
    text_or_at(table, "replace", "key")
}

/// The text of how an entry's router replaces routes.
fn text_of_entry(entry: &Value) -> Option<&str>
    ensures { option_map (λ s. s.now) result ≡ option_and_then replace_in (as_table (view entry.now)) }
{
    match entry.as_table() {
        Some(table) => replace_in(table),
        None => None,
    }
}

/// How routes are replaced, by its text.
fn replace_of_text(text: &str) -> Option<Replace>
    ensures { result ≡ replace_of_text text.now }
{
    if text == "key" {
        Some(Replace::Key)
    } else if text == "prefix" {
        Some(Replace::Prefix)
    } else {
        None
    }
}

/// How an entry's router replaces routes.
fn replace_of_entry(entry: &Value) -> Option<Replace>
    ensures { result ≡ replace_of_entry (view entry.now) }
{
    match text_of_entry(entry) {
        Some(text) => replace_of_text(text),
        None => None,
    }
}

/// The place of the router or VRF that an entry names.
fn router_of_entry(routers: &[Name], entry: &Value) -> Option<usize>
    ensures value { result ≡ router_of_entry routers.now (view entry.now) }
    ensures within { IfSome result (λ i. i < length routers.now) }
{
    match name_of_entry(entry) {
        Some(text) => place_of(routers, text.as_bytes()),
        None => None,
    }
}

/// The mark of the router at this place.
fn mark_from(router: Option<usize>, replace: Option<Replace>) -> Option<Mark>
    requires { ForSome router (λ r. r < 1024) }
    ensures { result ≡ mark_from router replace }
{
    match (router, replace) {
        (Some(router), Some(replace)) => Some(Mark {
            router: RouterId(router as u16),
            replace,
        }),
        _ => None,
    }
}

/// The mark of an entry of `router`.
pub fn mark_of_entry(routers: &[Name], entry: &Value) -> Option<Mark>
    requires { length routers.now ≤ 1024 }
    ensures { result ≡ mark_of_entry routers.now (view entry.now) }
{
    let router = router_of_entry(routers, entry);
    let replace = replace_of_entry(entry);
    mark_from(router, replace)
}

/// Whether an entry is a table with a key without a meaning.
fn has_unknown_key(entry: &Value) -> bool
    ensures { result ≡ passes (has_key_besides is_mark_key) (as_table (view entry.now)) }
{
    match entry.as_table() {
        Some(table) => has_unknown_mark_key(table),
        None => false,
    }
}

/// Whether a table of a mark lacks its name, or has something other than a text at `replace`.
fn lacks_value(table: &Table) -> bool
    ensures { result ≡ (is_none (name_in (table_view table.now)) || is_none (replace_in (table_view table.now))) }
{
    text_at(table, "name").is_none() || replace_in(table).is_none()
}

/// Whether an entry is a table that lacks one of a mark's values.
fn is_short(entry: &Value) -> bool
    ensures { result ≡ passes (λ ms. is_none (name_in ms) || is_none (replace_in ms)) (as_table (view entry.now)) }
{
    match entry.as_table() {
        Some(table) => lacks_value(table),
        None => false,
    }
}

/// Whether one of the marks is of the router at this place.
fn has_mark(marks: &[Mark], router: usize) -> bool
    ensures { result ≡ has_mark marks.now router }
{
    marks.iter().any(|mark| mark.router.0 as usize == router)
}

/// Whether one of the marks is of this router, if there is one.
fn is_marked_before(marks: &[Mark], router: Option<usize>) -> bool
    ensures { result ≡ passes (has_mark marks.now) router }
{
    match router {
        Some(router) => has_mark(marks, router),
        None => false,
    }
}

/// The first cause that stands at an entry of `router`, which these marks stand before.
pub fn mark_cause(routers: &[Name], marks: &[Mark], entry: &Value) -> Option<u8>
    ensures { result ≡ first_at_mark routers.now marks.now (view entry.now) }
{
    let router = router_of_entry(routers, entry);
    if !entry.is_table() {
        Some(MISSING_KEY)
    } else if has_unknown_key(entry) {
        Some(UNKNOWN_KEY)
    } else if is_short(entry) {
        Some(MISSING_KEY)
    } else if is_bad_name(entry) {
        Some(BAD_NAME)
    } else if router.is_none() {
        Some(NO_SUCH_ROUTER)
    } else if is_marked_before(marks, router) {
        Some(TWICE_MARKED)
    } else if replace_of_entry(entry).is_none() {
        Some(BAD_REPLACE)
    } else {
        None
    }
}

/// Puts a mark onto the tables: that of its router alone replaces routes as it says.
fn put_mark(tables: &mut [RouterTable], mark: Mark)
    ensures { tables.new ≡ marked tables.old mark }
{
    let place = mark.router.0 as usize;
    if place < tables.len() {
        let table = tables[place];
        tables[place] = RouterTable {
            device: table.device,
            number: table.number,
            replace: mark.replace,
        };
    }
}

/// Puts marks onto the tables.
fn put_marks(tables: &mut [RouterTable], marks: &[Mark])
    ensures { tables.new ≡ fold marked tables.old marks.now }
{
    for mark in marks {
        put_mark(tables, *mark);
    }
}

/// The tables with marks put onto them.
pub fn marked_tables(tables: List<RouterTable>, marks: &[Mark]) -> List<RouterTable>
    ensures { result ≡ fold marked tables marks.now }
{
    let mut all = tables.into_vec();
    put_marks(all.as_mut_slice(), marks);
    List::from_vec(all)
}
