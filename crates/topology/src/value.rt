//! The values of a TOML document, by key and type.

ghost use Rattle.std.specs.Prelude.{◌≡◌, map, not, Some, option_map, string_bytes};
ghost use Rattle.std.specs.List.{list_any};
ghost use Rattle.std.specs.BTreeMap.{keys};
ghost use Rattle.toml.specs.Data.{get_member, as_array};
ghost use Rattle.toml.specs.View.{view, table_view};
ghost use Rattle.dn_formats.specs.TopologyText.{items_in, text_at, list_at, list_or_none_at, flag_or_none_at, number_at, text_or_at, is_top_key, is_vrf_key, is_link_key, is_edge_key, is_mark_key, has_key_besides};

use toml::{Table, Value};

/// The value at a key.
pub fn value_at<'a>(table: &'a Table, key: &str) -> Option<&'a Value>
    ensures { option_map (λ v. view v.now) result ≡ get_member key.now (table_view table.now) }
{
    table.get(key)
}

/// The text at a key, if the key has a text.
pub fn text_at<'a>(table: &'a Table, key: &str) -> Option<&'a str>
    ensures { option_map (λ s. s.now) result ≡ text_at key.now (table_view table.now) }
{
    match value_at(table, key) {
        Some(value) => value.as_str(),
        None => None,
    }
}

/// The text at a key, if the key has a text, and the usual one where the key is absent.
pub fn text_or_at<'a>(table: &'a Table, key: &str, usual: &'a str) -> Option<&'a str>
    ensures { option_map (λ s. s.now) result ≡ text_or_at usual.now key.now (table_view table.now) }
{
    match value_at(table, key) {
        Some(value) => value.as_str(),
        None => Some(usual),
    }
}

/// The whole number at a key, if the key has one.
pub fn number_at(table: &Table, key: &str) -> Option<i64>
    ensures { result ≡ number_at key.now (table_view table.now) }
{
    match value_at(table, key) {
        Some(value) => value.as_integer(),
        None => None,
    }
}

/// The items of a value, if it is a list.
fn items(value: &Value) -> Option<&[Value]>
    ensures { option_map (λ s. map view s.now) result ≡ option_map items_in (as_array (view value.now)) }
{
    match value.as_array() {
        Some(array) => Some(array.as_slice()),
        None => None,
    }
}

/// The list at a key, if the key has a list.
pub fn list_at<'a>(table: &'a Table, key: &str) -> Option<&'a [Value]>
    ensures { option_map (λ s. map view s.now) result ≡ list_at key.now (table_view table.now) }
{
    match value_at(table, key) {
        Some(value) => items(value),
        None => None,
    }
}

/// The list at a key, if the key has a list, and the empty list where the key is absent.
pub fn list_or_none_at<'a>(table: &'a Table, key: &str) -> Option<&'a [Value]>
    ensures { option_map (λ s. map view s.now) result ≡ list_or_none_at key.now (table_view table.now) }
{
    match value_at(table, key) {
        Some(value) => items(value),
        None => Some(&[]),
    }
}

/// The truth value at a key, if the key has one, and false where the key is absent.
pub fn flag_or_none_at(table: &Table, key: &str) -> Option<bool>
    ensures { result ≡ flag_or_none_at key.now (table_view table.now) }
{
    match value_at(table, key) {
        Some(value) => value.as_bool(),
        None => Some(false),
    }
}

/// Whether a key has a meaning at the top.
fn is_top_key(key: &str) -> bool
    ensures { result ≡ is_top_key key.now }
{
    key == "routers" || key == "vrf" || key == "link" || key == "edge" || key == "router"
}

/// Whether a key has a meaning in a VRF.
fn is_vrf_key(key: &str) -> bool
    ensures { result ≡ is_vrf_key key.now }
{
    key == "router" || key == "table" || key == "name"
}

/// Whether a key has a meaning in a link.
fn is_link_key(key: &str) -> bool
    ensures { result ≡ is_link_key key.now }
{
    key == "name" || key == "ends" || key == "unnumbered"
}

/// Whether a key has a meaning in an edge.
fn is_edge_key(key: &str) -> bool
    ensures { result ≡ is_edge_key key.now }
{
    key == "at"
}

/// Whether a key has a meaning in a mark.
fn is_mark_key(key: &str) -> bool
    ensures { result ≡ is_mark_key key.now }
{
    key == "name" || key == "replace"
}

/// Whether one of the keys has no meaning at the top.
fn some_key_is_no_top_key(table: &Table) -> bool
    ensures { result ≡ list_any (λ k. not (is_top_key (string_bytes k))) (keys table.now) }
{
    table.keys().any(|key| !is_top_key(key.as_str()))
}

/// Whether a document has a key without a meaning at the top.
pub fn has_unknown_top_key(table: &Table) -> bool
    ensures { result ≡ has_key_besides is_top_key (table_view table.now) }
{
    some_key_is_no_top_key(table)
}

/// Whether one of the keys has no meaning in a VRF.
fn some_key_is_no_vrf_key(table: &Table) -> bool
    ensures { result ≡ list_any (λ k. not (is_vrf_key (string_bytes k))) (keys table.now) }
{
    table.keys().any(|key| !is_vrf_key(key.as_str()))
}

/// Whether a table has a key without a meaning in a VRF.
pub fn has_unknown_vrf_key(table: &Table) -> bool
    ensures { result ≡ has_key_besides is_vrf_key (table_view table.now) }
{
    some_key_is_no_vrf_key(table)
}

/// Whether one of the keys has no meaning in a link.
fn some_key_is_no_link_key(table: &Table) -> bool
    ensures { result ≡ list_any (λ k. not (is_link_key (string_bytes k))) (keys table.now) }
{
    table.keys().any(|key| !is_link_key(key.as_str()))
}

/// Whether a table has a key without a meaning in a link.
pub fn has_unknown_link_key(table: &Table) -> bool
    ensures { result ≡ has_key_besides is_link_key (table_view table.now) }
{
    some_key_is_no_link_key(table)
}

/// Whether one of the keys has no meaning in an edge.
fn some_key_is_no_edge_key(table: &Table) -> bool
    ensures { result ≡ list_any (λ k. not (is_edge_key (string_bytes k))) (keys table.now) }
{
    table.keys().any(|key| !is_edge_key(key.as_str()))
}

/// Whether a table has a key without a meaning in an edge.
pub fn has_unknown_edge_key(table: &Table) -> bool
    ensures { result ≡ has_key_besides is_edge_key (table_view table.now) }
{
    some_key_is_no_edge_key(table)
}

/// Whether one of the keys has no meaning in a mark.
fn some_key_is_no_mark_key(table: &Table) -> bool
    ensures { result ≡ list_any (λ k. not (is_mark_key (string_bytes k))) (keys table.now) }
{
    table.keys().any(|key| !is_mark_key(key.as_str()))
}

/// Whether a table has a key without a meaning in a mark.
pub fn has_unknown_mark_key(table: &Table) -> bool
    ensures { result ≡ has_key_besides is_mark_key (table_view table.now) }
{
    some_key_is_no_mark_key(table)
}
