//! The names of entries that are tables.

ghost use Rattle.std.specs.Prelude.{◌≡◌, not, option_map};
ghost use Rattle.toml.specs.View.{view};
ghost use Rattle.base.specs.Name.{is_name_text};
ghost use Rattle.dn_formats.specs.TopologyText.{passes, has_text, name_of_entry};

use crate::router::has_name;
use crate::value::text_at;
use dn_model::{Name, is_name};
use toml::Value;

/// The name of an entry of `vrf`, `link` or `router`.
pub fn name_of_entry(entry: &Value) -> Option<&str>
    ensures { option_map (λ s. s.now) result ≡ name_of_entry (view entry.now) }
{
    match entry.as_table() {
        Some(table) => text_at(table, "name"),
        None => None,
    }
}

/// Whether an entry's name is none.
pub fn is_bad_name(entry: &Value) -> bool
    ensures { result ≡ passes (λ name. not (is_name_text name)) (name_of_entry (view entry.now)) }
{
    match name_of_entry(entry) {
        Some(text) => !is_name(text.as_bytes()),
        None => false,
    }
}

/// Whether an entry's name is one of these.
pub fn is_named_before(names: &[Name], entry: &Value) -> bool
    ensures { result ≡ passes (has_text names.now) (name_of_entry (view entry.now)) }
{
    match name_of_entry(entry) {
        Some(text) => has_name(names, text.as_bytes()),
        None => false,
    }
}
