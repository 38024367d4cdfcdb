//! Entries of `routers`.

ghost use Rattle.std.specs.Prelude.{◌≡◌, length, not, is_none};
ghost use Rattle.toml.specs.Data.{as_str};
ghost use Rattle.toml.specs.View.{view};
ghost use Rattle.base.specs.Name.{is_name_text};
ghost use Rattle.dn_formats.specs.TopologyText.{passes, has_text, router_causes};
ghost use Rattle.topology.specs.Reading.{first_standing};

use dn_formats::topology_cause::{BAD_NAME, MISSING_KEY, TOO_MANY, TWICE_NAMED};
use dn_model::{Name, is_name};
use toml::Value;

/// Whether one of the names is this text.
pub fn has_name(names: &[Name], text: &[u8]) -> bool
    ensures { result ≡ has_text names.now text.now }
{
    names.iter().any(|name| name.as_bytes() == text)
}

/// Whether an entry is a text that is no name.
fn is_bad_name(entry: &Value) -> bool
    ensures { result ≡ passes (λ name. not (is_name_text name)) (as_str (view entry.now)) }
{
    match entry.as_str() {
        Some(text) => !is_name(text.as_bytes()),
        None => false,
    }
}

/// Whether an entry is a text that is among the names.
fn is_named_before(names: &[Name], entry: &Value) -> bool
    ensures { result ≡ passes (has_text names.now) (as_str (view entry.now)) }
{
    match entry.as_str() {
        Some(text) => has_name(names, text.as_bytes()),
        None => false,
    }
}

/// The first cause that stands at an entry of `routers`, which these names stand before.
pub fn router_cause(names: &[Name], entry: &Value) -> Option<u8>
    ensures { result ≡ first_standing (router_causes (length names.now) names.now) (view entry.now) }
{
    if names.len() >= 1024 {
        Some(TOO_MANY)
    } else if !entry.is_str() {
        Some(MISSING_KEY)
    } else if is_bad_name(entry) {
        Some(BAD_NAME)
    } else if is_named_before(names, entry) {
        Some(TWICE_NAMED)
    } else {
        None
    }
}
