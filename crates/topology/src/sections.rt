//! The lists of entries of a document.

ghost use Rattle.std.specs.Prelude.{◌≡◌, map};
ghost use Rattle.toml.specs.View.{view, table_view};
ghost use Rattle.dn_formats.specs.TopologyText.{entries_at, sections_of};
ghost use Rattle.topology.specs.Sections.{sections};

use crate::value::list_at;
use toml::{Table, Value};

/// The entries of `routers`, `vrf`, `link`, `edge` and `router`.
#[derive(Clone, Copy)]
pub struct Sections<'a> {
    pub routers: &'a [Value],
    pub vrfs: &'a [Value],
    pub links: &'a [Value],
    pub edges: &'a [Value],
    pub marks: &'a [Value],
}

/// The entries of a list at a key; none where there is no such list.
fn entries_at<'a>(table: &'a Table, key: &str) -> &'a [Value]
    ensures { map view result.now ≡ entries_at key.now (table_view table.now) }
{
    match list_at(table, key) {
        Some(entries) => entries,
        None => &[],
    }
}

/// The lists of entries of a document.
pub fn sections_of(table: &Table) -> Sections<'_>
    ensures { sections result ≡ sections_of (table_view table.now) }
{
    Sections {
        routers: entries_at(table, "routers"),
        vrfs: entries_at(table, "vrf"),
        links: entries_at(table, "link"),
        edges: entries_at(table, "edge"),
        marks: entries_at(table, "router"),
    }
}
