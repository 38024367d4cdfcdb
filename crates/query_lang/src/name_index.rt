//! The routers that have a feed, found by their names.

ghost use Rattle.std.specs.Prelude.{◌≡◌, IfOk, IfSome, IsTrue, OnOk, option_map};
ghost use Rattle.base.specs.Name.{is_name_text};
ghost use Rattle.std.specs.List.{slice_get};
ghost use Rattle.std.specs.Str.{bytes_eq};
ghost use Rattle.query_lang.specs.NameIndex.{router_in, IsAdded, IsIndex, IsPut};

use dn_model::{OutOfMemory, RouterId, Topology};
use std::alloc::Global;
use std::collections::HashMap;

/// The name of a router, if it is one of the topology.
pub fn name_of(topology: &Topology, router: RouterId) -> Option<&[u8]>
    ensures router { option_map (λ n. n.now) result ≡ slice_get topology.now.routers router.0 }
    ensures name { IfSome result (λ n. IsTrue (is_name_text n.now)) }
{
    match topology.routers.as_slice().get(usize::from(router.0)) {
        Some(name) => Some(name.as_bytes()),
        None => None,
    }
}

/// Puts a router under a name, in the place of one that stood there.
fn note<'a>(
    index: &mut HashMap<&'a [u8], RouterId>,
    name: &'a [u8],
    router: RouterId,
) -> Result<(), OutOfMemory>
    ensures { OnOk result (IsPut (bytes_eq name.now) router index.old.entries index.new.entries) }
{
    let _before = index.insert(name, router)?;
    Ok(())
}

/// Puts a router under its name, if it has one.
fn add<'a>(
    index: &mut HashMap<&'a [u8], RouterId>,
    topology: &'a Topology,
    router: RouterId,
) -> Result<(), OutOfMemory>
    ensures { OnOk result (IsAdded topology.now.routers router index.old.entries index.new.entries) }
{
    match name_of(topology, router) {
        Some(name) => note(index, name, router),
        None => Ok(()),
    }
}

/// The index of these routers by name. Of those that have one name it has the first.
pub fn index_of<'a>(
    alloc: Global,
    topology: &'a Topology,
    fed: &[RouterId],
) -> Result<HashMap<&'a [u8], RouterId>, OutOfMemory>
    ensures { IfOk result (λ index. IsIndex topology.now.routers fed.now index.entries) }
{
    let mut index = HashMap::new(alloc);
    let mut rest = fed;
    while let Some((last, front)) = rest.split_last() {
        add(&mut index, topology, *last)?;
        rest = front;
    }
    Ok(index)
}

/// The router that an index has under a name.
pub fn router_at(index: &HashMap<&[u8], RouterId>, name: &[u8]) -> Option<RouterId>
    ensures { result ≡ router_in index.now.entries name.now }
{
    index.get(name).copied()
}
