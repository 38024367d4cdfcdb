//! The topology and the scripts, read from their files.

ghost use Rattle.std.specs.Prelude.{◌≡◌, ◌<◌, ◌^◌, length, IfOk, OnErr};
ghost use Rattle.std.specs.String.{string_bytes};
ghost use Rattle.dn_run.specs.Opened.{MayCallOne};
ghost use Rattle.dn_run.specs.Loaded.{LoadsTopology, SaysTopology, LoadsScript, SaysScript};

use crate::files::{FileRefused, read_file};
use crate::parts::ScriptPart;
use dn_formats::{ErrorLine, Script, TopoRefused};
use dn_io::World;
use dn_model::{OutOfMemory, RouterId, Topology};
use query_lang::{ScriptRefused, read_script};
use std::alloc::Global;
use topology::read_topology;

/// At most this many bytes of a topology or a script are accepted; one more is read.
const TEXT_LIMIT: usize = 16777216;

/// What became of a file that was to be read.
#[derive(Drop)]
pub enum Loaded<T> {
    /// It says this.
    Read(T),
    /// Its text is refused, and this line tells its first fault.
    Refused(ErrorLine),
    /// It could not be opened, or failed while it was read.
    Failed,
}

/// The topology that a text says.
fn topology_in(alloc: Global, bytes: &[u8]) -> Result<Loaded<Topology>, OutOfMemory>
    ensures { IfOk result (SaysTopology bytes.now) }
{
    match read_topology(alloc, bytes) {
        Ok(topology) => Ok(Loaded::Read(topology)),
        Err(TopoRefused::Fault(fault)) => Ok(Loaded::Refused(ErrorLine::Topology(fault))),
        Err(TopoRefused::OutOfMemory) => Err(OutOfMemory),
    }
}

/// The topology that a file says.
pub fn load_topology<W: World>(
    alloc: Global,
    name: &str,
    world: &mut W,
) -> Result<Loaded<Topology>, OutOfMemory>
    requires { length (W.calls world.old) < 2 ^ 32 }
    ensures loads { IfOk result (LoadsTopology (W.files world.old) (W.calls world.old) name.now (W.calls world.new)) }
    ensures memory { OnErr result (MayCallOne (W.calls world.old) name.now (W.calls world.new)) }
    ensures same_files { W.files world.new ≡ W.files world.old }
{
    match read_file(alloc, world, name, TEXT_LIMIT) {
        Ok(bytes) => topology_in(alloc, bytes.as_slice()),
        Err(FileRefused::Failed) => Ok(Loaded::Failed),
        Err(FileRefused::OutOfMemory) => Err(OutOfMemory),
    }
}

/// What a script is read over: the network, the routers that have feeds, and those of them from which earlier scripts
/// take.
#[derive(Clone, Copy)]
pub struct Scope<'a> {
    pub topology: &'a Topology,
    pub routers: &'a [RouterId],
    pub taken: &'a [RouterId],
}

/// The script that a text says, which this part names.
fn script_in(
    alloc: Global,
    bytes: &[u8],
    part: u32,
    scope: Scope<'_>,
) -> Result<Loaded<Script>, OutOfMemory>
    ensures { IfOk result (SaysScript scope.entry.topology.now scope.entry.routers.now scope.entry.taken.now part
        bytes.now) }
{
    match read_script(alloc, bytes, scope.topology, scope.routers, scope.taken) {
        Ok(script) => Ok(Loaded::Read(script)),
        Err(ScriptRefused::Fault { line, cause }) => {
            Ok(Loaded::Refused(ErrorLine::Script { part, line, cause }))
        }
        Err(ScriptRefused::OutOfMemory) => Err(OutOfMemory),
    }
}

/// The script that the file of a part says.
pub fn load_script<W: World>(
    alloc: Global,
    part: &ScriptPart,
    scope: Scope<'_>,
    world: &mut W,
) -> Result<Loaded<Script>, OutOfMemory>
    requires { length (W.calls world.old) < 2 ^ 32 }
    ensures loads { IfOk result (LoadsScript scope.entry.topology.now scope.entry.routers.now scope.entry.taken.now
        part.now.part (W.files world.old) (W.calls world.old) (string_bytes part.now.file) (W.calls world.new)) }
    ensures memory { OnErr result (MayCallOne (W.calls world.old) (string_bytes part.now.file) (W.calls world.new)) }
    ensures same_files { W.files world.new ≡ W.files world.old }
{
    match read_file(alloc, world, part.file.as_str(), TEXT_LIMIT) {
        Ok(bytes) => script_in(alloc, bytes.as_slice(), part.part, scope),
        Err(FileRefused::Failed) => Ok(Loaded::Failed),
        Err(FileRefused::OutOfMemory) => Err(OutOfMemory),
    }
}
