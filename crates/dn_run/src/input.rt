//! What the words and the files of a run say, before its feeds are opened.

ghost use Rattle.std.specs.Prelude.{◌≡◌, ◌<◌, ◌≤◌, ◌==◌, ◌||◌, ◌+◌, ◌++◌, ◌∷◌, ◌^◌, [], length, map, IfOk, IfErr, OnOk};
ghost use Rattle.std.specs.List.{flat_map, list_any};
ghost use Rattle.dn_run.specs.Jobs.{AreFit, scripts_of};
ghost use Rattle.dn_run.specs.PartsRead.{script_texts};
ghost use Rattle.dn_run.specs.Run.{taken_by_line};
ghost use Rattle.dn_run.specs.Stops.{AreTaken, ScriptEnds, ScriptGoesOn, ScriptsEnd, ScriptsGoOn, Starts, Stops};
ghost use Rattle.dn_run.specs.Stops.{MayFollow, StopsAs};
ghost use Rattle.dn_run.specs.WordsRefused.{run_texts};

use crate::load::{Loaded, Scope, load_script, load_topology};
use crate::parts::{FeedPart, ScriptPart, read_parts};
use crate::routers::{find_routers, is_among};
use crate::status::Verdict;
use crate::stop::Stop;
use crate::untaken::has_too_many_jobs;
use crate::words::RunCommand;
use dn_formats::{ErrorLine, Line, Script};
use dn_io::World;
use dn_model::{OutOfMemory, RouterId, Topology};
use std::alloc::Global;
use std::sync::Arc;

/// What a run is over: its topology, its scripts, and its feeds with their routers, none of them open.
#[derive(Drop)]
pub struct Input {
    pub topology: Arc<Topology, Global>,
    pub scripts: Vec<Script>,
    pub feeds: Vec<FeedPart>,
    pub routers: Vec<RouterId>,
}

impl<T: Drop> Loaded<T> {
    /// What the file says. Where its text is refused the run ends with this verdict, where it failed with this line.
    fn or_stop(self, bad: Verdict, fault: ErrorLine) -> Result<T, Stop>
        ensures ok { IfOk result (λ x. self ≡ Loaded.Read x) }
        ensures stops { IfErr result (StopsAs bad fault self) }
    {
        match self {
            Loaded::Read(said) => Ok(said),
            Loaded::Refused(line) => Err(Stop::Line(bad, line)),
            Loaded::Failed => Err(Stop::Line(Verdict::ReadFault, fault)),
        }
    }
}

/// Scripts that were read, and the routers from which they take, each once.
#[derive(Drop)]
struct ScriptsRead {
    scripts: Vec<Script>,
    taken: Vec<RouterId>,
}

/// Adds the router from which a line takes, if it takes from one that isn't there.
fn add_taken(taken: &mut Vec<RouterId>, line: &Line) -> Result<(), OutOfMemory>
    ensures { OnOk result ((r : RouterId) → list_any (λ q. q.0 == r.0) taken.new.items
        ≡ (list_any (λ q. q.0 == r.0) taken.old.items || list_any (λ q. q.0 == r.0) (taken_by_line line.now))) }
{
    match line {
        Line::Take { router, .. } => {
            if !is_among(taken.as_slice(), *router) {
                taken.push(*router)?;
            }
            Ok(())
        }
        Line::Ask { .. } => Ok(()),
        Line::Link { .. } => Ok(()),
    }
}

/// Adds the routers from which lines take.
fn add_all_taken(taken: &mut Vec<RouterId>, lines: &[Line]) -> Result<(), OutOfMemory>
    ensures { OnOk result ((r : RouterId) → list_any (λ q. q.0 == r.0) taken.new.items
        ≡ (list_any (λ q. q.0 == r.0) taken.old.items || list_any (λ q. q.0 == r.0)
        (flat_map taken_by_line lines.now))) }
{
    for line in lines {
        add_taken(taken, line)?;
    }
    Ok(())
}

impl ScriptsRead {
    /// Adds a script that takes from none of the routers from which those before it take.
    fn add(&mut self, script: Script) -> Result<(), OutOfMemory>
        requires taken { AreTaken self.old.taken.items (scripts_of self.old.scripts.items) }
        requires fit { AreFit (scripts_of self.old.scripts.items) }
        requires follows { MayFollow self.old.taken.items script.lines }
        ensures taken { OnOk result (AreTaken self.new.taken.items (scripts_of self.new.scripts.items)) }
        ensures fit { OnOk result (AreFit (scripts_of self.new.scripts.items)) }
        ensures added { OnOk result (scripts_of self.new.scripts.items ≡ scripts_of self.old.scripts.items
            ++ script.lines ∷ []) }
        ensures len { OnOk result (length self.new.scripts.items ≡ length self.old.scripts.items + 1) }
    {
        add_all_taken(&mut self.taken, script.lines.as_slice())?;
        self.scripts.push(script)?;
        Ok(())
    }
}

/// Reads the script of this part.
fn read_part<W: World>(
    alloc: Global,
    part: &ScriptPart,
    scope: Scope<'_>,
    world: &mut W,
) -> Result<Script, Stop>
    requires room { length (W.calls world.old) < 2 ^ 32 }
    ensures ok { IfOk result (λ script. ScriptGoesOn (W.files world.old) scope.entry.topology.now
        scope.entry.routers.now scope.entry.taken.now (W.calls world.old) (script_texts part.now) (W.calls world.new)
        script.lines) }
    ensures stops { IfErr result (ScriptEnds (W.files world.old) scope.entry.topology.now scope.entry.routers.now
        scope.entry.taken.now (W.calls world.old) (script_texts part.now) (W.calls world.new)) }
    ensures follows { IfOk result (λ script. MayFollow scope.entry.taken.now script.lines) }
    ensures few { IfOk result (λ script. length (W.calls world.new) ≤ length (W.calls world.old) + 1) }
    ensures same_files { W.files world.new ≡ W.files world.old }
{
    let loaded = load_script(alloc, part, scope, world)?;
    loaded.or_stop(Verdict::BadScript, ErrorLine::ReadPart { part: part.part })
}

/// Reads the scripts of these parts in order. The first that is refused or fails ends the run.
fn read_scripts<W: World>(
    alloc: Global,
    parts: &[ScriptPart],
    topology: &Topology,
    routers: &[RouterId],
    world: &mut W,
) -> Result<Vec<Script>, Stop>
    requires room { length (W.calls world.old) + length parts.now < 2 ^ 32 }
    ensures ok { IfOk result (λ scripts. ScriptsGoOn (W.files world.old) topology.now routers.now (W.calls world.old)
        (map script_texts parts.now) (W.calls world.new) (scripts_of scripts.items) []) }
    ensures stops { IfErr result (ScriptsEnd (W.files world.old) topology.now routers.now (W.calls world.old)
        (map script_texts parts.now) (W.calls world.new)) }
    ensures few { IfOk result (λ scripts. length (W.calls world.new) ≤ length (W.calls world.old) + length parts.now) }
    ensures len { IfOk result (λ scripts. length scripts.items ≡ length parts.now) }
    ensures fit { IfOk result (λ scripts. AreFit (scripts_of scripts.items)) }
    ensures same_files { W.files world.new ≡ W.files world.old }
{
    let mut read = ScriptsRead {
        scripts: Vec::new(alloc),
        taken: Vec::new(alloc),
    };
    for part in parts {
        let scope = Scope {
            topology,
            routers,
            taken: read.taken.as_slice(),
        };
        let script = read_part(alloc, part, scope, world)?;
        read.add(script)?;
    }
    Ok(read.scripts)
}

/// Reads the parts of a run's words, the topology and the scripts, looks up the feeds' routers, and counts the jobs.
/// The first that is refused or fails ends the run.
pub fn read_input<W: World>(
    alloc: Global,
    command: &RunCommand,
    world: &mut W,
) -> Result<Input, Stop>
    requires fresh { W.calls world.old ≡ [] }
    ensures ok { IfOk result (Starts (run_texts command.now) (W.files world.old) (W.calls world.new)) }
    ensures stops { IfErr result (Stops (run_texts command.now) (W.files world.old) (W.calls world.new)) }
    ensures same_files { W.files world.new ≡ W.files world.old }
{
    let parts = read_parts(alloc, command.parts.as_slice())?;
    let topology = load_topology(alloc, command.topology.as_str(), world)?.or_stop(
        Verdict::BadTopology,
        ErrorLine::ReadTopology,
    )?;
    let topology = Arc::new(alloc, topology)?;
    let routers = find_routers(alloc, &topology, parts.feeds.as_slice())?;
    let scripts = read_scripts(
        alloc,
        parts.scripts.as_slice(),
        &topology,
        routers.as_slice(),
        world,
    )?;
    if has_too_many_jobs(routers.as_slice(), scripts.as_slice()) {
        return Err(Stop::Line(Verdict::BadWords, ErrorLine::TooManyJobs));
    }
    Ok(Input {
        topology,
        scripts,
        feeds: parts.feeds,
        routers,
    })
}
