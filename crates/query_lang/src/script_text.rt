//! Scripts, read from their text.

ghost use Rattle.std.specs.Prelude.{◌≡◌, ◌≤◌, IfOk, IfErr, OnOk, Ok};
ghost use Rattle.dn_formats.specs.ScriptText.{script_of, lines_meaning, line_meaning, lines_of, numbered};
ghost use Rattle.query_lang.specs.ScriptRefused.{IsRefused, added};

use crate::name_guess::guesses_of;
use crate::name_index::index_of;
use crate::script_line::{Feeds, LineRefused, read_line};
use crate::text_cut::first_line;
use dn_formats::script_cause::{TOO_LONG, TOO_MANY_LINES};
use dn_formats::{Line, Script};
use dn_model::{List, OutOfMemory, RouterId, Topology};
use std::alloc::Global;

/// The most lines of a script.
const LINES: u32 = 65_536;
/// The most bytes of a script.
const BYTES: usize = 16_777_216;

/// Why a script isn't read.
#[derive(Clone, Copy, Debug, PartialEq, Eq)]
pub enum ScriptRefused {
    /// The first fault of the text: its line (from 1, or 0 for the whole) and the number of its cause in the module
    /// `script_cause` of `dn_formats`.
    Fault { line: u32, cause: u8 },
    /// Memory ran out.
    OutOfMemory,
}

impl From<OutOfMemory> for ScriptRefused {
    ghost use Rattle.std.specs.Prelude.{◌≡◌};
    ghost use Rattle.query_lang.specs.declared.script_text.ScriptRefused.TheVariants as variant;

    ghost from_gives = { λ _ e. e ≡ variant.OutOfMemory };

    fn from(_error: OutOfMemory) -> Self {
        ScriptRefused::OutOfMemory
    }
}

/// Adds the line of this number within a script to the lines before it, if it does something.
fn read_numbered(
    alloc: Global,
    feeds: &Feeds<'_>,
    line: u32,
    text: &[u8],
    lines: &mut List<Line>,
) -> Result<(), ScriptRefused>
    ensures ok { OnOk result (added lines.old (numbered line (line_meaning feeds.now.topology.now.routers feeds.now.fed.now feeds.now.taken.now line text.now)) ≡ Ok lines.new) }
    ensures within { OnOk result (line ≤ 65536) }
    ensures refused { IfErr result (λ e. IsRefused e (numbered line (line_meaning feeds.now.topology.now.routers feeds.now.fed.now feeds.now.taken.now line text.now))) }
{
    if line > LINES {
        return Err(ScriptRefused::Fault {
            line,
            cause: TOO_MANY_LINES,
        });
    }
    match read_line(alloc, feeds, line, text, lines) {
        Ok(()) => Ok(()),
        Err(LineRefused::Cause(cause)) => Err(ScriptRefused::Fault { line, cause }),
        Err(LineRefused::OutOfMemory) => Err(ScriptRefused::OutOfMemory),
    }
}

/// The lines of a text that do something, in order.
fn read_lines(alloc: Global, feeds: &Feeds<'_>, text: &[u8]) -> Result<List<Line>, ScriptRefused>
    ensures ok { IfOk result (λ lines. lines_meaning (line_meaning feeds.now.topology.now.routers feeds.now.fed.now feeds.now.taken.now) 1 (lines_of text.now) ≡ Ok lines) }
    ensures refused { IfErr result (λ e. IsRefused e (lines_meaning (line_meaning feeds.now.topology.now.routers feeds.now.fed.now feeds.now.taken.now) 1 (lines_of text.now))) }
{
    let mut lines = List::new(alloc);
    let mut number: u32 = 1;
    let mut rest = text;
    while !rest.is_empty() {
        let (line, after) = first_line(rest);
        read_numbered(alloc, feeds, number, line, &mut lines)?;
        number += 1;
        rest = after;
    }
    Ok(lines)
}

/// The script that a text is: its lines that do something, in order. `feeds` are the routers that have a feed in this
/// run, and `taken` those from which earlier scripts take.
pub fn read_script(
    alloc: Global,
    bytes: &[u8],
    topology: &Topology,
    feeds: &[RouterId],
    taken: &[RouterId],
) -> Result<Script, ScriptRefused>
    ensures ok { IfOk result (λ script. script_of topology.now.routers feeds.now taken.now bytes.now ≡ Ok script.lines) }
    ensures refused { IfErr result (λ e. IsRefused e (script_of topology.now.routers feeds.now taken.now bytes.now)) }
{
    if bytes.len() > BYTES {
        return Err(ScriptRefused::Fault {
            line: 0,
            cause: TOO_LONG,
        });
    }
    let index = index_of(alloc, topology, feeds)?;
    let guesses = guesses_of(alloc, topology, feeds, &index)?;
    let feeds = Feeds {
        topology,
        fed: feeds,
        taken,
        index,
        guesses,
    };
    let lines = read_lines(alloc, &feeds, bytes)?;
    Ok(Script { lines })
}
