//! The history in a report: how many entries it has, and their lines, which are written from a room of a fixed size.

ghost use Rattle.std.specs.Prelude.{◌≡◌, ◌+◌, ◌*◌, ◌<◌, ◌≤◌, ◌^◌, [], ◌++◌, ◌∷◌, OnOk, OnErr, codes, decimal, length, take, drop, vec_len, vec_capacity};
ghost use Rattle.dn_io.specs.Told.{with_end};
ghost use Rattle.dn_io.specs.Faults.{Rose};
ghost use Rattle.dn_model.specs.Entry.{entries};
ghost use Rattle.dn_formats.specs.Report.{entry_lines};
ghost use Rattle.dn_formats.specs.Texts.{line};
ghost use Rattle.run_report.specs.Written.{HasFront};

use crate::entry::{LONGEST_LINE, put_entry_line};
use crate::writer::write_text;
use dn_formats::{push_bytes, push_labelled};
use dn_io::{Failed, Sink};
use dn_model::{OutOfMemory, Posted, Topology};
use version_pages::Pages;

/// Adds how many entries the history has.
pub fn push_count(out: &mut Vec<u8>, history: &Pages<Posted>) -> Result<(), OutOfMemory>
    ensures { OnOk result (out.new.items ≡ out.old.items ++ line (codes "history " ++ decimal (length history.now))) }
{
    push_labelled(out, b"history ", history.len())?;
    push_bytes(out, b"\n")
}

/// Adds the lines of entries that follow so many others.
fn put_lines(out: &mut Vec<u8>, t: &Topology, before: u64, run: &[Posted])
    requires fits { before + length run.now < 2 ^ 64 }
    requires room { vec_len out.old + 256 * length run.now ≤ vec_capacity out.old }
    ensures text { out.new.items ≡ out.old.items ++ entry_lines t.now (before + 1) (entries run.now) }
    ensures len { vec_len out.new ≤ vec_len out.old + 256 * length run.now }
    ensures capacity { vec_capacity out.new ≡ vec_capacity out.old }
{
    let mut position = before;
    for posted in run {
        position += 1;
        put_entry_line(out, t, position, &posted.entry);
    }
}

/// How many lines there is room for, whatever they say.
fn lines_of_room(out: &Vec<u8>) -> usize
    ensures fits { vec_len out.now + 256 * result ≤ vec_capacity out.now }
    ensures some { vec_len out.now + 256 ≤ vec_capacity out.now → 0 < result }
{
    (out.capacity() - out.len()) / LONGEST_LINE
}

/// The entries from a place to the end of its page, but at most so many.
fn run_within(history: &Pages<Posted>, from: u64, most: usize) -> &[Posted]
    ensures few { length result.now ≤ most }
    ensures some { from < length history.now → 0 < most → 0 < length result.now }
    ensures run { take (length result.now) (drop from history.now) ≡ result.now }
{
    let run = history.run_from(from);
    &run[..run.len().min(most)]
}

/// Adds lines of the entries from a place on while there is room, and says how many: at least one where there is an entry,
/// and room for a line.
fn fill(out: &mut Vec<u8>, t: &Topology, history: &Pages<Posted>, from: u64) -> u64
    requires within { from ≤ length history.now }
    ensures within { from + result ≤ length history.now }
    ensures text { out.new.items ≡ out.old.items ++ entry_lines t.now (from + 1)
        (entries (take result (drop from history.now))) }
    ensures some { vec_len out.old + 256 ≤ vec_capacity out.old → from < length history.now → 0 < result }
    ensures capacity { vec_capacity out.new ≡ vec_capacity out.old }
{
    let mut upto = from;
    let mut most = lines_of_room(out);
    'pages: while upto < history.len() && most > 0 {
        let run = run_within(history, upto, most);
        put_lines(out, t, upto, run);
        upto += run.len() as u64;
        most = lines_of_room(out);
    }
    upto - from
}

/// Writes the lines of all entries, by as many at once as the room holds: a line of any length at least.
pub fn write_lines<K: Sink>(
    sink: &mut K,
    t: &Topology,
    history: &Pages<Posted>,
    room: Vec<u8>,
) -> Result<(), Failed>
    requires room { 256 ≤ vec_capacity room }
    ensures written { OnOk result (K.written sink.new ≡ with_end (K.written sink.old)
        (entry_lines t.now 1 (entries history.now))) }
    ensures same_count { OnOk result (K.faults sink.new ≡ K.faults sink.old) }
    ensures rises { OnErr result (Rose (K.faults sink.old) (K.faults sink.new)) }
    ensures front { OnErr result (HasFront (K.written sink.old) (K.written sink.new)
        (entry_lines t.now 1 (entries history.now))) }
    ensures never_falls { K.faults sink.old ≤ K.faults sink.new }
{
    let mut room = room;
    let mut done = 0;
    'rooms: while done < history.len() {
        room.clear();
        let count = fill(&mut room, t, history, done);
        write_text(sink, room.as_slice())?;
        done += count;
    }
    Ok(())
}
