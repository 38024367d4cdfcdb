//! The part of a report behind its history's head.

ghost use Rattle.std.specs.Prelude.{◌≡◌, ◌≤◌, ◌++◌, IfOk, OnOk, OnErr};
ghost use Rattle.std.specs.Arc.{arc_value};
ghost use Rattle.dn_io.specs.Told.{with_end};
ghost use Rattle.dn_io.specs.Faults.{Rose};
ghost use Rattle.dn_model.specs.Entry.{entries};
ghost use Rattle.dn_formats.specs.Report.{entry_lines};
ghost use Rattle.run_report.specs.Written.{HasFront};

use crate::history::write_lines;
use crate::writer::write_text;
use dn_io::{Failed, Sink};
use dn_model::{OutOfMemory, Posted, Topology};
use std::alloc::Global;
use std::marker::Model;
use std::sync::Arc;
use version_pages::Pages;

/// So many bytes of a history's lines are written at once.
const ROOM: usize = 16384;

/// The lines of a history, and the text behind them.
#[derive(Drop)]
pub struct Rest {
    topology: Arc<Topology, Global>,
    history: Pages<Posted>,
    room: Vec<u8>,
    last: Vec<u8>,
}

impl Model for Rest {
    ghost use Rattle.std.specs.Prelude.{List, ℕ, ◌++◌, ◌≤◌, vec_capacity};
    ghost use Rattle.std.specs.Arc.{arc_value};
    ghost use Rattle.dn_model.specs.Entry.{entries};
    ghost use Rattle.dn_formats.specs.Report.{entry_lines};

    ghost Value = { List ℕ };

    ghost view = { λ r. entry_lines (arc_value r.topology) 1 (entries r.history) ++ r.last.items };

    ghost invariant = { λ r. 256 ≤ vec_capacity r.room };
}

impl Rest {
    /// The lines of this history and this text behind them, with the room in which the lines are made. It fails only
    /// when out of memory.
    pub fn new(
        alloc: Global,
        topology: Arc<Topology, Global>,
        history: Pages<Posted>,
        last: Vec<u8>,
    ) -> Result<Rest, OutOfMemory>
        ensures { IfOk result (λ r. r ≡ entry_lines (arc_value topology) 1 (entries history) ++ last.items) }
    {
        let room = Vec::with_capacity(alloc, ROOM)?;
        Ok(Rest {
            topology,
            history,
            room,
            last,
        })
    }

    /// Writes all of it, and takes no memory.
    ///
    /// # Errors
    ///
    /// `Failed` at the first write that fails, after a front of it.
    pub fn write<K: Sink>(self, sink: &mut K) -> Result<(), Failed>
        ensures written { OnOk result (K.written sink.new ≡ with_end (K.written sink.old) self) }
        ensures same_count { OnOk result (K.faults sink.new ≡ K.faults sink.old) }
        ensures rises { OnErr result (Rose (K.faults sink.old) (K.faults sink.new)) }
        ensures front { OnErr result (HasFront (K.written sink.old) (K.written sink.new) self) }
        ensures never_falls { K.faults sink.old ≤ K.faults sink.new }
    {
        let Rest {
            topology,
            history,
            room,
            last,
        } = self;
        write_lines(sink, &topology, &history, room)?;
        write_text(sink, last.as_slice())
    }
}
