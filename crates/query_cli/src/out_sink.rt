//! Standard output as a sink.

ghost use Rattle.std.specs.Prelude.{◌≡◌, ℕ, ◌<◌, ◌≤◌, [], length, take, Option, None, IfOk, OnOk, OnErr};
ghost use Rattle.dn_io.specs.Faults.{Rose};
ghost use Rattle.dn_io.specs.Told.{with_end};
ghost use Rattle.query_cli.specs.Views.{SinkView};
ghost use Rattle.std.specs.Io.KnownBytes.{Appends, Keeps};

use crate::fault_count::FaultCount;
use dn_io::{Failed, Sink};
use std::io::Write;
use std::marker::Model;

/// A writer as a sink: the program's is standard output. It tells none of the bytes written.
#[derive(Drop)]
pub struct OutSink<W> {
    writer: W,
    faults: FaultCount,
}

impl<W> Model for OutSink<W> {
    ghost use Rattle.query_cli.specs.Views.{SinkView};

    ghost Value = { SinkView W };

    ghost view = { λ s. record { writer = s.writer; faults = s.faults } };
}

impl<W> OutSink<W> {
    /// A sink onto this writer; no call has failed yet.
    pub fn new(writer: W) -> Self
        ensures { result ≡ record { writer = writer; faults = 0 } }
    {
        OutSink {
            writer,
            faults: FaultCount::new(),
        }
    }
}

impl<W: Write> Sink for OutSink<W> {
    ghost written = { λ s. None };

    ghost faults = { λ s. s.faults };

    /// Writes what the system takes. A call that takes nothing of a piece that isn't empty has failed.
    #[tactic(auto, using(crate::proofs::Written::nothing_written))]
    fn write(&mut self, piece: &[u8]) -> Result<usize, Failed>
        ensures within { IfOk result (λ n. n ≤ length piece.now) }
        ensures takes_some { IfOk result (λ n. n ≡ 0 → piece.now ≡ []) }
        ensures same_count { OnOk result (self.new.faults ≡ self.old.faults) }
        ensures rises { OnErr result (Rose self.old.faults self.new.faults) }
        ensures never_falls { self.old.faults ≤ self.new.faults }
        // beyond what each sink says: what it took is at the writer's end, where the writer tells that
        ensures writes { IfOk result (λ n. Appends (W.contents self.old.writer) (W.contents self.new.writer) (take n piece.now)) }
        ensures keeps { OnErr result (Keeps (W.contents self.old.writer) (W.contents self.new.writer)) }
    {
        match self.writer.write(piece) {
            Ok(count) if count > 0 || piece.is_empty() => Ok(count),
            _ => {
                self.faults.rise();
                Err(Failed)
            }
        }
    }
}
