//! Writing a text to a sink.

ghost use Rattle.std.specs.Prelude.{◌≡◌, ◌≤◌, OnOk, OnErr};
ghost use Rattle.dn_io.specs.Told.{with_end};
ghost use Rattle.dn_io.specs.Faults.{Rose};
ghost use Rattle.run_report.specs.Written.{HasFront};

use dn_io::{Failed, Sink};

/// Writes a whole text: after a write that takes a part, the rest is written by another. It takes no memory.
///
/// # Errors
///
/// `Failed` at the first write that fails, which the sink counts; a part of the text, from its first byte on, may have
/// been written by then.
pub fn write_text<K: Sink>(sink: &mut K, text: &[u8]) -> Result<(), Failed>
    ensures written { OnOk result (K.written sink.new ≡ with_end (K.written sink.old) text.now) }
    ensures same_count { OnOk result (K.faults sink.new ≡ K.faults sink.old) }
    ensures rises { OnErr result (Rose (K.faults sink.old) (K.faults sink.new)) }
    ensures front { OnErr result (HasFront (K.written sink.old) (K.written sink.new) text.now) }
    ensures never_falls { K.faults sink.old ≤ K.faults sink.new }
{
    let mut from = 0;
    while from < text.len() {
        from += sink.write(&text[from..])?;
    }
    Ok(())
}
