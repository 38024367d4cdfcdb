//! The line that stands in place of a report.
//!
//! A writer `push_..` adds its text at the end of `out`. After `OutOfMemory`, for which alone it fails, a part of the
//! text may have been added.

ghost use Rattle.std.specs.Prelude.{◌≡◌, ◌++◌, ◌∷◌, [], OnOk, IfOk, codes, decimal};
ghost use Rattle.feed_model.specs.Causes.{name_of_cause};
ghost use Rattle.dn_formats.specs.Report.{topology_part_text, cause_words, topology_fault_words, script_fault_words, part_words, error_words, error_text};
ghost use Rattle.dn_formats.specs.ScriptCauses.{script_causes};
ghost use Rattle.dn_formats.specs.Texts.{line};
ghost use Rattle.dn_formats.specs.TopologyCauses.{topology_causes};

use dn_formats::{
    ErrorLine, TopoFault, TopoPart, push_bytes, push_decimal, push_labelled, script_cause,
    topology_cause,
};
use dn_model::OutOfMemory;
use std::alloc::Global;

/// Adds what is wrong with a part of the command line.
fn push_part(out: &mut Vec<u8>, part: u32, why: &[u8]) -> Result<(), OutOfMemory>
    ensures { OnOk result (out.new.items ≡ out.old.items ++ part_words part why.now) }
{
    push_labelled(out, b"part ", u64::from(part))?;
    push_bytes(out, b" ")?;
    push_bytes(out, why)
}

/// Adds the number of a cause and its name.
fn push_cause(out: &mut Vec<u8>, cause: u8, name: &[u8]) -> Result<(), OutOfMemory>
    ensures { OnOk result (out.new.items ≡ out.old.items ++ (decimal cause ++ codes " " ++ name.now)) }
{
    push_decimal(out, u64::from(cause))?;
    push_bytes(out, b" ")?;
    push_bytes(out, name)
}

/// The word for a part of a topology's text.
fn part_word(part: TopoPart) -> &'static [u8]
    ensures { result.now ≡ topology_part_text part }
{
    match part {
        TopoPart::Top => b"top",
        TopoPart::Routers => b"routers",
        TopoPart::Vrf => b"vrf",
        TopoPart::Link => b"link",
        TopoPart::Edge => b"edge",
        TopoPart::Router => b"router",
    }
}

/// Adds where and why a topology is refused.
fn push_topology_fault(out: &mut Vec<u8>, fault: TopoFault) -> Result<(), OutOfMemory>
    ensures { OnOk result (out.new.items ≡ out.old.items ++ topology_fault_words fault) }
{
    push_bytes(out, b"topology ")?;
    push_bytes(out, part_word(fault.part))?;
    push_labelled(out, b" ", u64::from(fault.entry))?;
    push_bytes(out, b" ")?;
    push_cause(out, fault.cause, topology_cause::name(fault.cause))
}

/// Adds where and why a script is refused.
fn push_script_fault(out: &mut Vec<u8>, part: u32, line: u32, cause: u8) -> Result<(), OutOfMemory>
    ensures { OnOk result (out.new.items ≡ out.old.items ++ script_fault_words part line cause) }
{
    push_labelled(out, b"script ", u64::from(part))?;
    push_labelled(out, b" line ", u64::from(line))?;
    push_bytes(out, b" ")?;
    push_cause(out, cause, script_cause::name(cause))
}

/// Adds what was wrong, where, and the cause.
fn push_error_words(out: &mut Vec<u8>, error: ErrorLine) -> Result<(), OutOfMemory>
    ensures { OnOk result (out.new.items ≡ out.old.items ++ error_words error) }
{
    match error {
        ErrorLine::Words => push_bytes(out, b"words"),
        ErrorLine::BadPart { part } => push_part(out, part, b"BadPart"),
        ErrorLine::TooManyParts { part } => push_part(out, part, b"TooMany"),
        ErrorLine::UnknownRouter { part } => push_part(out, part, b"UnknownRouter"),
        ErrorLine::RouterTwice { part } => push_part(out, part, b"RouterTwice"),
        ErrorLine::TooManyJobs => push_bytes(out, b"jobs TooMany"),
        ErrorLine::Topology(fault) => push_topology_fault(out, fault),
        ErrorLine::Script { part, line, cause } => push_script_fault(out, part, line, cause),
        ErrorLine::ReadTopology => push_bytes(out, b"read topology"),
        ErrorLine::ReadPart { part } => push_labelled(out, b"read part ", u64::from(part)),
    }
}

/// The one line that stands in place of a report.
///
/// # Errors
///
/// `OutOfMemory` alone.
pub fn error_line(alloc: Global, error: ErrorLine) -> Result<Vec<u8>, OutOfMemory>
    ensures { IfOk result (λ text. text.items ≡ error_text error) }
{
    let mut out = Vec::new(alloc);
    push_bytes(&mut out, b"error ")?;
    push_error_words(&mut out, error)?;
    push_bytes(&mut out, b"\n")?;
    Ok(out)
}
