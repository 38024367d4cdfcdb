//! What `make` prints of the cycles.

ghost use Rattle.std.specs.Prelude.{◌≡◌, ◌++◌, IfOk, OnOk, decimal, map, sum};
ghost use Rattle.dn_run.specs.Made.{summary_text};

use dn_formats::{push_bytes, push_decimal};
use dn_model::{Cycle, OutOfMemory};
use itoa::Buffer;
use std::alloc::Global;

/// How many addresses go round cycles, all together: as each is below 2^64, and so is their number, 128 bits hold them.
fn addresses(cycles: &[Cycle]) -> u128
    ensures { result ≡ sum (map (λ c. c.addresses) cycles.now) }
{
    let mut addresses = 0u128;
    for cycle in cycles {
        addresses += u128::from(cycle.addresses);
    }
    addresses
}

/// Adds how many addresses go round cycles.
fn push_addresses(out: &mut Vec<u8>, cycles: &[Cycle]) -> Result<(), OutOfMemory>
    ensures { OnOk result (out.new.items ≡ out.old.items ++ decimal (sum (map (λ c. c.addresses) cycles.now))) }
{
    let mut buffer = Buffer::new();
    push_bytes(out, buffer.format(addresses(cycles)).as_bytes())
}

/// The summary of the cycles that so many updates made: three lines.
pub fn summary_text(alloc: Global, n: u32, cycles: &[Cycle]) -> Result<Vec<u8>, OutOfMemory>
    ensures { IfOk result (λ text. text.items ≡ summary_text n cycles.now) }
{
    let mut out = Vec::new(alloc);
    push_bytes(&mut out, b"updates ")?;
    push_decimal(&mut out, u64::from(n))?;
    push_bytes(&mut out, b"\ncycles ")?;
    push_decimal(&mut out, cycles.len() as u64)?;
    push_bytes(&mut out, b"\naddresses ")?;
    push_addresses(&mut out, cycles)?;
    push_bytes(&mut out, b"\n")?;
    Ok(out)
}
