//! How addresses, prefixes, runs and targets are printed, and the writers that the report is made of.
//!
//! A writer `push_..` adds a text at the end of `out`. After `OutOfMemory`, for which alone it fails, a part of its
//! text may have been added.

ghost use Rattle.std.specs.Prelude.{◌≡◌, ◌+◌, ◌<◌, ◌≤◌, ◌∷◌, [], ◌++◌, OnOk, IfOk, codes, decimal, vec_len, vec_capacity};
ghost use Rattle.dn_formats.specs.Texts.{address_text, prefix_text, run_text, target_text, drop_text, name_of_router, name_of_link};

use crate::text::Text;
use dn_model::{DropKind, LinkId, OutOfMemory, Prefix, RouterId, Run, Target, Topology};
use itoa::Buffer;
use std::alloc::Global;

/// Adds bytes as they are.
pub fn push_bytes(out: &mut Vec<u8>, bytes: &[u8]) -> Result<(), OutOfMemory>
    ensures { OnOk result (out.new.items ≡ out.old.items ++ bytes.now) }
{
    out.extend_from_slice(bytes)?;
    Ok(())
}

/// Adds a digit, for which there is room.
fn put_digit(out: &mut Vec<u8>, digit: u64)
    requires digit { digit < 10 }
    requires room { vec_len out.old < vec_capacity out.old }
    ensures text { out.new.items ≡ out.old.items ++ (48 + digit) ∷ [] }
    ensures len { vec_len out.new ≡ vec_len out.old + 1 }
    ensures capacity { vec_capacity out.new ≡ vec_capacity out.old }
{
    out.push_reserved(b'0' + digit as u8);
}

/// Adds a number of at most three digits in decimal. There is room for three.
#[tactic(auto, using(crate::proofs::Decimals::decimal_of_two, crate::proofs::Decimals::decimal_of_three, crate::proofs::Decimals::decimal_of_one))]
fn put_small(out: &mut Vec<u8>, number: u64)
    requires small { number < 1000 }
    requires room { vec_len out.old + 3 ≤ vec_capacity out.old }
    ensures text { out.new.items ≡ out.old.items ++ decimal number }
    ensures len { vec_len out.new ≤ vec_len out.old + 3 }
    ensures capacity { vec_capacity out.new ≡ vec_capacity out.old }
{
    if number < 10 {
        put_digit(out, number);
        return;
    }
    if number < 100 {
        put_digit(out, number / 10);
        put_digit(out, number % 10);
        return;
    }
    put_digit(out, number / 100);
    put_digit(out, number / 10 % 10);
    put_digit(out, number % 10);
}

/// Adds a number of four to six digits in decimal.
#[tactic(auto, using(crate::proofs::Decimals::decimal_thousands))]
fn push_thousands(out: &mut Vec<u8>, number: u64) -> Result<(), OutOfMemory>
    requires most { number < 1000000 }
    requires least { 1000 ≤ number }
    ensures { OnOk result (out.new.items ≡ out.old.items ++ decimal number) }
{
    out.reserve(6)?;
    put_small(out, number / 1000);
    put_digit(out, number / 100 % 10);
    put_digit(out, number / 10 % 10);
    put_digit(out, number % 10);
    Ok(())
}

/// Adds a number in decimal, without leading zeros.
pub fn push_decimal(out: &mut Vec<u8>, number: u64) -> Result<(), OutOfMemory>
    ensures { OnOk result (out.new.items ≡ out.old.items ++ decimal number) }
{
    if number < 1000 {
        out.reserve(3)?;
        put_small(out, number);
        return Ok(());
    }
    if number < 1_000_000 {
        return push_thousands(out, number);
    }
    let mut buffer = Buffer::new();
    push_bytes(out, buffer.format(number).as_bytes())
}

/// Adds an address: four decimal numbers parted by dots. There is room for it.
fn put_address(out: &mut Vec<u8>, a: u32)
    requires room { vec_len out.old + 15 ≤ vec_capacity out.old }
    ensures text { out.new.items ≡ out.old.items ++ address_text a }
    ensures len { vec_len out.new ≤ vec_len out.old + 15 }
    ensures capacity { vec_capacity out.new ≡ vec_capacity out.old }
{
    put_small(out, u64::from(a / 0x0100_0000));
    out.push_reserved(b'.');
    put_small(out, u64::from(a / 0x0001_0000 % 256));
    out.push_reserved(b'.');
    put_small(out, u64::from(a / 0x0100 % 256));
    out.push_reserved(b'.');
    put_small(out, u64::from(a % 256));
}

/// Adds an address: four decimal numbers parted by dots.
pub fn push_address(out: &mut Vec<u8>, a: u32) -> Result<(), OutOfMemory>
    ensures { OnOk result (out.new.items ≡ out.old.items ++ address_text a) }
{
    out.reserve(15)?;
    put_address(out, a);
    Ok(())
}

/// Adds a prefix: `ADDRESS/LEN`.
pub fn push_prefix(out: &mut Vec<u8>, p: Prefix) -> Result<(), OutOfMemory>
    ensures { OnOk result (out.new.items ≡ out.old.items ++ prefix_text p) }
{
    out.reserve(19)?;
    put_address(out, p.base());
    out.push_reserved(b'/');
    put_small(out, u64::from(p.len()));
    Ok(())
}

/// Adds a run: `LO-HI`, both included, also where they are equal.
pub fn push_run(out: &mut Vec<u8>, run: Run) -> Result<(), OutOfMemory>
    ensures { OnOk result (out.new.items ≡ out.old.items ++ run_text run) }
{
    push_address(out, run.lo)?;
    push_bytes(out, b"-")?;
    push_address(out, run.hi)
}

/// Adds the name of a router; nothing where the topology hasn't this router.
pub fn push_router(out: &mut Vec<u8>, t: &Topology, router: RouterId) -> Result<(), OutOfMemory>
    ensures { OnOk result (out.new.items ≡ out.old.items ++ name_of_router t.now router) }
{
    match t.routers.as_slice().get(usize::from(router.0)) {
        Some(name) => push_bytes(out, name.as_bytes()),
        None => Ok(()),
    }
}

/// Adds the name of a link; nothing where the topology hasn't this link.
pub fn push_link(out: &mut Vec<u8>, t: &Topology, link: LinkId) -> Result<(), OutOfMemory>
    ensures { OnOk result (out.new.items ≡ out.old.items ++ name_of_link t.now link) }
{
    match t.links.as_slice().get(usize::from(link.0)) {
        Some(found) => push_bytes(out, found.name.as_bytes()),
        None => Ok(()),
    }
}

/// Adds the kind of a drop.
fn push_drop_kind(out: &mut Vec<u8>, kind: DropKind) -> Result<(), OutOfMemory>
    ensures { OnOk result (out.new.items ≡ out.old.items ++ drop_text kind) }
{
    match kind {
        DropKind::Blackhole => push_bytes(out, b"blackhole"),
        DropKind::Unreachable => push_bytes(out, b"unreachable"),
        DropKind::Prohibit => push_bytes(out, b"prohibit"),
    }
}

/// Adds a label and a number after it.
pub fn push_labelled(out: &mut Vec<u8>, label: &[u8], number: u64) -> Result<(), OutOfMemory>
    ensures { OnOk result (out.new.items ≡ out.old.items ++ (label.now ++ decimal number)) }
{
    push_bytes(out, label)?;
    push_decimal(out, number)
}

/// Adds the router and the link that a target leads to.
fn push_hop(
    out: &mut Vec<u8>,
    t: &Topology,
    router: RouterId,
    link: LinkId,
) -> Result<(), OutOfMemory>
    ensures { OnOk result (out.new.items ≡ out.old.items ++ target_text t.now (Target.To router link)) }
{
    push_bytes(out, b"to ")?;
    push_router(out, t, router)?;
    push_bytes(out, b" by ")?;
    push_link(out, t, link)
}

/// Adds a drop.
fn push_dropped(out: &mut Vec<u8>, kind: DropKind) -> Result<(), OutOfMemory>
    ensures { OnOk result (out.new.items ≡ out.old.items ++ (codes "dropped " ++ drop_text kind)) }
{
    push_bytes(out, b"dropped ")?;
    push_drop_kind(out, kind)
}

/// Adds a link that is down.
fn push_link_down(out: &mut Vec<u8>, t: &Topology, link: LinkId) -> Result<(), OutOfMemory>
    ensures { OnOk result (out.new.items ≡ out.old.items ++ (codes "linkdown " ++ name_of_link t.now link)) }
{
    push_bytes(out, b"linkdown ")?;
    push_link(out, t, link)
}

/// Adds a target, with the names that the topology has for its router and its link.
pub fn push_target(out: &mut Vec<u8>, t: &Topology, target: Target) -> Result<(), OutOfMemory>
    ensures { OnOk result (out.new.items ≡ out.old.items ++ target_text t.now target) }
{
    match target {
        Target::NoRoute => push_bytes(out, b"noroute"),
        Target::Dropped(kind) => push_dropped(out, kind),
        Target::Local => push_bytes(out, b"local"),
        Target::Exit(interface) => push_labelled(out, b"exit ", u64::from(interface)),
        Target::OnLink(interface) => push_labelled(out, b"onlink ", u64::from(interface)),
        Target::To(router, link) => push_hop(out, t, router, link),
        Target::LinkDown(link) => push_link_down(out, t, link),
    }
}

/// An address (0 to 2^32 - 1) as four decimal numbers parted by dots.
pub fn print_address(alloc: Global, a: u32) -> Result<Text, OutOfMemory>
    ensures { IfOk result (λ text. text ≡ address_text a) }
{
    let mut out = Vec::new(alloc);
    push_address(&mut out, a)?;
    Ok(Text::from_vec(out))
}

/// A prefix as `ADDRESS/LEN`.
pub fn print_prefix(alloc: Global, p: Prefix) -> Result<Text, OutOfMemory>
    ensures { IfOk result (λ text. text ≡ prefix_text p) }
{
    let mut out = Vec::new(alloc);
    push_prefix(&mut out, p)?;
    Ok(Text::from_vec(out))
}

/// A run as `LO-HI`, both included, also where they are equal.
pub fn print_run(alloc: Global, run: Run) -> Result<Text, OutOfMemory>
    ensures { IfOk result (λ text. text ≡ run_text run) }
{
    let mut out = Vec::new(alloc);
    push_run(&mut out, run)?;
    Ok(Text::from_vec(out))
}

/// A target: `noroute`, `dropped KIND`, `local`, `exit I`, `onlink I`, `to ROUTER by LINK` or `linkdown LINK`. A router
/// or link that the topology hasn't has an empty name.
pub fn print_target(alloc: Global, t: &Topology, target: Target) -> Result<Text, OutOfMemory>
    ensures { IfOk result (λ text. text ≡ target_text t.now target) }
{
    let mut out = Vec::new(alloc);
    push_target(&mut out, t, target)?;
    Ok(Text::from_vec(out))
}
