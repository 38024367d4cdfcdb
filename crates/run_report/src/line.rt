//! Pieces of a line, written into room that is there.
//!
//! A writer `put_..` adds its text at the end of `out`, which has room for the longest text of its kind; so none of
//! them asks for memory or fails.

ghost use Rattle.std.specs.Prelude.{◌≡◌, ◌+◌, ◌<◌, ◌≤◌, ◌/◌, ◌%◌, ◌∷◌, [], ◌++◌, codes, decimal, length, vec_len, vec_capacity};
ghost use Rattle.dn_formats.specs.Texts.{address_text, prefix_text, name_of_router, name_of_link};

use dn_model::{LinkId, Name, Prefix, RouterId, Topology};
use itoa::Buffer;

/// Adds bytes as they are.
pub fn put_text(out: &mut Vec<u8>, text: &[u8])
    requires room { vec_len out.old + length text.now ≤ vec_capacity out.old }
    ensures text { out.new.items ≡ out.old.items ++ text.now }
    ensures len { vec_len out.new ≡ vec_len out.old + length text.now }
    ensures capacity { vec_capacity out.new ≡ vec_capacity out.old }
{
    for byte in text {
        out.push_reserved(*byte);
    }
}

/// Adds a digit.
fn put_digit(out: &mut Vec<u8>, digit: u64)
    requires digit { digit < 10 }
    requires room { vec_len out.old < vec_capacity out.old }
    ensures text { out.new.items ≡ out.old.items ++ (48 + digit) ∷ [] }
    ensures len { vec_len out.new ≡ vec_len out.old + 1 }
    ensures capacity { vec_capacity out.new ≡ vec_capacity out.old }
{
    out.push_reserved(b'0' + digit as u8);
}

/// Adds a number of at most three digits in decimal.
#[tactic(auto, using(dn_formats::proofs::Decimals::decimal_of_two, dn_formats::proofs::Decimals::decimal_of_three, dn_formats::proofs::Decimals::decimal_of_one))]
fn put_small(out: &mut Vec<u8>, number: u64)
    requires small { number < 1000 }
    requires room { vec_len out.old + 3 ≤ vec_capacity out.old }
    ensures text { out.new.items ≡ out.old.items ++ decimal number }
    ensures len { vec_len out.new ≤ vec_len out.old + 3 }
    ensures capacity { vec_capacity out.new ≡ vec_capacity out.old }
{
    if number < 10 {
        put_digit(out, number);
        return;
    }
    if number < 100 {
        put_digit(out, number / 10);
        put_digit(out, number % 10);
        return;
    }
    put_digit(out, number / 100);
    put_digit(out, number / 10 % 10);
    put_digit(out, number % 10);
}

/// Adds the last three digits of a number, zeros too.
fn put_last_three(out: &mut Vec<u8>, number: u64)
    requires room { vec_len out.old + 3 ≤ vec_capacity out.old }
    ensures text { out.new.items ≡ ((out.old.items ++ (48 + number / 100 % 10) ∷ []) ++ (48 + number / 10 % 10) ∷ [])
        ++ (48 + number % 10) ∷ [] }
    ensures len { vec_len out.new ≡ vec_len out.old + 3 }
    ensures capacity { vec_capacity out.new ≡ vec_capacity out.old }
{
    put_digit(out, number / 100 % 10);
    put_digit(out, number / 10 % 10);
    put_digit(out, number % 10);
}

/// Adds a number of at most six digits in decimal.
#[tactic(auto, using(dn_formats::proofs::Decimals::decimal_thousands))]
fn put_thousands(out: &mut Vec<u8>, number: u64)
    requires small { number < 1000000 }
    requires room { vec_len out.old + 6 ≤ vec_capacity out.old }
    ensures text { out.new.items ≡ out.old.items ++ decimal number }
    ensures len { vec_len out.new ≤ vec_len out.old + 6 }
    ensures capacity { vec_capacity out.new ≡ vec_capacity out.old }
{
    if number < 1000 {
        put_small(out, number);
        return;
    }
    put_small(out, number / 1000);
    put_last_three(out, number);
}

/// Adds a number of more than six digits in decimal.
fn put_large(out: &mut Vec<u8>, number: u64)
    requires room { vec_len out.old + 20 ≤ vec_capacity out.old }
    ensures text { out.new.items ≡ out.old.items ++ decimal number }
    ensures len { vec_len out.new ≤ vec_len out.old + 20 }
    ensures capacity { vec_capacity out.new ≡ vec_capacity out.old }
{
    let mut buffer = Buffer::new();
    put_text(out, buffer.format(number).as_bytes());
}

/// Adds a number in decimal, without leading zeros: at most 20 digits.
pub fn put_decimal(out: &mut Vec<u8>, number: u64)
    requires room { vec_len out.old + 20 ≤ vec_capacity out.old }
    ensures text { out.new.items ≡ out.old.items ++ decimal number }
    ensures len { vec_len out.new ≤ vec_len out.old + 20 }
    ensures capacity { vec_capacity out.new ≡ vec_capacity out.old }
{
    if number < 1_000_000 {
        put_thousands(out, number);
        return;
    }
    put_large(out, number);
}

/// Adds a label and a number after it.
pub fn put_labelled(out: &mut Vec<u8>, label: &[u8], number: u64)
    requires room { vec_len out.old + length label.now + 20 ≤ vec_capacity out.old }
    ensures text { out.new.items ≡ out.old.items ++ (label.now ++ decimal number) }
    ensures len { vec_len out.new ≤ vec_len out.old + length label.now + 20 }
    ensures capacity { vec_capacity out.new ≡ vec_capacity out.old }
{
    put_text(out, label);
    put_decimal(out, number);
}

/// Adds an address: four decimal numbers parted by dots.
fn put_address(out: &mut Vec<u8>, a: u32)
    requires room { vec_len out.old + 15 ≤ vec_capacity out.old }
    ensures text { out.new.items ≡ out.old.items ++ address_text a }
    ensures len { vec_len out.new ≤ vec_len out.old + 15 }
    ensures capacity { vec_capacity out.new ≡ vec_capacity out.old }
{
    put_small(out, u64::from(a / 0x0100_0000));
    out.push_reserved(b'.');
    put_small(out, u64::from(a / 0x0001_0000 % 256));
    out.push_reserved(b'.');
    put_small(out, u64::from(a / 0x0100 % 256));
    out.push_reserved(b'.');
    put_small(out, u64::from(a % 256));
}

/// Adds a prefix: `ADDRESS/LEN`, at most 19 bytes.
pub fn put_prefix(out: &mut Vec<u8>, p: Prefix)
    requires room { vec_len out.old + 19 ≤ vec_capacity out.old }
    ensures text { out.new.items ≡ out.old.items ++ prefix_text p }
    ensures len { vec_len out.new ≤ vec_len out.old + 19 }
    ensures capacity { vec_capacity out.new ≡ vec_capacity out.old }
{
    put_address(out, p.base());
    out.push_reserved(b'/');
    put_small(out, u64::from(p.len()));
}

/// The bytes of a name, at most 32.
#[tactic(auto, using(crate::proofs::Names::name_short))]
fn name_bytes(name: &Name) -> &[u8]
    ensures value { result.now ≡ name.now }
    ensures short { length result.now ≤ 32 }
{
    name.as_bytes()
}

/// Adds the name of a router, at most 32 bytes; nothing where the topology hasn't this router.
pub fn put_router(out: &mut Vec<u8>, t: &Topology, router: RouterId)
    requires room { vec_len out.old + 32 ≤ vec_capacity out.old }
    ensures text { out.new.items ≡ out.old.items ++ name_of_router t.now router }
    ensures len { vec_len out.new ≤ vec_len out.old + 32 }
    ensures capacity { vec_capacity out.new ≡ vec_capacity out.old }
{
    if let Some(name) = t.routers.as_slice().get(usize::from(router.0)) {
        put_text(out, name_bytes(name));
    }
}

/// Adds the name of a link, at most 32 bytes; nothing where the topology hasn't this link.
pub fn put_link(out: &mut Vec<u8>, t: &Topology, link: LinkId)
    requires room { vec_len out.old + 32 ≤ vec_capacity out.old }
    ensures text { out.new.items ≡ out.old.items ++ name_of_link t.now link }
    ensures len { vec_len out.new ≤ vec_len out.old + 32 }
    ensures capacity { vec_capacity out.new ≡ vec_capacity out.old }
{
    if let Some(found) = t.links.as_slice().get(usize::from(link.0)) {
        put_text(out, name_bytes(&found.name));
    }
}
