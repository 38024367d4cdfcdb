//! The payload of a frame, message by message.

ghost use Rattle.std.specs.Prelude.{◌≡◌, ℕ, ◌≤◌, length, drop, IfOk, All};
ghost use Rattle.feed_model.specs.Attributes.{padded};
ghost use Rattle.feed_model.specs.Payload.{IsPayload, IsSayable, message_length, message_said};
ghost use Rattle.rt_netlink.specs.Read.{TellsNext};

use crate::message::read_message;
use crate::numbers::{after_padding, number_at};
use crate::ruling::Ruling;
use dn_model::{List, OutOfMemory};
use feed_model::{Item, ItemKind, Payload, Refused};
use std::alloc::Global;

/// What comes next in a payload.
#[derive(Clone, Copy, Debug)]
pub enum NextMessage<'a> {
    /// A message: what it says, and what is left of the payload after it.
    Says(ItemKind, &'a [u8]),
    /// A message that is refused, by this cause of the module `frame_cause` of `feed_model`.
    Refused(u8),
    /// No message: the payload has ended.
    End,
}

/// What the message at the front says, or the cause by which it is refused.
fn read_item(bytes: &[u8], tables: &[u32]) -> Result<ItemKind, u8>
    requires { 4 ≤ length bytes.now }
    ensures said { result ≡ message_said tables.now bytes.now }
    ensures sayable { IfOk result IsSayable }
{
    match read_message(bytes, tables) {
        Ok(what) => Ok(what),
        Err(Ruling::Skips(skip)) => Ok(ItemKind::Skipped(skip)),
        Err(Ruling::Refuses(cause)) => Err(cause),
    }
}

/// What stands after the message at the front and its padding.
fn after_message(bytes: &[u8]) -> &[u8]
    requires long { 4 ≤ length bytes.now }
    requires there { message_length bytes.now ≤ length bytes.now }
    ensures { result.now ≡ drop (padded (message_length bytes.now)) bytes.now }
{
    after_padding(bytes, number_at(bytes) as usize)
}

/// The next message of a payload of which these bytes are left. A payload is read message by message, from its start
/// on. Of routes those of the main table (254) and of `tables` are read; a number 0 among these is of no table.
///
/// Source: netlink(7), rtnetlink(7), RFC 3549.
pub fn next_message<'a>(left: &'a [u8], tables: &[u32]) -> NextMessage<'a>
    ensures { (all : ℕ) → length left.now ≤ all → TellsNext tables.now all left.now result }
{
    if left.len() < 4 {
        return NextMessage::End;
    }
    match read_item(left, tables) {
        Ok(what) => NextMessage::Says(what, after_message(left)),
        Err(cause) => NextMessage::Refused(cause),
    }
}

/// What the messages of a payload say, up to the first that is refused, and that one. A payload has at most 65,531
/// bytes, as many as a frame can hold. Places count from the payload's start. Of routes those of the main table (254)
/// and of `tables` are read; a number 0 among these is of no table.
///
/// # Errors
///
/// `OutOfMemory` where there is no memory for the items.
pub fn read_payload(alloc: Global, bytes: &[u8], tables: &[u32]) -> Result<Payload, OutOfMemory>
    requires short { length bytes.now ≤ 65531 }
    ensures payload { IfOk result (IsPayload tables.now bytes.now) }
    ensures sayable { IfOk result (λ payload. All (λ item. IsSayable item.what) payload.items) }
{
    let mut items = List::new(alloc);
    let mut left = bytes;
    loop {
        let at = (bytes.len() - left.len()) as u32;
        match next_message(left, tables) {
            NextMessage::Says(what, rest) => {
                items.push(Item { at, what })?;
                left = rest;
            }
            NextMessage::Refused(cause) => {
                return Ok(Payload {
                    items,
                    refused: Some(Refused { at, cause }),
                });
            }
            NextMessage::End => {
                return Ok(Payload {
                    items,
                    refused: None,
                });
            }
        }
    }
}
