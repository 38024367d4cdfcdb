//! A message of netlink: struct nlmsghdr, and what follows it by the message's type.
//!
//! The functions are given the bytes from where the message begins to the payload's end.

ghost use Rattle.std.specs.Prelude.{◌≡◌, ◌≤◌, length, IfOk};
ghost use Rattle.feed_model.specs.Payload.{IsSayable, item_of, header_rows};
ghost use Rattle.rt_netlink.specs.Ruled.{Rules, RulesWhole};
ghost use Rattle.rt_netlink.specs.Read.{IsHeader};

use crate::numbers::{number_at, short_at};
use crate::route_message::read_route;
use crate::ruling::Ruling;
use feed_model::frame_cause::BAD_LENGTH;
use feed_model::{ItemKind, Skip};

/// How long struct nlmsghdr is.
const HEADER_LENGTH: usize = 16;

/// The message's type.
const TYPE: usize = 4;

/// The message sets a route.
const RTM_NEWROUTE: u16 = 24;
/// The message deletes a route.
const RTM_DELROUTE: u16 = 25;

/// What a message is about, by its type.
#[derive(Clone, Copy, Debug, PartialEq, Eq)]
enum MessageKind {
    /// A route, which is deleted or set.
    Route { del: bool },
}

/// What the header of a message says.
#[derive(Clone, Copy, Debug, PartialEq, Eq)]
struct Header {
    length: usize,
    kind: MessageKind,
}

/// The header of a message.
fn read_header(bytes: &[u8]) -> Result<Header, Ruling>
    requires { 4 ≤ length bytes.now }
    ensures { Rules header_rows bytes.now result (IsHeader bytes.now) }
{
    let length = number_at(bytes) as usize;
    if bytes.len() < HEADER_LENGTH || length < HEADER_LENGTH || bytes.len() < length {
        return Err(Ruling::Refuses(BAD_LENGTH));
    }
    let kind = match short_at(&bytes[TYPE..]) {
        RTM_NEWROUTE => MessageKind::Route { del: false },
        RTM_DELROUTE => MessageKind::Route { del: true },
        _ => return Err(Ruling::Skips(Skip::OtherType)),
    };
    Ok(Header { length, kind })
}

/// What the message at the front says, which is whole if no ruling is answered. Of routes those of the main table and
/// of these are read.
pub fn read_message(bytes: &[u8], tables: &[u32]) -> Result<ItemKind, Ruling>
    requires { 4 ≤ length bytes.now }
    ensures rules { RulesWhole tables.now bytes.now result (λ what. what ≡ item_of bytes.now) }
    ensures sayable { IfOk result IsSayable }
{
    let header = read_header(bytes)?;
    match header.kind {
        MessageKind::Route { del } => {
            let raw = read_route(bytes, header.length, del, tables)?;
            Ok(ItemKind::Route(raw))
        }
    }
}
