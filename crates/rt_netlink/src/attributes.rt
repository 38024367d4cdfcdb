//! The attributes of a route message: struct rtattr of rtnetlink(7).

ghost use Rattle.std.specs.Prelude.{◌≡◌, ◌≤◌, ◌<◌, length, not, MatchOption, None};
ghost use Rattle.feed_model.specs.Attributes.{attributes_of, is_bad, Holds};
ghost use Rattle.rt_netlink.specs.Gathered.{IsFront, nothing_kept, kept_with, kept_after, KeepsAll};

use crate::numbers::{address_in, after_padding, number_in, short_at};

/// The attribute's payload is the address of the route's prefix.
const RTA_DST: u16 = 1;
/// It is the number of the interface.
const RTA_OIF: u16 = 4;
/// It is the next router's address.
const RTA_GATEWAY: u16 = 5;
/// It is the metric.
const RTA_PRIORITY: u16 = 6;
/// It is a list of next hops.
const RTA_MULTIPATH: u16 = 9;
/// It is the table's number.
const RTA_TABLE: u16 = 15;
/// It is the next router's address, of another family.
const RTA_VIA: u16 = 18;
/// It is the address that packets are sent to in place of theirs.
const RTA_NEWDST: u16 = 19;
/// It is the kind of an encapsulation.
const RTA_ENCAP_TYPE: u16 = 21;
/// It is the header of an encapsulation.
const RTA_ENCAP: u16 = 22;
/// It is the number of a next hop's object.
const RTA_NH_ID: u16 = 30;

/// The bits of a type that are no flags.
const TYPE_MASK: u16 = 0x3fff;

/// The attribute at the front of some bytes: its type without flags, its payload, and what stands after its padding.
#[derive(Clone, Copy, Debug)]
pub struct AttributeText<'a> {
    pub kind: u16,
    pub payload: &'a [u8],
    pub rest: &'a [u8],
}

/// What is kept of the attributes of a route message: the numbers of four types, of a repeated one the last, and
/// whether there is one of some others. All other types are passed over.
#[derive(Clone, Copy, Debug, PartialEq, Eq)]
pub struct RouteAttributes {
    pub destination: Option<u32>,
    pub interface: Option<u32>,
    pub metric: Option<u32>,
    pub table: Option<u32>,
    /// There is a next router's address, of any family.
    pub via: bool,
    pub multipath: bool,
    /// There is an encapsulation's kind or header, or another address that packets are sent to.
    pub encap: bool,
    pub next_hop_id: bool,
}

/// What is kept where there is no attribute.
fn nothing_kept() -> RouteAttributes
    ensures { result ≡ nothing_kept }
{
    RouteAttributes {
        destination: None,
        interface: None,
        metric: None,
        table: None,
        via: false,
        multipath: false,
        encap: false,
        next_hop_id: false,
    }
}

/// The attribute at the front, and None where its length is below that of its head or past the bytes.
fn front(bytes: &[u8]) -> Option<AttributeText<'_>>
    requires { 4 ≤ length bytes.now }
    ensures { IsFront bytes.now result }
{
    let len = short_at(bytes) as usize;
    if len < 4 || bytes.len() < len {
        return None;
    }
    Some(AttributeText {
        kind: short_at(&bytes[2..]) & TYPE_MASK,
        payload: &bytes[4..len],
        rest: after_padding(bytes, len),
    })
}

/// Keeps one more attribute of a message that sets a route or deletes one, and says whether its payload has the size
/// of its type.
fn keep(is_set: bool, kept: &mut RouteAttributes, kind: u16, payload: &[u8]) -> bool
    ensures kept { kept.new ≡ kept_with kept.old kind payload.now }
    ensures sized { is_bad is_set (Holds kind payload.now) ≡ not result }
{
    match kind {
        RTA_DST => {
            kept.destination = address_in(payload);
            return kept.destination.is_some();
        }
        RTA_OIF => {
            kept.interface = number_in(payload);
            return !is_set || kept.interface.is_some();
        }
        RTA_PRIORITY => {
            kept.metric = number_in(payload);
            return kept.metric.is_some();
        }
        RTA_TABLE => {
            kept.table = number_in(payload);
            return kept.table.is_some();
        }
        RTA_GATEWAY | RTA_VIA => kept.via = true,
        RTA_MULTIPATH => kept.multipath = true,
        RTA_NEWDST | RTA_ENCAP_TYPE | RTA_ENCAP => kept.encap = true,
        RTA_NH_ID => kept.next_hop_id = true,
        _ => {}
    }
    true
}

/// Keeps the attribute at the front, and answers what stands after it; None where that attribute is bad.
fn take_front<'a>(is_set: bool, kept: &mut RouteAttributes, bytes: &'a [u8]) -> Option<&'a [u8]>
    requires { 4 ≤ length bytes.now }
    ensures { let all = kept_after is_set kept.old (attributes_of bytes.now) in MatchOption result (all ≡ None)
        (λ rest. (all ≡ kept_after is_set kept.new (attributes_of rest.now)) × (length rest.now < length bytes.now)) }
{
    let front = front(bytes)?;
    if !keep(is_set, kept, front.kind, front.payload) {
        return None;
    }
    Some(front.rest)
}

/// What the attributes of a route message say, which sets a route or deletes one; None where one is bad.
pub fn read_attributes(is_set: bool, bytes: &[u8]) -> Option<RouteAttributes>
    ensures { KeepsAll is_set (attributes_of bytes.now) result }
{
    let mut kept = nothing_kept();
    let mut rest = bytes;
    while rest.len() >= 4 {
        rest = take_front(is_set, &mut kept, rest)?;
    }
    Some(kept)
}
