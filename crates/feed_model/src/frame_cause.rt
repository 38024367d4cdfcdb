//! The causes for which a frame of a feed is refused, or the feed is lost: their numbers and names. Why a message of a
//! frame's payload is none that is read here, why a frame is none of route messages, and why bytes are no frame. Where
//! several stand at one message, the report names the first by the table of refusals (`message_rows` in `specs/`).
//!
//! Source: the project's own profile of rtnetlink(7) as FRR's forwarding plane manager module speaks it.

ghost use Rattle.std.specs.Prelude.{◌≡◌};
ghost use Rattle.feed_model.specs.Causes.{name_of_cause};
ghost use Rattle.feed_model.specs.FrameCauses.{frame_causes};

/// A message's length is below that of its header or past the payload, or the payload ends inside a header.
pub const BAD_LENGTH: u8 = 1;
/// A route message is too short for its fixed part, struct rtmsg.
pub const SHORT: u8 = 2;
/// An attribute's length is below that of its head or past the message, or its payload has not the size of its kind.
pub const BAD_ATTR: u8 = 3;
/// The prefix has more than 32 bits.
pub const BAD_PREFIX_LENGTH: u8 = 4;
/// The route depends on the source address or on the type of service.
pub const SOURCE_OR_TOS: u8 = 5;
/// The prefix has bits, and no address is given for it.
pub const NO_DESTINATION: u8 = 6;
/// The address has bits that are set past the prefix's length.
pub const HOST_BITS: u8 = 7;
/// A route is set whose type is not among those that are read.
pub const ROUTE_TYPE: u8 = 8;
/// A route is set over several next hops.
pub const MULTIPATH: u8 = 9;
/// A route is set that encapsulates packets or rewrites their destination.
pub const ENCAP: u8 = 10;
/// A route is set whose next hop is an object of its own.
pub const NEXT_HOP_ID: u8 = 11;
/// A unicast route is set, and no interface is given for it.
pub const NO_INTERFACE: u8 = 12;
/// A unicast route is set over an interface that neither the device nor a VRF of it has.
pub const UNKNOWN_INTERFACE: u8 = 13;
/// A frame's payload is of another type than netlink.
pub const FRAME_TYPE: u8 = 14;
/// A frame's version is another than 1. The feed is lost there.
pub const BAD_VERSION: u8 = 15;
/// A frame's length is below that of its header, 4. The feed is lost there.
pub const BAD_FRAME_LENGTH: u8 = 16;
/// A unicast route is set by a next-hop object that isn't there. No reader gives it yet: such routes are refused by
/// `NEXT_HOP_ID`.
pub const UNKNOWN_NEXT_HOP: u8 = 17;
/// A next-hop object's message has no number, or the number 0. No reader gives it yet: such messages are passed over.
pub const NO_NEXT_HOP_ID: u8 = 18;

/// The name of a cause, as it is printed; `Unread` for a number that no cause has.
pub fn name(cause: u8) -> &'static [u8]
    ensures { result.now ≡ name_of_cause frame_causes cause }
{
    match cause {
        BAD_LENGTH => b"BadLength",
        SHORT => b"Short",
        BAD_ATTR => b"BadAttr",
        BAD_PREFIX_LENGTH => b"BadPrefixLength",
        SOURCE_OR_TOS => b"SourceOrTos",
        NO_DESTINATION => b"NoDestination",
        HOST_BITS => b"HostBits",
        ROUTE_TYPE => b"RouteType",
        MULTIPATH => b"Multipath",
        ENCAP => b"Encap",
        NEXT_HOP_ID => b"NextHopId",
        NO_INTERFACE => b"NoInterface",
        UNKNOWN_INTERFACE => b"UnknownInterface",
        FRAME_TYPE => b"FrameType",
        BAD_VERSION => b"BadVersion",
        BAD_FRAME_LENGTH => b"BadFrameLength",
        UNKNOWN_NEXT_HOP => b"UnknownNextHop",
        NO_NEXT_HOP_ID => b"NoNextHopId",
        _ => b"Unread",
    }
}
