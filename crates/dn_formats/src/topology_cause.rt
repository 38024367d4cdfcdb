//! The causes for which a text is no topology: their numbers and names.

ghost use Rattle.std.specs.Prelude.{◌≡◌};
ghost use Rattle.feed_model.specs.Causes.{name_of_cause};
ghost use Rattle.dn_formats.specs.TopologyCauses.{topology_causes};

/// The bytes are no text in UTF-8, or no document of TOML 1.1.
pub const NOT_TOML: u8 = 1;
/// There is a key that has no meaning.
pub const UNKNOWN_KEY: u8 = 2;
/// A needed key is absent, or a value has another type than is wanted.
pub const MISSING_KEY: u8 = 3;
/// A name is none.
pub const BAD_NAME: u8 = 4;
/// An earlier router (a VRF is one), or an earlier link, has the name.
pub const TWICE_NAMED: u8 = 5;
/// A text is no end, or names neither a device nor a VRF.
pub const BAD_END: u8 = 6;
/// An earlier link or edge, or the link's own first end, is the same interface of the same device.
pub const END_TWICE: u8 = 7;
/// Both ends of a link are at one router.
pub const SELF_LINK: u8 = 8;
/// There are more routers (VRFs among them), links or edges than the program takes.
pub const TOO_MANY: u8 = 9;
/// There are more than 16,777,216 bytes.
pub const TOO_LONG: u8 = 10;
/// A text says no way to replace routes.
pub const BAD_REPLACE: u8 = 11;
/// An earlier mark is of the same router.
pub const TWICE_MARKED: u8 = 12;
/// A text is no device's name where a device is wanted, or no router's.
pub const NO_SUCH_ROUTER: u8 = 13;
/// A number is none of a VRF's table: it is not 1 to 4,294,967,295, or it is 254, that of main tables.
pub const BAD_TABLE: u8 = 14;
/// An earlier VRF of the device has the table.
pub const TABLE_TWICE: u8 = 15;

/// The name of a cause, as it is printed; `Unread` for a number that no cause has.
pub fn name(cause: u8) -> &'static [u8]
    ensures { result.now ≡ name_of_cause topology_causes cause }
{
    match cause {
        NOT_TOML => b"NotToml",
        UNKNOWN_KEY => b"UnknownKey",
        MISSING_KEY => b"MissingKey",
        BAD_NAME => b"BadName",
        TWICE_NAMED => b"TwiceNamed",
        BAD_END => b"BadEnd",
        END_TWICE => b"EndTwice",
        SELF_LINK => b"SelfLink",
        TOO_MANY => b"TooMany",
        TOO_LONG => b"TooLong",
        BAD_REPLACE => b"BadReplace",
        TWICE_MARKED => b"TwiceMarked",
        NO_SUCH_ROUTER => b"NoSuchRouter",
        BAD_TABLE => b"BadTable",
        TABLE_TWICE => b"TableTwice",
        _ => b"Unread",
    }
}
