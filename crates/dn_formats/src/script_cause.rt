//! The causes for which a text is no script: their numbers and names.

ghost use Rattle.std.specs.Prelude.{◌≡◌};
ghost use Rattle.feed_model.specs.Causes.{name_of_cause};
ghost use Rattle.dn_formats.specs.ScriptCauses.{script_causes};

/// A line is none of a script's, or it does something and has more than 1,024 bytes.
pub const BAD_LINE: u8 = 1;
/// A `take` is of a router that has no feed in this run.
pub const TAKE_UNKNOWN: u8 = 2;
/// A `take` is of a feed that an earlier script takes.
pub const TAKEN_TWICE: u8 = 3;
/// There are more than 65,536 lines.
pub const TOO_MANY_LINES: u8 = 4;
/// There are more than 16,777,216 bytes.
pub const TOO_LONG: u8 = 5;

/// The name of a cause, as it is printed; `Unread` for a number that no cause has.
pub fn name(cause: u8) -> &'static [u8]
    ensures { result.now ≡ name_of_cause script_causes cause }
{
    match cause {
        BAD_LINE => b"BadLine",
        TAKE_UNKNOWN => b"TakeUnknown",
        TAKEN_TWICE => b"TakenTwice",
        TOO_MANY_LINES => b"TooManyLines",
        TOO_LONG => b"TooLong",
        _ => b"Unread",
    }
}
