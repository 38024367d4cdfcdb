//! The kinds of queries, and their verbs.

ghost use Rattle.std.specs.Prelude.{◌≡◌};
ghost use Rattle.dn_formats.specs.QueryWords.{kind_named, kind_of, verb_of};

use dn_model::Ask;

/// A kind of query.
#[derive(Clone, Copy, Debug, PartialEq, Eq)]
pub enum AskKind {
    Path,
    Reach,
    Uses,
    Loops,
    Blackholes,
    Waypoint,
    Delta,
}

/// The kinds, each once.
const ASK_KINDS: [AskKind; 7] = [
    AskKind::Path,
    AskKind::Reach,
    AskKind::Uses,
    AskKind::Loops,
    AskKind::Blackholes,
    AskKind::Waypoint,
    AskKind::Delta,
];

impl AskKind {
    /// The verb: the first word of what is asked.
    pub fn verb(self) -> &'static [u8]
        ensures { result.now ≡ verb_of self }
    {
        match self {
            AskKind::Path => b"path",
            AskKind::Reach => b"reach",
            AskKind::Uses => b"uses",
            AskKind::Loops => b"loops",
            AskKind::Blackholes => b"blackholes",
            AskKind::Waypoint => b"waypoint",
            AskKind::Delta => b"delta",
        }
    }

    /// The kind with this verb, and None exactly where none has it.
    pub fn named(verb: &[u8]) -> Option<AskKind>
        ensures { result ≡ kind_named verb.now }
    {
        for kind in &ASK_KINDS {
            if verb == kind.verb() {
                return Some(*kind);
            }
        }
        None
    }

    /// The kind of what is asked.
    pub fn of(ask: &Ask) -> AskKind
        ensures { result ≡ kind_of ask.now }
    {
        match ask {
            Ask::Path(_, _) => AskKind::Path,
            Ask::Reach(_, _) => AskKind::Reach,
            Ask::Uses(_) => AskKind::Uses,
            Ask::Loops => AskKind::Loops,
            Ask::Blackholes(_) => AskKind::Blackholes,
            Ask::Waypoint(_, _, _) => AskKind::Waypoint,
            Ask::Delta => AskKind::Delta,
        }
    }
}
