//! One line of a script.

ghost use Rattle.std.specs.Prelude.{◌≡◌, ◌≤◌, ℕ, length, find, ◌∷◌, codes, All, IfErr, IfSome, IsTrue, OnOk, Ok, Some};
ghost use Rattle.base.specs.Name.{is_name_text};
ghost use Rattle.std.specs.List.{list_any};
ghost use Rattle.std.specs.Str.{bytes_eq};
ghost use Rattle.dn_formats.specs.ScriptText.{line_meaning, words_of, count_of, is_named, same_router, take_count, take_from, take_meaning, one_of, two_of, command_meaning, ask_meaning, link_meaning};
ghost use Rattle.dn_formats.specs.QueryWords.{query_of};
ghost use Rattle.query_lang.specs.NameIndex.{IsIndex, IsNamed};
ghost use Rattle.query_lang.specs.ScriptRefused.{IsRefusedLine, added};

use crate::name_guess::{Guesses, Named};
use crate::name_index::router_at;
use crate::query_line::{LINE_BYTES, read_asked};
use crate::text_cut::{has_first, is_same, next_word, one_word, two_words};
use dn_formats::script_cause::{BAD_LINE, TAKE_UNKNOWN, TAKEN_TWICE};
use dn_formats::{Asked, Line, read_number};
use dn_model::{List, Name, OutOfMemory, RouterId, Topology, is_name};
use std::alloc::Global;
use std::collections::HashMap;

/// Why a line isn't read.
#[derive(Clone, Copy, Debug, PartialEq, Eq)]
pub enum LineRefused {
    /// The number of the line's fault.
    Cause(u8),
    /// Memory ran out.
    OutOfMemory,
}

impl From<OutOfMemory> for LineRefused {
    ghost use Rattle.std.specs.Prelude.{◌≡◌};
    ghost use Rattle.query_lang.specs.declared.script_line.LineRefused.TheVariants as variant;

    ghost from_gives = { λ _ e. e ≡ variant.OutOfMemory };

    fn from(_error: OutOfMemory) -> Self {
        LineRefused::OutOfMemory
    }
}

/// What a script is read against.
#[derive(Drop)]
pub struct Feeds<'a> {
    /// The network, whose routers are named.
    pub topology: &'a Topology,
    /// The routers that have a feed in this run.
    pub fed: &'a [RouterId],
    /// The routers from which earlier scripts take.
    pub taken: &'a [RouterId],
    /// The routers that have a feed, by name.
    pub index: HashMap<&'a [u8], RouterId>,
    /// Most of them again, where a look costs less.
    pub guesses: Guesses<'a>,
    ghost indexed: { IsIndex topology.now.routers fed.now index.entries },
    ghost named: { All (IsNamed topology.now.routers fed.now) guesses.named.items },
}

/// Whether a word is `take`.
fn is_take(word: &[u8]) -> bool
    ensures { result ≡ bytes_eq word.now (codes "take") }
{
    match word {
        [b't', b'a', b'k', b'e'] => true,
        _ => false,
    }
}

/// Whether a word is `down`.
fn is_down(word: &[u8]) -> bool
    ensures { result ≡ bytes_eq word.now (codes "down") }
{
    match word {
        [b'd', b'o', b'w', b'n'] => true,
        _ => false,
    }
}

/// Whether a word is `up`.
fn is_up(word: &[u8]) -> bool
    ensures { result ≡ bytes_eq word.now (codes "up") }
{
    match word {
        [b'u', b'p'] => true,
        _ => false,
    }
}

/// Whether a word is `all`.
fn is_all(word: &[u8]) -> bool
    ensures { result ≡ bytes_eq word.now (codes "all") }
{
    match word {
        [b'a', b'l', b'l'] => true,
        _ => false,
    }
}

/// How many frames a word says: a number from 1 to 4,294,967,295, or all (no number).
fn read_count(word: &[u8]) -> Option<Option<u32>>
    ensures { result ≡ count_of word.now }
{
    if is_all(word) {
        return Some(None);
    }
    let count = read_number(word, 1, 4_294_967_295)?;
    Some(Some(count))
}

/// The first of the routers with a feed that has this name.
fn router_named(feeds: &Feeds<'_>, name: &[u8]) -> Option<RouterId>
    ensures { result ≡ find (is_named feeds.now.topology.now.routers name.now) feeds.now.fed.now }
{
    router_at(&feeds.index, name)
}

/// A name that may be this one.
fn guess<'a>(feeds: &Feeds<'a>, name: &[u8]) -> Option<Named<'a>>
    ensures { IfSome result (IsNamed feeds.now.topology.now.routers feeds.now.fed.now) }
{
    let place = feeds.guesses.place_of(name);
    feeds.guesses.named.get(place).copied()
}

/// The first of the routers with a feed that has this name, where it is guessed. The text is a name then.
#[tactic(auto, using(crate::proofs::NamesFound::same_name))]
fn router_guessed(feeds: &Feeds<'_>, name: &[u8]) -> Option<RouterId>
    ensures router { IfSome result (λ r. find (is_named feeds.now.topology.now.routers name.now) feeds.now.fed.now ≡ Some r) }
    ensures name { IfSome result (λ r. IsTrue (is_name_text name.now)) }
{
    let named = guess(feeds, name)?;
    if !is_same(named.name, name) {
        return None;
    }
    Some(named.router)
}

/// Whether a router is among these.
fn is_among(routers: &[RouterId], router: RouterId) -> bool
    ensures { result ≡ list_any (same_router router) routers.now }
{
    routers.iter().any(|other| other.0 == router.0)
}

/// Adds the line that takes so many frames from a router with a feed.
fn add_take(
    feeds: &Feeds<'_>,
    line: u32,
    router: RouterId,
    count: Option<u32>,
    lines: &mut List<Line>,
) -> Result<(), LineRefused>
    ensures ok { OnOk result (added lines.old (take_from line feeds.now.taken.now count (Some router)) ≡ Ok lines.new) }
    ensures refused { IfErr result (λ e. IsRefusedLine e (take_from line feeds.now.taken.now count (Some router))) }
{
    if is_among(feeds.taken, router) {
        return Err(LineRefused::Cause(TAKEN_TWICE));
    }
    lines.push(Line::Take {
        line,
        router,
        count,
    })?;
    Ok(())
}

/// Adds the line that takes so many frames from the router of this name.
fn take_of(
    feeds: &Feeds<'_>,
    line: u32,
    name: &[u8],
    count: Option<u32>,
    lines: &mut List<Line>,
) -> Result<(), LineRefused>
    ensures ok { OnOk result (added lines.old (take_count feeds.now.topology.now.routers feeds.now.fed.now feeds.now.taken.now line name.now (Some count)) ≡ Ok lines.new) }
    ensures refused { IfErr result (λ e. IsRefusedLine e (take_count feeds.now.topology.now.routers feeds.now.fed.now feeds.now.taken.now line name.now (Some count))) }
{
    if let Some(router) = router_guessed(feeds, name) {
        return add_take(feeds, line, router, count, lines);
    }
    if !is_name(name) {
        return Err(LineRefused::Cause(BAD_LINE));
    }
    let Some(router) = router_named(feeds, name) else {
        return Err(LineRefused::Cause(TAKE_UNKNOWN));
    };
    add_take(feeds, line, router, count, lines)
}

#[tactic(auto, using(crate::proofs::Questions::operands_missing))]
/// Adds a `take` line, by the words after its verb: a router, and a number of frames or `all`.
fn read_take(
    feeds: &Feeds<'_>,
    line: u32,
    operands: &[u8],
    lines: &mut List<Line>,
) -> Result<(), LineRefused>
    ensures ok { OnOk result (added lines.old (take_meaning feeds.now.topology.now.routers feeds.now.fed.now feeds.now.taken.now line (two_of (words_of operands.now))) ≡ Ok lines.new) }
    ensures refused { IfErr result (λ e. IsRefusedLine e (take_meaning feeds.now.topology.now.routers feeds.now.fed.now feeds.now.taken.now line (two_of (words_of operands.now)))) }
{
    let Some((name, count)) = two_words(operands) else {
        return Err(LineRefused::Cause(BAD_LINE));
    };
    let Some(count) = read_count(count) else {
        return Err(LineRefused::Cause(BAD_LINE));
    };
    take_of(feeds, line, name, count, lines)
}

#[tactic(auto, using(crate::proofs::Questions::operand_missing))]
/// Adds a link line, by the words after its verb: the name of a link, which the network may not have.
fn read_link(
    alloc: Global,
    line: u32,
    down: bool,
    operands: &[u8],
    lines: &mut List<Line>,
) -> Result<(), LineRefused>
    ensures ok { OnOk result (added lines.old (link_meaning line down (one_of (words_of operands.now))) ≡ Ok lines.new) }
    ensures refused { IfErr result (λ e. IsRefusedLine e (link_meaning line down (one_of (words_of operands.now)))) }
{
    let Some(name) = one_word(operands) else {
        return Err(LineRefused::Cause(BAD_LINE));
    };
    if !is_name(name) {
        return Err(LineRefused::Cause(BAD_LINE));
    }
    let link = Name::from_text(alloc, name)?;
    lines.push(Line::Link { line, link, down })?;
    Ok(())
}

/// Adds a line that asks a query, by its verb and the words after it.
fn read_ask_line(
    alloc: Global,
    line: u32,
    verb: &[u8],
    operands: &[u8],
    lines: &mut List<Line>,
) -> Result<(), LineRefused>
    requires { length operands.now ≤ 1024 }
    ensures ok { OnOk result (added lines.old (ask_meaning line (query_of verb.now (words_of operands.now))) ≡ Ok lines.new) }
    ensures refused { IfErr result (λ e. IsRefusedLine e (ask_meaning line (query_of verb.now (words_of operands.now)))) }
{
    let Some(query) = read_asked(alloc, verb, operands)? else {
        return Err(LineRefused::Cause(BAD_LINE));
    };
    let query = Asked::new(alloc, query)?;
    lines.push(Line::Ask { line, query })?;
    Ok(())
}

/// Adds a line that does something, by its verb and the words after it.
fn read_command(
    alloc: Global,
    feeds: &Feeds<'_>,
    line: u32,
    verb: &[u8],
    operands: &[u8],
    lines: &mut List<Line>,
) -> Result<(), LineRefused>
    requires { length operands.now ≤ 1024 }
    ensures ok { OnOk result (added lines.old (command_meaning feeds.now.topology.now.routers feeds.now.fed.now feeds.now.taken.now line (verb.now ∷ words_of operands.now)) ≡ Ok lines.new) }
    ensures refused { IfErr result (λ e. IsRefusedLine e (command_meaning feeds.now.topology.now.routers feeds.now.fed.now feeds.now.taken.now line (verb.now ∷ words_of operands.now))) }
{
    if is_take(verb) {
        return read_take(feeds, line, operands, lines);
    }
    if is_down(verb) {
        return read_link(alloc, line, true, operands, lines);
    }
    if is_up(verb) {
        return read_link(alloc, line, false, operands, lines);
    }
    read_ask_line(alloc, line, verb, operands, lines)
}

/// Adds the line of this number to those before it; nothing where it passes: where it is blank or its first word begins
/// with `#`.
pub fn read_line(
    alloc: Global,
    feeds: &Feeds<'_>,
    line: u32,
    text: &[u8],
    lines: &mut List<Line>,
) -> Result<(), LineRefused>
    ensures ok { OnOk result (added lines.old (line_meaning feeds.now.topology.now.routers feeds.now.fed.now feeds.now.taken.now line text.now) ≡ Ok lines.new) }
    ensures refused { IfErr result (λ e. IsRefusedLine e (line_meaning feeds.now.topology.now.routers feeds.now.fed.now feeds.now.taken.now line text.now)) }
{
    let Some((verb, operands)) = next_word(text) else {
        return Ok(());
    };
    if has_first(verb, b'#') {
        return Ok(());
    }
    if text.len() > LINE_BYTES {
        return Err(LineRefused::Cause(BAD_LINE));
    }
    read_command(alloc, feeds, line, verb, operands, lines)
}
