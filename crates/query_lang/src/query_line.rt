//! Queries, read from the words of a line.

ghost use Rattle.std.specs.Prelude.{◌≡◌, ◌≤◌, ◌+◌, length, if◌then◌else◌, IfOk, IfErr, IfSome, Option, None, Some};
ghost use Rattle.dn_formats.specs.QueryWords.{Asks, ask_of, asked_without, names_in, operands_of, query_of, read_as, without_of};
ghost use Rattle.dn_formats.specs.ScriptText.{query_of_line, words_of};
ghost use Rattle.base.specs.Name.{is_name_text};
ghost use Rattle.query_lang.specs.Words.{address_first, name_first, IsUnread};

use crate::address::read_address;
use crate::text_cut::{is_blank, is_same, next_word, split_at_comma};
use dn_formats::AskKind;
use dn_model::{Ask, List, Name, OutOfMemory, Query, is_name};
use std::alloc::Global;

/// The most bytes of a line that does something.
pub const LINE_BYTES: usize = 1024;

/// The name that a word is, or nothing where it is none.
fn read_name(alloc: Global, word: &[u8]) -> Result<Option<Name>, OutOfMemory>
    ensures { IfOk result (λ name. name ≡ (if is_name_text word.now then Some word.now else None)) }
{
    if !is_name(word) {
        return Ok(None);
    }
    Ok(Some(Name::from_text(alloc, word)?))
}

/// Why words are not those of a query.
#[derive(Clone, Copy)]
enum Unread {
    /// One of them isn't what is due there, or there are too few or too many.
    NoQuery,
    /// Memory ran out.
    OutOfMemory,
}

impl From<OutOfMemory> for Unread {
    ghost use Rattle.std.specs.Prelude.{◌≡◌};
    ghost use Rattle.query_lang.specs.declared.query_line.Unread.TheVariants as variant;

    ghost from_gives = { λ _ e. e ≡ variant.OutOfMemory };

    fn from(_error: OutOfMemory) -> Self {
        Unread::OutOfMemory
    }
}

/// The words of a line from a place on.
#[derive(Drop)]
struct Words<'a> {
    alloc: Global,
    rest: &'a [u8],
}

impl Words<'_> {
    /// Reads the next word, a name.
    fn name(&mut self) -> Result<Name, Unread>
        ensures ok { IfOk result (λ name. name_first (words_of self.old.rest.now) ≡
            Some (name, words_of self.new.rest.now)) }
        ensures err { IfErr result (λ e. IsUnread e (name_first (words_of self.old.rest.now))) }
    {
        let Some((word, rest)) = next_word(self.rest) else {
            return Err(Unread::NoQuery);
        };
        let Some(name) = read_name(self.alloc, word)? else {
            return Err(Unread::NoQuery);
        };
        self.rest = rest;
        Ok(name)
    }

    /// Reads the next word, an address.
    fn address(&mut self) -> Result<u32, Unread>
        ensures ok { IfOk result (λ a. address_first (words_of self.old.rest.now) ≡
            Some (a, words_of self.new.rest.now)) }
        ensures err { IfErr result (λ e. IsUnread e (address_first (words_of self.old.rest.now))) }
    {
        let Some((word, rest)) = next_word(self.rest) else {
            return Err(Unread::NoQuery);
        };
        let Some(address) = read_address(word) else {
            return Err(Unread::NoQuery);
        };
        self.rest = rest;
        Ok(address)
    }

    /// Reads the words after a verb of this kind, as far as they are due.
    #[tactic(auto, using(crate::proofs::Questions::words_due))]
    fn operands(&mut self, kind: AskKind) -> Result<Ask, Unread>
        ensures ok { IfOk result (λ ask. read_as (operands_of kind) (words_of self.old.rest.now) ≡
            read_as (Asks ask) (words_of self.new.rest.now)) }
        ensures err { IfErr result (λ e. IsUnread e (read_as (operands_of kind) (words_of self.old.rest.now))) }
    {
        match kind {
            AskKind::Path => Ok(Ask::Path(self.name()?, self.address()?)),
            AskKind::Reach => Ok(Ask::Reach(self.name()?, self.name()?)),
            AskKind::Uses => Ok(Ask::Uses(self.name()?)),
            AskKind::Loops => Ok(Ask::Loops),
            AskKind::Blackholes => Ok(Ask::Blackholes(self.name()?)),
            AskKind::Waypoint => Ok(Ask::Waypoint(self.name()?, self.name()?, self.name()?)),
            AskKind::Delta => Ok(Ask::Delta),
        }
    }
}

/// What a verb of this kind asks of the words after it.
fn read_operands(alloc: Global, kind: AskKind, words: &[u8]) -> Result<Option<Ask>, OutOfMemory>
    ensures { IfOk result (λ ask. ask ≡ read_as (operands_of kind) (words_of words.now)) }
{
    let mut words = Words { alloc, rest: words };
    match words.operands(kind) {
        Ok(ask) => Ok(if is_blank(words.rest) {
            Some(ask)
        } else {
            None
        }),
        Err(Unread::NoQuery) => Ok(None),
        Err(Unread::OutOfMemory) => Err(OutOfMemory),
    }
}

/// What a verb asks of the words after it.
fn read_ask(alloc: Global, verb: &[u8], words: &[u8]) -> Result<Option<Ask>, OutOfMemory>
    ensures { IfOk result (λ ask. ask ≡ ask_of verb.now (words_of words.now)) }
{
    match AskKind::named(verb) {
        Some(kind) => read_operands(alloc, kind, words),
        None => Ok(None),
    }
}

/// The names that stand in one word, parted by commas, or nothing where one of them is none.
fn read_names(alloc: Global, word: &[u8]) -> Result<Option<List<Name>>, OutOfMemory>
    ensures names { IfOk result (λ names. names ≡ names_in word.now) }
    ensures few { IfOk result (λ names. IfSome names (λ ns. length ns ≤ length word.now + 1)) }
{
    let mut names = List::new(alloc);
    let mut rest = word;
    while let Some((first, after)) = split_at_comma(rest) {
        let Some(name) = read_name(alloc, first)? else {
            return Ok(None);
        };
        names.push(name)?;
        rest = after;
    }
    let Some(name) = read_name(alloc, rest)? else {
        return Ok(None);
    };
    names.push(name)?;
    Ok(Some(names))
}

/// The query that asks this with these links down; none where it asks for the changes of an update.
fn without(links: List<Name>, ask: Ask) -> Option<Query>
    requires { length links ≤ 1025 }
    ensures { result ≡ asked_without links ask }
{
    match &ask {
        Ask::Delta => None,
        _ => Some(Query::new(links, ask)),
    }
}

/// What the words after `without` ask: links in one word, parted by commas, and what is asked with them down.
fn read_without(alloc: Global, words: &[u8]) -> Result<Option<Query>, OutOfMemory>
    requires { length words.now ≤ 1024 }
    ensures { IfOk result (λ query. query ≡ without_of (words_of words.now)) }
{
    let Some((links, rest)) = next_word(words) else {
        return Ok(None);
    };
    let Some((verb, rest)) = next_word(rest) else {
        return Ok(None);
    };
    let Some(links) = read_names(alloc, links)? else {
        return Ok(None);
    };
    let Some(ask) = read_ask(alloc, verb, rest)? else {
        return Ok(None);
    };
    Ok(without(links, ask))
}

#[tactic(auto, unfolding(dn_formats::specs::QueryWords::query_of))]
/// The query that a line asks, by its verb and the words after it; none where they are none of a query's.
pub fn read_asked(alloc: Global, verb: &[u8], words: &[u8]) -> Result<Option<Query>, OutOfMemory>
    requires { length words.now ≤ 1024 }
    ensures { IfOk result (λ query. query ≡ query_of verb.now (words_of words.now)) }
{
    if is_same(verb, b"without") {
        return read_without(alloc, words);
    }
    match read_ask(alloc, verb, words)? {
        Some(ask) => Ok(Some(Query::of(alloc, ask))),
        None => Ok(None),
    }
}

/// The query that a line asks, parted into words by spaces, tabs and carriage returns; None where its words ask none,
/// and where it has more than 1,024 bytes. A script's line is read so, and so may be the query in a line of a report.
///
/// # Errors
///
/// `OutOfMemory` alone.
pub fn read_query(alloc: Global, line: &[u8]) -> Result<Option<Query>, OutOfMemory>
    ensures { IfOk result (λ query. query ≡ query_of_line line.now) }
{
    if line.len() > LINE_BYTES {
        return Ok(None);
    }
    match next_word(line) {
        Some((verb, words)) => read_asked(alloc, verb, words),
        None => Ok(None),
    }
}
