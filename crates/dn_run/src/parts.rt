//! The parts of a command line: feeds and scripts.

ghost use Rattle.std.specs.Prelude.{◌≡◌, ◌≤◌, IfOk, IfErr, OnOk, Ok, length, map, option_map};
ghost use Rattle.std.specs.String.{string_bytes};
ghost use Rattle.dn_formats.specs.Words.{feed_of_part, is_equals_sign, part_of, parts_of, FeedPart as feed_part};
ghost use Rattle.dn_run.specs.PartsRead.{ArePartsRefused, feed_texts, next_number, parts_texts, script_named};
ghost use Rattle.dn_run.specs.PartsRead.{with_part};

use dn_formats::ErrorLine;
use dn_model::{Name, OutOfMemory, is_name};
use std::alloc::{AllocError, AllocFailed, Global};

/// The most feeds of a run.
const FEEDS: usize = 64;

/// The most scripts of a run.
const SCRIPTS: usize = 64;

/// A feed of a run: the number of its part, from 1, its router's name and its file.
#[derive(Drop)]
pub struct FeedPart {
    pub part: u32,
    pub router: Name,
    pub file: String,
}

/// A script of a run: the number of its part, from 1, and its file.
#[derive(Drop)]
pub struct ScriptPart {
    pub part: u32,
    pub file: String,
}

/// The feeds and the scripts of a run, each in the order of their parts.
#[derive(Drop)]
pub struct RunParts {
    pub feeds: Vec<FeedPart>,
    pub scripts: Vec<ScriptPart>,
}

/// Why parts aren't read.
#[derive(Clone, Copy, Debug, PartialEq, Eq)]
pub enum PartsRefused {
    /// The line that tells the first fault of the parts.
    Line(ErrorLine),
    /// Memory ran out.
    OutOfMemory,
}

impl From<OutOfMemory> for PartsRefused {
    ghost use Rattle.std.specs.Prelude.{◌≡◌};
    ghost use Rattle.dn_run.specs.declared.parts.PartsRefused.TheVariants as variant;

    ghost from_gives = { λ _ e. e ≡ variant.OutOfMemory };

    fn from(_error: OutOfMemory) -> Self {
        PartsRefused::OutOfMemory
    }
}

impl From<AllocError> for PartsRefused {
    ghost use Rattle.std.specs.Prelude.{◌≡◌};
    ghost use Rattle.dn_run.specs.declared.parts.PartsRefused.TheVariants as variant;

    ghost from_gives = { λ _ e. e ≡ variant.OutOfMemory };

    fn from(_error: AllocError) -> Self {
        PartsRefused::OutOfMemory
    }
}

impl<T: Drop> From<AllocFailed<T>> for PartsRefused {
    ghost use Rattle.std.specs.Prelude.{◌≡◌};
    ghost use Rattle.dn_run.specs.declared.parts.PartsRefused.TheVariants as variant;

    ghost from_gives = { λ _ e. e ≡ variant.OutOfMemory };

    fn from(_error: AllocFailed<T>) -> Self {
        PartsRefused::OutOfMemory
    }
}

/// The feed that the part of this number is, as `ROUTER=FILE`, if it is one.
fn read_feed(alloc: Global, part: u32, text: &str) -> Result<Option<FeedPart>, OutOfMemory>
    ensures { IfOk result (λ feed. option_map feed_texts feed ≡ option_map (λ words. (part, words))
        (feed_of_part text.now)) }
{
    let Some((router, file)) = text.split_once('=') else {
        return Ok(None);
    };
    if !is_name(router.as_bytes()) || file.is_empty() {
        return Ok(None);
    }
    let router = Name::from_text(alloc, router.as_bytes())?;
    let file = String::from_str(alloc, file)?;
    Ok(Some(FeedPart { part, router, file }))
}

impl RunParts {
    /// The number of the part after those that were read.
    fn next_part(&self) -> u32
        requires feeds { length self.now.feeds.items ≤ 64 }
        requires scripts { length self.now.scripts.items ≤ 64 }
        ensures { result ≡ next_number (parts_texts self.now) }
    {
        (self.feeds.len() + self.scripts.len() + 1) as u32
    }

    /// Adds the feed that a part `ROUTER=FILE` is.
    fn add_feed(&mut self, alloc: Global, text: &str) -> Result<(), PartsRefused>
        requires feeds { length self.old.feeds.items ≤ 64 }
        requires scripts { length self.old.scripts.items ≤ 64 }
        ensures ok { OnOk result (with_part (parts_texts self.old) (option_map feed_part (feed_of_part text.now))
            ≡ Ok (parts_texts self.new)) }
        ensures refused { IfErr result (λ e. ArePartsRefused e
            (with_part (parts_texts self.old) (option_map feed_part (feed_of_part text.now)))) }
        ensures few { OnOk result ((length self.new.feeds.items ≤ 64) × (length self.new.scripts.items ≤ 64)) }
    {
        let part = self.next_part();
        let Some(feed) = read_feed(alloc, part, text)? else {
            return Err(PartsRefused::Line(ErrorLine::BadPart { part }));
        };
        if self.feeds.len() >= FEEDS {
            return Err(PartsRefused::Line(ErrorLine::TooManyParts { part }));
        }
        self.feeds.push(feed)?;
        Ok(())
    }

    /// Adds the script of a file.
    fn add_script(&mut self, alloc: Global, file: &str) -> Result<(), PartsRefused>
        requires feeds { length self.old.feeds.items ≤ 64 }
        requires scripts { length self.old.scripts.items ≤ 64 }
        ensures ok { OnOk result (with_part (parts_texts self.old) (script_named file.now)
            ≡ Ok (parts_texts self.new)) }
        ensures refused { IfErr result (λ e. ArePartsRefused e
            (with_part (parts_texts self.old) (script_named file.now))) }
        ensures few { OnOk result ((length self.new.feeds.items ≤ 64) × (length self.new.scripts.items ≤ 64)) }
    {
        let part = self.next_part();
        if file.is_empty() {
            return Err(PartsRefused::Line(ErrorLine::BadPart { part }));
        }
        if self.scripts.len() >= SCRIPTS {
            return Err(PartsRefused::Line(ErrorLine::TooManyParts { part }));
        }
        let file = String::from_str(alloc, file)?;
        self.scripts.push(ScriptPart { part, file })?;
        Ok(())
    }

    /// Adds what one part more is.
    fn add(&mut self, alloc: Global, text: &str) -> Result<(), PartsRefused>
        requires feeds { length self.old.feeds.items ≤ 64 }
        requires scripts { length self.old.scripts.items ≤ 64 }
        ensures ok { OnOk result (with_part (parts_texts self.old) (part_of text.now) ≡ Ok (parts_texts self.new)) }
        ensures refused { IfErr result (λ e. ArePartsRefused e (with_part (parts_texts self.old) (part_of text.now))) }
        ensures few { OnOk result ((length self.new.feeds.items ≤ 64) × (length self.new.scripts.items ≤ 64)) }
    {
        match text.strip_prefix('@') {
            Some(file) => self.add_script(alloc, file),
            None => self.add_feed(alloc, text),
        }
    }
}

/// What the parts of a command line say, or the line that tells the first of their faults. A part that begins with `@`
/// is the script whose file is the rest; any other is the feed of a router and a file, split at its first `=`.
pub fn read_parts(alloc: Global, parts: &[String]) -> Result<RunParts, PartsRefused>
    ensures ok { IfOk result (λ p. parts_of (map string_bytes parts.now) ≡ Ok (parts_texts p)) }
    ensures refused { IfErr result (λ e. ArePartsRefused e (parts_of (map string_bytes parts.now))) }
    ensures few { IfOk result (λ p. (length p.feeds.items ≤ 64) × (length p.scripts.items ≤ 64)) }
{
    let mut said = RunParts {
        feeds: Vec::new(alloc),
        scripts: Vec::new(alloc),
    };
    for part in parts {
        said.add(alloc, part.as_str())?;
    }
    Ok(said)
}
