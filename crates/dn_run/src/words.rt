//! The words of the command line, by `clap`.

ghost use Rattle.std.specs.Prelude.{◌≡◌, [], IfOk, IfErr, Some, codes, map, option_and_then, option_map, unwrap_or};
ghost use Rattle.std.specs.String.{string_bytes};
ghost use Rattle.clap.specs.Matches.{found_of};
ghost use Rattle.clap.specs.Simple.{app_of, subcommand_rows_of};
ghost use Rattle.clap.specs.Walk.{all_of, rows_of};
ghost use Rattle.dn_run.specs.CommandLine.{Make, Run, command_line, command_of, meaning_of, number_of_rows};
ghost use Rattle.dn_run.specs.CommandLine.{run_of_rows};
ghost use Rattle.dn_run.specs.WordsRefused.{AreRefused, IsWithin, command_words};

use clap::error::ErrorKind;
use clap::{Arg, ArgAction, ArgMatches};
use dn_formats::read_number;
use dn_model::OutOfMemory;
use std::alloc::{AllocError, Global};

/// An input of at most so many updates is made.
const MOST_UPDATES: u32 = 1000000;

/// Why a command line isn't read.
#[derive(Clone, Copy, Debug, PartialEq, Eq)]
pub enum WordsRefused {
    /// The words are no command line of this program.
    BadWords,
    /// Memory ran out.
    OutOfMemory,
}

impl From<OutOfMemory> for WordsRefused {
    ghost use Rattle.std.specs.Prelude.{◌≡◌};
    ghost use Rattle.dn_run.specs.declared.words.WordsRefused.TheVariants as variant;

    ghost from_gives = { λ _ e. e ≡ variant.OutOfMemory };

    fn from(_error: OutOfMemory) -> Self {
        WordsRefused::OutOfMemory
    }
}

impl From<AllocError> for WordsRefused {
    ghost use Rattle.std.specs.Prelude.{◌≡◌};
    ghost use Rattle.dn_run.specs.declared.words.WordsRefused.TheVariants as variant;

    ghost from_gives = { λ _ e. e ≡ variant.OutOfMemory };

    fn from(_error: AllocError) -> Self {
        WordsRefused::OutOfMemory
    }
}

/// A run over a topology, by its file. The parts are the words after the topology's, as they stand: which are feeds and
/// which scripts, `read_parts` says.
#[derive(Drop)]
pub struct RunCommand {
    pub topology: String,
    pub parts: Vec<String>,
}

/// What a command line asks for.
#[derive(Drop)]
pub enum Command {
    /// A run over files.
    Run(RunCommand),
    /// A run over the generated input of so many updates, 1 to 1,000,000.
    Make(u32),
}

/// The two commands `run TOPOLOGY [PART]..` and `make N`, as `clap` knows them.
fn command_line<'a>(alloc: Global) -> Result<clap::Command<'a>, AllocError>
    ensures { IfOk result (λ command. app_of command ≡ command_line) }
{
    let topology = Arg::new(alloc, "topology")
        .required(true)
        .action(ArgAction::Set);
    let part = Arg::new(alloc, "part").action(ArgAction::Append);
    let number = Arg::new(alloc, "n").required(true).action(ArgAction::Set);
    let run = clap::Command::new(alloc, "run").arg(topology)?.arg(part)?;
    let make = clap::Command::new(alloc, "make").arg(number)?;
    clap::Command::new(alloc, "deltanet")
        .subcommand_required(true)
        .subcommand(run)?
        .subcommand(make)
}

/// Copies of texts, in order.
pub(crate) fn copied(alloc: Global, texts: &[&str]) -> Result<Vec<String>, AllocError>
    ensures { IfOk result (λ copies. map string_bytes copies.items ≡ map (λ text. text.now) texts.now) }
{
    let mut copies = Vec::new(alloc);
    for text in texts {
        let copy = String::from_str(alloc, text)?;
        copies.push(copy)?;
    }
    Ok(copies)
}

/// The words that the values of `run` say the parts are.
fn read_part_words(alloc: Global, run: &ArgMatches) -> Result<Vec<String>, AllocError>
    ensures { IfOk result (λ parts. map string_bytes parts.items
        ≡ unwrap_or (all_of (codes "part") (rows_of (found_of run.now))) []) }
{
    match run.get_raw("part") {
        Some(parts) => copied(alloc, parts),
        None => Ok(Vec::new(alloc)),
    }
}

/// The run that the values of `run` say.
fn read_run(alloc: Global, run: &ArgMatches) -> Result<Command, WordsRefused>
    ensures ok { IfOk result (λ c. option_map Run (run_of_rows (rows_of (found_of run.now))) ≡ Some (command_words c)) }
    ensures refused { IfErr result (λ e. AreRefused e (run_of_rows (rows_of (found_of run.now)))) }
    ensures within { IfOk result IsWithin }
{
    let Some(topology) = run.get_str("topology") else {
        return Err(WordsRefused::BadWords);
    };
    let topology = String::from_str(alloc, topology)?;
    let parts = read_part_words(alloc, run)?;
    Ok(Command::Run(RunCommand { topology, parts }))
}

/// How many updates the values of `make` say.
fn read_make(make: &ArgMatches) -> Result<Command, WordsRefused>
    ensures ok { IfOk result (λ c. option_map Make (number_of_rows (rows_of (found_of make.now)))
        ≡ Some (command_words c)) }
    ensures refused { IfErr result (λ e. AreRefused e (number_of_rows (rows_of (found_of make.now)))) }
    ensures within { IfOk result IsWithin }
{
    let Some(text) = make.get_str("n") else {
        return Err(WordsRefused::BadWords);
    };
    match read_number(text.as_bytes(), 1, MOST_UPDATES) {
        Some(n) => Ok(Command::Make(n)),
        None => Err(WordsRefused::BadWords),
    }
}

/// What the subcommand that was met asks for.
fn read_subcommand(alloc: Global, matches: &ArgMatches) -> Result<Command, WordsRefused>
    ensures ok { IfOk result (λ c. option_and_then meaning_of (subcommand_rows_of matches.now)
        ≡ Some (command_words c)) }
    ensures refused { IfErr result (λ e. AreRefused e (option_and_then meaning_of (subcommand_rows_of matches.now))) }
    ensures within { IfOk result IsWithin }
{
    if let Some(run) = matches.subcommand_matches("run") {
        return read_run(alloc, run);
    }
    match matches.subcommand_matches("make") {
        Some(make) => read_make(make),
        None => Err(WordsRefused::BadWords),
    }
}

/// What a whole command line asks for, the program's name first: `run TOPOLOGY [PART]..` or `make N`. Up to a first
/// `--` a word that begins with `-`, but for `-` alone, is an option, of which there is none. Words that ask for help
/// are refused too, and so is an N other than 1 to 1,000,000 in digits, without sign or leading zero.
pub fn read_words(alloc: Global, words: &[String]) -> Result<Command, WordsRefused>
    ensures ok { IfOk result (λ c. command_of (map string_bytes words.now) ≡ Some (command_words c)) }
    ensures refused { IfErr result (λ e. AreRefused e (command_of (map string_bytes words.now))) }
    ensures within { IfOk result IsWithin }
{
    let command = command_line(alloc)?;
    match command.try_get_matches_from(words) {
        Ok(matches) => read_subcommand(alloc, &matches),
        Err(error) => match error.kind() {
            ErrorKind::OutOfMemory => Err(WordsRefused::OutOfMemory),
            _ => Err(WordsRefused::BadWords),
        },
    }
}
