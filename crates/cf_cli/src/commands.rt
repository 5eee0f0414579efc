//! The commands of the program.

ghost use Rattle.std.specs.Prelude.{◌≡◌, ◌≢◌, ℕ, Some, string_bytes, map, IfOk, IsErrOf, MatchOption};
ghost use Rattle.clap.specs.Matches.{found_of};
ghost use Rattle.clap.specs.Simple.{subcommand_rows_of};
ghost use Rattle.clap.specs.Values.{kind_of};
ghost use Rattle.clap.specs.Walk.{rows_of};
ghost use Rattle.clap.specs.declared.error.kind.ErrorKind.TheVariants as kind;
ghost use Rattle.cf_cli.specs.Accounts.{AreTaken, HasNumber, IsAlone, IsMet, Names, name_of};
ghost use Rattle.cf_cli.specs.declared.commands.Command.{Command as Meant};
ghost use Rattle.cf_cli.specs.declared.commands.Command.TheVariants as meant;
ghost use Rattle.cf_cli.specs.declared.commands.WordsError.TheVariants as fails;

use crate::command_line::account;
use cf_script_words::number;
use clap::error::ErrorKind;
use clap::{ArgMatches, Error};
use std::alloc::{AllocError, Global};

/// What the program does.
#[derive(Clone, Copy, Debug, PartialEq, Eq)]
pub enum Command {
    /// Reads a script, does it with the engine, and writes the report.
    Replay,
    /// The same with a scripted provider and no engine.
    Filter,
    /// Reads a script, does it with the engine, and writes the state that it leads to.
    State,
    /// Reads a script, does it with the engine, and writes the bytes of the device.
    Image,
    /// Makes the script of this number, does it with the engine, and writes a summary.
    Gen(u32),
    /// Reads a device's bytes, and writes what is wrong with them.
    Scrub,
    /// Reads a device's bytes, puts their volume into format 2, and writes them.
    Migrate,
    /// Reads a script of `replay` and its report, and judges the report.
    Check,
}

/// Why words are no command.
#[derive(Clone, Copy, Debug, PartialEq, Eq, thiserror::Error)]
pub enum WordsError {
    #[error("no command")]
    Usage,
    #[error("out of memory")]
    OutOfMemory,
}

impl From<AllocError> for WordsError {
    ghost from_gives = { λ _ e. e ≡ fails.OutOfMemory };

    fn from(_e: AllocError) -> WordsError {
        WordsError::OutOfMemory
    }
}

/// The command that the words after the program's name are. Refused as Usage exactly where `clap` does not take the words, or
/// where the text of `gen` is no number by the rule of scripts; but where memory runs out, that is answered as OutOfMemory.
pub fn command_of(alloc: Global, words: &[String]) -> Result<Command, WordsError>
    ensures ok { IfOk result (Names (map string_bytes words.now)) }
    ensures usage { IsErrOf result WordsError.Usage → AreTaken (map string_bytes words.now) → ⊥ }
{
    let line = account(alloc)?;
    match line.try_get_matches_from(words) {
        Ok(matches) => met(&matches),
        Err(error) => Err(fail_of(&error)),
    }
}

// The command whose name `clap` met.
fn met(matches: &ArgMatches) -> Result<Command, WordsError>
    ensures ok { IfOk result (IsMet (subcommand_rows_of matches.now)) }
    ensures usage { IsErrOf result WordsError.Usage → (c : Meant) → IsMet (subcommand_rows_of matches.now) c → ⊥ }
{
    match matches.subcommand() {
        Some((name, found)) => named(name, found),
        None => Err(WordsError::Usage),
    }
}

// The command of this name, with its matches.
fn named(name: &str, found: &ArgMatches) -> Result<Command, WordsError>
    ensures ok { IfOk result (IsMet (Some (name.now, rows_of (found_of found.now)))) }
    ensures usage { IsErrOf result WordsError.Usage → (c : Meant) → IsMet (Some (name.now, rows_of (found_of found.now))) c → ⊥ }
{
    if name == "gen" {
        return numbered(found);
    }
    match alone(name) {
        Some(command) => Ok(command),
        None => Err(WordsError::Usage),
    }
}

// The command that is this word alone.
fn alone(name: &str) -> Option<Command>
    ensures { MatchOption result ((c : Meant) → IsAlone c → name.now ≢ name_of c) (λ c. IsAlone c × (name.now ≡ name_of c)) }
{
    match name {
        "replay" => Some(Command::Replay),
        "filter" => Some(Command::Filter),
        "state" => Some(Command::State),
        "image" => Some(Command::Image),
        "scrub" => Some(Command::Scrub),
        "migrate" => Some(Command::Migrate),
        "check" => Some(Command::Check),
        _ => None,
    }
}

// The command `gen`, with its number.
fn numbered(found: &ArgMatches) -> Result<Command, WordsError>
    ensures ok { IfOk result (λ c. (n : ℕ) × (c ≡ meant.Gen n) × HasNumber (meant.Gen n) (rows_of (found_of found.now))) }
    ensures usage { IsErrOf result WordsError.Usage → (n : ℕ) → HasNumber (meant.Gen n) (rows_of (found_of found.now)) → ⊥ }
{
    let Some(text) = found.get_str("number") else {
        return Err(WordsError::Usage);
    };
    match number(text) {
        Some(n) => Ok(Command::Gen(n)),
        None => Err(WordsError::Usage),
    }
}

fn fail_of(error: &Error) -> WordsError
    ensures { result ≡ WordsError.Usage → kind_of error.now ≢ kind.OutOfMemory }
{
    if error.kind() == ErrorKind::OutOfMemory {
        return WordsError::OutOfMemory;
    }
    WordsError::Usage
}
