//! One line of a script.

ghost use Rattle.std.specs.Prelude.{◌≡◌, map, IfOk};
ghost use Rattle.cf_script_words.specs.Words.{Reads};
ghost use Rattle.cf_script.specs.Modes.{is_for_engine, is_for_provider, is_foreign};
ghost use Rattle.cf_script.specs.Forms.{Follows, AreWords};
ghost use Rattle.cf_script.specs.Script.{words_of, is_plain, Spells};

use crate::command_lines::{long, on_number, on_path, on_three, on_two, on_word, other};
use crate::short_lines::bare;
use cf_base::{Event, Mode, OutOfMemory};
use cf_script_words::{
    BareCommand, Command, LongCommand, NumberCommand, OtherCommand, PathCommand, TwoWordCommand,
    WordCommand, command,
};
use std::alloc::{AllocError, Global};

fn is_for_engine(command: Command) -> bool
    ensures { result ≡ is_for_engine command }
{
    match command {
        Command::Bare(BareCommand::Work | BareCommand::Sync) => true,
        Command::OnNumber(NumberCommand::Deliver | NumberCommand::Arrive | NumberCommand::Space) =>
            { true }
        Command::Other(OtherCommand::Peer) => true,
        Command::OnWord(WordCommand::Link) => true,
        _ => false,
    }
}

fn is_for_provider(command: Command) -> bool
    ensures { result ≡ is_for_provider command }
{
    match command {
        Command::OnPath(PathCommand::Revert | PathCommand::Unmark) => true,
        Command::OnTwo(TwoWordCommand::Convert | TwoWordCommand::Mark) => true,
        Command::Long(LongCommand::PlaceDir | LongCommand::Do | LongCommand::Plan) => true,
        Command::Other(OtherCommand::Place | OtherCommand::Update) => true,
        _ => false,
    }
}

/// Whether the other mode alone has the word.
fn is_foreign(mode: Mode, command: Command) -> bool
    ensures { result ≡ is_foreign mode command }
{
    match mode {
        Mode::Replay => is_for_provider(command),
        Mode::Filter => is_for_engine(command),
    }
}

/// The event of a line that begins with this word, by the words after it.
fn event_after(
    alloc: Global,
    command: Command,
    words: &[&str],
) -> Result<Option<Event>, OutOfMemory>
    ensures { IfOk result (Reads (Follows command (map (λ w. w.now) words.now))) }
{
    match command {
        Command::Bare(command) => Ok(bare(command, words)),
        Command::OnPath(command) => on_path(alloc, command, words),
        Command::OnNumber(command) => Ok(on_number(command, words)),
        Command::OnWord(command) => Ok(on_word(command, words)),
        Command::OnTwo(command) => on_two(alloc, command, words),
        Command::OnThree(command) => on_three(alloc, command, words),
        Command::Long(command) => long(alloc, command, words),
        Command::Other(command) => other(alloc, command, words),
    }
}

fn event_of(alloc: Global, mode: Mode, words: &[&str]) -> Result<Option<Event>, OutOfMemory>
    ensures { IfOk result (Reads (AreWords mode (map (λ w. w.now) words.now))) }
{
    let [word, rest @ ..] = words else {
        return Ok(None);
    };
    let Some(command) = command(word) else {
        return Ok(None);
    };
    if is_foreign(mode, command) {
        return Ok(None);
    }
    event_after(alloc, command, rest)
}

/// The words between single spaces.
fn words_of(alloc: Global, line: &str) -> Result<Vec<&str>, AllocError>
    ensures { IfOk result (λ v. map (λ w. w.now) v.items ≡ words_of line.now) }
{
    line.split(' ').collect(alloc)
}

fn event_of_text(alloc: Global, mode: Mode, line: &str) -> Result<Option<Event>, OutOfMemory>
    ensures { IfOk result (Reads (AreWords mode (words_of line.now))) }
{
    match words_of(alloc, line) {
        Ok(words) => event_of(alloc, mode, words.as_slice()),
        Err(_) => Err(OutOfMemory),
    }
}

/// Whether there are no control bytes.
fn is_plain(line: &[u8]) -> bool
    ensures { result ≡ is_plain line.now }
{
    line.iter().all(|b| *b >= 32 && *b != 127)
}

/// The event that a line, without its end, spells in the mode, or none where it spells none.
///
/// Fails only where memory does not suffice.
pub fn event_of_line(alloc: Global, mode: Mode, line: &[u8]) -> Result<Option<Event>, OutOfMemory>
    ensures { IfOk result (Reads (Spells mode line.now)) }
{
    if !is_plain(line) {
        return Ok(None);
    }
    match str::from_utf8(line) {
        Ok(line) => event_of_text(alloc, mode, line),
        Err(_) => Ok(None),
    }
}
