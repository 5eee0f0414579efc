//! The words that a line begins with.

ghost use Rattle.std.specs.Prelude.{◌≡◌, ◌≢◌, MatchOption};
ghost use Rattle.cf_script_words.specs.Names.{bare_name, path_name, number_name, word_name, two_word_name, three_word_name, long_name, other_name, command_name};
ghost use Rattle.cf_script_words.specs.declared.commands.BareCommand.{BareCommand};
ghost use Rattle.cf_script_words.specs.declared.commands.PathCommand.{PathCommand};
ghost use Rattle.cf_script_words.specs.declared.commands.NumberCommand.{NumberCommand};
ghost use Rattle.cf_script_words.specs.declared.commands.WordCommand.{WordCommand};
ghost use Rattle.cf_script_words.specs.declared.commands.TwoWordCommand.{TwoWordCommand};
ghost use Rattle.cf_script_words.specs.declared.commands.ThreeWordCommand.{ThreeWordCommand};
ghost use Rattle.cf_script_words.specs.declared.commands.LongCommand.{LongCommand};
ghost use Rattle.cf_script_words.specs.declared.commands.OtherCommand.{OtherCommand};
ghost use Rattle.cf_script_words.specs.declared.commands.Command.{Command};

use crate::commands::{
    BareCommand, Command, LongCommand, NumberCommand, OtherCommand, PathCommand, ThreeWordCommand,
    TwoWordCommand, WordCommand,
};

/// A word that stands alone.
fn bare_command(word: &str) -> Option<BareCommand>
    ensures { MatchOption result ((c : BareCommand) → word.now ≢ bare_name c) (λ c. word.now ≡ bare_name c) }
{
    match word {
        "flush" => Some(BareCommand::Flush),
        "df" => Some(BareCommand::Df),
        "connect" => Some(BareCommand::Connect),
        "disconnect" => Some(BareCommand::Disconnect),
        "restart" => Some(BareCommand::Restart),
        "work" => Some(BareCommand::Work),
        "sync" => Some(BareCommand::Sync),
        _ => None,
    }
}

/// A word with one path after it.
fn path_command(word: &str) -> Option<PathCommand>
    ensures { MatchOption result ((c : PathCommand) → word.now ≢ path_name c) (λ c. word.now ≡ path_name c) }
{
    match word {
        "open" => Some(PathCommand::Open),
        "create" => Some(PathCommand::Create),
        "mkdir" => Some(PathCommand::Mkdir),
        "delete" => Some(PathCommand::Delete),
        "list" => Some(PathCommand::List),
        "hydrate" => Some(PathCommand::Hydrate),
        "info" => Some(PathCommand::Info),
        "used" => Some(PathCommand::Used),
        "revert" => Some(PathCommand::Revert),
        "unmark" => Some(PathCommand::Unmark),
        _ => None,
    }
}

/// A word with one number after it.
fn number_command(word: &str) -> Option<NumberCommand>
    ensures { MatchOption result ((c : NumberCommand) → word.now ≢ number_name c) (λ c. word.now ≡ number_name c) }
{
    match word {
        "stop" => Some(NumberCommand::Stop),
        "deliver" => Some(NumberCommand::Deliver),
        "arrive" => Some(NumberCommand::Arrive),
        "space" => Some(NumberCommand::Space),
        _ => None,
    }
}

/// A word with one word of its own after it.
fn word_command(word: &str) -> Option<WordCommand>
    ensures { MatchOption result ((c : WordCommand) → word.now ≢ word_name c) (λ c. word.now ≡ word_name c) }
{
    match word {
        "close" => Some(WordCommand::Close),
        "cancel" => Some(WordCommand::Cancel),
        "tick" => Some(WordCommand::Tick),
        "link" => Some(WordCommand::Link),
        _ => None,
    }
}

/// A word with two words after it.
fn two_word_command(word: &str) -> Option<TwoWordCommand>
    ensures { MatchOption result ((c : TwoWordCommand) → word.now ≢ two_word_name c) (λ c. word.now ≡ two_word_name c) }
{
    match word {
        "size" => Some(TwoWordCommand::Size),
        "rename" => Some(TwoWordCommand::Rename),
        "ranges" => Some(TwoWordCommand::Ranges),
        "keep" => Some(TwoWordCommand::Keep),
        "convert" => Some(TwoWordCommand::Convert),
        "mark" => Some(TwoWordCommand::Mark),
        _ => None,
    }
}

/// A word with three words after it.
fn three_word_command(word: &str) -> Option<ThreeWordCommand>
    ensures { MatchOption result ((c : ThreeWordCommand) → word.now ≢ three_word_name c) (λ c. word.now ≡ three_word_name c) }
{
    match word {
        "read" => Some(ThreeWordCommand::Read),
        "get" => Some(ThreeWordCommand::Get),
        "write" => Some(ThreeWordCommand::Write),
        _ => None,
    }
}

/// A word with two words after it, or more.
fn long_command(word: &str) -> Option<LongCommand>
    ensures { MatchOption result ((c : LongCommand) → word.now ≢ long_name c) (λ c. word.now ≡ long_name c) }
{
    match word {
        "pin" => Some(LongCommand::Pin),
        "policy" => Some(LongCommand::Policy),
        "placedir" => Some(LongCommand::PlaceDir),
        "do" => Some(LongCommand::Do),
        "plan" => Some(LongCommand::Plan),
        _ => None,
    }
}

/// A word with words after it in a number of its own.
fn other_command(word: &str) -> Option<OtherCommand>
    ensures { MatchOption result ((c : OtherCommand) → word.now ≢ other_name c) (λ c. word.now ≡ other_name c) }
{
    match word {
        "dehydrate" => Some(OtherCommand::Dehydrate),
        "crash" => Some(OtherCommand::Crash),
        "peer" => Some(OtherCommand::Peer),
        "place" => Some(OtherCommand::Place),
        "update" => Some(OtherCommand::Update),
        _ => None,
    }
}

/// The first word of a line.
#[tactic(auto, using(crate::proofs::FirstWords::none_begins))]
pub fn command(word: &str) -> Option<Command>
    ensures { MatchOption result ((c : Command) → word.now ≢ command_name c) (λ c. word.now ≡ command_name c) }
{
    if let Some(command) = bare_command(word) {
        return Some(Command::Bare(command));
    }
    if let Some(command) = path_command(word) {
        return Some(Command::OnPath(command));
    }
    if let Some(command) = number_command(word) {
        return Some(Command::OnNumber(command));
    }
    if let Some(command) = word_command(word) {
        return Some(Command::OnWord(command));
    }
    if let Some(command) = two_word_command(word) {
        return Some(Command::OnTwo(command));
    }
    if let Some(command) = three_word_command(word) {
        return Some(Command::OnThree(command));
    }
    if let Some(command) = long_command(word) {
        return Some(Command::Long(command));
    }
    match other_command(word) {
        Some(command) => Some(Command::Other(command)),
        None => None,
    }
}
