//! The lines of the commands that have words after them.

ghost use Rattle.std.specs.Prelude.{map, IfOk};
ghost use Rattle.cf_script_words.specs.Words.{Reads};
ghost use Rattle.cf_script_words.specs.Shapes.{OfOne, OfTwo, OfThree, OfTwoOrMore};
ghost use Rattle.cf_script.specs.Forms.{IsPathLine, IsNumberLine, IsWordLine, IsTwoWordLine, IsThreeWordLine, IsLongLine, IsOtherLine};

use crate::calls::{
    cancel, close, dehydrate, get, keep, pin_line, policy, ranges, read, rename, size, tick, write,
};
use crate::operations::{do_line, plan};
use crate::peers::{link, peer};
use crate::providers::{convert, mark, place, place_dir, update};
use crate::short_lines::{crash, number_line, path_line};
use cf_base::{Event, OutOfMemory};
use cf_script_words::{
    LongCommand, NumberCommand, OtherCommand, PathCommand, ThreeWordCommand, TwoWordCommand,
    WordCommand,
};
use std::alloc::Global;

/// A word and a path.
pub fn on_path(
    alloc: Global,
    command: PathCommand,
    words: &[&str],
) -> Result<Option<Event>, OutOfMemory>
    ensures { IfOk result (Reads (OfOne (IsPathLine command) (map (λ w. w.now) words.now))) }
{
    match words {
        [target] => path_line(alloc, command, target),
        _ => Ok(None),
    }
}

/// A word and a number.
pub fn on_number(command: NumberCommand, words: &[&str]) -> Option<Event>
    ensures { Reads (OfOne (IsNumberLine command) (map (λ w. w.now) words.now)) result }
{
    match words {
        [word] => number_line(command, word),
        _ => None,
    }
}

fn word_line(command: WordCommand, word: &str) -> Option<Event>
    ensures { Reads (IsWordLine command word.now) result }
{
    match command {
        WordCommand::Close => close(word),
        WordCommand::Cancel => cancel(word),
        WordCommand::Tick => tick(word),
        WordCommand::Link => link(word),
    }
}

/// A word and one word of its own.
pub fn on_word(command: WordCommand, words: &[&str]) -> Option<Event>
    ensures { Reads (OfOne (IsWordLine command) (map (λ w. w.now) words.now)) result }
{
    match words {
        [word] => word_line(command, word),
        _ => None,
    }
}

fn two_word_line(
    alloc: Global,
    command: TwoWordCommand,
    first: &str,
    second: &str,
) -> Result<Option<Event>, OutOfMemory>
    ensures { IfOk result (Reads (IsTwoWordLine command first.now second.now)) }
{
    match command {
        TwoWordCommand::Size => Ok(size(first, second)),
        TwoWordCommand::Rename => rename(alloc, first, second),
        TwoWordCommand::Ranges => ranges(alloc, first, second),
        TwoWordCommand::Keep => keep(alloc, first, second),
        TwoWordCommand::Convert => convert(alloc, first, second),
        TwoWordCommand::Mark => mark(alloc, first, second),
    }
}

/// A word and two words.
pub fn on_two(
    alloc: Global,
    command: TwoWordCommand,
    words: &[&str],
) -> Result<Option<Event>, OutOfMemory>
    ensures { IfOk result (Reads (OfTwo (IsTwoWordLine command) (map (λ w. w.now) words.now))) }
{
    match words {
        [first, second] => two_word_line(alloc, command, first, second),
        _ => Ok(None),
    }
}

fn three_word_line(
    alloc: Global,
    command: ThreeWordCommand,
    first: &str,
    second: &str,
    third: &str,
) -> Result<Option<Event>, OutOfMemory>
    ensures { IfOk result (Reads (IsThreeWordLine command first.now second.now third.now)) }
{
    match command {
        ThreeWordCommand::Read => Ok(read(first, second, third)),
        ThreeWordCommand::Get => get(alloc, first, second, third),
        ThreeWordCommand::Write => write(alloc, first, second, third),
    }
}

/// A word and three words.
pub fn on_three(
    alloc: Global,
    command: ThreeWordCommand,
    words: &[&str],
) -> Result<Option<Event>, OutOfMemory>
    ensures { IfOk result (Reads (OfThree (IsThreeWordLine command) (map (λ w. w.now) words.now))) }
{
    match words {
        [first, second, third] => three_word_line(alloc, command, first, second, third),
        _ => Ok(None),
    }
}

fn long_line(
    alloc: Global,
    command: LongCommand,
    first: &str,
    second: &str,
    rest: &[&str],
) -> Result<Option<Event>, OutOfMemory>
    ensures { IfOk result (Reads (IsLongLine command first.now second.now (map (λ w. w.now) rest.now))) }
{
    match command {
        LongCommand::Pin => pin_line(alloc, first, second, rest),
        LongCommand::Policy => Ok(policy(first, second, rest)),
        LongCommand::PlaceDir => place_dir(alloc, first, second, rest),
        LongCommand::Do => do_line(alloc, first, second, rest),
        LongCommand::Plan => plan(alloc, first, second, rest),
    }
}

/// A word and two words or more.
pub fn long(
    alloc: Global,
    command: LongCommand,
    words: &[&str],
) -> Result<Option<Event>, OutOfMemory>
    ensures { IfOk result (Reads (OfTwoOrMore (IsLongLine command) (map (λ w. w.now) words.now))) }
{
    match words {
        [first, second, rest @ ..] => long_line(alloc, command, first, second, rest),
        _ => Ok(None),
    }
}

/// A word and words in a number of its own.
pub fn other(
    alloc: Global,
    command: OtherCommand,
    words: &[&str],
) -> Result<Option<Event>, OutOfMemory>
    ensures { IfOk result (Reads (IsOtherLine command (map (λ w. w.now) words.now))) }
{
    match command {
        OtherCommand::Dehydrate => dehydrate(alloc, words),
        OtherCommand::Crash => Ok(crash(words)),
        OtherCommand::Peer => peer(alloc, words),
        OtherCommand::Place => place(alloc, words),
        OtherCommand::Update => update(alloc, words),
    }
}
