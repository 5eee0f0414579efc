//! The operations of a scripted provider.

ghost use Rattle.std.specs.Prelude.{map, IfOk};
ghost use Rattle.cf_base.specs.declared.ids.Key.{Key};
ghost use Rattle.cf_script_words.specs.Words.{Reads};
ghost use Rattle.cf_script.specs.Forms.{IsDone, IsDo, IsPlanKey, IsPlanned, IsPlan};

use cf_base::{Event, Key, OutOfMemory, ProviderEvent};
use cf_script_words::{OperationCommand, key, operation, operation_command};
use std::alloc::Global;

fn done(
    alloc: Global,
    command: OperationCommand,
    key: Key,
    words: &[&str],
) -> Result<Option<Event>, OutOfMemory>
    ensures { IfOk result (Reads (IsDone command key (map (λ w. w.now) words.now))) }
{
    match operation(alloc, command, key, words) {
        Ok(Some(operation)) => Ok(Some(Event::Provider(ProviderEvent::Do { operation }))),
        Ok(None) => Ok(None),
        Err(e) => Err(e),
    }
}

/// What follows the word `do`.
pub fn do_line(
    alloc: Global,
    word: &str,
    key_word: &str,
    rest: &[&str],
) -> Result<Option<Event>, OutOfMemory>
    ensures { IfOk result (Reads (IsDo word.now key_word.now (map (λ w. w.now) rest.now))) }
{
    let Some(command) = operation_command(word) else {
        return Ok(None);
    };
    let Some(key) = key(key_word) else {
        return Ok(None);
    };
    done(alloc, command, key, rest)
}

/// A key, and before it whether it is that of the callback.
fn plan_key(word: &str) -> Option<(bool, Key)>
    ensures { Reads (IsPlanKey word.now) result }
{
    if word == "self" {
        let own = Key {
            epoch: 0,
            number: 0,
        };
        return Some((true, own));
    }
    let Some(key) = key(word) else {
        return None;
    };
    Some((false, key))
}

fn planned(
    alloc: Global,
    command: OperationCommand,
    key: (bool, Key),
    words: &[&str],
) -> Result<Option<Event>, OutOfMemory>
    ensures { IfOk result (Reads (IsPlanned command key (map (λ w. w.now) words.now))) }
{
    let (own, key) = key;
    match operation(alloc, command, key, words) {
        Ok(Some(operation)) => Ok(Some(Event::Provider(ProviderEvent::Plan { own, operation }))),
        Ok(None) => Ok(None),
        Err(e) => Err(e),
    }
}

/// What follows the word `plan`.
pub fn plan(
    alloc: Global,
    word: &str,
    key_word: &str,
    rest: &[&str],
) -> Result<Option<Event>, OutOfMemory>
    ensures { IfOk result (Reads (IsPlan word.now key_word.now (map (λ w. w.now) rest.now))) }
{
    let Some(command) = operation_command(word) else {
        return Ok(None);
    };
    let key = match plan_key(key_word) {
        Some(key) => key,
        None => return Ok(None),
    };
    planned(alloc, command, key, rest)
}
