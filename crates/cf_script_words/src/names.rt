//! The fixed words.

ghost use Rattle.std.specs.Prelude.{◌≡◌, [], ◌++◌, map, codes};
ghost use Rattle.cf_script_words.specs.Words.{Reads};
ghost use Rattle.cf_script_words.specs.Names.{peer_name, operation_name, pin_name, reach_words, class_name, hydration_name, population_name, yes_name, good_name, link_name, kept_name, entry_kind, begins, flag_words, modifier_words};

use crate::commands::{OperationCommand, PeerCommand};
use cf_base::{Class, Hydration, Pin, Population, Reach};

/// The word after `peer`.
pub fn peer_command(word: &str) -> Option<PeerCommand>
    ensures { Reads (λ c. word.now ≡ peer_name c) result }
{
    match word {
        "put" => Some(PeerCommand::Put),
        "mkdir" => Some(PeerCommand::Mkdir),
        "move" => Some(PeerCommand::Move),
        "remove" => Some(PeerCommand::Remove),
        "stat" => Some(PeerCommand::Stat),
        "keep" => Some(PeerCommand::Keep),
        _ => None,
    }
}

/// The word after `do` or `plan`.
pub fn operation_command(word: &str) -> Option<OperationCommand>
    ensures { Reads (λ c. word.now ≡ operation_name c) result }
{
    match word {
        "transfer" => Some(OperationCommand::Transfer),
        "fail" => Some(OperationCommand::Fail),
        "retrieve" => Some(OperationCommand::Retrieve),
        "ack" => Some(OperationCommand::Ack),
        "rehydrate" => Some(OperationCommand::Rehydrate),
        "entries" => Some(OperationCommand::Entries),
        "ackdehydrate" => Some(OperationCommand::AckDehydrate),
        _ => None,
    }
}

/// A pin state.
pub fn pin(word: &str) -> Option<Pin>
    ensures { Reads (λ p. word.now ≡ pin_name p) result }
{
    match word {
        "unspecified" => Some(Pin::Unspecified),
        "pinned" => Some(Pin::Pinned),
        "unpinned" => Some(Pin::Unpinned),
        "excluded" => Some(Pin::Excluded),
        "inherit" => Some(Pin::Inherit),
        _ => None,
    }
}

/// The items below that a pin state is set on too: a word, or none.
pub fn reach(words: &[&str]) -> Option<Reach>
    ensures { Reads (λ r. map (λ w. w.now) words.now ≡ reach_words r) result }
{
    match words {
        [] => Some(Reach::One),
        ["recurse"] => Some(Reach::Recurse),
        ["recurse-only"] => Some(Reach::RecurseOnly),
        _ => None,
    }
}

/// A class of ranges.
pub fn class(word: &str) -> Option<Class>
    ensures { Reads (λ c. word.now ≡ class_name c) result }
{
    match word {
        "ondisk" => Some(Class::OnDisk),
        "validated" => Some(Class::Validated),
        "modified" => Some(Class::Modified),
        _ => None,
    }
}

/// A hydration policy.
pub fn hydration(word: &str) -> Option<Hydration>
    ensures { Reads (λ h. word.now ≡ hydration_name h) result }
{
    match word {
        "partial" => Some(Hydration::Partial),
        "progressive" => Some(Hydration::Progressive),
        "full" => Some(Hydration::Full),
        "always-full" => Some(Hydration::AlwaysFull),
        _ => None,
    }
}

/// A population policy.
pub fn population(word: &str) -> Option<Population>
    ensures { Reads (λ p. word.now ≡ population_name p) result }
{
    match word {
        "partial" => Some(Population::Partial),
        "full" => Some(Population::Full),
        "always-full" => Some(Population::AlwaysFull),
        _ => None,
    }
}

/// `yes` or `no`.
pub fn yes(word: &str) -> Option<bool>
    ensures { Reads (λ b. word.now ≡ yes_name b) result }
{
    match word {
        "yes" => Some(true),
        "no" => Some(false),
        _ => None,
    }
}

/// `ok` or `no`.
pub fn good(word: &str) -> Option<bool>
    ensures { Reads (λ b. word.now ≡ good_name b) result }
{
    match word {
        "ok" => Some(true),
        "no" => Some(false),
        _ => None,
    }
}

/// Whether a link is inline.
pub fn inline(word: &str) -> Option<bool>
    ensures { Reads (λ b. word.now ≡ link_name b) result }
{
    match word {
        "inline" => Some(true),
        "queued" => Some(false),
        _ => None,
    }
}

/// Whether a power cut leaves all.
pub fn kept(word: &str) -> Option<bool>
    ensures { Reads (λ b. word.now ≡ kept_name b) result }
{
    match word {
        "keep" => Some(true),
        "drop" => Some(false),
        _ => None,
    }
}

/// Whether an entry is a directory.
pub fn entry_kind(word: &str) -> Option<bool>
    ensures { Reads (λ b. word.now ≡ entry_kind b) result }
{
    match word {
        "dir" => Some(true),
        "file" => Some(false),
        _ => None,
    }
}

/// Whether it is in sync at once: the word `insync`, or none.
pub fn in_sync(words: &[&str]) -> Option<bool>
    ensures { Reads (λ b. map (λ w. w.now) words.now ≡ flag_words (codes "insync") b) result }
{
    match words {
        [] => Some(false),
        ["insync"] => Some(true),
        _ => None,
    }
}

/// Whether the words begin with this one, and the words after it.
fn after_flag<'a>(words: &'a [&'a str], word: &str) -> (bool, &'a [&'a str])
    ensures parts { map (λ w. w.now) words.now ≡ flag_words word.now result.0 ++ map (λ w. w.now) result.1.now }
    ensures first { result.0 ≡ begins word.now (map (λ w. w.now) words.now) }
{
    match words {
        [first, rest @ ..] => {
            if *first == word {
                (true, rest)
            } else {
                (false, words)
            }
        }
        [] => (false, words),
    }
}

/// The modifiers of a policy: `validate`, `restart` and `auto`, in this order.
pub fn modifiers(words: &[&str]) -> Option<(bool, bool, bool)>
    ensures { Reads (λ m. map (λ w. w.now) words.now ≡ modifier_words m.0 m.1 m.2) result }
{
    let (validate, rest) = after_flag(words, "validate");
    let (restart, rest) = after_flag(rest, "restart");
    let (auto, rest) = after_flag(rest, "auto");
    if rest.is_empty() {
        Some((validate, restart, auto))
    } else {
        None
    }
}
