//! Asks in order of their keys. Each is found by a binary search.
ghost use Rattle.std.specs.Prelude.{◌≡◌, ◌≤◌, ◌==◌, ◌<◌, cond, filter, find, length, map, not, None, option_copied, Some, IsTrue};
ghost use Rattle.std.specs.List.{list_any};
ghost use Rattle.std.specs.Vec.{vec_capacity, vec_len};
ghost use Rattle.std.specs.Option.{option_map};
ghost use Rattle.cf_model.specs.Numbers.{same_key};
ghost use Rattle.cf_model.specs.Requests.{live_of};
ghost use Rattle.cf_model.specs.Words.{counting};
ghost use Rattle.cf_waits.specs.Books.{IsPlaceBy, ask_entry, at_number, if_key, is_list_ask, is_plain_ask, SetsLive};
ghost use Rattle.cf_waits.specs.Rising.{IsRising, ask_key};
ghost use Rattle.cf_waits.specs.Told.{owns_by};

use crate::entries::Entry;
use cf_ask_rule::{LiveAsk, WaitNumber, is_dehydrate, is_list, is_same_key};
use cf_base::{Ask, Key, Span};

/// Its entry in the index by item.
pub(crate) fn entry_of(a: &LiveAsk) -> Entry
    ensures { result ≡ ask_entry a.now }
{
    let ask = a.ask();
    Entry {
        item: ask.item,
        number: ask.key.number as u64,
    }
}

/// 1 where it counts for the limit.
pub(crate) fn plain_count(a: &LiveAsk) -> usize
    ensures { result ≡ cond (is_plain_ask a.now) 1 0 }
{
    if is_dehydrate(a.ask().kind) { 0 } else { 1 }
}

/// 1 where it is for the entries of a directory.
pub(crate) fn list_count(a: &LiveAsk) -> usize
    ensures { result ≡ cond (is_list_ask a.now) 1 0 }
{
    if is_list(a.ask().kind) { 1 } else { 0 }
}

fn place_of(asks: &[LiveAsk], number: u64) -> usize
    requires { IsRising ask_key asks.now }
    ensures { IsPlaceBy ask_key number asks.now result }
{
    asks.partition_point(|a| (a.ask().key.number as u64) < number)
}

/// The ask of a number of the epoch.
pub(crate) fn ask_at(asks: &[LiveAsk], number: u64) -> Option<&LiveAsk>
    requires { IsRising ask_key asks.now }
    ensures { option_copied result ≡ at_number ask_key number asks.now }
{
    ask_there(asks, place_of(asks, number), number)
}

/// How many asks have lesser numbers. A place at which the number may be is tried before the binary search.
pub(crate) fn place_from(asks: &[LiveAsk], place: usize, number: u64) -> usize
    requires { IsRising ask_key asks.now }
    ensures { IsPlaceBy ask_key number asks.now result }
{
    if is_at(asks, place, number) {
        return place;
    }
    place_of(asks, number)
}

fn is_at(asks: &[LiveAsk], place: usize, number: u64) -> bool
    requires { IsRising ask_key asks.now }
    ensures { IsTrue result → IsPlaceBy ask_key number asks.now place }
{
    if place >= asks.len() {
        return false;
    }
    asks[place].ask().key.number as u64 == number
}

/// The ask of a number of the epoch. So many asks have lesser numbers.
pub(crate) fn ask_there(asks: &[LiveAsk], place: usize, number: u64) -> Option<&LiveAsk>
    requires rising { IsRising ask_key asks.now }
    requires place { IsPlaceBy ask_key number asks.now place }
    ensures { option_copied result ≡ at_number ask_key number asks.now }
{
    if place == asks.len() {
        return None;
    }
    ask_if(&asks[place], number)
}

fn ask_if(a: &LiveAsk, number: u64) -> Option<&LiveAsk>
    ensures { option_copied result ≡ cond (a.now.ask.key.number == number) (Some a.now) None }
{
    if a.ask().key.number as u64 == number {
        Some(a)
    } else {
        None
    }
}

/// The live ask of a key.
pub(crate) fn find_ask(asks: &[LiveAsk], key: Key) -> Option<&LiveAsk>
    requires { IsRising ask_key asks.now }
    ensures { option_copied result ≡ live_of asks.now key }
{
    ask_by(ask_at(asks, key.number as u64), key)
}

fn ask_by(at: Option<&LiveAsk>, key: Key) -> Option<&LiveAsk>
    ensures { option_copied result ≡ if_key ask_key key (option_copied at.entry) }
{
    match at {
        Some(a) => if is_same_key(a.ask().key, key) {
            Some(a)
        } else {
            None
        },
        None => None,
    }
}

/// What a live ask asks, and the wait that it has.
pub(crate) fn told_of(ask: Option<&LiveAsk>) -> Option<(Ask, WaitNumber)>
    ensures { result ≡ option_map (λ a. (a.ask, a.wait)) (option_copied ask.entry) }
{
    match ask {
        Some(a) => Some((a.ask(), a.wait())),
        None => None,
    }
}

/// Whether a live ask owns each of the blocks.
pub(crate) fn owns_by(ask: Option<&LiveAsk>, blocks: Span) -> bool
    ensures { result ≡ owns_by (counting blocks.start blocks.len) (option_copied ask.entry) }
{
    match ask {
        Some(a) => a.has_all(blocks),
        None => false,
    }
}

/// Takes the ask of a key out, if there is one.
pub(crate) fn take_ask(asks: &mut Vec<LiveAsk>, key: Key) -> Option<LiveAsk>
    requires { IsRising ask_key asks.old.items }
    ensures found { result ≡ find (λ a. same_key key a.ask.key) asks.old.items }
    ensures left { asks.new.items ≡ filter (λ a. not (same_key key a.ask.key)) asks.old.items }
    ensures len { vec_len asks.new ≤ vec_len asks.old }
    ensures capacity { vec_capacity asks.new ≡ vec_capacity asks.old }
{
    let place = place_of(asks, key.number as u64);
    if place == asks.len() {
        return None;
    }
    if !is_same_key(key, asks[place].ask().key) {
        return None;
    }
    Some(asks.remove(place))
}

/// The live ask of the same key owns the blocks of this one from now on, with these ticks.
pub(crate) fn change_ask(asks: &mut Vec<LiveAsk>, from: LiveAsk, ticks: u64)
    requires { IsRising ask_key asks.old.items }
    ensures items { asks.new.items ≡ map (λ a. cond (same_key from.ask.key a.ask.key) (record a { owned = from.owned; ticks = ticks }) a) asks.old.items }
    ensures len { vec_len asks.new ≡ vec_len asks.old }
    ensures capacity { vec_capacity asks.new ≡ vec_capacity asks.old }
{
    let key = from.ask().key;
    let place = place_of(asks, key.number as u64);
    if place == asks.len() {
        return;
    }
    if is_same_key(key, asks[place].ask().key) {
        change_at(asks, place, from, ticks);
    }
}

fn change_at(asks: &mut Vec<LiveAsk>, place: usize, from: LiveAsk, ticks: u64)
    requires { place < length asks.old.items }
    ensures items { SetsLive place asks.old.items (λ a. record a { owned = from.owned; ticks = ticks }) asks.new.items }
    ensures len { vec_len asks.new ≡ vec_len asks.old }
    ensures capacity { vec_capacity asks.new ≡ vec_capacity asks.old }
{
    let a = &mut asks[place];
    a.take_blocks(from);
    a.set_ticks(ticks);
}

/// Whether a key is among those.
pub(crate) fn has_key(keys: &[Key], key: Key) -> bool
    ensures { result ≡ list_any (same_key key) keys.now }
{
    keys.iter().any(|k| is_same_key(key, *k))
}
