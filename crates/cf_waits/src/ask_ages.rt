//! How long asks have been live, from the ticks at which their time began.
ghost use Rattle.std.specs.Prelude.{◌≡◌, ◌-◌, ◌^◌, ◌≤◌, filter, find, map, nat_le, IfOk, option_copied};
ghost use Rattle.std.specs.List.{AllByRecursion};
ghost use Rattle.std.specs.Option.{option_map};
ghost use Rattle.cf_waits.specs.Books.{brought_forward};

use cf_ask_rule::LiveAsk;
use cf_base::{Key, OutOfMemory};
use std::alloc::Global;

// Ticks are counted anew, from the latest 60 on, after that many.
const LATE: u64 = 1 << 62;

/// How many ticks may be taken off the count. It stays 60 or more where any are.
pub(crate) fn base_of(tick: u64) -> u64
    ensures few { result ≤ tick - 60 }
    ensures rest { tick - result ≤ 2 ^ 62 }
{
    if tick < LATE { 0 } else { tick - 60 }
}

/// The keys of the asks whose time is 60 ticks or more, in order.
pub(crate) fn keys_of_age(
    alloc: Global,
    asks: &[LiveAsk],
    tick: u64,
) -> Result<Vec<Key>, OutOfMemory>
    ensures { IfOk result (λ keys. keys.items ≡ map (λ a. a.ask.key) (filter (λ a. nat_le 60 (tick - a.ticks)) asks.now)) }
{
    Ok(
        asks.iter()
            .filter(|a| tick.saturating_sub(a.ticks()) >= 60)
            .map(|a| a.ask().key)
            .collect(alloc)?,
    )
}

/// The least key of an ask whose time is at least this many ticks.
pub(crate) fn first_of_age(asks: &[LiveAsk], tick: u64, least: u64) -> Option<Key>
    ensures { result ≡ option_map (λ a. a.ask.key) (find (λ a. nat_le least (tick - a.ticks)) asks.now) }
{
    key_of(first_old(asks, tick, least))
}

fn first_old(asks: &[LiveAsk], tick: u64, least: u64) -> Option<&LiveAsk>
    ensures { option_copied result ≡ find (λ a. nat_le least (tick - a.ticks)) asks.now }
{
    asks.iter()
        .find(|a| tick.saturating_sub(a.ticks()) >= least)
}

fn key_of(ask: Option<&LiveAsk>) -> Option<Key>
    ensures { result ≡ option_map (λ a. a.ask.key) (option_copied ask.entry) }
{
    match ask {
        Some(a) => Some(a.ask().key),
        None => None,
    }
}

/// A tick that is not after any at which the time of an ask began. One that is known serves until an ask could be due.
pub(crate) fn oldest_of(asks: &[LiveAsk], known: u64, tick: u64) -> u64
    requires begun { AllByRecursion (λ a. known ≤ a.ticks) asks.now }
    requires known { known ≤ tick }
    ensures least { AllByRecursion (λ a. result ≤ a.ticks) asks.now }
    ensures now { result ≤ tick }
{
    if tick - known < 60 {
        known
    } else {
        least_of(asks, tick)
    }
}

fn least_of(asks: &[LiveAsk], tick: u64) -> u64
    ensures least { AllByRecursion (λ a. result ≤ a.ticks) asks.now }
    ensures now { result ≤ tick }
{
    let mut least = tick;
    for a in asks {
        least = least.min(a.ticks());
    }
    least
}

/// The times at which the asks began, as many ticks earlier.
pub(crate) fn bring_forward(asks: &mut Vec<LiveAsk>, base: u64)
    ensures items { asks.new.items ≡ map (brought_forward base) asks.old.items }
{
    if base > 0 {
        bring_all_forward(asks, base);
    }
}

fn bring_all_forward(asks: &mut Vec<LiveAsk>, base: u64)
    ensures items { asks.new.items ≡ map (brought_forward base) asks.old.items }
{
    for a in asks.iter_mut() {
        let ticks = a.ticks().saturating_sub(base);
        a.set_ticks(ticks);
    }
}
