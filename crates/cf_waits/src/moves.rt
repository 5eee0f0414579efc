//! What a step tells.
ghost use Rattle.std.specs.Prelude.{◌≡◌, IfOk, map, length, ◌+◌, ◌≤◌};
ghost use Rattle.cf_base.specs.declared.limits.TheConstants.{MOST_NUMBER};
ghost use Rattle.cf_model.specs.Asks.{with_keys};

use cf_ask_rule::{LiveAsk, LiveWait, Wait};
use cf_base::{Ask, Cause, Key, OutOfMemory, Sequence, WaitId};
use std::alloc::Global;

/// What a step tells, in this order.
#[derive(Drop)]
pub struct Moves {
    /// The background wait that began beside the call's own.
    pub background: Option<WaitId>,
    /// The waits that ended, and why, in order of wait.
    pub ended: Sequence<(Wait, Cause)>,
    /// The asks that were cancelled, in order of key.
    pub cancelled: Sequence<Key>,
    /// The asks that were made.
    pub asks: Sequence<Ask>,
}

/// The waits that ended, as they are told.
pub(crate) fn told(
    alloc: Global,
    ended: &[(LiveWait, Cause)],
) -> Result<Vec<(Wait, Cause)>, OutOfMemory>
    ensures { IfOk result (λ v. v.items ≡ ended.now) }
{
    let mut out = Vec::new(alloc);
    for e in ended {
        // Each wait that is kept has a number that fits.
        let Some(wait) = e.0.told() else {
            return Err(OutOfMemory);
        };
        out.push((wait, e.1))?;
    }
    Ok(out)
}

/// The public part of asks.
pub(crate) fn public_of(alloc: Global, asks: &[LiveAsk]) -> Result<Vec<Ask>, OutOfMemory>
    ensures { IfOk result (λ v. v.items ≡ map (λ a. a.ask) asks.now) }
{
    Ok(asks.iter().map(|a| a.ask()).collect(alloc)?)
}

/// The asks under the next keys of the epoch.
pub(crate) fn with_keys(
    alloc: Global,
    epoch: u32,
    key_count: u64,
    made: &[LiveAsk],
) -> Result<Vec<LiveAsk>, OutOfMemory>
    requires { key_count + length made.now ≤ MOST_NUMBER }
    ensures { IfOk result (λ v. v.items ≡ with_keys epoch key_count made.now) }
{
    let mut out = Vec::new(alloc);
    let mut number = key_count;
    for a in made {
        number += 1;
        let key = Key {
            epoch,
            number: number as u32,
        };
        out.push(a.keyed(key)?)?;
    }
    Ok(out)
}
