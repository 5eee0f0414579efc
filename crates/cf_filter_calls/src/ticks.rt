//! Time that passes.

ghost use Rattle.cf_model.specs.Arrows.{each, reading};
ghost use Rattle.cf_model.specs.Waits.{expire, expired_keys, tick};
ghost use Rattle.cf_filter_steps.specs.Answering.{Answers, Any};

use cf_ask_rule::Act;
use cf_base::{CallError, Key, Shown};
use cf_filter_steps::{Steps, settle};

// An ask ends by time, where no earlier step ended it.
fn expire<S: Steps>(s: &mut S, key: Key) -> Result<(), CallError>
    ensures { Answers S.sense Any (expire key) s.old result s.new }
{
    match s.requests().ask(key) {
        Some(ask) => settle(s, ask.item, Act::Expires(key)),
        None => Ok(()),
    }
}

fn expire_all<S: Steps>(s: &mut S, keys: &[Key]) -> Result<(), CallError>
    ensures { Answers S.sense Any (each expire keys.now) s.old result s.new }
{
    for key in keys {
        expire(s, *key)?;
    }
    Ok(())
}

fn end_expired<S: Steps>(s: &mut S) -> Result<(), CallError>
    ensures { Answers S.sense Any (reading expired_keys (each expire)) s.old result s.new }
{
    let keys = s.requests().expired_keys()?;
    expire_all(s, &keys)
}

/// So many ticks pass. Each ask on which 60 have passed then ends by time, in order of key, and so do the waits that wait
/// for it.
pub fn tick<S: Steps>(s: &mut S, ticks: u32) -> Result<Shown, CallError>
    ensures { Answers S.sense Any (tick ticks) s.old result s.new }
{
    s.pass(ticks)?;
    end_expired(s)?;
    Ok(Shown::Done)
}
