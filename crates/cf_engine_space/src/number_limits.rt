//! Whether each file of a plan finds its numbers.

ghost use Rattle.std.specs.Prelude.{IfOk};
ghost use Rattle.cf_filter_steps.specs.Answering.{Any, Reads};
ghost use Rattle.cf_engine_space.specs.Numbers.{lacks_asks, lacks_places};
ghost use Rattle.cf_model.specs.Space.{no_numbers};

use cf_base::OutOfMemory;
use cf_filter_steps::Steps;

// Whether so many more changes find no place in the epoch.
fn lacks_places<S: Steps>(s: &S, count: u64) -> Result<bool, OutOfMemory>
    ensures { IfOk result (λ b. Reads S.sense Any (lacks_places count) s.now b) }
{
    if count == 0 {
        let room = s.room(&[])?;
        return Ok(room.no_numbers);
    }
    match s.next_number() {
        Some(next) => Ok((u32::MAX - next.place) as u64 + 1 < count),
        None => Ok(true),
    }
}

// Whether so many more asks find no key, or so many waits no number.
fn lacks_asks<S: Steps>(s: &S, count: u64) -> bool
    ensures { Reads S.sense Any (lacks_asks count) s.now result }
{
    let requests = s.requests();
    let keys = requests.keys_left();
    let waits = requests.waits_left();
    (keys as u64) < count || (waits as u64) < count
}

/// Whether so many files do not find what each of them needs to be dehydrated: a place for its change, and with a provider also the key
/// of an ask and the number of a wait.
pub(crate) fn lacks_numbers<S: Steps>(s: &S, count: u64) -> Result<bool, OutOfMemory>
    ensures { IfOk result (λ b. Reads S.sense Any (no_numbers count) s.now b) }
{
    if lacks_places(s, count)? {
        return Ok(true);
    }
    if !s.is_connected() {
        return Ok(false);
    }
    Ok(lacks_asks(s, count))
}
