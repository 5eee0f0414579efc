//! Passes until one has nothing more to do.

ghost use Rattle.std.specs.Prelude.{◌≡◌, ◌+◌, ◌*◌, ◌||◌, ◌&&◌, ◌==◌, IfOk, min, nat_le, not, unwrap_or};
ghost use Rattle.cf_engine_passes.specs.Syncs.{drained_and_counted, one_pass, synced};
ghost use Rattle.cf_engine_steps.specs.Answering.{Answers, Any};
ghost use Rattle.cf_engine_steps.specs.States.{whole};
ghost use Rattle.cf_model.specs.Numbers.{most};
ghost use Rattle.cf_model.specs.Passes.{pass_anew, passes, sync, sync_now, sync_passes};

use crate::deliveries::show_skips;
use crate::passes::pass;
use crate::unsettled::{show_unsettled, things};
use cf_base::{CallError, Code, OutOfMemory, Shown, no_such_state};
use cf_engine_host::EngineHost;
use cf_engine_steps::{Engine, drain, is_inline};
use cf_filter_steps::Steps;
use cf_remote::Remote;

const MOST_CLOCKS: u64 = 100_000;

// 16 passes for each item and tombstone, for each clock of the first feed up to 100,000, and for 4 more. No volume has so many that
// their number passes 2^64.
fn most_passes(things: u64, first_clock: Option<u64>) -> Result<u64, OutOfMemory>
    ensures { IfOk result (λ n. n ≡ 16 * (things + min 100000 (unwrap_or first_clock 0) + 4)) }
{
    let clocks = first_clock.unwrap_or(0).min(MOST_CLOCKS);
    let Some(turns) = things.checked_add(clocks + 4) else {
        return Err(no_such_state());
    };
    match turns.checked_mul(16) {
        Some(passes) => Ok(passes),
        None => Err(no_such_state()),
    }
}

// Whether no pass comes after the one that began at this count of changes, with so many made before it.
fn is_last<R: Remote>(
    e: &Engine<R>,
    began: u64,
    ended: u64,
    things: u64,
    made: u32,
) -> Result<bool, OutOfMemory>
    ensures { IfOk result (λ b. b ≡ (((began == ended) && not e.now.took_done) || nat_le (16 * (things + min 100000 (unwrap_or e.now.first_clock 0) + 4)) (made + 1))) }
{
    if began == ended && !e.took_done() {
        return Ok(true);
    }
    let most = most_passes(things, e.first_clock())?;
    Ok(most <= made as u64 + 1)
}

// A pass of which it is known whether a Done was taken in it.
fn pass_anew<S: EngineHost, R: Remote>(s: &mut S, e: &mut Engine<R>) -> Result<(), CallError>
    ensures { Answers (whole S.sense R.told) Any pass_anew (s.old, e.old) result (s.new, e.new) }
{
    e.without_done();
    pass(s, e)
}

// One pass, and whether it is the last.
fn one_pass<S: EngineHost, R: Remote>(
    s: &mut S,
    e: &mut Engine<R>,
    things: u64,
    made: u32,
) -> Result<bool, CallError>
    ensures { Answers (whole S.sense R.told) Any (one_pass things made) (s.old, e.old) result (s.new, e.new) }
{
    let began = s.count();
    pass_anew(s, e)?;
    let ended = s.count();
    let last = is_last(e, began, ended, things, made)?;
    Ok(last)
}

// At most 2^32 - 1 passes.
fn passes<S: EngineHost, R: Remote>(
    s: &mut S,
    e: &mut Engine<R>,
    things: u64,
) -> Result<(), CallError>
    ensures { Answers (whole S.sense R.told) Any (passes most things 0) (s.old, e.old) result (s.new, e.new) }
{
    for made in 0..u32::MAX {
        if one_pass(s, e, things, made)? {
            return Ok(());
        }
    }
    Ok(())
}

fn sync_passes<S: EngineHost, R: Remote>(s: &mut S, e: &mut Engine<R>) -> Result<(), CallError>
    ensures { Answers (whole S.sense R.told) Any sync_passes (s.old, e.old) result (s.new, e.new) }
{
    if !is_inline(s, e) {
        return pass(s, e);
    }
    let things = things(s, e)?;
    passes(s, e, things)
}

fn drained_and_counted<S: EngineHost, R: Remote>(
    s: &mut S,
    e: &mut Engine<R>,
) -> Result<Shown, CallError>
    ensures { Answers (whole S.sense R.told) Any drained_and_counted (s.old, e.old) result (s.new, e.new) }
{
    drain(s, e)?;
    show_unsettled(s, e)
}

fn synced<S: EngineHost, R: Remote>(s: &mut S, e: &mut Engine<R>) -> Result<Shown, CallError>
    ensures { Answers (whole S.sense R.told) Any synced (s.old, e.old) result (s.new, e.new) }
{
    sync_passes(s, e)?;
    drained_and_counted(s, e)
}

fn sync_now<S: EngineHost, R: Remote>(s: &mut S, e: &mut Engine<R>) -> Result<Shown, CallError>
    ensures { Answers (whole S.sense R.told) Any sync_now (s.old, e.old) result (s.new, e.new) }
{
    show_skips(s, e)?;
    synced(s, e)
}

/// Passes under an inline link until one makes no change and takes no Done, or 16 are made for each item and tombstone, for each clock of
/// the first feed up to 100,000, and for 4 more; one pass under a queued link. Then what waits is called back. Gives how many items and
/// tombstones are left to settle: the tombstones, and the items that are neither excluded, in use nor in sync. It is refused as
/// ProviderDown without a provider, and then nothing is changed. A step of it that is left out has a line. A stop of the device leaves
/// the step begun in which it stopped. A last pass with nothing to do takes time by the items.
pub fn sync<S: EngineHost, R: Remote>(s: &mut S, e: &mut Engine<R>) -> Result<Shown, CallError>
    ensures { Answers (whole S.sense R.told) Any sync (s.old, e.old) result (s.new, e.new) }
{
    if s.is_connected() {
        sync_now(s, e)
    } else {
        Ok(Shown::Refused(Code::ProviderDown))
    }
}
