//! Files that are dehydrated to make room.

ghost use Rattle.cf_engine_space.specs.Spaces.{allowed, carried_out, dehydrated, freed};
ghost use Rattle.cf_engine_steps.specs.Answering.{Answers, Any, On};
ghost use Rattle.cf_engine_steps.specs.States.{whole};
ghost use Rattle.cf_filter_steps.specs.Answering.{IsAt};
ghost use Rattle.cf_model.specs.Arrows.{each};
ghost use Rattle.cf_model.specs.Callbacks.{calling};
ghost use Rattle.cf_model.specs.Dehydration.{dehydrate_range};
ghost use Rattle.cf_model.specs.Items.{Item};
ghost use Rattle.cf_model.specs.Space.{dehydrate_whole, free_all, show_freed, space};
ghost use Rattle.std.specs.Prelude.{None};

use crate::number_limits::lacks_numbers;
use crate::plans::plan;
use cf_base::{CallError, Code, ItemId, Shown};
use cf_engine_host::EngineHost;
use cf_engine_steps::{Engine, finish_call};
use cf_filter_calls::dehydrate_range;
use cf_filter_steps::Steps;
use cf_remote::Remote;

// The call on the whole file, with its callbacks.
fn call_dehydrate<S: EngineHost, R: Remote>(
    s: &mut S,
    e: &mut Engine<R>,
    id: ItemId,
) -> Result<Shown, CallError>
    ensures { (i : Item) → Answers (whole S.sense R.told) (On (IsAt id i)) (calling (dehydrate_range None i)) (s.old, e.old) result (s.new, e.new) }
{
    let shown = dehydrate_range(s, id, None)?;
    finish_call(s, e, shown)
}

// Whatever it is answered.
fn dehydrate<S: EngineHost, R: Remote>(
    s: &mut S,
    e: &mut Engine<R>,
    id: ItemId,
) -> Result<(), CallError>
    ensures { (i : Item) → Answers (whole S.sense R.told) (On (IsAt id i)) (dehydrated i) (s.old, e.old) result (s.new, e.new) }
{
    let shown = call_dehydrate(s, e, id)?;
    drop(shown);
    Ok(())
}

fn dehydrate_whole<S: EngineHost, R: Remote>(
    s: &mut S,
    e: &mut Engine<R>,
    id: ItemId,
) -> Result<(), CallError>
    ensures { Answers (whole S.sense R.told) Any (dehydrate_whole id) (s.old, e.old) result (s.new, e.new) }
{
    let Some(_row) = s.rows().get(id) else {
        return Ok(());
    };
    dehydrate(s, e, id)
}

fn dehydrate_each<S: EngineHost, R: Remote>(
    s: &mut S,
    e: &mut Engine<R>,
    ids: &[ItemId],
) -> Result<(), CallError>
    ensures { Answers (whole S.sense R.told) Any (each dehydrate_whole ids.now) (s.old, e.old) result (s.new, e.new) }
{
    for id in ids {
        dehydrate_whole(s, e, *id)?;
    }
    Ok(())
}

// By how many blocks the used ones fell.
fn show_freed<S: EngineHost, R: Remote>(
    s: &mut S,
    e: &mut Engine<R>,
    before: u32,
) -> Result<Shown, CallError>
    ensures { Answers (whole S.sense R.told) Any (show_freed before) (s.old, e.old) result (s.new, e.new) }
{
    let _ = &e;
    let blocks = s.used_blocks();
    Ok(Shown::Freed(before.saturating_sub(blocks.0)))
}

fn free_all<S: EngineHost, R: Remote>(
    s: &mut S,
    e: &mut Engine<R>,
    before: u32,
    ids: &[ItemId],
) -> Result<Shown, CallError>
    ensures { Answers (whole S.sense R.told) Any (free_all before ids.now) (s.old, e.old) result (s.new, e.new) }
{
    dehydrate_each(s, e, ids)?;
    show_freed(s, e, before)
}

fn freed<S: EngineHost, R: Remote>(
    s: &mut S,
    e: &mut Engine<R>,
    ids: &[ItemId],
) -> Result<Shown, CallError>
    ensures { Answers (whole S.sense R.told) Any (freed ids.now) (s.old, e.old) result (s.new, e.new) }
{
    let blocks = s.used_blocks();
    free_all(s, e, blocks.0, ids)
}

// The plan, where each of its files finds its numbers.
fn carried_out<S: EngineHost, R: Remote>(
    s: &mut S,
    e: &mut Engine<R>,
    ids: &[ItemId],
) -> Result<Shown, CallError>
    ensures { Answers (whole S.sense R.told) Any (carried_out ids.now) (s.old, e.old) result (s.new, e.new) }
{
    if lacks_numbers(s, ids.len() as u64)? {
        return Ok(Shown::Refused(Code::Exhausted));
    }
    freed(s, e, ids)
}

// Under a policy that allows it.
fn allowed<S: EngineHost, R: Remote>(
    s: &mut S,
    e: &mut Engine<R>,
    blocks: u32,
) -> Result<Shown, CallError>
    ensures { Answers (whole S.sense R.told) Any (allowed blocks) (s.old, e.old) result (s.new, e.new) }
{
    let ids = plan(s, blocks)?;
    let done = carried_out(s, e, &ids);
    drop(ids);
    done
}

/// Dehydrates files until at most so many blocks of 4,096 bytes are used, or none is left that may be. A file is taken where a byte of it
/// is here and the verdict on the whole of it allows it: those whose last access is longest ago first, and of one clock those with the
/// least id. Each is dehydrated as by a call on the whole file, whose callbacks are called; one whose wait goes on, or that is refused,
/// stays as it is and the others go on. Gives by how many blocks the used ones fell. Refused as PolicyDenied where the policy does not allow
/// it, and as Exhausted where not each file finds a place, and with a provider also a key and the number of a wait; then nothing is
/// changed. A stop of the device leaves the step begun in which it stopped.
pub fn space<S: EngineHost, R: Remote>(
    s: &mut S,
    e: &mut Engine<R>,
    blocks: u32,
) -> Result<Shown, CallError>
    ensures { Answers (whole S.sense R.told) Any (space blocks) (s.old, e.old) result (s.new, e.new) }
{
    if !s.policy().auto {
        return Ok(Shown::Refused(Code::PolicyDenied));
    }
    allowed(s, e, blocks)
}
