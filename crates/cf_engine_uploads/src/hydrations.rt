//! Files that are hydrated before their upload.

ghost use Rattle.std.specs.Prelude.{◌≡◌};
ghost use Rattle.cf_base.specs.declared.answers.Shown.TheVariants as shown;
ghost use Rattle.cf_engine_steps.specs.Answering.{Answers, Any, On};
ghost use Rattle.cf_engine_steps.specs.States.{whole};
ghost use Rattle.cf_engine_uploads.specs.Uploads.{refusal_of};
ghost use Rattle.cf_filter_steps.specs.Answering.{IsAt};
ghost use Rattle.cf_model.specs.Arrows.{seq};
ghost use Rattle.cf_model.specs.Callbacks.{calling};
ghost use Rattle.cf_model.specs.Items.{Item};
ghost use Rattle.cf_model.specs.Pushes.{after_hydrate, hydrate_first, hydrate_unless};
ghost use Rattle.cf_model.specs.Waits.{hydrate_item};
ghost use Rattle.std.specs.Prelude.{false};

use crate::item_reads::{check_placeholder, is_whole};
use cf_base::{CallError, Code, ItemId, Shown};
use cf_engine_host::EngineHost;
use cf_engine_steps::{Engine, finish_call, skip};
use cf_filter_calls::hydrate_file;
use cf_filter_steps::Steps;
use cf_remote::Remote;

// Why a call was refused.
fn refusal_of(shown: &Shown) -> Option<Code>
    ensures { result ≡ refusal_of shown.now }
{
    match shown {
        Shown::Refused(code) => Some(*code),
        _ => None,
    }
}

// The call, with its callbacks.
fn call_hydrate<S: EngineHost, R: Remote>(
    s: &mut S,
    e: &mut Engine<R>,
    id: ItemId,
) -> Result<Shown, CallError>
    ensures { (i : Item) → Answers (whole S.sense R.told) (On (IsAt id i)) (calling (hydrate_item i)) (s.old, e.old) result (s.new, e.new) }
{
    let shown = hydrate_file(s, id)?;
    finish_call(s, e, shown)
}

// A wait that is refused by a limit is a step that is left out.
fn after_refusal<S: EngineHost, R: Remote>(
    s: &mut S,
    e: &mut Engine<R>,
    code: Code,
) -> Result<(), CallError>
    ensures { Answers (whole S.sense R.told) Any (after_hydrate (shown.Refused code)) (s.old, e.old) result (s.new, e.new) }
{
    match code {
        Code::TooManyWaits => skip(s, e, code),
        Code::TooManyAsks => skip(s, e, code),
        Code::Exhausted => skip(s, e, code),
        _ => Ok(()),
    }
}

fn hydrate_item<S: EngineHost, R: Remote>(
    s: &mut S,
    e: &mut Engine<R>,
    id: ItemId,
) -> Result<(), CallError>
    ensures { (i : Item) → Answers (whole S.sense R.told) (On (IsAt id i)) (seq (calling (hydrate_item i)) after_hydrate) (s.old, e.old) result (s.new, e.new) }
{
    let shown = call_hydrate(s, e, id)?;
    let refused = refusal_of(&shown);
    drop(shown);
    match refused {
        Some(code) => after_refusal(s, e, code),
        None => Ok(()),
    }
}

// A wait for the whole of a placeholder.
fn hydrate<S: EngineHost, R: Remote>(
    s: &mut S,
    e: &mut Engine<R>,
    id: ItemId,
) -> Result<(), CallError>
    ensures { (i : Item) → Answers (whole S.sense R.told) (On (IsAt id i)) (hydrate_unless i.id false) (s.old, e.old) result (s.new, e.new) }
{
    check_placeholder(s, id)?;
    hydrate_item(s, e, id)
}

/// Waits for the whole of a file of which a byte is missing, where no such wait is live. One that is refused by a limit is left out, and
/// the callbacks that the wait makes are called.
pub(crate) fn hydrate_first<S: EngineHost, R: Remote>(
    s: &mut S,
    e: &mut Engine<R>,
    id: ItemId,
) -> Result<(), CallError>
    ensures { (i : Item) → Answers (whole S.sense R.told) (On (IsAt id i)) (hydrate_first i) (s.old, e.old) result (s.new, e.new) }
{
    if is_whole(s, id) {
        return Ok(());
    }
    if s.requests().hydrating(id) {
        return Ok(());
    }
    hydrate(s, e, id)
}
