//! Uploads of items.

ghost use Rattle.std.specs.Prelude.{◌≡◌, IfOk, not};
ghost use Rattle.cf_base.specs.declared.changes.Change.TheVariants as change;
ghost use Rattle.cf_engine_steps.specs.Answering.{Answers, Any, On};
ghost use Rattle.cf_engine_steps.specs.States.{whole};
ghost use Rattle.cf_filter_steps.specs.Answering.{IsAt};
ghost use Rattle.cf_model.specs.Arrows.{only_if, reading};
ghost use Rattle.cf_model.specs.Identities.{no_identity};
ghost use Rattle.cf_model.specs.Items.{Item};
ghost use Rattle.cf_model.specs.Pushes.{item_now, mark_item, upload, upload_new, upload_now};
ghost use Rattle.cf_model.specs.Skips.{try_change};

use crate::files::put_file;
use crate::item_reads::{is_directory, is_placeholder, is_there};
use crate::senders::Sender;
use crate::uploads::push_place;
use cf_base::{CallError, Change, Identity, ItemId, OutOfMemory};
use cf_engine_host::EngineHost;
use cf_engine_queue::Action;
use cf_engine_steps::{Engine, try_change, try_mark_now};
use cf_remote::Remote;
use std::alloc::Global;

/// Marks an item as in sync, where it may be.
#[tactic(auto, using(cf_engine_steps::proofs::Laws::fails_first, cf_engine_steps::proofs::Laws::goes_any, cf_engine_steps::proofs::Laws::returned))]
pub(crate) fn mark_item<S: EngineHost, R: Remote>(
    s: &mut S,
    e: &mut Engine<R>,
    id: ItemId,
) -> Result<(), CallError>
    ensures { Answers (whole S.sense R.told) Any (mark_item id) (s.old, e.old) result (s.new, e.new) }
{
    try_mark_now(s, e, id)?;
    Ok(())
}

/// Uploads an item: a directory as a new one, the bytes of a file.
pub(crate) fn upload<S: EngineHost, R: Remote, T: Sender>(
    s: &mut S,
    e: &mut Engine<R>,
    sender: &T,
    id: ItemId,
) -> Result<(), CallError>
    ensures { (i : Item) → Answers (whole S.sense R.told) (On (IsAt id i)) (upload i) (s.old, e.old) result (s.new, e.new) }
{
    if is_directory(s, id) {
        push_place(s, e, sender, Action::MakeDir, id)
    } else {
        put_file(s, e, sender, id)
    }
}

fn upload_now<S: EngineHost, R: Remote, T: Sender>(
    s: &mut S,
    e: &mut Engine<R>,
    sender: &T,
    id: ItemId,
) -> Result<(), CallError>
    ensures { Answers (whole S.sense R.told) Any (reading (item_now id) upload_now) (s.old, e.old) result (s.new, e.new) }
{
    if is_there(s, id) {
        upload(s, e, sender, id)
    } else {
        Ok(())
    }
}

fn no_identity(alloc: Global) -> Result<Identity, OutOfMemory>
    ensures { IfOk result (λ i. i ≡ no_identity) }
{
    Identity::new(alloc, &[0; 24])
}

fn convert<S: EngineHost, R: Remote>(
    s: &mut S,
    e: &mut Engine<R>,
    id: ItemId,
) -> Result<bool, CallError>
    ensures { Answers (whole S.sense R.told) Any (try_change (change.Convert id no_identity)) (s.old, e.old) result (s.new, e.new) }
{
    let identity = no_identity(s.alloc())?;
    let change = Change::Convert { item: id, identity };
    let done = try_change(s, e, &change);
    drop(change);
    done
}

// Makes the item a placeholder, if it is none. Whether it is one then.
fn try_convert<S: EngineHost, R: Remote>(
    s: &mut S,
    e: &mut Engine<R>,
    id: ItemId,
) -> Result<bool, CallError>
    ensures { (i : Item) → Answers (whole S.sense R.told) (On (IsAt id i)) (only_if (not i.placeholder) (try_change (change.Convert i.id no_identity))) (s.old, e.old) result (s.new, e.new) }
{
    if is_placeholder(s, id) {
        Ok(true)
    } else {
        convert(s, e, id)
    }
}

/// Uploads an item that no item of the remote is. One that is no placeholder becomes one first.
pub(crate) fn upload_new<S: EngineHost, R: Remote, T: Sender>(
    s: &mut S,
    e: &mut Engine<R>,
    sender: &T,
    id: ItemId,
) -> Result<(), CallError>
    ensures { (i : Item) → Answers (whole S.sense R.told) (On (IsAt id i)) (upload_new i) (s.old, e.old) result (s.new, e.new) }
{
    let done = try_convert(s, e, id)?;
    if done {
        upload_now(s, e, sender, id)
    } else {
        Ok(())
    }
}
