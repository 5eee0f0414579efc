//! Uploads of removals.

ghost use Rattle.std.specs.Prelude.{◌≡◌, ◌==◌, ◌||◌, IfOk, not, option_map};
ghost use Rattle.cf_engine_queue.specs.Books.{tombstone_value};
ghost use Rattle.cf_engine_steps.specs.Answering.{Answers, Any};
ghost use Rattle.cf_engine_steps.specs.States.{whole};
ghost use Rattle.cf_engine_uploads.specs.Removals.{DraftsRemoval, IsTombstoneLeftOut};
ghost use Rattle.cf_model.specs.Pushes.{push_removal, push_tombstone};
ghost use Rattle.cf_model.specs.Words.{says};

use crate::entries::Draft;
use crate::senders::Sender;
use crate::uploads::push_draft;
use cf_base::{Blob, CallError, Code, ItemId, OutOfMemory, Rid, Token};
use cf_engine_host::EngineHost;
use cf_engine_queue::{Action, QueueEntry, Tombstone};
use cf_engine_steps::{Engine, NO_RID, has_target_entry, next_token, skip, tombstone};
use cf_remote::Remote;
use std::alloc::Global;

/// No item.
const NO_ITEM: ItemId = ItemId(0);

fn is_of(found: &Option<Tombstone>, rid: Rid) -> bool
    ensures { result ≡ says (λ u. u.rid.0 == rid.0) (option_map tombstone_value found.now) }
{
    match found {
        Some(tombstone) => tombstone.rid.0 == rid.0,
        None => false,
    }
}

fn any_of(there: bool, sent: bool, held: bool) -> bool
    ensures { result ≡ (not there || sent || held) }
{
    !there || sent || held
}

// Whether it is gone, an upload to its item of the remote is on its way, or it is held back until a feed.
fn is_left_out<S: EngineHost, R: Remote>(
    s: &S,
    e: &Engine<R>,
    one: &Tombstone,
) -> Result<bool, OutOfMemory>
    ensures { IfOk result (IsTombstoneLeftOut (whole S.sense R.told) (tombstone_value one.now) (s.now, e.now)) }
{
    let found = tombstone(s, one.number)?;
    let there = is_of(&found, one.rid);
    let sent = has_target_entry(s, one.rid);
    let held = e.volatile().holds_tombstone(one.number);
    Ok(any_of(there, sent, held))
}

fn draft_removal(alloc: Global, token: Token, one: &Tombstone) -> Draft
    ensures { DraftsRemoval token (tombstone_value one.now) result }
{
    Draft {
        entry: QueueEntry {
            token,
            item: NO_ITEM,
            action: Action::Remove,
            number: one.number,
            rid: one.rid,
            parent: NO_RID,
            name: Blob::from_vec(Vec::new(alloc)),
        },
        expect: one.version,
    }
}

fn push_removal<S: EngineHost, R: Remote, T: Sender>(
    s: &mut S,
    e: &mut Engine<R>,
    sender: &T,
    one: &Tombstone,
) -> Result<(), CallError>
    ensures { Answers (whole S.sense R.told) Any (push_removal (tombstone_value one.now)) (s.old, e.old) result (s.new, e.new) }
{
    let Some(token) = next_token(s, e) else {
        return skip(s, e, Code::Exhausted);
    };
    let draft = draft_removal(s.alloc(), token, one);
    let none = Blob::from_vec(Vec::new(s.alloc()));
    let done = push_draft(s, e, sender, &draft, none);
    drop(draft);
    done
}

/// Uploads the removal of a tombstone, unless it is gone, an upload to its item of the remote is on its way, or it is held back until a
/// feed.
pub(crate) fn push_tombstone<S: EngineHost, R: Remote, T: Sender>(
    s: &mut S,
    e: &mut Engine<R>,
    sender: &T,
    one: &Tombstone,
) -> Result<(), CallError>
    ensures { Answers (whole S.sense R.told) Any (push_tombstone (tombstone_value one.now)) (s.old, e.old) result (s.new, e.new) }
{
    let left_out = is_left_out(s, e, one)?;
    if left_out {
        Ok(())
    } else {
        push_removal(s, e, sender, one)
    }
}
