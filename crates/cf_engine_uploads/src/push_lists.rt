//! The tombstones and items of a pass, each at its turn.

ghost use Rattle.std.specs.Prelude.{IfOk, map};
ghost use Rattle.cf_engine_queue.specs.Books.{tombstone_value};
ghost use Rattle.cf_engine_steps.specs.Answering.{Answers, Any};
ghost use Rattle.cf_engine_steps.specs.States.{whole};
ghost use Rattle.cf_model.specs.Arrows.{each};
ghost use Rattle.cf_engine_uploads.specs.Turns.{IsDone, push_one, push_with};
ghost use Rattle.cf_model.specs.Pushes.{push_all, push_lists, push_turn};

use crate::removals::push_tombstone;
use crate::senders::Sender;
use crate::turns::{is_idle, next_turn, take_turn};
use cf_base::{CallError, ItemId, OutOfMemory};
use cf_engine_host::EngineHost;
use cf_engine_queue::Tombstone;
use cf_engine_steps::{Engine, queue};
use cf_filter_steps::Steps;
use cf_remote::Remote;
use cf_table::ROOT;
use cf_tree::tree_of;

fn push_tombstones<S: EngineHost, R: Remote, T: Sender>(
    s: &mut S,
    e: &mut Engine<R>,
    sender: &T,
    tombstones: &[Tombstone],
) -> Result<(), CallError>
    ensures { Answers (whole S.sense R.told) Any (each push_one tombstones.now) (s.old, e.old) result (s.new, e.new) }
{
    for one in tombstones {
        push_tombstone(s, e, sender, one)?;
    }
    Ok(())
}

fn push_items<S: EngineHost, R: Remote, T: Sender>(
    s: &mut S,
    e: &mut Engine<R>,
    sender: &T,
    ids: &[ItemId],
) -> Result<(), CallError>
    ensures { Answers (whole S.sense R.told) Any (each push_turn ids.now) (s.old, e.old) result (s.new, e.new) }
{
    let mut from = 0;
    while let Some(turn) = next_turn(s, e, ids, from)? {
        take_turn(s, e, sender, ids[turn.place], turn.course)?;
        from = turn.place + 1;
    }
    Ok(())
}

fn push_lists<S: EngineHost, R: Remote, T: Sender>(
    s: &mut S,
    e: &mut Engine<R>,
    sender: &T,
    tombstones: &[Tombstone],
    ids: &[ItemId],
) -> Result<(), CallError>
    ensures { Answers (whole S.sense R.told) Any (push_lists (map tombstone_value tombstones.now) ids.now) (s.old, e.old) result (s.new, e.new) }
{
    push_tombstones(s, e, sender, tombstones)?;
    push_items(s, e, sender, ids)
}

// With the items as they are now.
fn push_now<S: EngineHost, R: Remote, T: Sender>(
    s: &mut S,
    e: &mut Engine<R>,
    sender: &T,
    tombstones: &[Tombstone],
) -> Result<(), CallError>
    ensures { Answers (whole S.sense R.told) Any (push_with (map tombstone_value tombstones.now)) (s.old, e.old) result (s.new, e.new) }
{
    let ids = tree_of(s.alloc(), s.rows(), ROOT)?;
    let done = push_lists(s, e, sender, tombstones, ids.as_slice());
    drop(ids);
    done
}

// Whether there is no tombstone, and no item has anything to do.
fn is_done<S: EngineHost, R: Remote>(
    s: &S,
    e: &Engine<R>,
    tombstones: &[Tombstone],
) -> Result<bool, OutOfMemory>
    ensures { IfOk result (IsDone (whole S.sense R.told) tombstones.now (s.now, e.now)) }
{
    if tombstones.is_empty() {
        is_idle(s, e)
    } else {
        Ok(false)
    }
}

// Where nothing has anything to do, the order of the items is not asked.
fn push_with<S: EngineHost, R: Remote, T: Sender>(
    s: &mut S,
    e: &mut Engine<R>,
    sender: &T,
    tombstones: &[Tombstone],
) -> Result<(), CallError>
    ensures { Answers (whole S.sense R.told) Any (push_with (map tombstone_value tombstones.now)) (s.old, e.old) result (s.new, e.new) }
{
    let done = is_done(s, e, tombstones)?;
    if done {
        Ok(())
    } else {
        push_now(s, e, sender, tombstones)
    }
}

/// Uploads what this device has and the remote lacks. First each tombstone, by number, then each item, by depth and then by id, has its
/// turn, as they are when this begins; each is judged as it is at its turn. A new item becomes a placeholder and is made there, one that
/// stands at another path than the one seen is moved there, and local writes are put; what differs in nothing is marked. A file is
/// hydrated first, and uploaded where nothing is missing then. Left out are the root, an item that is excluded, held back until a feed, or
/// on its way, and one whose parent is no item of the remote. Each upload is recorded, durable, and then sent by the sender.
///
/// A step that finds no room, no token or no wait is left out. An identity that no engine gave is out of memory, and so is a file to
/// wait for that is no placeholder. A stop of the device leaves the step begun in which it stopped; where it stops the read of the
/// bytes, no token is drawn.
pub fn push_all<S: EngineHost, R: Remote, T: Sender>(
    s: &mut S,
    e: &mut Engine<R>,
    sender: &T,
) -> Result<(), CallError>
    ensures { Answers (whole S.sense R.told) Any push_all (s.old, e.old) result (s.new, e.new) }
{
    let queue = queue(s)?;
    let done = push_with(s, e, sender, queue.tombstones());
    drop(queue);
    done
}
