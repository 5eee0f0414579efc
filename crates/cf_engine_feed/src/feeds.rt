//! A feed's reply that is taken.

ghost use Rattle.cf_engine_steps.specs.Answering.{Answers, Any};
ghost use Rattle.cf_engine_steps.specs.States.{whole};
ghost use Rattle.cf_model.specs.Feeds.{apply_entries, apply_feed};

use crate::feed_ends::end_feed;
use crate::turn_lists::all_turns;
use cf_base::{CallError, Entry};
use cf_engine_host::EngineHost;
use cf_engine_steps::Engine;
use cf_remote::Remote;

fn apply_entries<S: EngineHost, R: Remote>(
    s: &mut S,
    e: &mut Engine<R>,
    clock: u64,
    entries: &[Entry],
) -> Result<(), CallError>
    ensures { Answers (whole S.sense R.told) Any (apply_entries clock entries.now) (s.old, e.old) result (s.new, e.new) }
{
    let skips = e.skips();
    let postponed = all_turns(s, e, entries)?;
    end_feed(s, e, clock, skips, postponed)
}

/// Applies a feed's reply that is taken, with this clock: it closes the round, so that a later reply to the same request counts no more.
/// Each entry has its turn: dead ones first, the deepest local item first, then the live ones as they came, then dead directories that
/// were not empty. Then nothing is held back any more, and the cursor becomes the clock where no entry was postponed, no step was left
/// out, and no directory's entries are asked for. Beside what its steps take, it takes time as the entries and the items times the
/// logarithm of the items, and none without entries; the rows are walked for an item of the remote that several local items are.
///
/// A step that finds no room is left out, and the later steps of its entry with it. An entry of its own parent, which no reply that fits
/// has, and an identity that no engine gave are answered as out of memory. A stop of the device leaves the step begun in which it stopped.
/// The link and the remote stay as they are.
pub fn apply_feed<S: EngineHost, R: Remote>(
    s: &mut S,
    e: &mut Engine<R>,
    clock: u64,
    entries: &[Entry],
) -> Result<(), CallError>
    ensures { Answers (whole S.sense R.told) Any (apply_feed clock entries.now) (s.old, e.old) result (s.new, e.new) }
{
    e.close_round();
    apply_entries(s, e, clock, entries)
}
