//! The end of a feed.

ghost use Rattle.std.specs.Prelude.{◌≡◌, ◌&&◌, not};
ghost use Rattle.cf_engine_feed.specs.Ends.{end_cursor, end_feed_by, is_whole_by};
ghost use Rattle.cf_engine_steps.specs.Answering.{Answers, Any, Reads};
ghost use Rattle.cf_engine_steps.specs.States.{whole};
ghost use Rattle.cf_model.specs.Arrows.{seq};
ghost use Rattle.cf_model.specs.PushReplies.{whatever};
ghost use Rattle.cf_model.specs.Skips.{try_cursor};

use cf_base::CallError;
use cf_engine_host::EngineHost;
use cf_engine_steps::{Engine, try_cursor};
use cf_filter_steps::Steps;
use cf_remote::Remote;

fn is_all(postponed: bool, same: bool, listing: bool) -> bool
    ensures { result ≡ (not postponed && same && not listing) }
{
    !postponed && same && !listing
}

// Whether no entry was postponed, no step was left out since there were `skips` of them, and no directory's entries are asked for.
fn is_whole<S: EngineHost, R: Remote>(s: &S, e: &Engine<R>, skips: u64, postponed: bool) -> bool
    ensures { Reads (whole S.sense R.told) Any (is_whole_by skips postponed) (s.now, e.now) result }
{
    let same = e.skips() == skips;
    let listing = s.requests().list_live();
    is_all(postponed, same, listing)
}

#[tactic(auto, using(cf_engine_steps::proofs::Laws::fails_first, cf_engine_steps::proofs::Laws::goes_any, cf_engine_steps::proofs::Laws::returned))]
fn put_cursor<S: EngineHost, R: Remote>(
    s: &mut S,
    e: &mut Engine<R>,
    clock: u64,
) -> Result<(), CallError>
    ensures { Answers (whole S.sense R.told) Any (seq (try_cursor clock) whatever) (s.old, e.old) result (s.new, e.new) }
{
    try_cursor(s, e, clock)?;
    Ok(())
}

// The cursor becomes the clock, where the feed was applied whole.
fn move_cursor<S: EngineHost, R: Remote>(
    s: &mut S,
    e: &mut Engine<R>,
    clock: u64,
    skips: u64,
    postponed: bool,
) -> Result<(), CallError>
    ensures { Answers (whole S.sense R.told) Any (end_cursor clock skips postponed) (s.old, e.old) result (s.new, e.new) }
{
    if is_whole(s, e, skips, postponed) {
        put_cursor(s, e, clock)
    } else {
        Ok(())
    }
}

/// Nothing is held back any more, the clock is the first one of the event where none was before, and the cursor becomes the clock where
/// no entry was postponed, no step was left out since there were `skips` of them, and no directory's entries are asked for.
pub(crate) fn end_feed<S: EngineHost, R: Remote>(
    s: &mut S,
    e: &mut Engine<R>,
    clock: u64,
    skips: u64,
    postponed: bool,
) -> Result<(), CallError>
    ensures { Answers (whole S.sense R.told) Any (end_feed_by clock skips postponed) (s.old, e.old) result (s.new, e.new) }
{
    e.release_all();
    e.see_clock(clock);
    move_cursor(s, e, clock, skips, postponed)
}
