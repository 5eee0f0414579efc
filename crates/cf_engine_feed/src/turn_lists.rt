//! The turns of all entries of a feed.

ghost use Rattle.std.specs.Prelude.{◌≡◌, ◌||◌, List, false, slice_get, ℕ};
ghost use Rattle.cf_engine_feed.specs.Indexed.{indexed};
ghost use Rattle.cf_engine_feed.specs.Indexes.{IsIndex};
ghost use Rattle.cf_engine_feed.specs.Turns.{comes_again, entries_at, fed, fed_of, planned, turn_at, turns_in};
ghost use Rattle.cf_engine_steps.specs.Answering.{Answers, Any};
ghost use Rattle.cf_engine_steps.specs.States.{whole};
ghost use Rattle.cf_base.specs.declared.messages.Entry.{Entry};
ghost use Rattle.cf_model.specs.Feeds.{all_turns, first_turn, second_turn, take_turn, turns};

use crate::entry_turns::do_turn;
use crate::feed_orders::order_of;
use crate::indexes::Targets;
use crate::plans::plan;
use crate::targets::fill;
use cf_base::{CallError, Entry, no_such_state};
use cf_engine_feed_plan::Turn;
use cf_engine_host::EngineHost;
use cf_engine_steps::Engine;
use cf_filter_steps::Steps;
use cf_remote::Remote;

// Whether the entry comes again after the live ones.
fn comes_again(turn: &Turn) -> bool
    ensures { result ≡ comes_again turn.now }
{
    match turn {
        Turn::Later => true,
        Turn::Nothing | Turn::Postponed | Turn::Do(_) => false,
    }
}

fn either(one: bool, other: bool) -> bool
    ensures { result ≡ (one || other) }
{
    one || other
}

// Does the first turn of the entry at the place as it was planned. Whether one was postponed so far.
fn do_planned<S: EngineHost, R: Remote>(
    s: &mut S,
    e: &mut Engine<R>,
    targets: &mut Targets,
    turn: &Turn,
    place: usize,
    postponed: bool,
    later: &mut Vec<usize>,
) -> Result<bool, CallError>
    ensures { (es : List Entry) → Answers (indexed (whole S.sense R.told)) Any (planned es turn.now place postponed later.old.items) ((s.old, e.old), targets.old) (fed_of es result later.new.items) ((s.new, e.new), targets.new) }
{
    if comes_again(turn) {
        later.push(place)?;
        return Ok(postponed);
    }
    let now = do_turn(s, e, targets, turn)?;
    Ok(either(postponed, now))
}

fn first_turn_at<S: EngineHost, R: Remote>(
    s: &mut S,
    e: &mut Engine<R>,
    targets: &mut Targets,
    entries: &[Entry],
    place: usize,
    postponed: bool,
    later: &mut Vec<usize>,
) -> Result<bool, CallError>
    ensures { Answers (indexed (whole S.sense R.told)) Any (turn_at first_turn (slice_get entries.now place) (fed entries.now postponed later.old.items)) ((s.old, e.old), targets.old) (fed_of entries.now result later.new.items) ((s.new, e.new), targets.new) }
{
    let Some(entry) = entries.get(place) else {
        return Err(no_such_state().into());
    };
    let turn = plan(s, targets, entry, false)?;
    let done = do_planned(s, e, targets, &turn, place, postponed, later);
    drop(turn);
    done
}

// The first turns of the entries at the places. Whether one was postponed; those that come again are put to `later`.
fn first_turns<S: EngineHost, R: Remote>(
    s: &mut S,
    e: &mut Engine<R>,
    targets: &mut Targets,
    entries: &[Entry],
    places: &[usize],
    later: &mut Vec<usize>,
) -> Result<bool, CallError>
    ensures { Answers (indexed (whole S.sense R.told)) Any (turns first_turn (entries_at entries.now places.now) (fed entries.now false later.old.items)) ((s.old, e.old), targets.old) (fed_of entries.now result later.new.items) ((s.new, e.new), targets.new) }
{
    let mut postponed = false;
    for place in places {
        let so_far = first_turn_at(s, e, targets, entries, *place, postponed, later)?;
        postponed = so_far;
    }
    Ok(postponed)
}

fn take_turn<S: EngineHost, R: Remote>(
    s: &mut S,
    e: &mut Engine<R>,
    targets: &mut Targets,
    entry: &Entry,
) -> Result<bool, CallError>
    ensures { Answers (indexed (whole S.sense R.told)) Any (take_turn entry.now) ((s.old, e.old), targets.old) result ((s.new, e.new), targets.new) }
{
    let turn = plan(s, targets, entry, true)?;
    let done = do_turn(s, e, targets, &turn);
    drop(turn);
    done
}

fn second_turn_at<S: EngineHost, R: Remote>(
    s: &mut S,
    e: &mut Engine<R>,
    targets: &mut Targets,
    entries: &[Entry],
    place: usize,
    postponed: bool,
) -> Result<bool, CallError>
    ensures { (later : List ℕ) → Answers (indexed (whole S.sense R.told)) Any (turn_at second_turn (slice_get entries.now place) (fed entries.now postponed later)) ((s.old, e.old), targets.old) (fed_of entries.now result later) ((s.new, e.new), targets.new) }
{
    let Some(entry) = entries.get(place) else {
        return Err(no_such_state().into());
    };
    let now = take_turn(s, e, targets, entry)?;
    Ok(either(postponed, now))
}

// The second turns of the entries at the places. Whether an entry was postponed, now or before.
fn second_turns<S: EngineHost, R: Remote>(
    s: &mut S,
    e: &mut Engine<R>,
    targets: &mut Targets,
    entries: &[Entry],
    places: &[usize],
    postponed: bool,
) -> Result<bool, CallError>
    ensures { (later : List ℕ) → Answers (indexed (whole S.sense R.told)) Any (turns second_turn (entries_at entries.now places.now) (fed entries.now postponed later)) ((s.old, e.old), targets.old) (fed_of entries.now result later) ((s.new, e.new), targets.new) }
{
    let mut postponed = postponed;
    for place in places {
        let so_far = second_turn_at(s, e, targets, entries, *place, postponed)?;
        postponed = so_far;
    }
    Ok(postponed)
}

fn turns_by<S: EngineHost, R: Remote>(
    s: &mut S,
    e: &mut Engine<R>,
    targets: &mut Targets,
    entries: &[Entry],
    places: &[usize],
) -> Result<bool, CallError>
    ensures { (later : List ℕ) × Answers (indexed (whole S.sense R.told)) Any (turns_in (entries_at entries.now places.now)) ((s.old, e.old), targets.old) (fed_of entries.now result later) ((s.new, e.new), targets.new) }
{
    let mut later = Vec::new(s.alloc());
    let postponed = first_turns(s, e, targets, entries, places, &mut later)?;
    let done = second_turns(s, e, targets, entries, later.as_slice(), postponed);
    drop(later);
    done
}

// Gives each entry its turn, with an index of none that is filled first. Whether one was postponed.
fn turns_with<S: EngineHost, R: Remote>(
    s: &mut S,
    e: &mut Engine<R>,
    targets: &mut Targets,
    entries: &[Entry],
) -> Result<bool, CallError>
    ensures { IsIndex targets.old (λ d. 0) → (later : List ℕ) × Answers (whole S.sense R.told) Any (all_turns entries.now) (s.old, e.old) (fed_of entries.now result later) (s.new, e.new) }
{
    fill(s.rows().as_slice(), targets)?;
    let places = order_of(s.alloc(), targets, s.rows(), entries)?;
    let done = turns_by(s, e, targets, entries, places.as_slice());
    drop(places);
    done
}

/// Gives each entry its turn. Whether one was postponed. Without entries no row is looked at.
pub(crate) fn all_turns<S: EngineHost, R: Remote>(
    s: &mut S,
    e: &mut Engine<R>,
    entries: &[Entry],
) -> Result<bool, CallError>
    ensures { (later : List ℕ) × Answers (whole S.sense R.told) Any (all_turns entries.now) (s.old, e.old) (fed_of entries.now result later) (s.new, e.new) }
{
    if entries.is_empty() {
        return Ok(false);
    }
    let mut targets = Targets::new(s.alloc());
    let done = turns_with(s, e, &mut targets, entries);
    drop(targets);
    done
}
