//! The turn of an item.

ghost use Rattle.std.specs.Prelude.{◌≡◌, ◌||◌, ◌≤◌, length, IfOk};
ghost use Rattle.cf_engine_steps.specs.Answering.{Answers, Any};
ghost use Rattle.cf_engine_steps.specs.States.{whole};
ghost use Rattle.cf_engine_host.specs.BookSteps.{records_of};
ghost use Rattle.cf_engine_steps.specs.Marks.{StandsIf};
ghost use Rattle.cf_engine_uploads.specs.Turns.{AreIdle, IsCase, IsIdle, IsLeftOut, IsNext, PlansTurn, is_nothing};
ghost use Rattle.cf_filter_steps.specs.Answering.{Any as AnyFilter, Reads as FilterReads};
ghost use Rattle.cf_model.specs.Pushes.{push_turn};

use crate::exclusions::is_excluded;
use crate::items::{mark_item, upload, upload_new};
use crate::senders::Sender;
use crate::uploads::push_place;
use cf_base::{CallError, ItemId, OutOfMemory};
use cf_engine_host::EngineHost;
use cf_engine_queue::{Action, SeenPaths};
use cf_engine_steps::{Engine, NO_RID, has_entry, parent_target, target_of};
use cf_filter_steps::Steps;
use cf_remote::Remote;
use cf_table::{ROOT, Row};

/// What is done with an item at its turn.
#[derive(Clone, Copy)]
pub(crate) enum Course {
    /// It is gone or left out, or differs in nothing.
    Nothing,
    /// No item of the remote is it.
    New,
    /// It stands at another path than the one seen.
    Moved,
    /// It has local writes that the base has not taken in.
    Changed,
    /// It is to be marked.
    Settled,
}

/// An item that has something to do: its place among those that are asked, and what that is.
#[derive(Clone, Copy)]
pub(crate) struct Turn {
    pub(crate) place: usize,
    pub(crate) course: Course,
}

fn any_of(root: bool, sent: bool, held: bool, excluded: bool, astray: bool) -> bool
    ensures { result ≡ (root || sent || held || excluded || astray) }
{
    root || sent || held || excluded || astray
}

// Whether it is the root, an upload of it is on its way, it is held back until a feed, it is excluded, or no item of the remote is its
// parent.
fn is_left_out<S: EngineHost, R: Remote>(
    s: &S,
    e: &Engine<R>,
    row: &Row,
) -> Result<bool, OutOfMemory>
    ensures { IfOk result (IsLeftOut (whole S.sense R.told) row.now (s.now, e.now)) }
{
    let sent = has_entry(s, row.id);
    let parent = parent_target(s, row)?;
    let held = e.volatile().holds_item(row.id);
    let excluded = is_excluded(s.rows(), row.id);
    Ok(any_of(
        row.id.0 == ROOT.0,
        sent,
        held,
        excluded,
        parent.0 == NO_RID.0,
    ))
}

// Whether the item stands at the path at which it was seen.
fn stands_at_seen<S: EngineHost>(
    s: &S,
    seen: &mut SeenPaths<'_>,
    row: &Row,
) -> Result<bool, OutOfMemory>
    requires { FilterReads S.sense AnyFilter records_of s.now seen.old }
    ensures stands { IfOk result (StandsIf S.sense row.now s.now) }
    ensures stays { seen.new ≡ seen.old }
{
    let parent = parent_target(s, row)?;
    seen.is_at(row.id, parent, row.name.as_slice())
}

// The first case that holds.
fn case_of<S: EngineHost>(s: &S, seen: &mut SeenPaths<'_>, row: &Row) -> Result<Course, OutOfMemory>
    requires { FilterReads S.sense AnyFilter records_of s.now seen.old }
    ensures case { IfOk result (IsCase S.sense row.now s.now) }
    ensures stays { seen.new ≡ seen.old }
{
    let target = target_of(row)?;
    if target.0 == NO_RID.0 {
        return Ok(Course::New);
    }
    if !stands_at_seen(s, seen, row)? {
        return Ok(Course::Moved);
    }
    if row.dirty {
        return Ok(Course::Changed);
    }
    if row.in_sync {
        return Ok(Course::Nothing);
    }
    Ok(Course::Settled)
}

fn is_nothing(course: Course) -> bool
    ensures { result ≡ is_nothing course }
{
    match course {
        Course::Nothing => true,
        _ => false,
    }
}

// An item that differs in nothing is not looked at further: its uploads on their way, and what is above it, cost nothing.
fn course_of<S: EngineHost, R: Remote>(
    s: &S,
    e: &Engine<R>,
    seen: &mut SeenPaths<'_>,
    id: ItemId,
) -> Result<Course, OutOfMemory>
    requires { FilterReads S.sense AnyFilter records_of s.now seen.old }
    ensures plans { IfOk result (PlansTurn (whole S.sense R.told) id (s.now, e.now)) }
    ensures stays { seen.new ≡ seen.old }
{
    let Some(row) = s.rows().get(id) else {
        return Ok(Course::Nothing);
    };
    let course = case_of(s, seen, row)?;
    if is_nothing(course) {
        return Ok(Course::Nothing);
    }
    if is_left_out(s, e, row)? {
        return Ok(Course::Nothing);
    }
    Ok(course)
}

/// The first item from a place on that has something to do. The items before it have nothing to do, and neither has any where this is
/// none. A step for each, where they stand in order of id.
pub(crate) fn next_turn<S: EngineHost, R: Remote>(
    s: &S,
    e: &Engine<R>,
    ids: &[ItemId],
    from: usize,
) -> Result<Option<Turn>, OutOfMemory>
    requires { from ≤ length ids.now }
    ensures { IfOk result (IsNext (whole S.sense R.told) ids.now from (s.now, e.now)) }
{
    let mut seen = SeenPaths::new(s.records());
    for place in from..ids.len() {
        let course = course_of(s, e, &mut seen, ids[place])?;
        if !is_nothing(course) {
            return Ok(Some(Turn { place, course }));
        }
    }
    Ok(None)
}

fn are_idle<S: EngineHost, R: Remote>(
    s: &S,
    e: &Engine<R>,
    rows: &[Row],
) -> Result<bool, OutOfMemory>
    ensures { IfOk result (AreIdle (whole S.sense R.told) rows.now (s.now, e.now)) }
{
    let mut seen = SeenPaths::new(s.records());
    for row in rows {
        let course = course_of(s, e, &mut seen, row.id)?;
        if !is_nothing(course) {
            return Ok(false);
        }
    }
    Ok(true)
}

/// Whether no item has anything to do. A step for each, in order of id: where the items stand in the tree is not asked.
pub(crate) fn is_idle<S: EngineHost, R: Remote>(s: &S, e: &Engine<R>) -> Result<bool, OutOfMemory>
    ensures { IfOk result (IsIdle (whole S.sense R.told) (s.now, e.now)) }
{
    are_idle(s, e, s.rows().as_slice())
}

/// Does what an item needs to be in sync, as it is at its turn: an upload, or a mark.
pub(crate) fn take_turn<S: EngineHost, R: Remote, T: Sender>(
    s: &mut S,
    e: &mut Engine<R>,
    sender: &T,
    id: ItemId,
    course: Course,
) -> Result<(), CallError>
    requires { PlansTurn (whole S.sense R.told) id (s.old, e.old) course }
    ensures { Answers (whole S.sense R.told) Any (push_turn id) (s.old, e.old) result (s.new, e.new) }
{
    match course {
        Course::Nothing => Ok(()),
        Course::New => upload_new(s, e, sender, id),
        Course::Moved => push_place(s, e, sender, Action::Move, id),
        Course::Changed => upload(s, e, sender, id),
        Course::Settled => mark_item(s, e, id),
    }
}
