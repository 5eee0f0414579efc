//! What follows a step: the ask rule on one item, and its lines.

ghost use Rattle.std.specs.Prelude.{IfOk};
ghost use Rattle.cf_ask_rule.specs.Deeds.{deed_of};
ghost use Rattle.cf_base.specs.declared.ids.ItemId.{ItemId};
ghost use Rattle.cf_model.specs.Arrows.{each, reading};
ghost use Rattle.cf_model.specs.Requests.{Deed};
ghost use Rattle.cf_model.specs.Settling.{end_wait, settle, tell as tell_all};
ghost use Rattle.cf_model.specs.Waits.{all_down};
ghost use Rattle.cf_waits.specs.Steps.{IsPlanned};
ghost use Rattle.cf_filter_steps.specs.Answering.{Answers, Any};
ghost use Rattle.cf_filter_steps.specs.Settled.{AreOnFiles, IsStepNow, Looks, LooksGone, LooksNow, tell_moves};

use crate::steps::Steps;
use crate::views::{no_view, view_of};
use cf_ask_rule::{Act, Wait};
use cf_base::{CallError, Cause, ItemId, OutOfMemory};
use cf_ranges::RangeSet;
use cf_table::Row;
use cf_waits::{Moves, Step};

/// Works out a step on an item as this row says it, and changes nothing.
pub fn look_at<S: Steps>(s: &S, item: ItemId, row: &Row, act: Act) -> Result<Step, OutOfMemory>
    ensures planned { IfOk result (λ p. IsPlanned p (S.waiting s.now)) }
    ensures looks { IfOk result (λ p. Looks S.sense item row.now (deed_of act) p s.now) }
{
    let v = view_of(row, s.policy());
    s.requests().look(item, act, &v)
}

// Works out a step on an item that is gone.
pub(crate) fn look_gone<S: Steps>(s: &S, item: ItemId, act: Act) -> Result<Step, OutOfMemory>
    ensures planned { IfOk result (λ p. IsPlanned p (S.waiting s.now)) }
    ensures looks { IfOk result (λ p. LooksGone S.sense item (deed_of act) p s.now) }
{
    let none = RangeSet::new(s.alloc());
    let v = no_view(&none);
    s.requests().look(item, act, &v)
}

/// Works out a step on an item as it is, and changes nothing.
pub fn look<S: Steps>(s: &S, item: ItemId, act: Act) -> Result<Step, OutOfMemory>
    ensures planned { IfOk result (λ p. IsPlanned p (S.waiting s.now)) }
    ensures looks { IfOk result (λ p. LooksNow S.sense item (deed_of act) p s.now) }
{
    match s.rows().get(item) {
        Some(row) => look_at(s, item, row, act),
        None => look_gone(s, item, act),
    }
}

fn end_all<S: Steps>(s: &mut S, ended: &[(Wait, Cause)]) -> Result<(), CallError>
    ensures { Answers S.sense (AreOnFiles ended.now) (each end_wait ended.now) s.old result s.new }
{
    for e in ended {
        s.end_wait(e)?;
    }
    Ok(())
}

/// Tells the ends of waits, each of which is on a file where it reads, and then which asks go and come.
pub fn tell<S: Steps>(s: &mut S, moves: &Moves) -> Result<(), CallError>
    ensures { Answers S.sense (AreOnFiles moves.now.ended) (tell_moves moves.now.ended moves.now.cancelled moves.now.asks) s.old result s.new }
{
    end_all(s, moves.ended.as_slice())?;
    s.tell_asks(moves.cancelled.as_slice(), moves.asks.as_slice())
}

/// Does a step that was worked out for what is now, with its lines.
pub fn settle_by<S: Steps>(s: &mut S, step: Step) -> Result<(), CallError>
    requires { IsPlanned step (S.waiting s.old) }
    ensures { (item : ItemId) (d : Deed) → Answers S.sense (IsStepNow item d step) (settle item d) s.old result s.new }
{
    let moves = s.take(step)?;
    tell(s, &moves)
}

/// What follows a step on the item.
pub fn settle<S: Steps>(s: &mut S, item: ItemId, act: Act) -> Result<(), CallError>
    ensures { Answers S.sense Any (settle item (deed_of act)) s.old result s.new }
{
    let step = look(s, item, act)?;
    settle_by(s, step)
}

/// All waits end, and all asks without a line, with the lines of that.
pub fn hang_up<S: Steps>(s: &mut S) -> Result<(), CallError>
    ensures { Answers S.sense Any (reading all_down tell_all) s.old result s.new }
{
    let moves = s.take_down()?;
    tell(s, &moves)
}
