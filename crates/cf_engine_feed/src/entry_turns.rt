//! The turn of one entry.

ghost use Rattle.cf_engine_feed.specs.Indexed.{indexed};
ghost use Rattle.cf_engine_feed_plan.specs.Turns.{do_steps, turn_of};
ghost use Rattle.cf_engine_steps.specs.Answering.{Answers, Any};
ghost use Rattle.cf_engine_steps.specs.States.{whole};
ghost use Rattle.cf_model.specs.Feeds.{turn};

use crate::indexes::Targets;
use crate::step_runs::do_steps;
use cf_base::CallError;
use cf_engine_feed_plan::{Step, Turn};
use cf_engine_host::EngineHost;
use cf_engine_steps::Engine;
use cf_remote::Remote;

// An entry whose steps are done is not postponed.
#[tactic(auto, using(cf_engine_steps::proofs::Laws::fails_first))]
fn do_all<S: EngineHost, R: Remote>(
    s: &mut S,
    e: &mut Engine<R>,
    targets: &mut Targets,
    steps: &[Step],
) -> Result<bool, CallError>
    ensures { Answers (indexed (whole S.sense R.told)) Any (turn (do_steps steps.now)) ((s.old, e.old), targets.old) result ((s.new, e.new), targets.new) }
{
    do_steps(s, e, targets, steps)?;
    Ok(false)
}

/// Does a turn. Whether its entry was postponed.
pub(crate) fn do_turn<S: EngineHost, R: Remote>(
    s: &mut S,
    e: &mut Engine<R>,
    targets: &mut Targets,
    turn: &Turn,
) -> Result<bool, CallError>
    ensures { Answers (indexed (whole S.sense R.told)) Any (turn_of turn.now) ((s.old, e.old), targets.old) result ((s.new, e.new), targets.new) }
{
    match turn {
        Turn::Nothing | Turn::Later => Ok(false),
        Turn::Postponed => Ok(true),
        Turn::Do(steps) => do_all(s, e, targets, steps.as_slice()),
    }
}
