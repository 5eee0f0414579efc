//! What became of the uploads on their way.

ghost use Rattle.cf_engine_passes.specs.Settlements.{settle_one};
ghost use Rattle.cf_engine_steps.specs.Answering.{Answers, Any};
ghost use Rattle.cf_engine_steps.specs.States.{whole};
ghost use Rattle.cf_model.specs.Arrows.{each};
ghost use Rattle.cf_model.specs.Passes.{settle_all};

use cf_base::{CallError, Request};
use cf_engine_host::EngineHost;
use cf_engine_messages::send;
use cf_engine_queue::QueueEntry;
use cf_engine_steps::{Engine, queue};
use cf_remote::Remote;

fn settle_one<S: EngineHost, R: Remote>(
    s: &mut S,
    e: &mut Engine<R>,
    entry: &QueueEntry,
) -> Result<(), CallError>
    ensures { Answers (whole S.sense R.told) Any (settle_one entry.now) (s.old, e.old) result (s.new, e.new) }
{
    let request = Request::Settle { token: entry.token };
    let done = send(s, e, &request);
    drop(request);
    done
}

fn settle_each<S: EngineHost, R: Remote>(
    s: &mut S,
    e: &mut Engine<R>,
    entries: &[QueueEntry],
) -> Result<(), CallError>
    ensures { Answers (whole S.sense R.told) Any (each settle_one entries.now) (s.old, e.old) result (s.new, e.new) }
{
    for entry in entries {
        settle_one(s, e, entry)?;
    }
    Ok(())
}

/// Asks what became of each upload that has no reply yet, by token, as they are when this begins. Under an inline link the replies are
/// taken at once. It takes time by the records, besides what the replies take.
pub fn settle_all<S: EngineHost, R: Remote>(s: &mut S, e: &mut Engine<R>) -> Result<(), CallError>
    ensures { Answers (whole S.sense R.told) Any settle_all (s.old, e.old) result (s.new, e.new) }
{
    let queue = queue(s)?;
    let done = settle_each(s, e, queue.entries());
    drop(queue);
    done
}
