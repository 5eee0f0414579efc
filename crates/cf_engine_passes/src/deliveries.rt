//! Replies that are handed to the engine by hand.

ghost use Rattle.cf_engine_passes.specs.Deliveries.{acted, delivered, drained, unless_stale};
ghost use Rattle.cf_engine_steps.specs.Answering.{Answers, Any};
ghost use Rattle.cf_engine_steps.specs.States.{whole};
ghost use Rattle.cf_model.specs.Arrows.{noted};
ghost use Rattle.cf_model.specs.Passes.{deliver, deliver_now, deliver_unless, showing};

use cf_base::{CallError, Code, Reply, Request, Shown};
use cf_engine_host::EngineHost;
use cf_engine_messages::{act_on, is_stale};
use cf_engine_steps::{Engine, drain};
use cf_filter_steps::Steps;
use cf_remote::Remote;

/// The callbacks that wait, and then the event is done.
pub(crate) fn drained<S: EngineHost, R: Remote>(
    s: &mut S,
    e: &mut Engine<R>,
) -> Result<Shown, CallError>
    ensures { Answers (whole S.sense R.told) Any drained (s.old, e.old) result (s.new, e.new) }
{
    drain(s, e)?;
    Ok(Shown::Done)
}

fn acted<S: EngineHost, R: Remote>(
    s: &mut S,
    e: &mut Engine<R>,
    reply: Reply,
) -> Result<Shown, CallError>
    ensures { Answers (whole S.sense R.told) Any (acted reply) (s.old, e.old) result (s.new, e.new) }
{
    act_on(s, e, reply)?;
    drained(s, e)
}

/// From now on a step that is left out has a line in the event.
pub(crate) fn show_skips<S: EngineHost, R: Remote>(
    s: &mut S,
    e: &mut Engine<R>,
) -> Result<(), CallError>
    ensures { Answers (whole S.sense R.told) Any (noted showing) (s.old, e.old) result (s.new, e.new) }
{
    let _ = &s;
    e.show_skips()?;
    Ok(())
}

// What a reply does that is not stale.
fn delivered<S: EngineHost, R: Remote>(
    s: &mut S,
    e: &mut Engine<R>,
    reply: Reply,
) -> Result<Shown, CallError>
    ensures { Answers (whole S.sense R.told) Any (delivered reply) (s.old, e.old) result (s.new, e.new) }
{
    match show_skips(s, e) {
        Ok(()) => acted(s, e, reply),
        Err(error) => {
            drop(reply);
            Err(error)
        }
    }
}

fn deliver_unless<S: EngineHost, R: Remote>(
    s: &mut S,
    e: &mut Engine<R>,
    reply: Reply,
    stale: bool,
) -> Result<Shown, CallError>
    ensures { Answers (whole S.sense R.told) Any (deliver_unless reply stale) (s.old, e.old) result (s.new, e.new) }
{
    if stale {
        drop(reply);
        return Ok(Shown::Refused(Code::Stale));
    }
    delivered(s, e, reply)
}

fn unless_stale<S: EngineHost, R: Remote>(
    s: &mut S,
    e: &mut Engine<R>,
    request: &Request,
    reply: Reply,
) -> Result<Shown, CallError>
    ensures { Answers (whole S.sense R.told) Any (unless_stale request.now reply) (s.old, e.old) result (s.new, e.new) }
{
    match is_stale(s, e, request, &reply) {
        Ok(stale) => deliver_unless(s, e, reply, stale),
        Err(error) => {
            drop(reply);
            Err(CallError::from(error))
        }
    }
}

fn deliver_now<S: EngineHost, R: Remote>(
    s: &mut S,
    e: &mut Engine<R>,
    message: u32,
) -> Result<Shown, CallError>
    ensures { Answers (whole S.sense R.told) Any (deliver_now message) (s.old, e.old) result (s.new, e.new) }
{
    match e.link().reply(message) {
        Ok(replied) => {
            let request = replied.request;
            let done = unless_stale(s, e, &request, replied.reply);
            drop(request);
            done
        }
        Err(CallError::No(code)) => Ok(Shown::Refused(code)),
        Err(CallError::OutOfMemory) => Err(CallError::OutOfMemory),
    }
}

/// Hands the reply with this message number to the engine, and then calls back what waits. It is refused, in this order, as ProviderDown
/// without a provider, as NoMessage where the number names no reply that is kept, and as Stale where its request is not kept, or the reply
/// does not fit that, or nothing waits for it any more; then nothing is changed, and no line added. A step of it that is left out has a
/// line. A stop of the device leaves the step begun in which it stopped.
pub fn deliver<S: EngineHost, R: Remote>(
    s: &mut S,
    e: &mut Engine<R>,
    message: u32,
) -> Result<Shown, CallError>
    ensures { Answers (whole S.sense R.told) Any (deliver message) (s.old, e.old) result (s.new, e.new) }
{
    if s.is_connected() {
        deliver_now(s, e, message)
    } else {
        Ok(Shown::Refused(Code::ProviderDown))
    }
}
