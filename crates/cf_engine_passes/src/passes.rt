//! A pass.

ghost use Rattle.cf_engine_passes.specs.Works.{asked_and_pushed, passed};
ghost use Rattle.cf_engine_steps.specs.Answering.{Answers, Any};
ghost use Rattle.cf_engine_steps.specs.States.{whole};
ghost use Rattle.cf_model.specs.Passes.{pass, work, work_now};

use crate::deliveries::{drained, show_skips};
use crate::feeds::ask_feed;
use crate::senders::Messenger;
use crate::settlements::settle_all;
use cf_base::{CallError, Code, Shown};
use cf_engine_host::EngineHost;
use cf_engine_steps::Engine;
use cf_engine_uploads::push_all;
use cf_filter_steps::Steps;
use cf_remote::Remote;

fn asked_and_pushed<S: EngineHost, R: Remote>(s: &mut S, e: &mut Engine<R>) -> Result<(), CallError>
    ensures { Answers (whole S.sense R.told) Any asked_and_pushed (s.old, e.old) result (s.new, e.new) }
{
    ask_feed(s, e)?;
    push_all(s, e, &Messenger)
}

/// One pass: asks what became of each upload that has no reply yet, asks for the feed, and uploads what the remote lacks. Under an inline
/// link the replies are taken at once. A stop of the device leaves the step begun in which it stopped.
pub fn pass<S: EngineHost, R: Remote>(s: &mut S, e: &mut Engine<R>) -> Result<(), CallError>
    ensures { Answers (whole S.sense R.told) Any pass (s.old, e.old) result (s.new, e.new) }
{
    settle_all(s, e)?;
    asked_and_pushed(s, e)
}

fn passed<S: EngineHost, R: Remote>(s: &mut S, e: &mut Engine<R>) -> Result<Shown, CallError>
    ensures { Answers (whole S.sense R.told) Any passed (s.old, e.old) result (s.new, e.new) }
{
    pass(s, e)?;
    drained(s, e)
}

fn work_now<S: EngineHost, R: Remote>(s: &mut S, e: &mut Engine<R>) -> Result<Shown, CallError>
    ensures { Answers (whole S.sense R.told) Any work_now (s.old, e.old) result (s.new, e.new) }
{
    show_skips(s, e)?;
    passed(s, e)
}

/// One pass, and then what waits is called back. It is refused as ProviderDown without a provider, and then nothing is changed. A step
/// of it that is left out has a line. A stop of the device leaves the step begun in which it stopped.
pub fn work<S: EngineHost, R: Remote>(s: &mut S, e: &mut Engine<R>) -> Result<Shown, CallError>
    ensures { Answers (whole S.sense R.told) Any work (s.old, e.old) result (s.new, e.new) }
{
    if s.is_connected() {
        work_now(s, e)
    } else {
        Ok(Shown::Refused(Code::ProviderDown))
    }
}
