//! The feed of a pass.

ghost use Rattle.std.specs.Prelude.{IfOk};
ghost use Rattle.cf_engine_steps.specs.Answering.{Answers, Any, Reads};
ghost use Rattle.cf_engine_steps.specs.States.{whole};
ghost use Rattle.cf_model.specs.Passes.{ask_feed, feed_of, send_feed};
ghost use Rattle.cf_wire.specs.Spelled.{HasRoom};

use cf_base::{CallError, Key, OutOfMemory, Request, Round};
use cf_engine_host::EngineHost;
use cf_engine_messages::send;
use cf_engine_steps::{Engine, cursor, try_round};
use cf_remote::Remote;

// The request for all that changed after the cursor, in the latest round.
fn feed_of<S: EngineHost, R: Remote>(s: &S, e: &Engine<R>) -> Result<Request, OutOfMemory>
    ensures is { IfOk result (λ q. Reads (whole S.sense R.told) Any feed_of (s.now, e.now) q) }
    ensures room { IfOk result HasRoom }
{
    let after = cursor(s)?;
    Ok(Request::Feed {
        round: Round(Key {
            epoch: s.epoch(),
            number: e.volatile().rounds(),
        }),
        after,
    })
}

fn send_feed<S: EngineHost, R: Remote>(s: &mut S, e: &mut Engine<R>) -> Result<(), CallError>
    ensures { Answers (whole S.sense R.told) Any send_feed (s.old, e.old) result (s.new, e.new) }
{
    let request = feed_of(s, e)?;
    let done = send(s, e, &request);
    drop(request);
    done
}

/// Draws a round and asks for the feed, all that changed after the cursor: from now on only the reply to it counts. Where no round is
/// left that is left out. Under an inline link its reply is taken at once.
pub fn ask_feed<S: EngineHost, R: Remote>(s: &mut S, e: &mut Engine<R>) -> Result<(), CallError>
    ensures { Answers (whole S.sense R.told) Any ask_feed (s.old, e.old) result (s.new, e.new) }
{
    if !try_round(s, e)? {
        return Ok(());
    }
    send_feed(s, e)
}
