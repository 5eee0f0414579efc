//! Asks for which nothing comes.

ghost use Rattle.cf_engine_messages.specs.Refusals.{refuse_at};
ghost use Rattle.cf_engine_provider.specs.Parts.{refuse_ask};
ghost use Rattle.cf_engine_steps.specs.Answering.{Answers, Any};
ghost use Rattle.cf_engine_steps.specs.States.{whole};
ghost use Rattle.cf_model.specs.Fetching.{no_entries, take_gone, take_missing};

use crate::operations::do_op;
use cf_base::{Ask, AskKind, CallError, Code, Key, Operation, Sequence};
use cf_engine_host::EngineHost;
use cf_engine_steps::Engine;
use cf_remote::Remote;

/// The status of an ask whose file the remote has no more.
const NO_FILE: u32 = 2;

/// No entries come for the ask with this key.
pub(crate) fn no_entries<S: EngineHost, R: Remote>(
    s: &mut S,
    e: &mut Engine<R>,
    key: Key,
) -> Result<(), CallError>
    ensures { Answers (whole S.sense R.told) Any (no_entries key) (s.old, e.old) result (s.new, e.new) }
{
    let none = Operation::Entries {
        key,
        list: Sequence::new(s.alloc()),
        good: false,
    };
    let done = do_op(s, e, &none);
    drop(none);
    done
}

// No bytes for the whole ask, or no entries.
fn refuse_ask<S: EngineHost, R: Remote>(
    s: &mut S,
    e: &mut Engine<R>,
    status: u32,
    ask: &Ask,
) -> Result<(), CallError>
    ensures { Answers (whole S.sense R.told) Any (refuse_ask status ask.now) (s.old, e.old) result (s.new, e.new) }
{
    match ask.kind {
        AskKind::Fetch => {
            let refuse = Operation::Refuse {
                key: ask.key,
                span: ask.span,
                status,
            };
            do_op(s, e, &refuse)
        }
        AskKind::Validate => Ok(()),
        AskKind::List => no_entries(s, e, ask.key),
        AskKind::Dehydrate => Ok(()),
    }
}

// The same of the live ask with this key, if there is one.
fn refuse_at<S: EngineHost, R: Remote>(
    s: &mut S,
    e: &mut Engine<R>,
    status: u32,
    key: Key,
) -> Result<(), CallError>
    ensures { Answers (whole S.sense R.told) Any (refuse_at status key) (s.old, e.old) result (s.new, e.new) }
{
    match s.requests().ask(key) {
        Some(ask) => refuse_ask(s, e, status, &ask),
        None => Ok(()),
    }
}

/// Missing: the ask with this key, if it is live, gets no bytes, or no entries.
pub fn take_missing<S: EngineHost, R: Remote>(
    s: &mut S,
    e: &mut Engine<R>,
    key: Key,
) -> Result<(), CallError>
    ensures { Answers (whole S.sense R.told) Any (take_missing key) (s.old, e.old) result (s.new, e.new) }
{
    refuse_at(s, e, NO_FILE, key)
}

/// Gone: as Missing, with the number of VersionGone as status.
pub fn take_gone<S: EngineHost, R: Remote>(
    s: &mut S,
    e: &mut Engine<R>,
    key: Key,
) -> Result<(), CallError>
    ensures { Answers (whole S.sense R.told) Any (take_gone key) (s.old, e.old) result (s.new, e.new) }
{
    refuse_at(s, e, Code::VersionGone.number(), key)
}
