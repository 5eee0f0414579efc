//! Requests that are posted, with their lines.

ghost use Rattle.cf_base.specs.declared.notices.Frame.TheVariants as frame;
ghost use Rattle.cf_engine_steps.specs.Answering.{Answers, Any};
ghost use Rattle.cf_engine_steps.specs.States.{whole};
ghost use Rattle.cf_engine_steps.specs.Lines.{with_line_if};
ghost use Rattle.cf_model.specs.Arrows.{noted};
ghost use Rattle.cf_model.specs.Messages.{post};
ghost use Rattle.cf_filter_steps.specs.Answering.{Answers as FilterAnswers, Any as AnyFilter};
ghost use Rattle.cf_wire.specs.Spelled.{HasRoom};

use crate::engines::Engine;
use cf_base::{CallError, Notice, Request};
use cf_engine_host::EngineHost;
use cf_remote::Remote;

/// Adds the line that the link gave, where there is one.
#[tactic(auto, using(crate::proofs::LeftOut::nothing_noted))]
pub(crate) fn note_line<S: EngineHost>(s: &mut S, line: Option<Notice>) -> Result<(), CallError>
    ensures { FilterAnswers S.sense AnyFilter (noted (with_line_if line)) s.old result s.new }
{
    match line {
        Some(n) => s.add_line(n),
        None => Ok(()),
    }
}

/// Posts a request, whose names need at most 255 bytes and whose bytes fewer than 4,294,967,296, with the line of its message.
/// Whether it is kept. It does not come to the remote, which stays as it is; the items and the book stay too. It never meets the
/// device. Out of memory leaves it posted or not, but without its line.
pub fn post<S: EngineHost, R: Remote>(
    s: &mut S,
    e: &mut Engine<R>,
    request: Request,
) -> Result<bool, CallError>
    requires { HasRoom request }
    ensures { Answers (whole S.sense R.told) Any (post (frame.Request request)) (s.old, e.old) result (s.new, e.new) }
{
    let posted = e.post(request)?;
    let kept = posted.kept;
    note_line(s, posted.line)?;
    Ok(kept)
}
