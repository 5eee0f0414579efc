//! Steps that are left out.

ghost use Rattle.cf_engine_steps.specs.Answering.{Answers, Any};
ghost use Rattle.cf_engine_steps.specs.States.{whole};
ghost use Rattle.cf_engine_steps.specs.Lines.{with_skip};
ghost use Rattle.cf_model.specs.Arrows.{noted, seq};
ghost use Rattle.cf_model.specs.Skips.{not_done, skip};
ghost use Rattle.cf_filter_steps.specs.Answering.{Answers as FilterAnswers, Any as AnyFilter};

use crate::engines::Engine;
use cf_base::{CallError, Code, Notice};
use cf_engine_host::EngineHost;
use cf_remote::Remote;

// Adds the line of a step that is left out, where such lines stand.
#[tactic(auto, using(crate::proofs::LeftOut::no_line))]
fn note_skip<S: EngineHost>(s: &mut S, shows: bool, code: Code) -> Result<(), CallError>
    ensures { FilterAnswers S.sense AnyFilter (noted (with_skip shows code)) s.old result s.new }
{
    if shows {
        s.add_line(Notice::Skipped { code })
    } else {
        Ok(())
    }
}

/// Leaves a step out for this reason: counts it, and adds its line where such lines stand. The items, the book, the link and the
/// remote stay as they are. It never meets the device. Out of memory leaves at most the line without the count.
pub fn skip<S: EngineHost, R: Remote>(
    s: &mut S,
    e: &mut Engine<R>,
    code: Code,
) -> Result<(), CallError>
    ensures { Answers (whole S.sense R.told) Any (skip code) (s.old, e.old) result (s.new, e.new) }
{
    let shows = e.shows_skips();
    note_skip(s, shows, code)?;
    e.count_skip()?;
    Ok(())
}

/// Leaves a step out, which answers that it was not done.
#[tactic(auto, using(crate::proofs::Laws::fails_first, crate::proofs::Laws::goes_any, crate::proofs::Laws::returned))]
pub(crate) fn leave_out<S: EngineHost, R: Remote>(
    s: &mut S,
    e: &mut Engine<R>,
    code: Code,
) -> Result<bool, CallError>
    ensures { Answers (whole S.sense R.told) Any (seq (skip code) not_done) (s.old, e.old) result (s.new, e.new) }
{
    skip(s, e, code)?;
    Ok(false)
}
