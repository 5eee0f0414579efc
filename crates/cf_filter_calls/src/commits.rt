//! Commits.

ghost use Rattle.cf_model.specs.Calls.{flush};
ghost use Rattle.cf_filter_steps.specs.Answering.{Answers, Any};

use cf_base::{CallError, Shown};
use cf_filter_steps::Steps;

/// Makes durable all that was done. Gives how many changes there are.
pub fn flush<S: Steps>(s: &mut S) -> Result<Shown, CallError>
    ensures { Answers S.sense Any flush s.old result s.new }
{
    s.commit()?;
    let count = s.count();
    Ok(Shown::Count(count))
}
