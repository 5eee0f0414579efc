//! Pin states.

ghost use Rattle.cf_model.specs.Calls.{change_all as all_changed, pin_item, set_pin};
ghost use Rattle.cf_model.specs.Items.{Item};
ghost use Rattle.cf_filter_steps.specs.Answering.{Answers, Any, IsAt};
ghost use Rattle.cf_filter_steps.specs.Suiting.{Suiting};

use cf_base::{CallError, Change, ItemId, Pin, Reach, Shown};
use cf_filter_steps::{Steps, change_all, find_at};
use cf_item_rules::plan_pin;

// Makes the changes, which is all that the call tells.
pub(crate) fn make_all<S: Steps>(s: &mut S, changes: &[Change]) -> Result<Shown, CallError>
    ensures { Answers S.sense (Suiting changes.now) (all_changed changes.now) s.old result s.new }
{
    match change_all(s, changes)? {
        Some(code) => Ok(Shown::Refused(code)),
        None => Ok(Shown::Done),
    }
}

fn pin_item<S: Steps>(s: &mut S, id: ItemId, pin: Pin, reach: Reach) -> Result<Shown, CallError>
    ensures { (i : Item) → Answers S.sense (IsAt id i) (pin_item pin reach i) s.old result s.new }
{
    let changes = plan_pin(s.alloc(), s.rows(), id, pin, reach)?;
    make_all(s, changes.as_slice())
}

/// Sets a pin state (CfSetPinState) on an item, on it and all below it, or on those below it. Items that have it get no
/// change. Refused as the look-up, Exhausted.
pub fn set_pin<S: Steps>(s: &mut S, path: &str, pin: Pin, reach: Reach) -> Result<Shown, CallError>
    ensures { Answers S.sense Any (set_pin path.now pin reach) s.old result s.new }
{
    match find_at(s, path) {
        Ok(id) => pin_item(s, id, pin, reach),
        Err(code) => Ok(Shown::Refused(code)),
    }
}
