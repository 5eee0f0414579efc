//! What an engine keeps beside the items: auxiliary records.

ghost use Rattle.std.specs.Prelude.{◌≡◌, ◌≤◌, ℕ, List, Some, false, length, option_copied, IfOk};
ghost use Rattle.cf_filter.specs.Recording.{HasRoom, PutsRecord, aux_outcome, put_told};
ghost use Rattle.cf_filter_machine.specs.Sensing.{Stands, sense};
ghost use Rattle.cf_model.specs.Arrows.{attempt, noted};
ghost use Rattle.cf_model.specs.Books.{Book};
ghost use Rattle.cf_model.specs.State.{Filter as state};
ghost use Rattle.cf_filter_steps.specs.Answering.{Answers};
ghost use Rattle.cf_engine_host.specs.BookSteps.{why_full, with_book_of};

use crate::filters::FilterOn;
use crate::shown_values::Told;
use cf_base::{CallError, Code, OutOfMemory};
use cf_filter_machine::MachineOn;
use cf_volume_ground::Ground;

// Whether there was room, by what the volume answered.
fn has_room(put: Result<(), CallError>) -> Result<bool, OutOfMemory>
    ensures { HasRoom put result }
{
    match put {
        Ok(()) => Ok(true),
        Err(CallError::No(Code::TableFull)) => Ok(false),
        Err(_) => Err(OutOfMemory),
    }
}

/// Puts an auxiliary record, or takes the one with the key out. False where the table has no room for it; then nothing is changed.
pub(crate) fn put_aux<G: Ground>(
    machine: &mut MachineOn<G>,
    key: &[u8],
    value: Option<&[u8]>,
) -> Result<bool, OutOfMemory>
    requires key { length key.now ≤ 255 }
    requires value { (b : List ℕ) → option_copied value ≡ Some b → length b ≤ 65535 }
    ensures does { (f : Book → Book) → Answers (sense G.state) (PutsRecord key.now (option_copied value.entry) f) (attempt (why_full f) (noted (with_book_of f))) machine.old (aux_outcome result) machine.new }
    ensures same { (f : Book → Book) (s : state) → Stands G.state machine.old s → PutsRecord key.now (option_copied value.entry) f s → IfOk result (λ put. put ≡ false → machine.new ≡ machine.old) }
{
    let put = machine.volume.aux_put(key, value);
    has_room(put)
}

fn told(put: Result<bool, OutOfMemory>) -> Told<()>
    ensures { result ≡ put_told put }
{
    match put {
        Ok(true) => Ok(Ok(())),
        Ok(false) => Ok(Err(Code::TableFull)),
        Err(_) => Err(CallError::OutOfMemory),
    }
}

impl<G: Ground> FilterOn<G> {
    ghost use Rattle.cf_filter.specs.Recording.{Attempts};

    /// Puts an auxiliary record of the volume in place of the one with its key, or takes the one with the key out where there
    /// is no value. A key has at most 255 bytes, a value at most 65,535. It is durable with the next commit. Refused as
    /// Broken, as TableFull where the table would be full with it; then nothing is changed. Records are read by `volume`.
    #[tactic(auto, using(crate::proofs::Recorded::attempted_not))]
    pub fn aux_put(&mut self, key: &[u8], value: Option<&[u8]>) -> Result<(), CallError>
        requires key { length key.now ≤ 255 }
        requires value { (b : List ℕ) → option_copied value ≡ Some b → length b ≤ 65535 }
        ensures { (f : Book → Book) → Attempts (sense G.state) (PutsRecord key.now (option_copied value.entry) f) (why_full f) (noted (with_book_of f)) self.old result self.new }
    {
        self.check()?;
        let first = put_aux(&mut self.machine, key, value);
        self.finish(told(first))
    }
}
