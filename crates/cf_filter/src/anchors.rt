//! What an engine keeps beside the items: anchors.

ghost use Rattle.std.specs.Prelude.{◌≡◌, true, option_copied};
ghost use Rattle.cf_filter.specs.Booking.{anchored_at};
ghost use Rattle.cf_filter_machine.specs.Sensing.{sense};
ghost use Rattle.cf_model.specs.Arrows.{noted};
ghost use Rattle.cf_model.specs.Items.{Item};
ghost use Rattle.cf_model.specs.Numbers.{is_no_usn};
ghost use Rattle.cf_model.specs.Words.{part};
ghost use Rattle.cf_filter_steps.specs.Answering.{Answers, IsAt};
ghost use Rattle.cf_engine_host.specs.BookSteps.{with_book_of};

use crate::engine_steps::given;
use crate::filters::FilterOn;
use cf_base::{CallError, ItemId};
use cf_filter_machine::MachineOn;
use cf_table::Row;
use cf_volume_ground::Ground;

// Whether the item of a row never changed, or there is no row.
fn is_unnumbered(row: Option<&Row>) -> bool
    ensures { result ≡ part (λ r. is_no_usn r.number) true (option_copied row.entry) }
{
    match row {
        Some(row) => row.number.epoch == 0 && row.number.place == 0,
        None => true,
    }
}

/// Makes the anchor of an item its number, durable with the next commit. An item that never changed keeps what it has. Of an
/// item that is not there nothing is promised.
pub(crate) fn put_anchor<G: Ground>(machine: &mut MachineOn<G>, id: ItemId) -> Result<(), CallError>
    ensures { (i : Item) → Answers (sense G.state) (IsAt id i) (noted (with_book_of (anchored_at id i.number))) machine.old result machine.new }
{
    let row = machine.volume.row(id);
    if row.is_none() {
        return Err(CallError::OutOfMemory);
    }
    if is_unnumbered(row) {
        return Ok(());
    }
    let Ok(()) = machine.volume.anchor(id) else {
        return Err(CallError::OutOfMemory);
    };
    Ok(())
}

impl<G: Ground> FilterOn<G> {
    ghost use Rattle.cf_filter.specs.Handing.{Hands};

    /// Makes the anchor of an item its number, durable with the next commit. An item that never changed keeps what it has.
    /// Refused as Broken.
    pub fn anchor(&mut self, id: ItemId) -> Result<(), CallError>
        ensures { (i : Item) → Hands (sense G.state) (IsAt id i) (noted (with_book_of (anchored_at id i.number))) self.old result self.new }
    {
        self.check()?;
        let first = put_anchor(&mut self.machine, id);
        self.finish(given(first))
    }
}
