//! A filter as the host of an engine.

use crate::filters::FilterOn;
use crate::host_steps;
use cf_base::{AuxRecord, CallError, ItemId, Notice, Shown, Usn};
use cf_engine_host::EngineHost;
use cf_provider::Provider;
use cf_volume_ground::Ground;
use cf_volume_image::AuxRecords;

impl<G: Ground> EngineHost for FilterOn<G> {
    ghost use Rattle.cf_filter_machine.specs.Sensing.{keepable as keeps_book};

    fn epoch(&self) -> u32 {
        host_steps::epoch(self)
    }

    fn add_line(&mut self, line: Notice) -> Result<(), CallError> {
        host_steps::add_line(self, line)
    }

    fn records(&self) -> &AuxRecords {
        host_steps::records(self)
    }

    fn put_record(&mut self, record: &AuxRecord) -> Result<bool, CallError> {
        host_steps::put_record(self, record)
    }

    fn drop_record(&mut self, key: &[u8]) -> Result<(), CallError> {
        host_steps::drop_record(self, key)
    }

    fn keep_anchor(&mut self, item: ItemId) -> Result<(), CallError> {
        host_steps::keep_anchor(self, item)
    }

    fn anchor(&self, item: ItemId) -> Usn {
        host_steps::anchor(self, item)
    }

    fn drain<P: Provider>(&mut self, provider: &mut P) -> Result<(), CallError> {
        FilterOn::drain(self, provider)
    }

    fn end_call(&mut self, shown: Shown) -> Shown {
        host_steps::end_call(self, shown)
    }

    ghost keepable = { keeps_book G.state };
}
