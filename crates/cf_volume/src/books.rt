//! What a volume keeps beside its items: anchors, accesses, the clock, auxiliary records.

ghost use Rattle.std.specs.Prelude.{◌≡◌, ◌≤◌, ℕ, All, List, length, option_copied, false, None, Some, IfErr, OnOk};
ghost use Rattle.cf_volume_image.specs.RecordLists.{IsShort};
ghost use Rattle.cf_model.specs.Books.{Book, with_access, with_anchor, with_ticks};
ghost use Rattle.cf_model.specs.Formats.{with_records};
ghost use Rattle.cf_model.specs.Items.{Item, item_of};
ghost use Rattle.cf_model.specs.State.{Volume as model};
ghost use Rattle.cf_volume_points.specs.At.{At};
ghost use Rattle.cf_table.specs.Tables.{row_of};
ghost use Rattle.cf_volume_changes.specs.Calls.{Breaks, HasRecords, IfBroken, IsMemory, WhyAux, put_record};
ghost use Rattle.cf_volume.specs.Written.{NotesOnly};

use crate::aux_puts::{put_all, put_aux};
use crate::volumes::VolumeOn;
use cf_base::{AuxRecord, CallError, Code, ItemId};
use cf_volume_changes::{anchor_row, touch_row};
use cf_volume_ground::Ground;

impl<G: Ground> VolumeOn<G> {
    /// Makes the anchor of an item its number. It is durable with the next commit. OutOfMemory where there is none; the ground
    /// is not called.
    pub fn anchor(&mut self, id: ItemId) -> Result<(), CallError>
        requires there { row_of self.old.known.table.rows id ≡ None → ⊥ }
        ensures ok { (v : model) (i : Item) → At (G.state self.old.disk) self.old.known v → item_of v.items id ≡ Some i → OnOk result (At (G.state self.new.disk) self.new.known (record v { book = with_anchor id i.number v.book })) }
        ensures only { self.old.known.broken ≡ false → IfErr result IsMemory }
        ensures noted { OnOk result (NotesOnly id self.old.known self.new.known) }
        ensures disk { self.new.disk ≡ self.old.disk }
        ensures broken { IfBroken self.old result self.new }
        ensures breaks { IfErr result (λ e. Breaks e self.new.known) }
        ensures usable { OnOk result (self.new.known.broken ≡ false) }
    {
        if self.parts.broken {
            return Err(CallError::No(Code::Broken));
        }
        match anchor_row(&mut self.parts, id) {
            Ok(()) => Ok(()),
            Err(_) => {
                self.parts.broken = true;
                Err(CallError::OutOfMemory)
            }
        }
    }

    /// Makes the clock that of the last access of a file. It is durable with the next commit. OutOfMemory where there is none; the
    /// ground is not called.
    pub fn touch(&mut self, id: ItemId) -> Result<(), CallError>
        requires there { row_of self.old.known.table.rows id ≡ None → ⊥ }
        ensures ok { (v : model) → At (G.state self.old.disk) self.old.known v → OnOk result (At (G.state self.new.disk) self.new.known (record v { book = with_access id v.book })) }
        ensures only { self.old.known.broken ≡ false → IfErr result IsMemory }
        ensures noted { OnOk result (NotesOnly id self.old.known self.new.known) }
        ensures disk { self.new.disk ≡ self.old.disk }
        ensures broken { IfBroken self.old result self.new }
        ensures breaks { IfErr result (λ e. Breaks e self.new.known) }
        ensures usable { OnOk result (self.new.known.broken ≡ false) }
    {
        if self.parts.broken {
            return Err(CallError::No(Code::Broken));
        }
        match touch_row(&mut self.parts, id) {
            Ok(()) => Ok(()),
            Err(_) => {
                self.parts.broken = true;
                Err(CallError::OutOfMemory)
            }
        }
    }

    /// Lets so many ticks of the clock pass, up to 2 ^ 64 - 1. It is durable with the next commit. Only Broken is answered.
    pub fn pass(&mut self, ticks: u64) -> Result<(), CallError>
        ensures ok { (v : model) → At (G.state self.old.disk) self.old.known v → OnOk result (At (G.state self.new.disk) self.new.known (record v { book = with_ticks ticks v.book })) }
        ensures only { self.old.known.broken ≡ false → IfErr result (λ e. ⊥) }
        ensures disk { self.new.disk ≡ self.old.disk }
        ensures broken { IfBroken self.old result self.new }
        ensures breaks { IfErr result (λ e. Breaks e self.new.known) }
        ensures usable { OnOk result (self.new.known.broken ≡ false) }
    {
        if self.parts.broken {
            return Err(CallError::No(Code::Broken));
        }
        self.parts.contents.clock = self.parts.contents.clock.saturating_add(ticks);
        Ok(())
    }

    /// Puts an auxiliary record in place of the one with its key, or takes the one with the key out where there is no
    /// value. It is durable with the next commit.
    pub fn aux_put(&mut self, key: &[u8], value: Option<&[u8]>) -> Result<(), CallError>
        requires key { length key.now ≤ 255 }
        requires value { (b : List ℕ) → option_copied value ≡ Some b → length b ≤ 65535 }
        ensures ok { (v : model) (b : Book) → At (G.state self.old.disk) self.old.known v → HasRecords v.book (put_record key.now (option_copied value.entry) self.old.known.records) b → OnOk result (At (G.state self.new.disk) self.new.known (record v { book = b })) }
        ensures why { (v : model) (b : Book) → At (G.state self.old.disk) self.old.known v → HasRecords v.book (put_record key.now (option_copied value.entry) self.old.known.records) b → self.old.known.broken ≡ false → WhyAux v b self.old result self.new }
        ensures disk { self.new.disk ≡ self.old.disk }
        ensures broken { IfBroken self.old result self.new }
        ensures breaks { IfErr result (λ e. Breaks e self.new.known) }
        ensures usable { OnOk result (self.new.known.broken ≡ false) }
    {
        if self.parts.broken {
            return Err(CallError::No(Code::Broken));
        }
        match put_aux(&self.ground, &mut self.parts, key, value) {
            Ok(()) => Ok(()),
            Err(CallError::OutOfMemory) => {
                self.parts.broken = true;
                Err(CallError::OutOfMemory)
            }
            Err(CallError::No(code)) => Err(CallError::No(code)),
        }
    }

    /// Puts auxiliary records in order, each in place of the one with its key. TableFull where the table would be full with all
    /// of them; then none is put. Keys have at most 255 bytes and values at most 65,535. They are durable with the next commit.
    pub fn aux_put_all(&mut self, records: &[AuxRecord]) -> Result<(), CallError>
        requires short { All IsShort records.now }
        ensures ok { (v : model) (b : Book) → At (G.state self.old.disk) self.old.known v → HasRecords v.book (with_records records.now self.old.known.records) b → OnOk result (At (G.state self.new.disk) self.new.known (record v { book = b })) }
        ensures why { (v : model) (b : Book) → At (G.state self.old.disk) self.old.known v → HasRecords v.book (with_records records.now self.old.known.records) b → self.old.known.broken ≡ false → WhyAux v b self.old result self.new }
        ensures disk { self.new.disk ≡ self.old.disk }
        ensures broken { IfBroken self.old result self.new }
        ensures breaks { IfErr result (λ e. Breaks e self.new.known) }
        ensures usable { OnOk result (self.new.known.broken ≡ false) }
    {
        if self.parts.broken {
            return Err(CallError::No(Code::Broken));
        }
        match put_all(&self.ground, &mut self.parts, records) {
            Ok(()) => Ok(()),
            Err(CallError::OutOfMemory) => {
                self.parts.broken = true;
                Err(CallError::OutOfMemory)
            }
            Err(CallError::No(code)) => Err(CallError::No(code)),
        }
    }
}
