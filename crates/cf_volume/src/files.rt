//! Bytes of files.

ghost use Rattle.std.specs.Prelude.{◌≡◌, ◌≤◌, ◌+◌, ◌^◌, ℕ, false, List, Some, IfErr, IfOk, OnOk, map, slice_range};
ghost use Rattle.cf_disk.specs.Disk.{Leaves};
ghost use Rattle.cf_model.specs.Items.{Item, item_of};
ghost use Rattle.cf_model.specs.State.{Volume as model};
ghost use Rattle.cf_volume_points.specs.At.{At, StandsLast};
ghost use Rattle.cf_table.specs.Tables.{row_of};
ghost use Rattle.cf_volume_changes.specs.Calls.{Breaks, IfBroken, IsCause, IsHere, Runs, StopsOnly};
ghost use Rattle.cf_volume.specs.Written.{contents_in};

use crate::block_reads::read_item;
use crate::stop_causes::fail_of;
use crate::volumes::VolumeOn;
use cf_base::{Blob, CallError, Code, ItemId, Span};
use cf_volume_ground::Ground;

impl<G: Ground> VolumeOn<G> {
    /// The bytes of a span of a file, all of which are here.
    pub fn bytes(&mut self, id: ItemId, span: Span) -> Result<Blob, CallError>
        requires end { span.start + span.len ≤ 2 ^ 40 }
        requires here { IsHere (row_of self.old.known.table.rows id) span.start (span.start + span.len) }
        ensures bytes { (v : model) (i : Item) → At (G.state self.old.disk) self.old.known v → item_of v.items id ≡ Some i → IfOk result (λ b. map Some b ≡ slice_range i.held span.start (span.start + span.len)) }
        ensures ok { (v : model) → At (G.state self.old.disk) self.old.known v → OnOk result (At (G.state self.new.disk) self.new.known v) }
        ensures only { self.old.known.broken ≡ false → IfErr result StopsOnly }
        ensures crash { (v : model) → At (G.state self.old.disk) self.old.known v → Leaves (G.state self.old.disk) (G.state self.new.disk) (StandsLast v) }
        ensures known { OnOk result (self.new.known ≡ self.old.known) }
        ensures contents { contents_in self.new.known ≡ contents_in self.old.known }
        ensures broken { IfBroken self.old result self.new }
        ensures breaks { IfErr result (λ e. Breaks e self.new.known) }
        ensures usable { OnOk result (self.new.known.broken ≡ false) }
        ensures cause { IfErr result (λ e. IsCause e (G.state self.old.disk) (G.state self.new.disk)) }
        ensures runs { Runs (G.state self.old.disk) (G.state self.new.disk) }
    {
        if self.parts.broken {
            return Err(CallError::No(Code::Broken));
        }
        match read_item(
            self.parts.alloc,
            &mut self.ground,
            &self.parts.held,
            &self.parts.contents.rows,
            id,
            span,
        ) {
            Ok(bytes) => Ok(bytes),
            Err(stop) => {
                self.parts.broken = true;
                Err(fail_of(stop))
            }
        }
    }

    /// Each image that a crash may leave now stands for the last point.
    pub fn last_point(&self)
        ensures { (v : model) → At (G.state self.now.disk) self.now.known v → (c : List ℕ) → (G.state self.now.disk).may_leave c → StandsLast v c }
    {
        let _ = &self.parts;
    }
}
