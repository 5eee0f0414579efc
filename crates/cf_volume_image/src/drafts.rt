//! Contents while they are read.

ghost use Rattle.std.specs.Prelude.{◌≡◌, IfOk};
ghost use Rattle.cf_volume_image.specs.Contents.{image_of};
ghost use Rattle.cf_volume_image.specs.Drafts.{draft_image};

use crate::contents::Contents;
use crate::records::AuxRecords;
use cf_base::{ItemId, OutOfMemory, Usn};
use cf_table::UnindexedRows;

/// Contents while an image and payloads are read: no row is looked up by its name before the last of them is.
#[derive(Drop)]
pub(crate) struct Draft {
    pub(crate) last: Usn,
    pub(crate) count: u64,
    pub(crate) clock: u64,
    pub(crate) next: ItemId,
    pub(crate) rows: UnindexedRows,
    pub(crate) records: AuxRecords,
}

impl Draft {
    /// The contents, whose rows have their index.
    pub(crate) fn into_contents(self) -> Result<Contents, OutOfMemory>
        ensures image { IfOk result (λ c. image_of c ≡ draft_image self) }
        ensures rows { IfOk result (λ c. c.rows.rows ≡ self.rows) }
    {
        let Draft {
            last,
            count,
            clock,
            next,
            rows,
            records,
        } = self;
        let rows = rows.into_rows(next)?;
        Ok(Contents {
            last,
            count,
            clock,
            rows,
            records,
        })
    }
}
