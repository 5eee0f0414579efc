//! Whether changes have room.

pub(crate) mod changes;
pub(crate) mod draft_steps;
pub(crate) mod drafts;
pub(crate) mod lengths;
pub(crate) mod records;
pub(crate) mod single_changes;
pub(crate) mod tallies;
