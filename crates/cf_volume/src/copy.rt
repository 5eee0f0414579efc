//! Changes that copy a file.

pub(crate) mod clusters;
pub(crate) mod files;
