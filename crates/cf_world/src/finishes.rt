//! How a run ends.

use cf_base::Status;

/// How a run ended, and the device and the remote that it leaves.
#[derive(Drop)]
pub struct Finish<D, R> {
    pub status: Status,
    pub disk: D,
    pub remote: R,
    /// What a person reads of a recorded report that is unlawful: the event, its line in the script, what the report has there, and what
    /// would have been lawful. None for all else, and where there was no memory for it.
    pub explanation: Option<String>,
}
