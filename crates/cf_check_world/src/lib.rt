//! The filter and the engine of `replay` beside a remote that fails where a report says that it did, on a volume that stands on no disk and
//! makes its commits for room where the report resumes next: what a report is judged beside.
#![tactic(auto)]

mod checks;
mod off_events;
mod on_events;
mod places;
mod plain_devices;
mod told_remotes;

pub use cf_check_report::{Difference, Judgement};
pub use checks::check;
pub use plain_devices::PlainDevice;
pub use told_remotes::ToldRemote;
