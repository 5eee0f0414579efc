//! A whole run of a script of two devices on one remote: from the bytes of the script to the bytes of its report.
//!
//! `run_pair` promises that at Done it added to the sink the texts of lawful answers, one for each event of the source's whole text:
//! one remote state runs through them, and what each device does is lawful with it. A comparison of devices that are settled on the
//! remote says equal, where no policy of FULL population stood so far. Each disk had one power cut for each crash of its device, and
//! whatever a crash leaves of it then stands for a point that a restart may open. Where the sink failed or the report is too long it
//! promises the same of the events that were done; and it names the cause of each status but Done. What a lawful answer is,
//! `cf_pair_traces` says; when devices are settled, `cf_pair_settled`; what a run leaves, `specs/Led.antt`; what it writes,
//! `specs/Runs.antt`.
//!
//! Each device is a volume under an engine, as in the command `replay`. The remote is with the device whose event goes on, behind
//! that device's lane; the type of a device that rests says that it has none. A third device acts on the remote alone. The world of a
//! script stands for pairs of the definitions (`specs/Sharing.antt`): each event is one step of theirs, with that answer, and of each
//! disk what `cf_filter_events` says.
#![tactic(auto)]

mod comparisons;
mod peers;
mod plays;
mod refusals;
mod reports;
mod runs;
mod scripts;
mod steps;
mod turns;
mod worlds;

pub use runs::{PairFinish, run_pair};
pub use worlds::PairWorld;
