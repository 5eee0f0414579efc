//! The world that a script acts on, under either actor: its events one after the other, the report, and what it leaves.
//!
//! The report has the texts of lawful answers, one for each event. The disk had one power cut for each crash, and each restart that resumed
//! opens what the last of them left; for each answer Device a call of the disk failed in its event; whatever a crash leaves of it then stands
//! for a point that a restart may open. Where the sink failed or the report is too long the same is said of the events that were done. What a
//! lawful answer is, `cf_model` says; what is written, specs/Runs and specs/Outputs.
#![tactic(auto)]

mod blocks;
mod conclusions;
mod drafts;
mod images;
mod outputs;
mod play_errors;
mod plays;
mod refusals;
mod reports;
mod results;
mod state_laws;
mod states;
mod worlds;

pub use drafts::add;
pub use outputs::{Ending, Output};
pub use play_errors::PlayError;
pub use refusals::{MOST_SCRIPT_BYTES, early, refuse, unscripted, write_fail};
pub use reports::{Played, report, status_of, unstarted};
pub use results::put_out;
pub use state_laws::{a_file_shows_its_runs, a_new_volume_shows_its_root, no_volume_is_shown_off};
pub use states::{state_text, used_blocks};
pub use worlds::World;
