//! The commands: from the words after the program's name and the bytes of a source to the bytes that are written.
//!
//! `run` promises that at Done it added to the sink the texts of lawful answers, one for each event of the source's
//! whole text, that the disk had one power cut for each crash and each restart that resumed opens what the last of them left,
//! that for each answer Device a call of the disk failed in its event, that whatever a crash leaves of it then stands for a point
//! that a restart may open, that the remote holds what the last state has, and that the answers report exactly the asks that fail,
//! where the remote lists these. Where the sink failed or the report is too long it promises the same of the events that were done; and
//! it names the cause of each status but Done. What a lawful answer is, `cf_model` says; what a user may rely on, `cf_model_headline`;
//! what a script writes, `cf_world_plays`; what each command does, specs/Commands.
#![tactic(auto)]

mod checks;
mod explanations;
mod finishes;
mod recordings;
mod runs;
mod scripts;
mod sources;

pub use finishes::Finish;
pub use runs::run;
