//! The world of a command, without its trace: a filter on a disk, an actor beside it, and crashes and restarts. The actor is the scripted
//! provider of `filter`, or the engine of `replay`.
//!
//! Contracts say that the world stands for states of the definitions (specs/Meaning): each event is one step of theirs, with that
//! answer, and whatever a crash leaves of the disk stands for a point that a restart may then open. How an actor stands for its part
//! of a state it says itself (specs/Actors). While the volume is open it may stand on any ground (`RunningOn`).
#![tactic(auto)]

mod actors;
mod answers;
mod books;
mod calls;
mod devices;
mod events;
mod files;
mod item_calls;
mod item_facts;
pub mod laws;
mod places;
mod power_cuts;
mod results;
mod settings;
mod waits;
mod worlds;

pub use actors::Actor;
pub use answers::{answered, plainly, refused};
pub use events::act_off;
pub use places::{Acting, Cut, Running, RunningOn};
pub use power_cuts::resumed;
pub use results::{count, done, item, number, outcome};
pub use worlds::first_policy;
