//! The steps of which the engine is made.
//!
//! The engine acts on two values. One does the steps of a filter, and those of `EngineHost` on the lines of the running event and on
//! the book; that may be a filter on a disk, or a plain machine. The other is `Engine`: the link to the remote, and what the engine
//! knows of the running event. Together they stand for the whole state of the definitions, and each step here does to that state what
//! the definition of its name does. specs/Answering says what a step answers and leaves, specs/States how the two stand for the state.
//!
//! Of each step holds:
//!
//! - Where it is done, the two values stand for the state after it.
//! - Where the device stopped it, they stand for the state that a stop leaves there. The filter answers nothing more. The link and the
//!   remote still stand for those of that state, since other devices and a crash go on with them.
//! - Out of memory, at each moment of the step a crash leaves a point that the state may be opened at.
//! - Where it is done or stopped, the remote's count of faults rose at least by the lines that report a fault and that the notes have
//!   more than before.
//!
//! A step that finds no room is left out: `skip` counts it, and adds its line where such lines stand. Those whose names begin with
//! `try` answer whether they were done. What a step needs of the state is tested where it is used; a case that no state has is
//! answered as out of memory, by `no_such_state` of cf_base, and nothing is lost by it. `drain` calls the engine's own provider for
//! what waits, and `finish_call` ends a call by it; `post` and `come` send a request, and bring it to the remote. What an engine has of
//! its own is changed by the methods of `Engine`. The laws by which steps are put together stand in proofs/Laws and proofs/Loops;
//! those by which a part of the filter, of the link or of the engine's own is a part of the whole, in proofs/Lifting, proofs/Linking
//! and proofs/Noted.
#![tactic(auto)]

mod book_reads;
mod book_tests;
mod books;
mod callbacks;
mod changes;
mod cursors;
mod engines;
mod exchanges;
mod item_tests;
mod link_events;
mod marks;
mod messages;
mod names;
mod paths_seen;
mod posts;
mod removals;
mod skips;
mod suited_changes;
mod suited_moves;
mod targets;
mod tokens;
mod uses;
mod volatiles;

pub use book_reads::{
    cursor, has_entries, has_entry, has_new_entry, has_target_entry, live_entry, queue, seen,
    tombstone,
};
pub use books::{drop_tombstone, end_entry, keep_number, try_entry, try_tombstone};
pub use callbacks::{drain, finish_call};
pub use changes::try_change;
pub use cursors::{reset_cursor, try_cursor};
pub use engines::Engine;
pub use exchanges::exchange;
pub use marks::{mark, try_mark, try_mark_now};
pub use messages::{come, is_inline};
pub use names::{to_conflict, try_clear_name};
pub use paths_seen::try_seen;
pub use posts::post;
pub use skips::skip;
pub use suited_changes::refuse_depth;
pub use targets::{NO_RID, parent_target, stands_at_seen, target_of};
pub use tokens::{next_token, try_round, try_token};
pub use uses::in_use;
pub use volatiles::Volatile;
