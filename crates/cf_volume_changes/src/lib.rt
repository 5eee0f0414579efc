//! What a program knows of a volume, and what a change makes of it, without the ground below.
//!
//! `Parts` is what is known. Here rows of new and of changed items are planned (`new_rows`, `plans`), rows and records are noted as
//! they were at the last point (`row_notes`, `record_notes`) and put back (`last_points`), and `room` says whether changes have
//! room in the table and in the clusters. What a clause says of the volume now holds for whatever bytes the disk reads as
//! (specs/Now).
#![tactic(auto)]

mod asked_clusters;
mod emptied_blocks;
mod first_notes;
mod fullness;
mod kinds;
mod last_points;
mod limits;
mod new_items;
mod new_rows;
mod parts;
mod plans;
mod record_notes;
mod record_puts;
mod removed_rows;
mod room;
mod row_notes;
mod seen_keys;
mod written_rows;

pub use asked_clusters::clusters_asked;
pub use emptied_blocks::drop_gone;
pub use first_notes::nothing_noted;
pub use fullness::{has_place, is_full, is_heavy};
pub use last_points::{restore_records, restore_rows};
pub use limits::{MOST_IDENTITY, MOST_NAME, MOST_SIZE, fits_row};
pub use new_items::refusal_of_new;
pub use new_rows::{plan_copied, plan_made};
pub use parts::Parts;
pub use plans::{Planned, plan_change, refusal_of};
pub use record_notes::note_record;
pub use record_puts::{len_at, put_each, record_of};
pub use removed_rows::remove_item;
pub use room::changes::{Room, is_full_now, room_beside, room_for};
pub use room::lengths::is_too_long;
pub use room::records::are_short;
pub use row_notes::{anchor_row, is_there, note_row, touch_row};
pub use seen_keys::seen_key;
pub use written_rows::put_row;
