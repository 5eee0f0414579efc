//! The volume: items and a book, of which a crash leaves the last point. A `Volume` stands on a disk, a `VolumeOn` on any ground.
//!
//! Contracts see a volume as its ground, which is a disk for a `Volume`, and what is known of the volume on it (`OnDisk` of
//! `cf_volume_changes`). Each clause speaks of any volume of the definitions that the two are at (`At` of cf_volume_points), and of the
//! one that they are at afterwards. A change is judged and planned by `cf_volume_changes`, and put by its kind, with a commit first
//! where it needs room; rows and records are noted as they were at the last point, so that a commit writes what differs.
#![tactic(auto)]

mod accepted_changes;
mod aux_puts;
mod block_reads;
mod books;
mod commits;
mod copy;
mod files;
mod fullness;
mod make;
mod openings;
mod record_changes;
mod remove;
mod rewinds;
mod room;
mod room_commits;
mod stay;
mod stop_causes;
mod volumes;
mod written_rows;

pub use cf_volume_changes::{MOST_IDENTITY, MOST_NAME, MOST_SIZE, Room, are_short, fits_row};
pub use volumes::{Volume, VolumeOn};
