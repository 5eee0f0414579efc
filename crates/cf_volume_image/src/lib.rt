//! Images and payloads of a volume: how its header, its rows and its auxiliary records are spelled, what bytes spell them,
//! and which of them tell a volume.
//!
//! `Contents` is what a volume says of its items. `spell_image` spells all of it, `spell_payload` what changed of it;
//! `read_contents` reads an image and the payloads behind it, and takes just those that tell a sound volume. `read_spelled` takes what is
//! spelled, sound or not.
#![tactic(auto)]

mod blocks;
mod clusters;
mod contents;
mod drafts;
mod failures;
mod images;
mod laws;
mod number_counts;
mod number_places;
mod numbered_lists;
mod openings;
mod part_reads;
mod part_writes;
mod payload_reads;
mod payloads;
mod record_lists;
mod record_numbers;
mod record_places;
mod records;
mod sets;
mod sound;
mod sound_rows;
mod trees;

pub use clusters::clusters_of;
pub use contents::Contents;
pub use failures::ImageError;
pub use images::{read_image, spell_image};
pub use laws::{a_payload_is_enough, format_2_takes_all, one_value_of_a_text};
pub use number_places::NumberPlace;
pub use openings::{read_contents, read_spelled};
pub use payloads::spell_payload;
pub use records::AuxRecords;
