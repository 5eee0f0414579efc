//! The rows of a volume's table, and what changes do to them.
//!
//! A row means an item (`Means`), and rows mean a list of items (`MeansAll`): each call says what becomes of the items.
//! Laws lead from what is known of items to what a call asks of rows, and back from what it gives: `row_is_of_item` and
//! `rows_have_room` for an image that is spelled, `extents_are_blocks` for its clusters, `rows_are_as_long_as_items` for a table that is full,
//! `look_ups_find_items` and `rows_are_items` for paths, `a_change_fits_rows_by_items` and
//! `a_number_after_the_last_is_next` for the next change, `new_rows_are_of_the_root` for the first.
#![tactic(auto)]

mod applied;
mod byte_changes;
mod entries;
mod failures;
mod heads;
mod indexed_rows;
mod kinds;
mod laws;
mod listed_rows;
mod listings;
mod lookups;
mod mark_changes;
mod new_rows;
pub mod plain_fields;
mod ranges;
mod read_laws;
mod reads;
mod row_lists;
mod rows;
mod set_reads;
mod slots;
mod spelling;
mod table_changes;
mod tables;
mod targets;
mod unindexed_rows;
mod usns;
mod volume_changes;

pub use failures::RowError;
pub use kinds::{item_of, kind_of, stays};
pub use laws::{
    a_change_fits_rows_by_items, a_number_after_the_last_is_next, extents_are_blocks,
    image_len_is_length, look_ups_find_items, new_rows_are_of_the_root, row_is_of_item,
    rows_are_as_long_as_items, rows_are_items, rows_have_room,
};
pub use new_rows::Place;
pub use read_laws::{format_2_spells_all, one_row_in_a_text};
pub use rows::{NO_USN, ROOT, Row};
pub use tables::Rows;
pub use unindexed_rows::UnindexedRows;
pub use usns::{is_above, same_usn};
