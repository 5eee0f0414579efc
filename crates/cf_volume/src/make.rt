//! Changes that make an item.

pub(crate) mod new_items;
pub(crate) mod rows;
