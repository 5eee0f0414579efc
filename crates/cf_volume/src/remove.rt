//! Changes that remove an item.

pub(crate) mod items;
