//! Changes of an item that stays.

pub(crate) mod blocks;
pub(crate) mod clusters;
pub(crate) mod items;
pub(crate) mod plan_steps;
pub(crate) mod rows;
