//! What the rules of an item come to: placeholders, pin states and dehydration.
//!
//! A plan says why its call is refused, in the call's order, or which changes it makes. It makes none itself: the caller looks
//! the item up first, tests the room of the changes, and applies them. A verdict gives the first cause why a file is not
//! dehydrated; what it reads of a file, the policy and the range is a `Facts`.
#![tactic(auto)]

mod change_lists;
mod creations;
mod dehydration_facts;
mod dehydration_verdicts;
mod pin_laws;
mod pins;
mod placeholder_laws;
mod placeholder_plans;
mod refusals;

pub use creations::{Creation, plan_create};
pub use dehydration_facts::{Facts, Verdict};
pub use dehydration_verdicts::verdict;
pub use pin_laws::pins_fit;
pub use pins::plan_pin;
pub use placeholder_laws::plans_fit;
pub use placeholder_plans::{
    plan_convert, plan_keep, plan_mark, plan_revert, plan_unmark, plan_update,
};
