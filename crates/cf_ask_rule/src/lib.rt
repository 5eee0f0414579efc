//! The ask rule: what one step does to the waits on an item, and to what the provider is asked for them.
#![tactic(auto)]

mod acts;
mod asks;
mod block_sets;
mod changed_plans;
mod changes;
mod kinds;
mod laws;
mod misses;
mod new_asks;
mod plans;
mod searches;
mod sights;
mod unions;
mod views;
mod waits;

pub use acts::{Act, live_of};
pub use asks::LiveAsk;
pub use changed_plans::{
    is_awaited, is_needing, kept_without, make_expiry_plan, make_leave_plan, positions_of,
    span_around,
};
pub use changes::Change;
pub use kinds::{is_data, is_dehydrate, is_list};
pub use laws::{
    a_step_looks_at_its_item, a_wait_begins_beside_others, each_data_ask_has_a_missed_block,
    each_missing_block_has_one_owner, each_missing_block_is_owned, each_step_settles_its_item,
    no_block_gets_two_owners,
};
pub use misses::{first_block, is_met};
pub use plans::{Plan, make_begin_plan, make_plan};
pub use sights::Sight;
pub use views::View;
pub use waits::{
    LiveWait, Wait, WaitNumber, is_background, is_dehydrate_wait, is_hydrate_wait, is_list_wait,
    is_same_key,
};
