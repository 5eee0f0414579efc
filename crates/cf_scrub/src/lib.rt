//! The bytes of a device are judged.
//!
//! `scrub` says whether bytes are those of a volume, and names all that is wrong where they are not. specs/Judgements says how
//! bytes are judged, specs/States lists the damages of a state that is spelled, and specs/Texts spells a judgement.
#![tactic(auto)]

mod blocks;
mod clusters;
mod damages;
mod judgements;
mod laws;
mod places;
mod row_tests;
mod scrubs;
mod state_reads;
mod states;
mod ways;

pub use damages::{Damage, DamageKind};
pub use judgements::Judgement;
pub use laws::no_damage_is_a_volume;
pub use scrubs::scrub;
