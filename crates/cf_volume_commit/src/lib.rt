//! Commits and openings of a volume, on its parts: its journal, its clusters, and what it says of its items.
//!
//! `save` makes what a volume says of its items durable: it appends what differs from the last point where that fits, and
//! else writes the whole image. `create` makes an empty volume, `load` opens one; both give its parts with the epoch
//! raised. `read_volume` only reads one, and names the first thing that is wrong where there is none, which specs/Damages says.
//! specs/Differing says what differs, specs/Loaded what is known of a volume that was just opened.
#![tactic(auto)]

mod creations;
mod damages;
mod differences;
mod findings;
mod openings;
mod parts;
mod ranges;
mod saves;
mod texts;

pub use cf_volume_points::{Earlier, bare};
pub use creations::{create, first_contents};
pub use damages::{Damage, FindError};
pub use findings::read_volume;
pub use openings::{data_of, load};
pub use parts::Parts;
pub use saves::save;
