//! What a volume on a disk stands for: its last point, and its state now.
//!
//! specs/Standing says when the bytes of a disk stand for a log and a book, specs/At when a disk and what a program knows
//! of it are at a volume of the definitions. Beside laws there is only what is noted of the last point, and why a call stops.
#![tactic(auto)]

mod earlier;
mod stops;

pub use earlier::{Earlier, bare};
pub use stops::Stop;
