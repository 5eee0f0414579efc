//! The texts of answers.

ghost use Rattle.std.specs.Prelude.{◌≡◌, IfOk};
ghost use Rattle.cf_pair_report.specs.Texts.{text};

use crate::comparisons::comparison_line;
use cf_base::{Blob, OutOfMemory};
use cf_pair_events::PairAnswer;
use std::alloc::Global;

/// The lines of an answer. Fails where there is no memory for them.
pub fn text(alloc: Global, answer: &PairAnswer) -> Result<Blob, OutOfMemory>
    ensures { IfOk result (λ b. b ≡ text answer.now) }
{
    match answer {
        PairAnswer::Event(answer) => cf_report::text(alloc, answer),
        PairAnswer::Comparison(comparison) => comparison_line(alloc, comparison),
    }
}
