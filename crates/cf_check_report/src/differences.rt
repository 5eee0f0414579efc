//! What is said of a whole report, and where it differs.

use cf_base::Blob;
use cf_check_model::Verdict;

/// Where a report that is unlawful differs from a lawful one.
#[derive(Drop)]
pub struct Difference {
    /// The event that is answered so, counted from 1, or 0 where there is none.
    pub event: u32,
    /// Where the answer of the event begins in the report, in bytes. Where the report goes on after its last answer it is the end of that.
    pub place: usize,
    /// The lines of an answer that would have been lawful. It is empty where the report should have ended, and where no event of `replay`
    /// was to be answered.
    pub expected: Blob,
}

/// What is said of a whole report.
pub struct Judgement {
    pub verdict: Verdict,
    /// Where the report differs, if the verdict is that it is unlawful.
    pub difference: Option<Difference>,
}
