//! What is said of a report.

/// What is said of a report. Events count from 1.
pub enum Verdict {
    /// The whole report is that of lawful answers, one for each event of the script.
    Lawful,
    /// The events before this one have lawful answers with these texts, and with it there are none. It is 0 where the script
    /// has no event and the report is not empty.
    Unlawful(u32),
    /// From this event on nothing is said: its answer is that of a device that failed, or it is a restart that may have
    /// opened different books.
    Undecided(u32),
}
