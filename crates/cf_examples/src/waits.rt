//! Waits and their ends.

ghost use Rattle.cf_base.specs.declared.policies.Mode.TheVariants.{Filter, Replay};
ghost use Rattle.cf_examples.specs.Transcripts.{Plays};
ghost use Rattle.cf_examples.specs.Waits as waits;

/// An ask ends after 60 ticks without an operation.
pub fn progress_holds_the_clock_of_an_ask()
    ensures { Plays Filter waits.progress_holds_the_clock_of_an_ask }
{}

/// Without a transfer the clock of the ask goes on.
pub fn an_ask_without_progress_ends()
    ensures { Plays Filter waits.an_ask_without_progress_ends }
{}

/// Each wait ends with the first of its asks, and each ask is cancelled once.
pub fn two_asks_end_in_one_tick()
    ensures { Plays Filter waits.two_asks_end_in_one_tick }
{}

/// A refusal ends all who wait for its blocks; others go on until they are cancelled.
pub fn a_refusal_ends_those_who_miss_its_blocks()
    ensures { Plays Filter waits.a_refusal_ends_those_who_miss_its_blocks }
{}

/// A file is hydrated before it is uploaded; that wait ends with a line where it ends later.
pub fn the_hydration_before_an_upload_may_end_late()
    ensures { Plays Replay waits.the_hydration_before_an_upload_may_end_late }
{}

/// Without a provider reads and syncs are refused, and what needs none is not.
pub fn without_a_provider_nothing_is_asked()
    ensures { Plays Replay waits.without_a_provider_nothing_is_asked }
{}
