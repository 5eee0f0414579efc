//! Two devices that share an empty remote. Each device's first token is the same one.

ghost use Rattle.std.specs.Prelude.{◌≡◌, List, [], ◌∷◌, ◌++◌, codes};
ghost use Rattle.cf_pair_events.specs.declared.comparisons.Comparison.TheVariants as comparison;
ghost use Rattle.cf_pair_events.specs.declared.events.PairEvent.{PairEvent};
ghost use Rattle.cf_pair_rows.specs.Scripts.{ArePlayable, alike, conflict, dir_d, file_n, kept_n, left_by, new_d, new_file, played, reported, tokens_of_both};
ghost use Rattle.cf_pair_traces.specs.Pairs.{Compares, Pair, PairRuns, path_rows};

/// What is played here is a lawful trace, with the answers that are given where all goes as usual.
#[tactic(auto, using(crate::proofs::Played::played_lawfully))]
pub fn what_is_played_is_lawful()
    ensures { (p : Pair) (events : List PairEvent) → ArePlayable events → PairRuns p (reported p events) (played p events) }
{}

/// A file that the first device made and uploaded comes to the second.
pub fn a_file_comes_to_the_other_device()
    ensures first { path_rows (left_by new_file).first ≡ file_n ∷ [] }
    ensures second { path_rows (left_by new_file).second ≡ file_n ∷ [] }
{}

/// A directory that the second device made is missing at the first, until both have synced.
pub fn a_new_directory_is_missing_until_both_have_synced()
    ensures before { path_rows (left_by (new_file ++ new_d)).first ≡ file_n ∷ [] }
    ensures first { path_rows (left_by alike).first ≡ file_n ∷ dir_d ∷ [] }
    ensures second { path_rows (left_by alike).second ≡ file_n ∷ dir_d ∷ [] }
{}

/// A comparison says equal after the first syncs, and then the path of the directory that one device alone has.
pub fn a_comparison_finds_the_new_directory()
    ensures equal { Compares (left_by new_file).first (left_by new_file).second comparison.Equal }
    ensures unequal { Compares (left_by (new_file ++ new_d)).first (left_by (new_file ++ new_d)).second (comparison.Unequal (codes "/d")) }
{}

/// Where both devices make a file of one name, that of the second, which syncs later, is kept under another name, and both end
/// alike.
pub fn a_conflict_keeps_both_files()
    ensures first { path_rows (left_by conflict).first ≡ file_n ∷ kept_n ∷ [] }
    ensures second { path_rows (left_by conflict).second ≡ kept_n ∷ file_n ∷ [] }
{}

/// The first token of both devices is 1.1. At the remote that of the second has another epoch, so both uploads are done.
pub fn the_first_tokens_of_both_are_done()
    ensures { (left_by alike).held.tokens ≡ tokens_of_both }
{}
