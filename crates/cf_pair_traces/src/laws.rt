//! What every lawful trace of two devices has.

ghost use Rattle.std.specs.Prelude.{◌≡◌, ℕ, List, Some, false};
ghost use Rattle.cf_model.specs.Growth.{Extends};
ghost use Rattle.cf_model.specs.Identities.{content};
ghost use Rattle.cf_model.specs.Items.{Item};
ghost use Rattle.cf_model.specs.State.{State, items_now};
ghost use Rattle.cf_model.specs.Store.{Held};
ghost use Rattle.cf_model_headline.specs.Tokens.{OneVersionEach};
ghost use Rattle.cf_pair_compare.specs.First.{AgreeAt, row_at};
ghost use Rattle.cf_pair_events.specs.declared.answers.PairAnswer.{PairAnswer};
ghost use Rattle.cf_pair_events.specs.declared.comparisons.Comparison.TheVariants as comparison;
ghost use Rattle.cf_pair_events.specs.declared.events.PairEvent.{PairEvent};
ghost use Rattle.cf_pair_traces.specs.Pairs.{Compares, Pair, PairRuns, path_row, path_rows};

/// Over both devices each version that the remote made has a token by which it was made, as it stands there, and no token has
/// two; and what the remote holds only grows.
#[tactic(auto, using(crate::proofs::OneRemote::one_version, crate::proofs::OneRemote::grows))]
pub fn each_token_makes_one_version()
    ensures one { (p : Pair) (trace : List (PairEvent × PairAnswer)) (q : Pair) → PairRuns p trace q → OneVersionEach p.held q.held }
    ensures grows { (p : Pair) (trace : List (PairEvent × PairAnswer)) (q : Pair) → PairRuns p trace q → Extends p.held q.held }
{}

/// Where a comparison says equal, both devices have the same paths, each with the same kind and identity, and no dirty file.
#[tactic(auto, using(crate::proofs::EqualTrees::trees_agree))]
pub fn equal_trees_agree()
    ensures { (s t : State) (path : List ℕ) → Compares s t comparison.Equal → AgreeAt (path_rows s) (path_rows t) path }
{}

/// Where a comparison says equal, the files that both devices have at a path have equal contents.
pub fn equal_files_have_equal_contents()
    ensures { (held : Held) (s t : State) (path : List ℕ) (i j : Item) → Compares s t comparison.Equal
        → row_at (path_rows s) path ≡ Some (path_row (items_now s) i) → row_at (path_rows t) path ≡ Some (path_row (items_now t) j)
        → i.directory ≡ false → j.directory ≡ false → content held i ≡ content held j }
{}
