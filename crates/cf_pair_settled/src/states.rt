//! Two states that are settled on one remote.

ghost use Rattle.std.specs.Prelude.{◌≡◌, ℕ, List, Some, None, false, true};
ghost use Rattle.cf_model.specs.Identities.{content};
ghost use Rattle.cf_model.specs.Items.{Item};
ghost use Rattle.cf_model.specs.State.{State, items_now};
ghost use Rattle.cf_pair_compare.specs.First.{AgreeAt, row_at};
ghost use Rattle.cf_pair_events.specs.declared.comparisons.Comparison.{Comparison};
ghost use Rattle.cf_pair_events.specs.declared.comparisons.Comparison.TheVariants as comparison;
ghost use Rattle.cf_pair_settled.specs.Settled.{IsOrderly, is_settled_whole};
ghost use Rattle.cf_pair_traces.specs.Pairs.{Compares, no_comparison, path_row, path_rows};

/// Two devices that are settled as a whole on the same items of a remote have the same at each path, and a comparison of them says
/// equal and nothing else. So it is where each state is orderly and no device is off or broken.
#[tactic(auto, using(crate::proofs::SettledRows::rows_agree, crate::proofs::SettledRows::says_equal, crate::proofs::SettledRows::says_only_equal))]
pub fn settled_devices_compare_equal()
    ensures trees { (s t : State) → s.link.remote.items ≡ t.link.remote.items → IsOrderly s → IsOrderly t → is_settled_whole s ≡ true → is_settled_whole t ≡ true → (path : List ℕ) → AgreeAt (path_rows s) (path_rows t) path }
    ensures equal { (s t : State) → s.link.remote.items ≡ t.link.remote.items → IsOrderly s → IsOrderly t → is_settled_whole s ≡ true → is_settled_whole t ≡ true → no_comparison s.power t.power ≡ None → Compares s t comparison.Equal }
    ensures only { (s t : State) (c : Comparison) → s.link.remote.items ≡ t.link.remote.items → IsOrderly s → IsOrderly t → is_settled_whole s ≡ true → is_settled_whole t ≡ true → no_comparison s.power t.power ≡ None → Compares s t c → c ≡ comparison.Equal }
{}

/// The files that both have at a path have equal contents.
#[tactic(auto, using(crate::proofs::SettledRows::contents_equal))]
pub fn settled_devices_have_equal_contents()
    ensures { (s t : State) (path : List ℕ) (i j : Item) → s.link.remote.items ≡ t.link.remote.items → IsOrderly s → IsOrderly t → is_settled_whole s ≡ true → is_settled_whole t ≡ true → no_comparison s.power t.power ≡ None
        → row_at (path_rows s) path ≡ Some (path_row (items_now s) i) → row_at (path_rows t) path ≡ Some (path_row (items_now t) j)
        → i.directory ≡ false → j.directory ≡ false → content s.link.remote i ≡ content t.link.remote j }
{}
