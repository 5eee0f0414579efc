//! Laws of sets, maps and claims, for the crates above.
ghost use Rattle.std.specs.Prelude.{◌≡◌, ◌<◌, ◌+◌, ◌-◌, ℕ, List, false, ◌∷◌};
ghost use Rattle.cf_base.specs.declared.ids.Key.{Key};
ghost use Rattle.cf_base.specs.declared.spans.Span.{Span};
ghost use Rattle.cf_ranges.specs.Owned.{overlaps, TakesBlocks, GivesBack, AreClaims};
ghost use Rattle.cf_ranges.specs.Pairs.{cluster_at, IsRising};
ghost use Rattle.cf_ranges.specs.Positions.{contains, IsRuns};

/// Two sets with the same positions have the same runs.
#[tactic(auto, using(crate::proofs::One::one_list))]
pub fn one_list_of_runs()
    ensures { (a b : List Span) → IsRuns a → IsRuns b → ((p : ℕ) → contains a p ≡ contains b p) → a ≡ b }
{}

/// Two maps with the same clusters at each block have the same pairs.
#[tactic(auto, using(crate::proofs::Maps::one_list))]
pub fn one_list_of_pairs()
    ensures { (a b : List (ℕ × ℕ)) → IsRising a → IsRising b → ((k : ℕ) → cluster_at a k ≡ cluster_at b k) → a ≡ b }
{}

/// A claim that is taken shares no block with the others.
pub fn taken_is_apart()
    ensures { (old new : List ℕ) (c : Key × Span) (cs : List (Key × Span)) → AreClaims old cs → overlaps old c.1 ≡ false → TakesBlocks old new c.1 → AreClaims new (c ∷ cs) }
{}

/// The other claims of a book stay when one is spent.
#[tactic(auto, using(crate::proofs::OwnedSets::claims_spent))]
pub fn others_stay()
    ensures { (old new : List ℕ) (c : Key × Span) (cs : List (Key × Span)) → AreClaims old (c ∷ cs) → GivesBack old new c.1 → AreClaims new cs }
{}

/// The parts of a claim share no block, with each other or with the other claims.
pub fn claim_splits()
    ensures { (owned : List ℕ) (c : Key × Span) (cs : List (Key × Span)) (at : ℕ) → c.1.start < at → at < c.1.start + c.1.len → AreClaims owned (c ∷ cs) → AreClaims owned ((c.0, record { start = c.1.start; len = at - c.1.start }) ∷ (c.0, record { start = at; len = c.1.start + c.1.len - at }) ∷ cs) }
{}
