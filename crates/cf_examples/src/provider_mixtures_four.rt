//! Events of a provider in a random order.

ghost use Rattle.std.specs.Prelude.{[]};
ghost use Rattle.cf_base.specs.declared.policies.Mode.TheVariants.{Filter};
ghost use Rattle.cf_examples.specs.Transcripts.{Plays, PlaysLines};
ghost use Rattle.cf_examples.specs.ProviderMixturesFour as provider_mixtures_four;

/// Thirty events, made at random.
pub fn provider_mixture_ten()
    ensures { PlaysLines Filter 15616 [] provider_mixtures_four.provider_mixture_ten }
{}

/// Thirty events, made at random.
pub fn provider_mixture_eleven()
    ensures { Plays Filter provider_mixtures_four.provider_mixture_eleven }
{}

/// Thirty events, made at random.
pub fn provider_mixture_twelve()
    ensures { Plays Filter provider_mixtures_four.provider_mixture_twelve }
{}
