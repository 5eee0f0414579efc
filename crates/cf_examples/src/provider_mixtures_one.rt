//! Events of a provider in a random order.

ghost use Rattle.cf_base.specs.declared.policies.Mode.TheVariants.{Filter};
ghost use Rattle.cf_examples.specs.Transcripts.{Plays};
ghost use Rattle.cf_examples.specs.ProviderMixturesOne as provider_mixtures_one;

/// Thirty events, made at random.
pub fn provider_mixture_one()
    ensures { Plays Filter provider_mixtures_one.provider_mixture_one }
{}

/// Thirty events, made at random.
pub fn provider_mixture_two()
    ensures { Plays Filter provider_mixtures_one.provider_mixture_two }
{}

/// Thirty events, made at random.
pub fn provider_mixture_three()
    ensures { Plays Filter provider_mixtures_one.provider_mixture_three }
{}
