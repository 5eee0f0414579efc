//! Events of a provider in a random order.

ghost use Rattle.cf_base.specs.declared.policies.Mode.TheVariants.{Filter};
ghost use Rattle.cf_examples.specs.Transcripts.{Plays};
ghost use Rattle.cf_examples.specs.ProviderMixturesThree as provider_mixtures_three;

/// Thirty events, made at random.
pub fn provider_mixture_seven()
    ensures { Plays Filter provider_mixtures_three.provider_mixture_seven }
{}

/// Thirty events, made at random.
pub fn provider_mixture_eight()
    ensures { Plays Filter provider_mixtures_three.provider_mixture_eight }
{}

/// Thirty events, made at random.
pub fn provider_mixture_nine()
    ensures { Plays Filter provider_mixtures_three.provider_mixture_nine }
{}
