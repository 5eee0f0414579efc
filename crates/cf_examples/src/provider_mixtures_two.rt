//! Events of a provider in a random order.

ghost use Rattle.cf_base.specs.declared.policies.Mode.TheVariants.{Filter};
ghost use Rattle.cf_examples.specs.Transcripts.{Plays};
ghost use Rattle.cf_examples.specs.ProviderMixturesTwo as provider_mixtures_two;

/// Thirty events, made at random.
pub fn provider_mixture_four()
    ensures { Plays Filter provider_mixtures_two.provider_mixture_four }
{}

/// Thirty events, made at random.
pub fn provider_mixture_five()
    ensures { Plays Filter provider_mixtures_two.provider_mixture_five }
{}

/// Thirty events, made at random.
pub fn provider_mixture_six()
    ensures { Plays Filter provider_mixtures_two.provider_mixture_six }
{}
