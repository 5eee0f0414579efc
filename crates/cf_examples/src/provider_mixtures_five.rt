//! Events of a provider in a random order.

ghost use Rattle.cf_base.specs.declared.policies.Mode.TheVariants.{Filter};
ghost use Rattle.cf_examples.specs.Transcripts.{Plays};
ghost use Rattle.cf_examples.specs.ProviderMixturesFive as provider_mixtures_five;

/// Thirty events, made at random.
pub fn provider_mixture_thirteen()
    ensures { Plays Filter provider_mixtures_five.provider_mixture_thirteen }
{}

/// Thirty events, made at random.
pub fn provider_mixture_fourteen()
    ensures { Plays Filter provider_mixtures_five.provider_mixture_fourteen }
{}

/// Thirty events, made at random.
pub fn provider_mixture_fifteen()
    ensures { Plays Filter provider_mixtures_five.provider_mixture_fifteen }
{}
