//! Events of the engine and its remote in a random order.

ghost use Rattle.cf_base.specs.declared.policies.Mode.TheVariants.{Replay};
ghost use Rattle.cf_examples.specs.Transcripts.{Plays};
ghost use Rattle.cf_examples.specs.EngineMixturesFive as engine_mixtures_five;

/// Thirty events, made at random.
pub fn engine_mixture_thirteen()
    ensures { Plays Replay engine_mixtures_five.engine_mixture_thirteen }
{}

/// Thirty events, made at random.
pub fn engine_mixture_fourteen()
    ensures { Plays Replay engine_mixtures_five.engine_mixture_fourteen }
{}

/// Thirty events, made at random.
pub fn engine_mixture_fifteen()
    ensures { Plays Replay engine_mixtures_five.engine_mixture_fifteen }
{}
