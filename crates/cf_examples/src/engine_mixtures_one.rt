//! Events of the engine and its remote in a random order.

ghost use Rattle.cf_base.specs.declared.policies.Mode.TheVariants.{Replay};
ghost use Rattle.cf_examples.specs.Transcripts.{Plays};
ghost use Rattle.cf_examples.specs.EngineMixturesOne as engine_mixtures_one;

/// Thirty events, made at random.
pub fn engine_mixture_one()
    ensures { Plays Replay engine_mixtures_one.engine_mixture_one }
{}

/// Thirty events, made at random.
pub fn engine_mixture_two()
    ensures { Plays Replay engine_mixtures_one.engine_mixture_two }
{}

/// Thirty events, made at random.
pub fn engine_mixture_three()
    ensures { Plays Replay engine_mixtures_one.engine_mixture_three }
{}
