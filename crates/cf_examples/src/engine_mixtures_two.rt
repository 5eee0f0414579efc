//! Events of the engine and its remote in a random order.

ghost use Rattle.cf_base.specs.declared.policies.Mode.TheVariants.{Replay};
ghost use Rattle.cf_examples.specs.Transcripts.{Plays};
ghost use Rattle.cf_examples.specs.EngineMixturesTwo as engine_mixtures_two;

/// Thirty events, made at random.
pub fn engine_mixture_four()
    ensures { Plays Replay engine_mixtures_two.engine_mixture_four }
{}

/// Thirty events, made at random.
pub fn engine_mixture_five()
    ensures { Plays Replay engine_mixtures_two.engine_mixture_five }
{}

/// Thirty events, made at random.
pub fn engine_mixture_six()
    ensures { Plays Replay engine_mixtures_two.engine_mixture_six }
{}
