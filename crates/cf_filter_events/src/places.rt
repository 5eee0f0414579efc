//! Where the volume is.

ghost use Rattle.std.specs.Prelude.{◌≡◌};
ghost use Rattle.cf_filter_events.specs.Stepped.{actor_of, with_actor};
ghost use Rattle.cf_model.specs.Arrows.{unit};

use cf_base::Policy;
use cf_disk::Disk;
use cf_filter::FilterOn;
use cf_volume_ground::{DiskGround, Ground};

/// The volume is open under a filter, and an actor beside it.
#[derive(Drop)]
pub struct RunningOn<G: Ground, A> {
    pub filter: FilterOn<G>,
    pub actor: A,
}

/// The same of a volume on a disk.
pub type Running<D, A> = RunningOn<DiskGround<D>, A>;

/// The power was cut, and the volume is not yet open again. The policy stands for the next opening.
#[derive(Drop)]
pub struct Cut<D: Disk, A> {
    pub(crate) disk: D,
    pub(crate) policy: Policy,
    // No event met Device before the power was cut.
    pub(crate) whole: bool,
    pub(crate) actor: A,
}

/// The world that a script acts on.
#[derive(Drop)]
pub enum Acting<D: Disk, A> {
    On(Running<D, A>),
    Off(Cut<D, A>),
}

impl<D: Disk, A> Acting<D, A> {
    /// The actor, and the world without it.
    pub fn apart(self) -> (Acting<D, ()>, A)
        ensures rest { result.0 ≡ with_actor unit self }
        ensures actor { result.1 ≡ actor_of self }
    {
        match self {
            Acting::On(RunningOn { filter, actor }) => {
                (Acting::On(RunningOn { filter, actor: () }), actor)
            }
            Acting::Off(
                Cut {
                    disk,
                    policy,
                    whole,
                    actor,
                },
            ) => {
                let rest = Cut {
                    disk,
                    policy,
                    whole,
                    actor: (),
                };
                (Acting::Off(rest), actor)
            }
        }
    }
}

impl<D: Disk> Acting<D, ()> {
    /// The same world with this actor.
    pub fn with_actor<A>(self, actor: A) -> Acting<D, A>
        ensures { result ≡ with_actor actor self }
    {
        match self {
            Acting::On(RunningOn { filter, .. }) => Acting::On(RunningOn { filter, actor }),
            Acting::Off(
                Cut {
                    disk,
                    policy,
                    whole,
                    ..
                },
            ) => Acting::Off(Cut {
                disk,
                policy,
                whole,
                actor,
            }),
        }
    }
}
