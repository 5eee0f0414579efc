//! Where the volume of a device is.

ghost use Rattle.std.specs.Prelude.{◌≡◌};

use crate::told_remotes::ToldRemote;
use cf_base::Policy;
use cf_engine::SyncActor;
use cf_filter_events::RunningOn;
use cf_pair_lane::Away;
use cf_volume::VolumeOn;
use cf_volume_plain::Plain;

/// The volume is off. It is as the crash found it, and the policy stands for the next opening.
#[derive(Drop)]
pub struct Resting {
    pub(crate) volume: VolumeOn<Plain>,
    pub(crate) policy: Policy,
    pub(crate) actor: SyncActor<ToldRemote>,
}

/// The volume with its engine and its remote. It is lost where memory ran out in an event.
#[derive(Drop)]
pub enum Place {
    On(RunningOn<Plain, SyncActor<ToldRemote>>),
    Off(Resting),
    Lost,
}

// The same engine, the next asks of whose remote fail or not, in turn.
fn with_tellings(actor: SyncActor<ToldRemote>, fails: Vec<bool>) -> SyncActor<ToldRemote>
    ensures { result ≡ actor }
{
    let (actor, remote) = actor.with_remote(Away);
    let (actor, _away) = actor.with_remote(remote.with_tellings(fails));
    actor
}

impl Place {
    /// The same place, where the next asks of the remote fail or not, in turn. Those after them do not fail.
    pub(crate) fn with_tellings(self, fails: Vec<bool>) -> Place
        ensures { result ≡ self }
    {
        match self {
            Place::On(RunningOn { filter, actor }) => {
                let actor = with_tellings(actor, fails);
                Place::On(RunningOn { filter, actor })
            }
            Place::Off(
                Resting {
                    volume,
                    policy,
                    actor,
                },
            ) => {
                let actor = with_tellings(actor, fails);
                Place::Off(Resting {
                    volume,
                    policy,
                    actor,
                })
            }
            Place::Lost => Place::Lost,
        }
    }
}
