//! An event of a third device, which has the remote for so long.

ghost use Rattle.cf_pair_run.specs.Turns.{Visits};

use crate::turns::passed;
use cf_base::{Answer, OutOfMemory, PeerEvent};
use cf_engine::SyncActor;
use cf_pair_lane::{Away, Lane};
use cf_pair_model::Device;
use cf_remote::Remote;

/// Does an event of the third device, and answers it. Its tokens have the epoch 0, which no other device has, so its lane is one
/// that passes all on unchanged.
pub(crate) fn visit<R: Remote>(
    third: SyncActor<Away>,
    remote: R,
    event: &PeerEvent,
) -> (SyncActor<Away>, R, Result<Answer, OutOfMemory>)
    ensures { Visits R.told event.now third remote result.2 result.0 result.1 }
{
    let (mut actor, _away) = third.with_remote(Lane::new(remote, Device::First));
    let told = actor.peer(event);
    let (actor, lane) = actor.with_remote(Away);
    let told = passed(&lane, Device::First, told);
    (actor, lane.into_inner(), told)
}
