//! A remote that is with the other device.

use cf_base::{Reply, Request, no_such_state};
use cf_remote::{AskError, Remote};

/// What a device has in the place of the remote while that is with the other device. It reports nothing. It is never asked: an ask
/// of it is answered as out of memory.
#[derive(Clone, Copy)]
pub struct Away;

impl Remote for Away {
    ghost use Rattle.cf_pair_lane.specs.Absences.{told_away};

    ghost told = { told_away };

    fn ask(&mut self, _q: &Request) -> Result<Reply, AskError> {
        Err(AskError::from(no_such_state()))
    }
}
