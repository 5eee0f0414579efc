//! Volumes on a plain ground, taken back to their last point.

ghost use Rattle.std.specs.Prelude.{◌≡◌, ◌+◌, ◌∷◌, ◌⊎◌, List, false, take, IfErr, IfOk};
ghost use Rattle.cf_base.specs.declared.codes.Code.TheVariants.{Exhausted};
ghost use Rattle.cf_model.specs.Numbers.{most};
ghost use Rattle.cf_model.specs.State.{Point, Volume as model};
ghost use Rattle.cf_volume.specs.Calls.{IsRefused, StopsOnly};
ghost use Rattle.cf_volume.specs.Written.{IsAtPoint};
ghost use Rattle.cf_volume_plain.specs.Plains.{plain_state};
ghost use Rattle.cf_volume_points.specs.At.{At};
ghost use Rattle.cf_volume_points.specs.Standing.{opened};

use crate::plains::Plain;
use cf_base::CallError;
use cf_volume::VolumeOn;
use std::alloc::Global;

/// The volume that begins with the last point of one that no call broke, in the next epoch. A commit is wanted after as many
/// changes as `aim` says, if it says a number. Exhausted where the epoch is the last one. OutOfMemory where there is none.
pub fn restart(
    alloc: Global,
    volume: VolumeOn<Plain>,
    aim: Option<u64>,
) -> Result<VolumeOn<Plain>, CallError>
    requires at { (v : model) × At (plain_state volume.disk) volume.known v }
    requires usable { volume.known.broken ≡ false }
    ensures ok { IfOk result (λ w. (v : model) (p : Point) (earlier : List Point) → At (plain_state volume.disk) volume.known v → v.points ≡ p ∷ earlier → At (plain_state w.disk) w.known (opened (v.epoch + 1) (take p.count v.log) p.book v.clusters)) }
    ensures ground { IfOk result (λ w. w.disk ≡ record volume.disk { aim = aim }) }
    ensures usable { IfOk result (λ w. w.known.broken ≡ false) }
    ensures noted { IfOk result (λ w. IsAtPoint w.known) }
    ensures only { IfErr result (λ e. StopsOnly e ⊎ IsRefused e Exhausted) }
    ensures last { IfErr result (λ e. IsRefused e Exhausted → volume.known.epoch ≡ most) }
{
    match volume.into_last_point() {
        Ok((ground, parts)) => match VolumeOn::of_parts(alloc, ground.with_aim(aim), parts) {
            Ok(volume) => Ok(volume),
            Err(_) => Err(CallError::OutOfMemory),
        },
        Err((_, fail)) => Err(fail),
    }
}
