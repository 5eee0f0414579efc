//! The world of a script of two devices.

ghost use Rattle.std.specs.Prelude.{◌≡◌, ℕ, IfErr, IfOk, List};
ghost use Rattle.cf_base.specs.declared.policies.Mode.TheVariants as mode;
ghost use Rattle.cf_disk.specs.Disk.{size_of};
ghost use Rattle.cf_filter_events.specs.Counted.{GoesOn};
ghost use Rattle.cf_filter_events.specs.Meaning.{Is};
ghost use Rattle.cf_filter_events.specs.Pasts.{Past, StandsFor};
ghost use Rattle.cf_filter_events.specs.Stepped.{disk_of};
ghost use Rattle.cf_journal.specs.Settled.{IsFitSize};
ghost use Rattle.cf_model.specs.Powers.{StandsNow};
ghost use Rattle.cf_model.specs.State.{start};
ghost use Rattle.cf_model.specs.Store.{Held};
ghost use Rattle.cf_pair_traces.specs.Pairs.{Pair};
ghost use Rattle.cf_pair_run.specs.Sharing.{Shares, resting};
ghost use Rattle.cf_pair_run.specs.Steps.{Begun, IsStopped};
ghost use Rattle.cf_volume.specs.Calls.{IsCause, StopsOnly};
ghost use Rattle.cf_volume_points.specs.Standing.{clusters_for};

use cf_base::CallError;
use cf_disk::Disk;
use cf_engine::SyncActor;
use cf_filter_events::Acting;
use cf_pair_lane::Away;
use cf_remote::Remote;
use std::alloc::Global;

/// Two devices and a third one, all at rest, and the remote that they share.
#[derive(Drop)]
pub struct PairWorld<D: Disk, R: Remote> {
    pub(crate) first: Acting<D, SyncActor<Away>>,
    pub(crate) second: Acting<D, SyncActor<Away>>,
    pub(crate) third: SyncActor<Away>,
    pub(crate) remote: R,
}

// A device that was just made on its disk.
fn new_device<D: Disk>(alloc: Global, disk: D) -> Result<Acting<D, SyncActor<Away>>, (D, CallError)>
    requires { IsFitSize (size_of (D.state disk)) }
    ensures ok { (held : Held) (past : Past) → past.told ≡ (D.state disk).powers → IfOk result (λ a. Is resting D.state past a (start mode.Replay held (clusters_for (D.state disk)))) }
    ensures goes_on { IfOk result (λ a. GoesOn (D.state disk) (D.state (disk_of a))) }
    ensures only { IfErr result (λ e. StopsOnly e.1) }
    ensures cause { IfErr result (λ e. IsCause e.1 (D.state disk) (D.state e.0)) }
{
    match Acting::start(alloc, disk, SyncActor::new(alloc, Away)) {
        Ok(acting) => Ok(acting),
        Err((disk, actor, fail)) => {
            drop(actor);
            Err((disk, fail))
        }
    }
}

impl<D: Disk, R: Remote> PairWorld<D, R> {
    /// A world in which nothing has happened: a volume is made on each disk, both of a fit size, whatever these held. Refused as
    /// Device where a call of a disk failed, and as OutOfMemory; then disks and remote come back.
    pub fn start(
        alloc: Global,
        first: D,
        second: D,
        remote: R,
    ) -> Result<PairWorld<D, R>, (D, D, R, CallError)>
        requires first { IsFitSize (size_of (D.state first)) }
        requires second { IsFitSize (size_of (D.state second)) }
        ensures ok { IfOk result (Begun D.state R.told first second remote) }
        ensures back { IfErr result (λ e. e.2 ≡ remote) }
        ensures only { IfErr result (λ e. StopsOnly e.3) }
        ensures cause { IfErr result (λ e. IsStopped e.3 (D.state first) (D.state second) (D.state e.0) (D.state e.1)) }
    {
        let ours = match new_device(alloc, first) {
            Ok(ours) => ours,
            Err((first, fail)) => return Err((first, second, remote, fail)),
        };
        match new_device(alloc, second) {
            Ok(theirs) => Ok(PairWorld {
                first: ours,
                second: theirs,
                third: SyncActor::new(alloc, Away),
                remote,
            }),
            Err((second, fail)) => {
                let (first, actor) = ours.finish();
                drop(actor);
                Err((first, second, remote, fail))
            }
        }
    }

    /// The disk of the first device, that of the second, and the remote. Each disk reports the power cuts that the world knows of.
    /// Whatever a crash leaves of it stands for a point that a restart of its device may open.
    pub fn finish(self) -> (D, D, R)
        ensures first_lasts { (a b : Past) (p : Pair) → Shares D.state R.told a b self p → (c : List ℕ) → (D.state result.0).may_leave c → StandsNow StandsFor p.first c }
        ensures second_lasts { (a b : Past) (p : Pair) → Shares D.state R.told a b self p → (c : List ℕ) → (D.state result.1).may_leave c → StandsNow StandsFor p.second c }
        ensures first_powers { (a b : Past) (p : Pair) → Shares D.state R.told a b self p → (D.state result.0).powers ≡ a.told }
        ensures second_powers { (a b : Past) (p : Pair) → Shares D.state R.told a b self p → (D.state result.1).powers ≡ b.told }
        ensures first { result.0 ≡ disk_of self.first }
        ensures second { result.1 ≡ disk_of self.second }
        ensures remote { result.2 ≡ self.remote }
    {
        let PairWorld {
            first,
            second,
            third,
            remote,
        } = self;
        drop(third);
        let (first, ours) = first.finish();
        drop(ours);
        let (second, theirs) = second.finish();
        drop(theirs);
        (first, second, remote)
    }
}
