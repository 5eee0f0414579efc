//! Filters made and opened.

ghost use Rattle.std.specs.Prelude.{◌≡◌, Some, option_map};
ghost use Rattle.cf_disk.specs.Disk.{IsUnchanged};
ghost use Rattle.cf_filter.specs.Starting.{desk_at};

use crate::filters::{Filter, FilterOn};
use cf_base::{CallError, Policy};
use cf_disk::Disk;
use cf_filter_machine::{Desk, Machine, MachineOn};
use cf_volume::{Volume, VolumeOn};
use cf_volume_ground::{DiskGround, Ground};
use std::alloc::Global;

fn arm_on<D: Disk>(machine: &mut Machine<D>, calls: u32)
    ensures same { IsUnchanged (D.state machine.old.disk) (D.state machine.new.disk) }
    ensures armed { (D.state machine.new.disk).armed ≡ option_map (λ _. Some calls) (D.state machine.old.disk).armed }
    ensures known { machine.new.known ≡ machine.old.known }
    ensures desk { machine.new.desk ≡ machine.old.desk }
{
    machine.volume.arm(calls);
}

impl<G: Ground> FilterOn<G> {
    ghost use Rattle.std.specs.Prelude.{◌≡◌, false, ℕ, List};
    ghost use Rattle.cf_base.specs.declared.changes.Change.{Change};
    ghost use Rattle.cf_base.specs.declared.ids.Usn.{Usn};
    ghost use Rattle.cf_filter_machine.specs.Keeping.{IsKeptVolume};
    ghost use Rattle.cf_filter_machine.specs.Sensing.{Stands};
    ghost use Rattle.cf_model.specs.Books.{Book};
    ghost use Rattle.cf_model.specs.State.{new_filter, new_volume};
    ghost use Rattle.cf_volume_points.specs.At.{At};
    ghost use Rattle.cf_volume_points.specs.Standing.{opened};

    /// A filter on a volume that was just made or opened, under this policy, with a provider connected: nothing is open and
    /// nothing waits.
    pub fn on_volume(alloc: Global, volume: VolumeOn<G>, policy: Policy) -> FilterOn<G>
        ensures is { result ≡ record { disk = volume.disk; known = volume.known; desk = desk_at volume.known.epoch policy } }
        ensures new { (clusters : ℕ) → volume.known.broken ≡ false → At (G.state volume.disk) volume.known (new_volume clusters) → Stands G.state result (new_filter (new_volume clusters) policy) }
        ensures opened { (epoch : ℕ) (log : List (Usn × Change)) (b : Book) (clusters : ℕ) → volume.known.broken ≡ false → At (G.state volume.disk) volume.known (opened epoch log b clusters) → IsKeptVolume (opened epoch log b 0) → Stands G.state result (new_filter (opened epoch log b clusters) policy) }
    {
        let desk = Desk::new(alloc, volume.epoch(), policy);
        FilterOn {
            machine: MachineOn { volume, desk },
        }
    }

    /// The volume. What stands in memory beside it is gone.
    pub fn into_volume(self) -> VolumeOn<G>
        ensures { result ≡ record { disk = self.disk; known = self.known } }
    {
        let MachineOn { volume, desk } = self.machine;
        drop(desk);
        volume
    }
}

impl<D: Disk> FilterOn<DiskGround<D>> {
    ghost use Rattle.std.specs.Prelude.{◌+◌, ◌<◌, ◌⊎◌, ℕ, List, IfErr, IfOk};
    ghost use Rattle.cf_base.specs.declared.changes.Change.{Change};
    ghost use Rattle.cf_base.specs.declared.codes.Code.TheVariants.{Exhausted, NotAVolume};
    ghost use Rattle.cf_base.specs.declared.ids.Usn.{Usn};
    ghost use Rattle.cf_volume_commit.specs.Loaded.{HoldsImage, StandsOrWas};
    ghost use Rattle.cf_disk.specs.Disk.{Leaves, size_of};
    ghost use Rattle.cf_filter_machine.specs.Keeping.{IsKeptVolume};
    ghost use Rattle.cf_filter_machine.specs.Sensing.{Stands, Stopped};
    ghost use Rattle.cf_journal.specs.Settled.{IsFitSize};
    ghost use Rattle.cf_journal.specs.Steps.{ReadsOnly};
    ghost use Rattle.cf_model.specs.Books.{Book};
    ghost use Rattle.cf_model.specs.Formats.{Image};
    ghost use Rattle.cf_model.specs.Numbers.{most};
    ghost use Rattle.cf_model.specs.State.{Filter as model, new_filter, new_volume};
    ghost use Rattle.cf_volume_points.specs.Standing.{Standing, clusters_for, opened};
    ghost use Rattle.cf_volume.specs.Calls.{IsCause, IsRefused, Runs, StopsOnly};
    ghost use Rattle.cf_volume.specs.Openings.{IsOpenedFrom};

    /// Makes a volume on a disk of a fit size, whatever that held, and opens it under this policy, with a provider
    /// connected. Device where a call of the disk failed, OutOfMemory where there is none; then the disk comes back.
    pub fn format(alloc: Global, disk: D, policy: Policy) -> Result<Filter<D>, (D, CallError)>
        requires { IsFitSize (size_of (D.state disk)) }
        ensures ok { IfOk result (λ f. Stands D.state f (new_filter (new_volume (clusters_for (D.state disk))) policy)) }
        ensures only { IfErr result (λ e. StopsOnly e.1) }
        ensures cause { IfErr result (λ e. IsCause e.1 (D.state disk) (D.state e.0)) }
        ensures runs { IfOk result (λ f. Runs (D.state disk) (D.state f.disk)) }
        ensures runs_back { IfErr result (λ e. Runs (D.state disk) (D.state e.0)) }
    {
        match Volume::format(alloc, disk) {
            Ok(volume) => Ok(FilterOn::on_volume(alloc, volume, policy)),
            Err(back) => Err(back),
        }
    }

    /// Opens the volume on a disk of a fit size under this policy, with a provider connected: nothing is open and nothing
    /// waits. NotAVolume exactly where the disk holds no image of a volume, and Exhausted exactly where it holds one of the
    /// last epoch; then nothing is written. Device where a call of the disk failed. OutOfMemory where there is none. The disk
    /// comes back then.
    ///
    /// A crash at any moment leaves what it might have left before, or the same changes and book, with the epoch as it was
    /// or raised.
    pub fn open(alloc: Global, disk: D, policy: Policy) -> Result<Filter<D>, (D, CallError)>
        requires { IsFitSize (size_of (D.state disk)) }
        ensures ok { (epoch : ℕ) (log : List (Usn × Change)) (b : Book) → Standing epoch (D.state disk).seen log b → IsKeptVolume (opened (epoch + 1) log b 0) → IfOk result (λ f. Stands D.state f (new_filter (opened (epoch + 1) log b (clusters_for (D.state disk))) policy)) }
        ensures found { IfOk result (λ f. (i : Image) × HoldsImage (D.state disk).seen i × (i.header.last.epoch < most) × IsOpenedFrom i f.known) }
        ensures absent { IfErr result (λ e. IsRefused e.1 NotAVolume → (i : Image) → HoldsImage (D.state disk).seen i → ⊥) }
        ensures exhausted { IfErr result (λ e. IsRefused e.1 Exhausted → (i : Image) × HoldsImage (D.state disk).seen i × (i.header.last.epoch ≡ most)) }
        ensures unwritten { IfErr result (λ e. IsRefused e.1 NotAVolume ⊎ IsRefused e.1 Exhausted → ReadsOnly (D.state disk) (D.state e.0)) }
        ensures none { (epoch : ℕ) (log : List (Usn × Change)) (b : Book) → Standing epoch (D.state disk).seen log b → IfErr result (λ e. IsRefused e.1 NotAVolume → ⊥) }
        ensures last { (epoch : ℕ) (log : List (Usn × Change)) (b : Book) → Standing epoch (D.state disk).seen log b → IfErr result (λ e. IsRefused e.1 Exhausted → epoch ≡ most) }
        ensures more { (epoch : ℕ) (log : List (Usn × Change)) (b : Book) → Standing epoch (D.state disk).seen log b → IfOk result (λ f. epoch < most) }
        ensures only { IfErr result (λ e. StopsOnly e.1 ⊎ (IsRefused e.1 NotAVolume ⊎ IsRefused e.1 Exhausted)) }
        ensures crash { (epoch : ℕ) (log : List (Usn × Change)) (b : Book) → Standing epoch (D.state disk).seen log b → IfOk result (λ f. Leaves (D.state disk) (D.state f.disk) (StandsOrWas epoch log b (D.state disk))) }
        ensures crash_back { (epoch : ℕ) (log : List (Usn × Change)) (b : Book) → Standing epoch (D.state disk).seen log b → IfErr result (λ e. Leaves (D.state disk) (D.state e.0) (StandsOrWas epoch log b (D.state disk))) }
        ensures cause { IfErr result (λ e. IsCause e.1 (D.state disk) (D.state e.0)) }
        ensures runs { IfOk result (λ f. Runs (D.state disk) (D.state f.disk)) }
        ensures runs_back { IfErr result (λ e. Runs (D.state disk) (D.state e.0)) }
    {
        match Volume::open(alloc, disk) {
            Ok(volume) => Ok(FilterOn::on_volume(alloc, volume, policy)),
            Err(back) => Err(back),
        }
    }

    /// The disk.
    pub fn into_disk(self) -> D
        ensures { result ≡ self.disk }
    {
        let MachineOn { volume, desk } = self.machine;
        drop(desk);
        volume.into_disk()
    }

    /// Hands the number to the disk's `arm`, and changes nothing else: it stands for what it stood for.
    pub fn arm(&mut self, calls: u32)
        ensures stands { (s : model) → Stands D.state self.old s → Stands D.state self.new s }
        ensures stopped { (s : model) → Stopped D.state self.old s → Stopped D.state self.new s }
        ensures same { IsUnchanged (D.state self.old.disk) (D.state self.new.disk) }
        ensures armed { (D.state self.new.disk).armed ≡ option_map (λ _. Some calls) (D.state self.old.disk).armed }
        ensures known { self.new.known ≡ self.old.known }
        ensures desk { self.new.desk ≡ self.old.desk }
    {
        arm_on(&mut self.machine, calls);
    }
}
