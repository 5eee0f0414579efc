//! The engine on a disk, as a library.

ghost use Rattle.std.specs.Prelude.{◌≡◌, ◌+◌, ◌⊎◌, ℕ, List, IfErr, IfOk, Ok, false, true};
ghost use Rattle.cf_base.specs.declared.changes.Change.{Change};
ghost use Rattle.cf_base.specs.declared.codes.Code.TheVariants.{Exhausted, NotAVolume};
ghost use Rattle.cf_base.specs.declared.events.DeviceEvent.TheVariants as device;
ghost use Rattle.cf_base.specs.declared.events.EngineEvent.TheVariants as engine;
ghost use Rattle.cf_base.specs.declared.events.Event.TheVariants as events;
ghost use Rattle.cf_base.specs.declared.ids.Usn.{Usn};
ghost use Rattle.cf_base.specs.declared.policies.Mode.TheVariants as mode;
ghost use Rattle.cf_disk.specs.Disk.{Leaves, size_of};
ghost use Rattle.cf_engine.specs.Actors.{new_engine};
ghost use Rattle.cf_engine.specs.Engines.{Does, IsSyncing, on_volume};
ghost use Rattle.cf_engine.specs.Openings.{FitsKnown, IsOfEngine};
ghost use Rattle.cf_filter_events.specs.Actors.{is_device_event};
ghost use Rattle.cf_filter_events.specs.Pasts.{Past, StandsFor};
ghost use Rattle.cf_filter_events.specs.Stepped.{BearsOn};
ghost use Rattle.cf_filter_machine.specs.Keeping.{IsKeptVolume};
ghost use Rattle.cf_journal.specs.Settled.{IsFitSize};
ghost use Rattle.cf_link.specs.Linked.{IsLink};
ghost use Rattle.cf_model.specs.Books.{Book};
ghost use Rattle.cf_model.specs.Events.{is_of};
ghost use Rattle.cf_model.specs.Formats.{Image};
ghost use Rattle.cf_model.specs.Powers.{StandsNow};
ghost use Rattle.cf_model.specs.Numbers.{most};
ghost use Rattle.cf_model.specs.State.{Link as link_model, State, new_volume};
ghost use Rattle.cf_volume.specs.Calls.{IsCause, IsMemory, IsRefused, StopsOnly};
ghost use Rattle.cf_volume_commit.specs.Loaded.{HoldsImage, StandsOrWas};
ghost use Rattle.cf_volume_points.specs.Standing.{Standing, clusters_for, opened};

use crate::actors::SyncActor;
use crate::openings::fits_engine;
use cf_base::{Answer, Call, CallError, Code, EngineEvent, Event, OutOfMemory, Policy};
use cf_disk::Disk;
use cf_filter::Filter;
use cf_filter_events::{Running, RunningOn};
use cf_journal::one_content;
use cf_link::Link;
use cf_remote::Remote;
use std::alloc::Global;
use std::marker::Model;

/// A folder of cloud files on a disk, and an engine that keeps it as the remote has it. It is a filter, the provider of its callbacks,
/// and a link to the remote.
///
/// Each call of an application and each event of the engine gives an `Answer`: its lines, what it shows, or by which code it was refused.
/// Where one is refused as Device a call of the disk failed: its lines are those of what was done before, and all that needs the volume
/// is refused as Broken until the volume is opened again. Where memory runs out there is no answer, and nothing more is promised of the
/// engine.
#[derive(Drop)]
pub struct SyncEngine<D: Disk, R: Remote> {
    alloc: Global,
    running: Running<D, SyncActor<R>>,
}

impl<D: Disk, R: Remote> Model for SyncEngine<D, R> {
    ghost use Rattle.cf_engine.specs.Actors.{Syncing};
    ghost use Rattle.cf_filter_events.specs.declared.places.RunningOn.{RunningOn as Run};

    ghost Value = { Run D (Syncing R) };

    ghost view = { λ e. e.running };
}

fn on_filter<D: Disk, R: Remote>(
    alloc: Global,
    filter: Filter<D>,
    link: Link<R>,
) -> SyncEngine<D, R>
    ensures { result ≡ record { filter = filter; actor = new_engine link } }
{
    let actor = SyncActor::on_link(alloc, link);
    SyncEngine {
        alloc,
        running: RunningOn { filter, actor },
    }
}

// An engine on a filter that was just opened. Refused as NotAVolume exactly where no engine left its volume.
fn on_opened<D: Disk, R: Remote>(
    alloc: Global,
    filter: Filter<D>,
    link: Link<R>,
) -> Result<SyncEngine<D, R>, (D, Link<R>, CallError)>
    ensures ok { IfOk result (λ e. e ≡ record { filter = filter; actor = new_engine link }) }
    ensures fits { IfOk result (λ e. FitsKnown filter.known) }
    ensures unfit { IfErr result (λ e. IsRefused e.2 NotAVolume → FitsKnown filter.known → ⊥) }
    ensures disk { IfErr result (λ e. e.0 ≡ filter.disk) }
    ensures back { IfErr result (λ e. e.1 ≡ link) }
    ensures only { IfErr result (λ e. IsMemory e.2 ⊎ IsRefused e.2 NotAVolume) }
{
    match fits_engine(alloc, filter.rows(), filter.volume().records()) {
        Ok(true) => Ok(on_filter(alloc, filter, link)),
        Ok(false) => Err((filter.into_disk(), link, CallError::No(Code::NotAVolume))),
        Err(OutOfMemory) => Err((filter.into_disk(), link, CallError::OutOfMemory)),
    }
}

impl<D: Disk, R: Remote> SyncEngine<D, R> {
    /// Makes a volume on a disk of a fit size, whatever that held, and opens it under this policy, which is one of `replay`, with this
    /// link. Refused as Device where a call of the disk failed, and as out of memory; then disk and link come back.
    pub fn format(
        alloc: Global,
        disk: D,
        policy: Policy,
        link: Link<R>,
    ) -> Result<SyncEngine<D, R>, (D, Link<R>, CallError)>
        requires { IsFitSize (size_of (D.state disk)) }
        ensures ok { (l : link_model) → IsLink R.told link l → IfOk result (λ e. (past : Past) → past.told ≡ (D.state disk).powers → IsSyncing D.state R.told past e (on_volume policy l (new_volume (clusters_for (D.state disk))))) }
        ensures back { IfErr result (λ e. e.1 ≡ link) }
        ensures only { IfErr result (λ e. StopsOnly e.2) }
        ensures cause { IfErr result (λ e. IsCause e.2 (D.state disk) (D.state e.0)) }
    {
        match Filter::format(alloc, disk, policy) {
            Ok(filter) => Ok(on_filter(alloc, filter, link)),
            Err((disk, error)) => Err((disk, link, error)),
        }
    }

    /// Opens the volume on a disk of a fit size under this policy, which is one of `replay`, with this link: nothing is open, nothing
    /// waits, and the engine knows nothing that is not on the volume. Refused as NotAVolume exactly where the disk holds no volume, or one
    /// that no engine leaves, as Exhausted exactly where its epoch is the last, as Device where a call of the disk failed, and as out of
    /// memory; then disk and link come back.
    ///
    /// An engine leaves identities that are empty or of 24 bytes, and auxiliary records that each say something of a book. What an upload
    /// of a file or of a directory is about was given an id, and if it is still here, it is a placeholder of that kind, whose anchor is
    /// the upload's number. Where this does not hold the epoch on the disk has risen by one before the refusal.
    ///
    /// A crash at any moment leaves what it might have left before, or the same changes and book, with the epoch as it was or raised.
    pub fn open(
        alloc: Global,
        disk: D,
        policy: Policy,
        link: Link<R>,
    ) -> Result<SyncEngine<D, R>, (D, Link<R>, CallError)>
        requires { IsFitSize (size_of (D.state disk)) }
        ensures ok { (l : link_model) (epoch : ℕ) (log : List (Usn × Change)) (b : Book) → IsLink R.told link l → Standing epoch (D.state disk).seen log b → IsKeptVolume (opened (epoch + 1) log b 0) → IfOk result (λ e. (past : Past) → past.told ≡ (D.state disk).powers → IsSyncing D.state R.told past e (on_volume policy l (opened (epoch + 1) log b (clusters_for (D.state disk))))) }
        ensures found { IfOk result (λ e. (i : Image) × HoldsImage (D.state disk).seen i × IsOfEngine i) }
        ensures absent { IfErr result (λ e. IsRefused e.2 NotAVolume → (i : Image) → HoldsImage (D.state disk).seen i → IsOfEngine i → ⊥) }
        ensures none { (epoch : ℕ) (log : List (Usn × Change)) (b : Book) (stands : Standing epoch (D.state disk).seen log b) → IsOfEngine stands.image → IfErr result (λ e. IsRefused e.2 NotAVolume → ⊥) }
        ensures last { (epoch : ℕ) (log : List (Usn × Change)) (b : Book) → Standing epoch (D.state disk).seen log b → IfErr result (λ e. IsRefused e.2 Exhausted → epoch ≡ most) }
        ensures crash { (epoch : ℕ) (log : List (Usn × Change)) (b : Book) → Standing epoch (D.state disk).seen log b → IfErr result (λ e. Leaves (D.state disk) (D.state e.0) (StandsOrWas epoch log b (D.state disk))) }
        ensures back { IfErr result (λ e. e.1 ≡ link) }
        ensures only { IfErr result (λ e. StopsOnly e.2 ⊎ (IsRefused e.2 NotAVolume ⊎ IsRefused e.2 Exhausted)) }
        ensures cause { IfErr result (λ e. IsCause e.2 (D.state disk) (D.state e.0)) }
    {
        one_content();
        match Filter::open(alloc, disk, policy) {
            Ok(filter) => on_opened(alloc, filter, link),
            Err((disk, error)) => Err((disk, link, error)),
        }
    }

    /// The disk and the link. Whatever a crash leaves of the disk stands for a point that may be opened; the link has its messages and
    /// its remote.
    pub fn into_parts(self) -> (D, Link<R>)
        ensures lasts { (past : Past) (s : State) → IsSyncing D.state R.told past self s → (c : List ℕ) → (D.state result.0).may_leave c → StandsNow StandsFor s c }
        ensures link { (past : Past) (s : State) → IsSyncing D.state R.told past self s → IsLink R.told result.1 s.link }
    {
        let RunningOn { filter, actor } = self.running;
        (filter.into_disk(), actor.into_link())
    }

    /// The filter, to be read.
    pub fn filter(&self) -> &Filter<D>
        ensures { result.now ≡ self.now.filter }
    {
        &self.running.filter
    }

    /// The link, to be read.
    pub fn link(&self) -> &Link<R>
        ensures { result.now ≡ self.now.actor.engine.agent.link }
    {
        self.running.actor.link()
    }

    /// From now on this many more calls of the disk pass, and those after them fail, if the disk is one that can be armed. It is done also
    /// after the device failed, and answered as done.
    pub fn arm(&mut self, calls: u32) -> Answer
        ensures does { Does D.state R.told (events.Device (device.Stop calls)) self.old (Ok result) self.new }
        ensures armed { BearsOn (device.Stop calls) (D.state self.old.filter.disk) (D.state self.new.filter.disk) }
    {
        self.running.stop(self.alloc, calls)
    }

    // An event that is none of the device.
    fn event(&mut self, event: &Event) -> Result<Answer, OutOfMemory>
        requires of { is_of mode.Replay event.now ≡ true }
        requires other { is_device_event event.now ≡ false }
        ensures { Does D.state R.told event.now self.old result self.new }
    {
        self.running.act(self.alloc, event)
    }

    fn engine_event(&mut self, event: EngineEvent) -> Result<Answer, OutOfMemory>
        ensures { Does D.state R.told (events.Engine event) self.old result self.new }
    {
        let event = Event::Engine(event);
        let told = self.event(&event);
        drop(event);
        told
    }

    /// A call of an application. It is answered as the filter answers it, and calls the engine back for what it waits for. Each call
    /// says in `cf_base::Call` what it does; it is refused as Broken first, and then as its own rules say.
    pub fn app(&mut self, call: Call) -> Result<Answer, OutOfMemory>
        ensures { Does D.state R.told (events.Call call) self.old result self.new }
    {
        let event = Event::Call(call);
        let told = self.event(&event);
        drop(event);
        told
    }

    /// One pass of the engine: what became of uploads, what changed at the remote, and uploads of what it lacks. Refused, in this
    /// order, as Broken and as ProviderDown, and as Device.
    pub fn work(&mut self) -> Result<Answer, OutOfMemory>
        ensures { Does D.state R.told (events.Engine engine.Work) self.old result self.new }
    {
        self.engine_event(EngineEvent::Work)
    }

    /// Passes until one has nothing more to do, or the most are made; under a link that is not inline it is one pass. It shows how many
    /// removals are still to be uploaded and how many items are not in sync, without those that are in use or are never uploaded. Refused
    /// as `work` is.
    pub fn sync(&mut self) -> Result<Answer, OutOfMemory>
        ensures { Does D.state R.told (events.Engine engine.Sync) self.old result self.new }
    {
        self.engine_event(EngineEvent::Sync)
    }

    /// Hands the reply with this message number to the engine. Refused, in this order, as Broken, as ProviderDown, as NoMessage where the
    /// number names no reply that is kept, as Stale where nothing waits for it, and as Device.
    pub fn on_reply(&mut self, message: u32) -> Result<Answer, OutOfMemory>
        ensures { Does D.state R.told (events.Engine (engine.Deliver message)) self.old result self.new }
    {
        self.engine_event(EngineEvent::Deliver { message })
    }

    /// Hands the request with this message number to the remote, which sends its reply. Refused as NoMessage where the number names no
    /// request that is kept. It needs no volume: it is done also after the device failed.
    pub fn arrive(&mut self, message: u32) -> Result<Answer, OutOfMemory>
        ensures { Does D.state R.told (events.Engine (engine.Arrive message)) self.old result self.new }
    {
        self.engine_event(EngineEvent::Arrive { message })
    }

    /// Whether requests come to the remote, and replies are taken, at once. It needs no volume.
    pub fn set_inline(&mut self, inline: bool) -> Result<Answer, OutOfMemory>
        ensures { Does D.state R.told (events.Engine (engine.Link inline)) self.old result self.new }
    {
        self.engine_event(EngineEvent::Link { inline })
    }

    /// Dehydrates files, those whose last access is longest ago first, until at most that many blocks of 4,096 bytes are used, or none is
    /// left that may be. It shows by how many blocks the used ones fell. Refused, in this order, as Broken, as PolicyDenied where the
    /// policy does not allow it, as Exhausted where numbers for it are lacking, and as Device.
    pub fn space(&mut self, blocks: u32) -> Result<Answer, OutOfMemory>
        ensures { Does D.state R.told (events.Engine (engine.Space blocks)) self.old result self.new }
    {
        self.engine_event(EngineEvent::Space { blocks })
    }
}
