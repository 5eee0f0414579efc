//! Lanes.

ghost use Rattle.std.specs.Prelude.{◌≡◌, Err, true, false};
ghost use Rattle.cf_pair_lane.specs.Lanes.{Sends, is_of_lane, told_by};
ghost use Rattle.cf_remote.specs.Told.{counted};
ghost use Rattle.cf_remote.specs.declared.ask_errors.AskError.TheVariants.{Fault};
ghost use Rattle.cf_wire.specs.Spelled.{HasRoom};

use crate::crossings::is_of_lane;
use crate::sending::send;
use cf_base::{Reply, Request};
use cf_pair_model::Device;
use cf_remote::{AskError, Remote};
use std::marker::Model;

/// A remote that two devices share, as one of them sees it. It does not report which asks fail, nor how often the remote was
/// asked: that counts the asks of both devices.
#[derive(Drop)]
pub struct Lane<R: Remote> {
    inner: R,
    device: Device,
    faults: u64,
}

impl<R: Remote> Model for Lane<R> {
    ghost use Rattle.cf_pair_lane.specs.Lanes.{Laned};

    ghost Value = { Laned R };

    ghost view = { λ l. record { inner = l.inner; device = l.device; faults = l.faults } };
}

impl<R: Remote> Lane<R> {
    /// The lane of this device to the remote. Takes no memory.
    pub fn new(inner: R, device: Device) -> Lane<R>
        ensures { result ≡ record { inner = inner; device = device; faults = 0 } }
    {
        Lane {
            inner,
            device,
            faults: 0,
        }
    }

    /// The device whose lane it is.
    pub fn device(&self) -> Device
        ensures { result ≡ self.now.device }
    {
        self.device
    }

    /// How many requests did not come to the remote, because the device cannot give their token.
    pub fn refused(&self) -> u64
        ensures { result ≡ self.now.faults }
    {
        self.faults
    }

    /// The remote, as it stands on its own side.
    pub fn into_inner(self) -> R
        ensures { result ≡ self.inner }
    {
        self.inner
    }

    /// Asks the remote as the device does, and gives the reply as the device gets it. A request with a token that the
    /// device cannot give, with an epoch of `LANE_EPOCHS` or more, does not come to the remote: it is answered Fault, which
    /// is counted. At OutOfMemory all is as before.
    pub fn pass(&mut self, q: &Request) -> Result<Reply, AskError>
        requires { HasRoom q.now }
        ensures sent { is_of_lane q.now ≡ true → Sends R.told self.old.device q.now self.old.inner result self.new.inner }
        ensures stays { is_of_lane q.now ≡ true → self.new ≡ record self.old { inner = self.new.inner } }
        ensures not_sent { is_of_lane q.now ≡ false → result ≡ Err Fault }
        ensures counted { is_of_lane q.now ≡ false → self.new ≡ record self.old { faults = counted self.old.faults } }
    {
        if is_of_lane(q) {
            return send(self.device, &mut self.inner, q);
        }
        self.faults = self.faults.saturating_add(1);
        Err(AskError::Fault)
    }
}

impl<R: Remote> Remote for Lane<R> {
    ghost told = { told_by R.told };

    fn ask(&mut self, q: &Request) -> Result<Reply, AskError> {
        self.pass(q)
    }
}
