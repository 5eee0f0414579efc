//! Requests of a device, as they come to the remote.

ghost use Rattle.cf_pair_lane.specs.Lanes.{Sends};
ghost use Rattle.cf_pair_model.specs.declared.devices.Device.TheVariants as device;
ghost use Rattle.cf_wire.specs.Spelled.{HasRoom};

use crate::crossings::{crossed_reply, crossed_request};
use cf_base::{Reply, Request};
use cf_pair_model::Device;
use cf_remote::{AskError, Remote};

fn send_crossed<R: Remote>(inner: &mut R, q: &Request) -> Result<Reply, AskError>
    requires { HasRoom q.now }
    ensures { Sends R.told device.Second q.now inner.old result inner.new }
{
    let sent = crossed_request(q.copy()?);
    let reply = inner.ask(&sent);
    drop(sent);
    Ok(crossed_reply(reply?))
}

/// Asks the remote as the device does, and gives the reply as the device gets it.
pub(crate) fn send<R: Remote>(device: Device, inner: &mut R, q: &Request) -> Result<Reply, AskError>
    requires { HasRoom q.now }
    ensures { Sends R.told device q.now inner.old result inner.new }
{
    match device {
        Device::First => inner.ask(q),
        Device::Second => send_crossed(inner, q),
    }
}
