//! The provider.

ghost use Rattle.std.specs.Prelude.{◌≡◌, ◌+◌, OnErr, OnOk};
ghost use Rattle.cf_engine_provider.specs.Agencies.{agency_to};

use cf_base::{OutOfMemory, no_such_state};
use cf_link::Link;
use cf_remote::Remote;
use std::alloc::Global;
use std::marker::Model;

/// The engine as a provider: the link, and what is known of the running event.
#[derive(Drop)]
pub struct Agent<R: Remote> {
    pub(crate) alloc: Global,
    pub(crate) link: Link<R>,
    pub(crate) shows_skips: bool,
    skips: u64,
}

impl<R: Remote> Model for Agent<R> {
    ghost use Rattle.cf_engine_provider.specs.Agencies.{Agency};

    ghost Value = { Agency R };

    ghost view = { λ a. record { link = a.link; shows_skips = a.shows_skips; skips = a.skips } };
}

impl<R: Remote> Agent<R> {
    /// The provider on a link, in an event in which no step was left out. `shows_skips` says whether a step that is left out has
    /// a line in it. Takes no memory.
    pub fn new(alloc: Global, link: Link<R>, shows_skips: bool) -> Agent<R>
        ensures { result ≡ record { link = link; shows_skips = shows_skips; skips = 0 } }
    {
        Agent {
            alloc,
            link,
            shows_skips,
            skips: 0,
        }
    }

    /// An event begins, in which no step was left out.
    pub fn begin(&mut self, shows_skips: bool)
        ensures { self.new ≡ record self.old { shows_skips = shows_skips; skips = 0 } }
    {
        self.shows_skips = shows_skips;
        self.skips = 0;
    }

    /// Whether a step that is left out has a line in the running event.
    pub fn shows_skips(&self) -> bool
        ensures { result ≡ self.now.shows_skips }
    {
        self.shows_skips
    }

    /// How many steps were left out in the running event.
    pub fn skips(&self) -> u64
        ensures { result ≡ self.now.skips }
    {
        self.skips
    }

    /// The link.
    pub fn link(&self) -> &Link<R>
        ensures { result.now ≡ self.now.link }
    {
        &self.link
    }

    /// The same provider with another remote, of any kind, and the remote that it had. All else stays.
    pub fn with_remote<S: Remote>(self, remote: S) -> (Agent<S>, R)
        ensures agent { result.0 ≡ agency_to remote self }
        ensures back { result.1 ≡ self.link.remote }
    {
        let Agent {
            alloc,
            link,
            shows_skips,
            skips,
        } = self;
        let (link, former) = link.with_remote(remote);
        let agent = Agent {
            alloc,
            link,
            shows_skips,
            skips,
        };
        (agent, former)
    }

    /// The link.
    pub fn into_link(self) -> Link<R>
        ensures { result ≡ self.link }
    {
        self.link
    }

    /// Counts a step that was left out. There never are 2^64 of them: that is answered as out of memory, and the count stays.
    pub fn count_skip(&mut self) -> Result<(), OutOfMemory>
        ensures ok { OnOk result (self.new ≡ record self.old { skips = self.old.skips + 1 }) }
        ensures err { OnErr result (self.new ≡ self.old) }
    {
        match self.skips.checked_add(1) {
            Some(skips) => {
                self.skips = skips;
                Ok(())
            }
            None => Err(no_such_state()),
        }
    }
}
