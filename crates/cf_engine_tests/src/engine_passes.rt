//! What comes of a sync where the remote's replies are none that fit: no script has such a remote.

ghost use Rattle.cf_wire.specs.Spelled.{ReplyHasRoom};

use crate::filter::{SIZE, format};
use cf_base::{
    CallError, Hydration, Key, Notes, Policy, Population, Reply, Request, Rid, Sequence, Shown,
    Token, Version,
};
use cf_disk::MemDisk;
use cf_engine_passes::sync;
use cf_engine_steps::Engine;
use cf_filter::Filter;
use cf_item_rules::Creation;
use cf_link::Link;
use cf_remote::{AskError, Remote};
use std::alloc::Global;
use std::test::Fail;

const POLICY: Policy = Policy {
    hydration: Hydration::Partial,
    population: Population::Partial,
    validate: false,
    restart: false,
    auto: false,
};

const NO_KEY: Key = Key {
    epoch: 0,
    number: 0,
};

/// What a remote answers to each request.
#[derive(Clone, Copy)]
enum Lie {
    /// That nothing is there.
    Missing,
    /// That it did another upload.
    AnotherUpload,
    /// That it made the root.
    TheRoot,
    /// That it did an upload of an earlier epoch.
    EarlierEpoch,
}

#[derive(Drop)]
struct Liar {
    lie: Lie,
}

// The token of an upload that makes a file.
fn token_of(request: &Request) -> Token {
    match request {
        Request::Put { token, .. } => *token,
        Request::Settle { token } => *token,
        _ => Token(NO_KEY),
    }
}

fn done(token: Token, rid: u64) -> Reply
    ensures { ReplyHasRoom result }
{
    Reply::Done {
        token,
        rid: Rid(rid),
        version: Version(1),
    }
}

fn before(token: Token) -> Token {
    Token(Key {
        epoch: 0,
        number: token.0.number,
    })
}

fn reply_of(lie: Lie, token: Token) -> Reply
    ensures { ReplyHasRoom result }
{
    match lie {
        Lie::Missing => Reply::Missing { key: NO_KEY },
        Lie::AnotherUpload => done(Token(NO_KEY), 2),
        Lie::TheRoot => done(token, 1),
        Lie::EarlierEpoch => done(before(token), 2),
    }
}

impl Remote for Liar {
    ghost use Rattle.std.specs.Prelude.{None};

    ghost told = { λ _. record { held = None; asks = None; fails = None; faults = 0 } };

    fn ask(&mut self, request: &Request) -> Result<Reply, AskError> {
        Ok(reply_of(self.lie, token_of(request)))
    }
}

// A new file, and the engine as its provider.
fn begins(filter: &mut Filter<MemDisk>, notes: &mut Notes) -> Result<(), CallError> {
    let kind = Creation::File;
    let made = filter.create("/f", &kind, notes);
    drop(kind);
    made?;
    filter.connect(true, notes)
}

fn syncs(
    filter: &mut Filter<MemDisk>,
    engine: &mut Engine<Liar>,
    notes: &mut Notes,
) -> Result<Shown, CallError> {
    engine.begin();
    filter.begin(notes)?;
    let told = match sync(filter, engine) {
        Ok(shown) => Ok(Ok(shown)),
        Err(fail) => Err(fail),
    };
    filter.finish_with(told, notes)
}

// How many items the sync of a new file leaves.
fn left(
    filter: &mut Filter<MemDisk>,
    engine: &mut Engine<Liar>,
    notes: &mut Notes,
) -> Result<u64, CallError> {
    begins(filter, notes)?;
    let shown = syncs(filter, engine, notes)?;
    let count = match &shown {
        Shown::Count(count) => *count,
        _ => 0,
    };
    drop(shown);
    Ok(count)
}

fn left_by(alloc: Global, lie: Lie) -> Result<u64, CallError> {
    let disk = MemDisk::new(alloc, SIZE)?;
    let mut filter = format(alloc, disk, POLICY)?;
    let mut engine = Engine::new(alloc, Link::new(alloc, Liar { lie }));
    let mut notes = Sequence::new(alloc);
    let count = left(&mut filter, &mut engine, &mut notes);
    drop(notes);
    drop(engine);
    drop(filter);
    count
}

#[test]
fn a_reply_that_does_not_fit_settles_nothing(rt: HostRuntime) -> Result<(), Fail> {
    let lies = [
        Lie::Missing,
        Lie::AnotherUpload,
        Lie::TheRoot,
        Lie::EarlierEpoch,
    ];
    for lie in lies {
        assert_eq!(rt; left_by(rt.alloc(), lie)?, 1);
    }
    Ok(())
}
