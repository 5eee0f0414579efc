//! The engine on a port that keeps what it does, and on which no ask is live.

use cf_base::{Ask, AskKind, Identity, ItemId, Key, Notice, Operation, OutOfMemory, Span};
use cf_engine_provider::Agent;
use cf_link::Link;
use cf_provider::{Callback, Kept, Provider, Recorder};
use cf_remote::StoreRemote;
use cf_table::Rows;
use std::alloc::Global;
use std::test::Fail as TestFail;

const ROOT: ItemId = ItemId(1);

const NO_ITEM: ItemId = ItemId(9);

fn call(alloc: Global, kind: AskKind, item: ItemId) -> Result<Callback, OutOfMemory> {
    let identity = Identity::new(alloc, b"")?;
    Ok(Callback {
        ask: Ask {
            key: Key {
                epoch: 1,
                number: 1,
            },
            kind,
            item,
            span: Span { start: 0, len: 4 },
        },
        identity,
        base: 0,
    })
}

fn agent(alloc: Global) -> Result<Agent<StoreRemote>, OutOfMemory> {
    let remote = StoreRemote::new(alloc)?;
    let link = Link::new(alloc, remote);
    Ok(Agent::new(alloc, link, true))
}

fn answer(
    alloc: Global,
    kind: AskKind,
    item: ItemId,
    port: &mut Recorder,
) -> Result<(), OutOfMemory> {
    let call = call(alloc, kind, item)?;
    let mut agent = agent(alloc)?;
    let done = agent.on_callback(&call, port);
    drop(call);
    drop(agent);
    done
}

fn is_message(kept: Option<&Kept>, number: u32) -> bool {
    match kept {
        Some(Kept::Note(Notice::Message(sent))) => sent.message == number && !sent.lost,
        _ => false,
    }
}

fn is_consent(kept: Option<&Kept>) -> bool {
    match kept {
        Some(Kept::Done(Operation::AckDehydrate { good, .. }, _)) => *good,
        _ => false,
    }
}

/// All that the engine does.
#[derive(Clone, Copy)]
enum Acts {
    Nothing,
    Consent,
    /// A request and its reply have their lines.
    Lines,
}

fn are(acts: &[Kept], wanted: Acts) -> bool {
    match wanted {
        Acts::Nothing => acts.is_empty(),
        Acts::Consent => acts.len() == 1 && is_consent(acts.get(0)),
        Acts::Lines => {
            acts.len() == 2 && is_message(acts.get(0), 1) && is_message(acts.get(1), 2)
        }
    }
}

// Whether the engine does this where it is asked, with a remote of nothing.
fn does(alloc: Global, kind: AskKind, item: ItemId, wanted: Acts) -> Result<bool, OutOfMemory> {
    let rows = Rows::new(alloc)?;
    let mut port = Recorder::new(alloc, rows);
    let done = answer(alloc, kind, item, &mut port);
    let is_so = are(port.acts(), wanted);
    drop(port);
    done?;
    Ok(is_so)
}

#[test]
fn a_dehydration_is_consented_to(rt: HostRuntime) -> Result<(), TestFail> {
    assert!(rt; does(rt.alloc(), AskKind::Dehydrate, ROOT, Acts::Consent)?);
    Ok(())
}

#[test]
fn nothing_is_sent_about_an_item_that_is_gone(rt: HostRuntime) -> Result<(), TestFail> {
    assert!(rt; does(rt.alloc(), AskKind::Fetch, NO_ITEM, Acts::Nothing)?);
    assert!(rt; does(rt.alloc(), AskKind::List, NO_ITEM, Acts::Nothing)?);
    Ok(())
}

#[test]
fn a_reply_to_an_ask_that_is_dead_has_its_line_alone(rt: HostRuntime) -> Result<(), TestFail> {
    assert!(rt; does(rt.alloc(), AskKind::Fetch, ROOT, Acts::Lines)?);
    assert!(rt; does(rt.alloc(), AskKind::List, ROOT, Acts::Lines)?);
    Ok(())
}
