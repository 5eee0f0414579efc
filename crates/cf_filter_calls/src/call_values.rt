//! Calls as values.

use cf_base::{Class, Handle, Identity, Mode, Pin, Policy, Reach, Span, Usn, WaitId};
use cf_item_rules::Creation;

/// A call that asks a provider nothing, by the name of its function.
#[derive(Clone, Copy)]
pub enum PlainCall<'a> {
    OpenFile {
        path: &'a str,
    },
    Flush,
    SetPolicy {
        mode: Mode,
        policy: &'a Policy,
    },
    Connect {
        on: bool,
    },
    Create {
        path: &'a str,
        what: &'a Creation,
    },
    Convert {
        path: &'a str,
        identity: &'a Identity,
    },
    Revert {
        path: &'a str,
    },
    Update {
        path: &'a str,
        identity: &'a Identity,
        size: Option<u64>,
    },
    Unmark {
        path: &'a str,
    },
    Delete {
        mode: Mode,
        path: &'a str,
    },
    Rename {
        from: &'a str,
        to: &'a str,
    },
    SetPin {
        path: &'a str,
        pin: Pin,
        reach: Reach,
    },
}

/// A call that may ask a provider, by the name of its function.
#[derive(Clone, Copy)]
pub enum AskingCall<'a> {
    Close {
        handle: Handle,
    },
    Cancel {
        wait: WaitId,
    },
    Tick {
        ticks: u32,
    },
    Read {
        handle: Handle,
        span: Span,
    },
    Get {
        path: &'a str,
        span: Span,
    },
    List {
        path: &'a str,
    },
    Hydrate {
        path: &'a str,
    },
    Dehydrate {
        path: &'a str,
        range: Option<(u64, u64)>,
    },
    Write {
        handle: Handle,
        at: u64,
        bytes: &'a [u8],
    },
    SetSize {
        handle: Handle,
        size: u64,
    },
    SetInSync {
        path: &'a str,
        number: Usn,
    },
    KeepFull {
        path: &'a str,
        on: bool,
    },
}

/// A call that changes nothing, by the name of its function.
#[derive(Clone, Copy)]
pub enum Question<'a> {
    Info { path: &'a str },
    Ranges { path: &'a str, class: Class },
    Used { path: &'a str },
    Df,
}
