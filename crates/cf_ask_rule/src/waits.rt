//! Calls that wait.
ghost use Rattle.std.specs.Prelude.{◌≡◌, ◌<◌, IfNone, IfSome};
ghost use Rattle.cf_base.specs.declared.limits.TheConstants.{MOST_NUMBER};
ghost use Rattle.cf_model.specs.Numbers.{same_key};
ghost use Rattle.cf_model.specs.Requests.{is_background, is_dehydrate_wait, is_hydrate_wait, is_list_wait};

use cf_base::{Handle, ItemId, Key, Span, WaitId, WaitKind};
use std::marker::Model;

/// The number of a wait. One that is only tried may be past the last that there is.
#[derive(Clone, Copy)]
pub struct WaitNumber {
    epoch: u32,
    number: u64,
}

impl Model for WaitNumber {
    ghost use Rattle.cf_base.specs.declared.ids.WaitId.{WaitId};

    ghost Value = { WaitId };

    ghost view = { λ n. record { 0 = record { epoch = n.epoch; number = n.number } } };

    ghost inverse = { λ n. record { epoch = n.0.epoch; number = n.0.number } };
}

impl WaitNumber {
    /// A number of the epoch.
    pub fn new(epoch: u32, number: u64) -> WaitNumber
        ensures { result ≡ record { 0 = record { epoch = epoch; number = number } } }
    {
        WaitNumber { epoch, number }
    }

    /// The number that a wait has.
    pub fn of(id: WaitId) -> WaitNumber
        ensures { result ≡ id }
    {
        WaitNumber {
            epoch: id.0.epoch,
            number: id.0.number as u64,
        }
    }

    /// Where it stands in its epoch.
    pub fn number(&self) -> u64
        ensures { result ≡ self.now.0.number }
    {
        self.number
    }

    /// Whether they are the same.
    pub fn is(&self, other: WaitNumber) -> bool
        ensures { result ≡ same_key self.now.0 other.0 }
    {
        self.epoch == other.epoch && self.number == other.number
    }

    /// The wait of this number, or nothing where it is past the last.
    pub fn id(&self) -> Option<WaitId>
        ensures some { IfSome result (λ id. id ≡ self.now) }
        ensures none { IfNone result (MOST_NUMBER < self.now.0.number) }
    {
        if self.number > u32::MAX as u64 {
            return None;
        }
        Some(WaitId(Key {
            epoch: self.epoch,
            number: self.number as u32,
        }))
    }
}

/// A call that waits. The span is what a read was asked for, or what is to be dehydrated; of other kinds it is empty.
#[derive(Clone, Copy)]
pub struct Wait {
    id: WaitId,
    kind: WaitKind,
    item: ItemId,
    handle: Option<Handle>,
    span: Span,
}

impl Model for Wait {
    ghost use Rattle.cf_model.specs.Missing.{Wait};

    ghost Value = { Wait };

    ghost view = { λ w. record { id = w.id; kind = w.kind; item = w.item; handle = w.handle; span = w.span } };

    ghost inverse = { λ w. record { id = w.id; kind = w.kind; item = w.item; handle = w.handle; span = w.span } };
}

impl Wait {
    /// The number of the wait.
    pub fn id(&self) -> WaitId
        ensures { result ≡ self.now.id }
    {
        self.id
    }

    /// What it is for.
    pub fn kind(&self) -> WaitKind
        ensures { result ≡ self.now.kind }
    {
        self.kind
    }

    /// The item that it is on.
    pub fn item(&self) -> ItemId
        ensures { result ≡ self.now.item }
    {
        self.item
    }

    /// The handle that it came through.
    pub fn handle(&self) -> Option<Handle>
        ensures { result ≡ self.now.handle }
    {
        self.handle
    }

    /// What a read was asked for, or what is to be dehydrated.
    pub fn span(&self) -> Span
        ensures { result ≡ self.now.span }
    {
        self.span
    }
}

/// A wait as it is kept, or as it is tried under a number past the last.
#[derive(Clone, Copy)]
pub struct LiveWait {
    id: WaitNumber,
    kind: WaitKind,
    item: ItemId,
    handle: Option<Handle>,
    span: Span,
}

impl Model for LiveWait {
    ghost use Rattle.cf_model.specs.Missing.{Wait};

    ghost Value = { Wait };

    ghost view = { λ w. record { id = w.id; kind = w.kind; item = w.item; handle = w.handle; span = w.span } };

    ghost inverse = { λ w. record { id = w.id; kind = w.kind; item = w.item; handle = w.handle; span = w.span } };
}

impl LiveWait {
    /// A wait of these.
    pub fn new(
        id: WaitNumber,
        kind: WaitKind,
        item: ItemId,
        handle: Option<Handle>,
        span: Span,
    ) -> LiveWait
        ensures { result ≡ record { id = id; kind = kind; item = item; handle = handle; span = span } }
    {
        LiveWait {
            id,
            kind,
            item,
            handle,
            span,
        }
    }

    /// Its number.
    pub fn id(&self) -> WaitNumber
        ensures { result ≡ self.now.id }
    {
        self.id
    }

    /// What it is for.
    pub fn kind(&self) -> WaitKind
        ensures { result ≡ self.now.kind }
    {
        self.kind
    }

    /// The item that it is on.
    pub fn item(&self) -> ItemId
        ensures { result ≡ self.now.item }
    {
        self.item
    }

    /// The handle that it came through.
    pub fn handle(&self) -> Option<Handle>
        ensures { result ≡ self.now.handle }
    {
        self.handle
    }

    /// What a read was asked for, or what is to be dehydrated.
    pub fn span(&self) -> Span
        ensures { result ≡ self.now.span }
    {
        self.span
    }

    /// The wait that is told, or nothing where its number is past the last.
    pub fn told(&self) -> Option<Wait>
        ensures some { IfSome result (λ w. w ≡ self.now) }
        ensures none { IfNone result (MOST_NUMBER < self.now.id.0.number) }
    {
        let id = self.id.id()?;
        Some(Wait {
            id,
            kind: self.kind,
            item: self.item,
            handle: self.handle,
            span: self.span,
        })
    }
}

/// Whether two keys are the same.
pub fn is_same_key(a: Key, b: Key) -> bool
    ensures { result ≡ same_key a b }
{
    a.epoch == b.epoch && a.number == b.number
}

/// Whether a wait is for the entries of a directory.
pub fn is_list_wait(kind: WaitKind) -> bool
    ensures { result ≡ is_list_wait kind }
{
    match kind {
        WaitKind::List => true,
        _ => false,
    }
}

/// Whether a wait is for consent to a dehydration.
pub fn is_dehydrate_wait(kind: WaitKind) -> bool
    ensures { result ≡ is_dehydrate_wait kind }
{
    match kind {
        WaitKind::Dehydrate => true,
        _ => false,
    }
}

/// Whether a wait is a hydration of the whole file.
pub fn is_hydrate_wait(kind: WaitKind) -> bool
    ensures { result ≡ is_hydrate_wait kind }
{
    match kind {
        WaitKind::Hydrate => true,
        _ => false,
    }
}

/// Whether a wait is for the rest of a file, begun beside a read.
pub fn is_background(kind: WaitKind) -> bool
    ensures { result ≡ is_background kind }
{
    match kind {
        WaitKind::Background => true,
        _ => false,
    }
}
