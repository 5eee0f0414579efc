//! Steps that are done: what goes out of waits and asks, what changes, and what comes. For what comes there is room.
ghost use Rattle.std.specs.Prelude.{◌≡◌, ◌≤◌, ◌++◌, filter, length, map, not, OnOk};
ghost use Rattle.std.specs.List.{AllByRecursion, list_any};
ghost use Rattle.cf_model.specs.Numbers.{same_key};
ghost use Rattle.cf_model.specs.Words.{says};
ghost use Rattle.cf_waits.specs.Rising.{IsRising, ask_key, wait_key};
ghost use Rattle.cf_waits.specs.Steps.{changed_by, is_ended, is_gone};

use crate::ask_books::AskBook;
use crate::wait_books::WaitBook;
use cf_ask_rule::{LiveAsk, LiveWait};
use cf_base::{Cause, Key, OutOfMemory};

/// Makes room for so many more waits and asks.
pub(crate) fn make_room(
    waits: &mut WaitBook,
    asks: &mut AskBook,
    more_waits: usize,
    more_asks: usize,
) -> Result<(), OutOfMemory>
    ensures waits { waits.new.waits ≡ waits.old.waits }
    ensures asks { asks.new.asks ≡ asks.old.asks }
    ensures room_waits { OnOk result (more_waits ≤ waits.new.room) }
    ensures room_asks { OnOk result (more_asks ≤ asks.new.room) }
{
    waits.reserve(more_waits)?;
    asks.reserve(more_asks)?;
    Ok(())
}

/// Waits begin, and waits end.
pub(crate) fn turn_waits(book: &mut WaitBook, begun: &[LiveWait], ended: &[(LiveWait, Cause)])
    requires rising { IsRising wait_key (book.old.waits ++ begun.now) }
    requires room { length begun.now ≤ book.old.room }
    ensures { book.new.waits ≡ filter (λ w. not (is_ended ended.now w)) (book.old.waits ++ begun.now) }
{
    add_waits(book, begun);
    end_waits(book, ended);
}

fn add_waits(book: &mut WaitBook, begun: &[LiveWait])
    requires rising { IsRising wait_key (book.old.waits ++ begun.now) }
    requires room { length begun.now ≤ book.old.room }
    ensures { book.new.waits ≡ book.old.waits ++ begun.now }
{
    for w in begun {
        book.add(*w);
    }
}

fn end_waits(book: &mut WaitBook, ended: &[(LiveWait, Cause)])
    ensures { book.new.waits ≡ filter (λ w. not (is_ended ended.now w)) book.old.waits }
{
    for e in ended {
        book.remove(e.0.id());
    }
}

/// Asks go, one changes, and asks are made.
pub(crate) fn turn_asks(
    book: &mut AskBook,
    cancelled: &[Key],
    dropped: Option<Key>,
    changed: Option<LiveAsk>,
    made: Vec<LiveAsk>,
)
    requires rising { IsRising ask_key (map (changed_by changed) (filter (λ a. not (is_gone cancelled.now dropped a)) book.old.asks) ++ made.items) }
    requires begins { AllByRecursion (λ a. a.ticks ≡ 0) made.items }
    requires room { length made.items ≤ book.old.room }
    ensures { book.new.asks ≡ map (changed_by changed) (filter (λ a. not (is_gone cancelled.now dropped a)) book.old.asks) ++ made.items }
{
    cancel_asks(book, cancelled);
    drop_ask(book, dropped);
    change_ask(book, changed);
    add_asks(book, made);
}

fn cancel_asks(book: &mut AskBook, cancelled: &[Key])
    ensures asks { book.new.asks ≡ filter (λ a. not (list_any (same_key a.ask.key) cancelled.now)) book.old.asks }
    ensures room { book.old.room ≤ book.new.room }
{
    for key in cancelled {
        book.remove(*key);
    }
}

fn drop_ask(book: &mut AskBook, dropped: Option<Key>)
    ensures asks { book.new.asks ≡ filter (λ a. not (says (same_key a.ask.key) dropped)) book.old.asks }
    ensures room { book.old.room ≤ book.new.room }
{
    match dropped {
        Some(key) => book.remove(key),
        None => {}
    }
}

fn change_ask(book: &mut AskBook, changed: Option<LiveAsk>)
    ensures asks { book.new.asks ≡ map (changed_by changed) book.old.asks }
    ensures room { book.old.room ≤ book.new.room }
{
    match changed {
        Some(from) => book.change(from),
        None => {}
    }
}

fn add_asks(book: &mut AskBook, made: Vec<LiveAsk>)
    requires rising { IsRising ask_key (book.old.asks ++ made.items) }
    requires begins { AllByRecursion (λ a. a.ticks ≡ 0) made.items }
    requires room { length made.items ≤ book.old.room }
    ensures { book.new.asks ≡ book.old.asks ++ made.items }
{
    let mut rest = made;
    rest.reverse();
    while let Some(a) = rest.pop() {
        book.add(a);
    }
}
