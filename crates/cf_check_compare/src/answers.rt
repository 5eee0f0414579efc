//! Tests of an answer alone.

ghost use Rattle.std.specs.Prelude.{◌≡◌};
ghost use Rattle.std.specs.List.{list_all};
ghost use Rattle.cf_check_text.specs.Clean.{clean_change, clean_end, clean_notice, clean_shown, has_no_ten, is_clean};
ghost use Rattle.cf_check_traces.specs.Tests.{is_device};
ghost use Rattle.cf_check_ways.specs.Ways.{is_fault};

use cf_base::{Answer, Change, Code, End, ListedItem, Notice, Shown};

/// Whether the result is that of a device that failed.
pub(crate) fn is_device(shown: &Shown) -> bool
    ensures { result ≡ is_device shown.now }
{
    match shown {
        Shown::Refused(Code::Device) => true,
        _ => false,
    }
}

/// Whether the result is that of a remote that failed.
pub(crate) fn is_fault(shown: &Shown) -> bool
    ensures { result ≡ is_fault shown.now }
{
    match shown {
        Shown::Refused(Code::RemoteFault) => true,
        _ => false,
    }
}

fn has_no_ten(bytes: &[u8]) -> bool
    ensures { result ≡ has_no_ten bytes.now }
{
    bytes.iter().all(|b| *b != b'\n')
}

fn is_clean_change(change: &Change) -> bool
    ensures { result ≡ clean_change change.now }
{
    match change {
        Change::Make { name, .. } | Change::Move { name, .. } | Change::Copy { name, .. } => {
            has_no_ten(name.as_slice())
        }
        _ => true,
    }
}

fn are_clean_items(items: &[ListedItem]) -> bool
    ensures { result ≡ list_all (λ i. has_no_ten i.name) items.now }
{
    for item in items {
        if !has_no_ten(item.name.as_slice()) {
            return false;
        }
    }
    true
}

fn is_clean_end(end: &End) -> bool
    ensures { result ≡ clean_end end.now }
{
    match end {
        End::Listed(items) => are_clean_items(items.as_slice()),
        _ => true,
    }
}

fn is_clean_notice(notice: &Notice) -> bool
    ensures { result ≡ clean_notice notice.now }
{
    match notice {
        Notice::Change { change, .. } => is_clean_change(change),
        Notice::Done { end, .. } => is_clean_end(end),
        _ => true,
    }
}

fn is_clean_result(shown: &Shown) -> bool
    ensures { result ≡ clean_shown shown.now }
{
    match shown {
        Shown::Ended(end) => is_clean_end(end),
        _ => true,
    }
}

fn are_clean(notices: &[Notice]) -> bool
    ensures { result ≡ list_all clean_notice notices.now }
{
    for notice in notices {
        if !is_clean_notice(notice) {
            return false;
        }
    }
    true
}

/// Whether no name in the answer has the byte 10, so that each of its lines is one line of a report.
pub(crate) fn is_clean(answer: &Answer) -> bool
    ensures { result ≡ is_clean answer.now }
{
    are_clean(answer.notes.as_slice()) && is_clean_result(&answer.shown)
}
