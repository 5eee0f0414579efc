//! Results and ends.

ghost use Rattle.std.specs.Prelude.{◌≡◌, [], ◌∷◌, ◌++◌, OnOk, codes, map};
ghost use Rattle.cf_report.specs.Texts.{code_words, end_words, listed, result_line, run, shown_words, sync_word};
ghost use Rattle.cf_report.specs.Changes.{kind_word, pin_word};
ghost use Rattle.cf_report.specs.Words.{bytes_text, decimal, spaced, usn_text};

use crate::changes::{kind_word, pin_word};
use crate::codes::push_code;
use crate::words::{
    push_bytes, push_decimal, push_key, push_labelled, push_name_word, push_number, push_plain,
    push_usn, push_word,
};
use cf_base::{Code, End, Identity, Kind, ListedItem, OutOfMemory, Pin, Shown, Span, Usn};

/// Adds `refused` and a code.
pub fn push_refused(out: &mut Vec<u8>, code: Code) -> Result<(), OutOfMemory>
    ensures { OnOk result (out.new.items ≡ out.old.items ++ spaced (codes "refused" ∷ code_words code)) }
{
    push_word(out, "refused")?;
    push_code(out, code)
}

/// Adds `data` and bytes.
pub fn push_data(out: &mut Vec<u8>, bytes: &[u8]) -> Result<(), OutOfMemory>
    ensures { OnOk result (out.new.items ≡ out.old.items ++ spaced (codes "data" ∷ bytes_text bytes.now ∷ [])) }
{
    push_word(out, "data")?;
    push_bytes(out, bytes)
}

fn push_listed(out: &mut Vec<u8>, item: &ListedItem) -> Result<(), OutOfMemory>
    ensures { OnOk result (out.new.items ≡ out.old.items ++ 32 ∷ listed item.now) }
{
    push_name_word(out, item.name.as_slice())?;
    if item.dir {
        push_plain(out, b":d")
    } else {
        push_plain(out, b":f")
    }
}

fn push_list(out: &mut Vec<u8>, items: &[ListedItem]) -> Result<(), OutOfMemory>
    ensures { OnOk result (out.new.items ≡ out.old.items ++ spaced (map listed items.now)) }
{
    for item in items {
        push_listed(out, item)?;
    }
    Ok(())
}

/// Adds how a wait ended, each word after a space.
pub fn push_end(out: &mut Vec<u8>, end: &End) -> Result<(), OutOfMemory>
    ensures { OnOk result (out.new.items ≡ out.old.items ++ spaced (end_words end.now)) }
{
    match end {
        End::Data(bytes) => push_data(out, bytes.as_slice()),
        End::Hydrated => push_word(out, "hydrated"),
        End::Listed(items) => {
            push_word(out, "list")?;
            push_list(out, items.as_slice())
        }
        End::Emptied => push_word(out, "ok"),
        End::Full => push_word(out, "full"),
        End::Closed => push_word(out, "closed"),
        End::Failed(status) => {
            push_word(out, "failed")?;
            push_number(out, (*status).into())
        }
        End::TimedOut => push_word(out, "timeout"),
        End::Cancelled => push_word(out, "cancelled"),
        End::Down => push_word(out, "down"),
        End::Refused(code) => push_refused(out, *code),
    }
}

fn push_run(out: &mut Vec<u8>, span: Span) -> Result<(), OutOfMemory>
    ensures { OnOk result (out.new.items ≡ out.old.items ++ 32 ∷ run span) }
{
    push_number(out, span.start)?;
    out.push(b'+')?;
    push_decimal(out, span.len)
}

fn push_runs(out: &mut Vec<u8>, runs: &[Span]) -> Result<(), OutOfMemory>
    ensures { OnOk result (out.new.items ≡ out.old.items ++ spaced (map run runs.now)) }
{
    for span in runs {
        push_run(out, *span)?;
    }
    Ok(())
}

fn sync_word(in_sync: bool) -> &'static str
    ensures { result.now ≡ sync_word in_sync }
{
    if in_sync { "insync" } else { "notinsync" }
}

fn push_what(out: &mut Vec<u8>, kind: Kind, size: u64) -> Result<(), OutOfMemory>
    ensures { OnOk result (out.new.items ≡ out.old.items ++ (32 ∷ kind_word kind ++ (32 ∷ decimal size))) }
{
    push_word(out, kind_word(kind))?;
    push_number(out, size)
}

fn push_state(out: &mut Vec<u8>, pin: Pin, in_sync: bool) -> Result<(), OutOfMemory>
    ensures { OnOk result (out.new.items ≡ out.old.items ++ (32 ∷ pin_word pin ++ (32 ∷ sync_word in_sync))) }
{
    push_word(out, pin_word(pin))?;
    push_word(out, sync_word(in_sync))
}

fn push_known(out: &mut Vec<u8>, number: Usn, identity: &Identity) -> Result<(), OutOfMemory>
    ensures { OnOk result (out.new.items ≡ out.old.items ++ (32 ∷ usn_text number ++ (32 ∷ bytes_text identity.now))) }
{
    push_usn(out, number)?;
    push_bytes(out, identity.as_slice())
}

fn push_standing(
    out: &mut Vec<u8>,
    pin: Pin,
    in_sync: bool,
    number: Usn,
    identity: &Identity,
) -> Result<(), OutOfMemory>
    ensures { OnOk result (out.new.items ≡ out.old.items ++ (32 ∷ pin_word pin ++ (32 ∷ sync_word in_sync ++ (32 ∷ usn_text number ++ (32 ∷ bytes_text identity.now))))) }
{
    push_state(out, pin, in_sync)?;
    push_known(out, number, identity)
}

/// Adds a result, each word after a space.
#[tactic(auto, using(crate::proofs::Joins::joins))]
pub fn push_shown(out: &mut Vec<u8>, shown: &Shown) -> Result<(), OutOfMemory>
    ensures { OnOk result (out.new.items ≡ out.old.items ++ spaced (shown_words shown.now)) }
{
    match shown {
        Shown::Done => push_word(out, "ok"),
        Shown::Opened(handle) => {
            push_word(out, "ok")?;
            push_key(out, handle.0)
        }
        Shown::Ended(end) => push_end(out, end),
        Shown::Pending(wait) => {
            push_word(out, "pending")?;
            push_key(out, wait.0)
        }
        Shown::Count(count) => push_labelled(out, "ok", *count),
        Shown::Item(item) => push_labelled(out, "ok", item.0),
        Shown::Info {
            item,
            kind,
            size,
            pin,
            in_sync,
            number,
            identity,
        } => {
            push_labelled(out, "info", item.0)?;
            push_what(out, *kind, *size)?;
            push_standing(out, *pin, *in_sync, *number, identity)
        }
        Shown::Ranges(runs) => {
            push_word(out, "ranges")?;
            push_runs(out, runs.as_slice())
        }
        Shown::Blocks { used, clusters } => {
            push_labelled(out, "blocks", (*used).into())?;
            push_number(out, (*clusters).into())
        }
        Shown::Resumed { count, opened: _ } => push_labelled(out, "resumed", *count),
        Shown::Remote { rid, version } => {
            push_labelled(out, "ok", rid.0)?;
            push_number(out, version.0)
        }
        Shown::Number(number) => {
            push_word(out, "ok")?;
            push_usn(out, *number)
        }
        Shown::Used(clock) => push_labelled(out, "used", *clock),
        Shown::Freed(count) => push_labelled(out, "freed", (*count).into()),
        Shown::Retrieved(bytes) => push_data(out, bytes.as_slice()),
        Shown::Refused(code) => push_refused(out, *code),
    }
}

/// Adds the line of a result.
pub fn push_result(out: &mut Vec<u8>, shown: &Shown) -> Result<(), OutOfMemory>
    ensures { OnOk result (out.new.items ≡ out.old.items ++ result_line shown.now) }
{
    out.push(b'=')?;
    push_shown(out, shown)?;
    out.push(b'\n')?;
    Ok(())
}
