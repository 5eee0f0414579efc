//! Notices.

ghost use Rattle.std.specs.Prelude.{◌≡◌, List, ◌∷◌, ◌++◌, OnOk, codes};
ghost use Rattle.std.specs.List.{flat_map};
ghost use Rattle.cf_report.specs.Texts.{ask_words, frame_words, notice_line, notice_words, operation_words, request_word, sent_word};
ghost use Rattle.cf_report.specs.Changes.{change_words};
ghost use Rattle.cf_report.specs.Words.{decimal, key_text, spaced, usn_text};

use crate::changes::push_change;
use crate::codes::push_code;
use crate::results::{push_data, push_end, push_refused};
use crate::words::{push_key, push_labelled, push_number, push_usn, push_word};
use cf_base::{
    Ask, AskKind, Change, Frame, Key, Notice, OperationAnswer, OutOfMemory, Request, Sent, Usn,
};

fn push_changed(out: &mut Vec<u8>, number: Usn, change: &Change) -> Result<(), OutOfMemory>
    ensures { OnOk result (out.new.items ≡ out.old.items ++ (32 ∷ codes "change" ++ (32 ∷ usn_text number ++ (spaced (change_words change.now))))) }
{
    push_word(out, "change")?;
    push_usn(out, number)?;
    push_change(out, change)
}

fn push_named(out: &mut Vec<u8>, word: &str, key: Key) -> Result<(), OutOfMemory>
    ensures { OnOk result (out.new.items ≡ out.old.items ++ (32 ∷ word.now ++ (32 ∷ key_text key))) }
{
    push_word(out, word)?;
    push_key(out, key)
}

fn push_asked(out: &mut Vec<u8>, word: &str, ask: &Ask) -> Result<(), OutOfMemory>
    ensures { OnOk result (out.new.items ≡ out.old.items ++ (32 ∷ word.now ++ (32 ∷ decimal ask.now.item.0 ++ (32 ∷ decimal ask.now.span.start ++ (32 ∷ decimal ask.now.span.len))))) }
{
    push_word(out, word)?;
    push_number(out, ask.item.0)?;
    push_number(out, ask.span.start)?;
    push_number(out, ask.span.len)
}

fn push_ask(out: &mut Vec<u8>, ask: &Ask) -> Result<(), OutOfMemory>
    ensures { OnOk result (out.new.items ≡ out.old.items ++ spaced (ask_words ask.now.kind ask.now.item.0 ask.now.span)) }
{
    match ask.kind {
        AskKind::Fetch => push_asked(out, "fetch", ask),
        AskKind::Validate => push_asked(out, "validate", ask),
        AskKind::List => push_labelled(out, "list", ask.item.0),
        AskKind::Dehydrate => push_asked(out, "dehydrate", ask),
    }
}

fn push_operation(out: &mut Vec<u8>, answer: &OperationAnswer) -> Result<(), OutOfMemory>
    ensures { OnOk result (out.new.items ≡ out.old.items ++ spaced (operation_words answer.now)) }
{
    match answer {
        OperationAnswer::Done => push_word(out, "ok"),
        OperationAnswer::Data(bytes) => push_data(out, bytes.as_slice()),
        OperationAnswer::Refused(code) => push_refused(out, *code),
    }
}

fn request_word(request: &Request) -> &'static str
    ensures { result.now ≡ request_word request.now }
{
    match request {
        Request::Feed { .. } => "feed",
        Request::List { .. } => "list",
        Request::Fetch { .. } => "fetch",
        Request::Put { .. } => "put",
        Request::MakeDir { .. } => "mkdir",
        Request::Move { .. } => "move",
        Request::Remove { .. } => "remove",
        Request::Settle { .. } => "settle",
        Request::Keep { .. } => "keep",
    }
}

fn push_frame(out: &mut Vec<u8>, frame: &Frame) -> Result<(), OutOfMemory>
    ensures { OnOk result (out.new.items ≡ out.old.items ++ spaced (frame_words frame.now)) }
{
    match frame {
        Frame::Request(request) => push_word(out, request_word(request)),
        Frame::Reply { answers, reply: _ } => push_labelled(out, "reply", (*answers).into()),
    }
}

fn sent_word(lost: bool) -> &'static str
    ensures { result.now ≡ sent_word lost }
{
    if lost { "lost" } else { "sent" }
}

fn push_sent(out: &mut Vec<u8>, sent: &Sent) -> Result<(), OutOfMemory>
    ensures { OnOk result (out.new.items ≡ out.old.items ++ spaced (sent_word sent.now.lost ∷ decimal sent.now.message ∷ frame_words sent.now.frame)) }
{
    push_word(out, sent_word(sent.lost))?;
    push_number(out, sent.message.into())?;
    push_frame(out, &sent.frame)
}

#[tactic(auto, using(crate::proofs::Joins::joins))]
fn push_words(out: &mut Vec<u8>, notice: &Notice) -> Result<(), OutOfMemory>
    ensures { OnOk result (out.new.items ≡ out.old.items ++ spaced (notice_words notice.now)) }
{
    match notice {
        Notice::Change { number, change } => push_changed(out, *number, change),
        Notice::Background { wait, item } => {
            push_named(out, "wait", wait.0)?;
            push_labelled(out, "background", item.0)
        }
        Notice::Ask(ask) => {
            push_named(out, "ask", ask.key)?;
            push_ask(out, ask)
        }
        Notice::Cancel { key } => push_named(out, "cancel", *key),
        Notice::Done { wait, end } => {
            push_named(out, "done", wait.0)?;
            push_end(out, end)
        }
        Notice::Operation { answer } => {
            push_word(out, "op")?;
            push_operation(out, answer)
        }
        Notice::Message(sent) => push_sent(out, sent),
        Notice::Fault { message } => push_labelled(out, "fault", (*message).into()),
        Notice::Skipped { code } => {
            push_word(out, "skipped")?;
            push_code(out, *code)
        }
    }
}

/// Adds the line of a notice.
pub fn push_notice(out: &mut Vec<u8>, notice: &Notice) -> Result<(), OutOfMemory>
    ensures { OnOk result (out.new.items ≡ out.old.items ++ notice_line notice.now) }
{
    out.push(b'-')?;
    push_words(out, notice)?;
    out.push(b'\n')?;
    Ok(())
}

/// Adds a line for each notice.
pub fn push_notices(out: &mut Vec<u8>, notices: &[Notice]) -> Result<(), OutOfMemory>
    ensures { OnOk result (out.new.items ≡ out.old.items ++ flat_map notice_line notices.now) }
{
    for notice in notices {
        push_notice(out, notice)?;
    }
    Ok(())
}
