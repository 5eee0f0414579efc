//! Texts of answers that no script shows: a message that is lost, a remote that fails, a table that is full, and the greatest
//! number.

use cf_base::{
    Answer, Code, Frame, Key, Notice, OutOfMemory, Reply, Rid, Sent, Sequence, Shown, Version,
};
use cf_report::text;
use std::alloc::Global;
use std::test::Fail;

const KEY: Key = Key {
    epoch: 1,
    number: 2,
};

fn lost() -> Notice {
    Notice::Message(Sent {
        message: 6,
        frame: Frame::Reply {
            answers: 5,
            reply: Reply::Missing { key: KEY },
        },
        lost: true,
    })
}

fn push(notes: &mut Sequence<Notice>) -> Result<(), OutOfMemory> {
    notes.push(lost())?;
    notes.push(Notice::Fault { message: 7 })?;
    notes.push(Notice::Skipped {
        code: Code::TableFull,
    })
}

const TEXT: &[u8] =
    b"- lost 6 reply 5\n- fault 7\n- skipped TableFull\n= ok 18446744073709551615 0\n";

fn is_told(alloc: Global) -> Result<bool, OutOfMemory> {
    let mut notes = Sequence::new(alloc);
    let pushed = push(&mut notes);
    let answer = Answer {
        notes,
        shown: Shown::Remote {
            rid: Rid(18_446_744_073_709_551_615),
            version: Version(0),
        },
        stray: None,
    };
    let told = text(alloc, &answer);
    drop(answer);
    pushed?;
    let told = told?;
    let same = told.as_slice() == TEXT;
    drop(told);
    Ok(same)
}

#[test]
fn answers_are_told(rt: HostRuntime) -> Result<(), Fail> {
    assert!(rt; is_told(rt.alloc())?);
    Ok(())
}
