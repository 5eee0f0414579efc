//! Codes.

ghost use Rattle.std.specs.Prelude.{◌≡◌, ◌++◌, OnOk};
ghost use Rattle.cf_report.specs.CodeNames.{name_of};
ghost use Rattle.cf_report.specs.Texts.{code_words};
ghost use Rattle.cf_report.specs.Words.{spaced};

use crate::words::{push_usn, push_word};
use cf_base::{Code, OutOfMemory};

fn name_of(code: Code) -> &'static str
    ensures { result.now ≡ name_of code }
{
    match code {
        Code::BadPath => "BadPath",
        Code::NotFound => "NotFound",
        Code::Exists => "Exists",
        Code::NotDirectory => "NotDirectory",
        Code::IsDirectory => "IsDirectory",
        Code::NotEmpty => "NotEmpty",
        Code::IntoItself => "IntoItself",
        Code::TooDeep => "TooDeep",
        Code::NotPopulated => "NotPopulated",
        Code::NotPlaceholder => "NotPlaceholder",
        Code::AlreadyPlaceholder => "AlreadyPlaceholder",
        Code::PolicyDenied => "PolicyDenied",
        Code::Pinned => "Pinned",
        Code::NotInSync => "NotInSync",
        Code::UsnMismatch(_) => "UsnMismatch",
        Code::NotHydrated => "NotHydrated",
        Code::IdentityTooLong => "IdentityTooLong",
        Code::InUse => "InUse",
        Code::BadRange => "BadRange",
        Code::TooLarge => "TooLarge",
        Code::NoHandle => "NoHandle",
        Code::NoWait => "NoWait",
        Code::ProviderDown => "ProviderDown",
        Code::StaleKey => "StaleKey",
        Code::Misaligned => "Misaligned",
        Code::OutsideAsk => "OutsideAsk",
        Code::WrongKind => "WrongKind",
        Code::RestartDenied => "RestartDenied",
        Code::BadPolicy => "BadPolicy",
        Code::TooManyWaits => "TooManyWaits",
        Code::TooManyAsks => "TooManyAsks",
        Code::TooManyHandles => "TooManyHandles",
        Code::Full => "Full",
        Code::TableFull => "TableFull",
        Code::Exhausted => "Exhausted",
        Code::Device => "Device",
        Code::Broken => "Broken",
        Code::Off => "Off",
        Code::Running => "Running",
        Code::NoMessage => "NoMessage",
        Code::Stale => "Stale",
        Code::RemoteFault => "RemoteFault",
        Code::Quota => "Quota",
        Code::NotAVolume => "NotAVolume",
        Code::VersionGone => "VersionGone",
    }
}

/// Adds a code, each word after a space.
pub fn push_code(out: &mut Vec<u8>, code: Code) -> Result<(), OutOfMemory>
    ensures { OnOk result (out.new.items ≡ out.old.items ++ spaced (code_words code)) }
{
    push_word(out, name_of(code))?;
    match code {
        Code::UsnMismatch(number) => push_usn(out, number),
        _ => Ok(()),
    }
}
