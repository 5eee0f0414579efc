//! The bytes of a source, up to a limit.

ghost use Rattle.std.specs.Prelude.{◌≡◌, ◌<◌, ◌≤◌, ◌^◌, length, IfOk, IsErrOf};
ghost use Rattle.cf_io.specs.Moves.{AddsPiece, IsFront, IsLonger, IsWhole, Rose, Takes};

use crate::faults::ReadError;
use crate::sources::Source;
use std::alloc::Global;

/// How many bytes are asked for at once.
const PIECE: usize = 65_536;

// Puts the next bytes behind the text, as many as the piece has room for, and reports how many: none only at the end.
fn add_piece<S: Source>(
    source: &mut S,
    piece: &mut [u8],
    text: &mut Vec<u8>,
) -> Result<usize, ReadError>
    requires { 0 < length piece.old }
    ensures ok { IfOk result (λ n. AddsPiece (length piece.old) (S.left source.old) (S.left source.new) text.old.items text.new.items n) }
    ensures size { length piece.new ≡ length piece.old }
    ensures not_long { IsErrOf result ReadError.TooLong → ⊥ }
    ensures fault { IsErrOf result ReadError.Fault → Rose (S.faults source.old) (S.faults source.new) }
    ensures never_falls { S.faults source.old ≤ S.faults source.new }
{
    let count = source.read(piece)?;
    text.extend_from_slice(&piece[..count])?;
    Ok(count)
}

/// The first bytes of a source, `most` of them, or all where it has fewer. No byte behind them is taken. Fails as Fault where
/// the source failed, and as OutOfMemory where there is none; never as TooLong.
pub fn read_up_to<S: Source>(
    alloc: Global,
    source: &mut S,
    most: usize,
) -> Result<Vec<u8>, ReadError>
    requires { most ≤ 2 ^ 32 }
    ensures ok { IfOk result (λ text. IsFront most (S.left source.old) text.items) }
    ensures taken { IfOk result (λ text. Takes (S.left source.old) (S.left source.new) text.items) }
    ensures small { IfOk result (λ text. length text.items ≤ most) }
    ensures not_long { IsErrOf result ReadError.TooLong → ⊥ }
    ensures fault { IsErrOf result ReadError.Fault → Rose (S.faults source.old) (S.faults source.new) }
    ensures never_falls { S.faults source.old ≤ S.faults source.new }
{
    let mut text = Vec::new(alloc);
    let mut piece = [0u8; PIECE];
    while text.len() < most {
        let room = PIECE.min(most - text.len());
        let count = add_piece(source, &mut piece[..room], &mut text)?;
        if count == 0 {
            return Ok(text);
        }
    }
    Ok(text)
}

/// All bytes of a source, where they are no more than the limit. Fails as Fault where the source failed, as TooLong
/// where it has more bytes, of which one more than the limit is taken, and as OutOfMemory where there is none.
pub fn read_all<S: Source>(
    alloc: Global,
    source: &mut S,
    limit: usize,
) -> Result<Vec<u8>, ReadError>
    requires { limit < 2 ^ 32 }
    ensures ok { IfOk result (λ text. IsWhole (S.left source.old) text.items) }
    ensures small { IfOk result (λ text. length text.items ≤ limit) }
    ensures too_long { IsErrOf result ReadError.TooLong → IsLonger (S.left source.old) limit }
    ensures fault { IsErrOf result ReadError.Fault → Rose (S.faults source.old) (S.faults source.new) }
    ensures never_falls { S.faults source.old ≤ S.faults source.new }
{
    let text = read_up_to(alloc, source, limit + 1)?;
    if text.len() > limit {
        drop(text);
        Err(ReadError::TooLong)
    } else {
        Ok(text)
    }
}
