//! Where bytes go.

ghost use Rattle.std.specs.Prelude.{ℕ, ◌<◌, ◌≤◌, List, [], length, take, Option, OnOk, OnErr, IfOk};
ghost use Rattle.cf_io.specs.Moves.{Rose, Adds, AddsFront};

use crate::faults::IoError;

/// Where bytes go.
pub trait Sink {
    /// The bytes that it holds, where the sink reports them.
    ghost held: { Self → Option (List ℕ) };

    /// How often it failed.
    ghost faults: { Self → ℕ };

    /// Takes at least one byte of the piece, from its front, and reports how many. At a fault it takes none; a fault is
    /// answered only where the count of faults rose.
    fn write(&mut self, piece: &[u8]) -> Result<usize, IoError>
        requires { 0 < length piece.now }
        ensures some { IfOk result (λ n. 0 < n) }
        ensures within { IfOk result (λ n. n ≤ length piece.now) }
        ensures adds { IfOk result (λ n. Adds (held self.old) (held self.new) (take n piece.now)) }
        ensures nothing { OnErr result (Adds (held self.old) (held self.new) []) }
        ensures fault { OnErr result (Rose (faults self.old) (faults self.new)) }
        ensures never_falls { faults self.old ≤ faults self.new };
}

/// Writes all bytes. At a fault of the sink some front of them was written.
pub fn write_all<K: Sink>(sink: &mut K, bytes: &[u8]) -> Result<(), IoError>
    ensures ok { OnOk result (Adds (K.held sink.old) (K.held sink.new) bytes.now) }
    ensures err { OnErr result (AddsFront (K.held sink.old) (K.held sink.new) bytes.now) }
    ensures fault { OnErr result (Rose (K.faults sink.old) (K.faults sink.new)) }
    ensures never_falls { K.faults sink.old ≤ K.faults sink.new }
{
    let mut rest = bytes;
    while !rest.is_empty() {
        let count = sink.write(rest)?;
        rest = &rest[count..];
    }
    Ok(())
}
