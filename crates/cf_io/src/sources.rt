//! Where bytes come from.

ghost use Rattle.std.specs.Prelude.{◌≡◌, ℕ, ◌<◌, ◌≤◌, List, length, take, Option, OnErr, IfOk};
ghost use Rattle.cf_io.specs.Moves.{Rose, Takes, EndsWell};

use crate::faults::IoError;

/// Where bytes come from.
pub trait Source {
    /// The bytes that are left to read, where the source reports them.
    ghost left: { Self → Option (List ℕ) };

    /// How often it failed.
    ghost faults: { Self → ℕ };

    /// Moves the next bytes to the front of `out`, and reports how many: none only at the end. A fault is answered only
    /// where the count of faults rose.
    fn read(&mut self, out: &mut [u8]) -> Result<usize, IoError>
        requires { 0 < length out.old }
        ensures within { IfOk result (λ n. n ≤ length out.old) }
        ensures size { length out.new ≡ length out.old }
        ensures takes { IfOk result (λ n. Takes (left self.old) (left self.new) (take n out.new)) }
        ensures ends { IfOk result (λ n. EndsWell (left self.old) (take n out.new)) }
        ensures fault { OnErr result (Rose (faults self.old) (faults self.new)) }
        ensures never_falls { faults self.old ≤ faults self.new };
}
