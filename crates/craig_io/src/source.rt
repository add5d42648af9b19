//! What gives bytes.

ghost use Rattle.std.specs.Prelude.{◌≡◌, ◌<◌, ◌≤◌, ◌^◌, ℕ, List, Option, length, IfOk, OnOk, OnErr};
ghost use Rattle.craig_io.specs.Faults.{Rose};
ghost use Rattle.craig_io.specs.ToldBytes.{StaysTold};
ghost use Rattle.craig_io.specs.Source.{TakesFirst};

use crate::failure::Failed;

/// A source of bytes, as a reader of a file, a pipe or a list in memory.
///
/// It has two meanings for proofs: the bytes that are left to read, where it tells them, and a count
/// of the faults that it met. The count never falls, and is a number of 64 bits that stands still at
/// its last value.
pub trait Source {
    // the bytes that are left to read, where they are told
    ghost remaining: { Self → Option (List ℕ) };

    // the number of faults so far
    ghost faults: { Self → ℕ };

    /// Reads some bytes to the start of `into`, and says how many.
    ///
    /// `Ok(0)` is the end of the input. What stands in `into` after the bytes read, and after
    /// `Failed`, is any bytes. After `Failed` the bytes left are as before, and the call may be
    /// made again.
    fn read(&mut self, into: &mut [u8]) -> Result<usize, Failed>
        requires { 0 < length into.old }
        ensures bound { IfOk result (λ n. n ≤ length into.new) }
        ensures taken { IfOk result (λ n. TakesFirst n into.new (remaining self.old) (remaining self.new)) }
        ensures quiet { OnOk result (faults self.new ≡ faults self.old) }
        ensures kept { OnErr result (StaysTold (remaining self.old) (remaining self.new)) }
        ensures fault { OnErr result (Rose (faults self.old) (faults self.new)) }
        ensures count { faults self.old ≤ faults self.new }
        ensures count_fits { faults self.new < 2 ^ 64 };
}
