//! What takes bytes.

ghost use Rattle.std.specs.Prelude.{◌≡◌, ◌<◌, ◌≤◌, ◌^◌, ℕ, List, Option, length, IfOk, OnOk, OnErr};
ghost use Rattle.craig_io.specs.Faults.{Rose};
ghost use Rattle.craig_io.specs.ToldBytes.{StaysTold};
ghost use Rattle.craig_io.specs.Sink.{AppendsFirst};

use crate::failure::Failed;

/// A sink of bytes, as a writer to a file, a pipe or a list in memory.
///
/// It has two meanings for proofs: the bytes that it holds, those written first at the front, where
/// it tells them, and a count of the faults that it met. The count never falls, and is a number of
/// 64 bits that stands still at its last value.
pub trait Sink {
    // the bytes held, where they are told
    ghost contents: { Self → Option (List ℕ) };

    // the number of faults so far
    ghost faults: { Self → ℕ };

    /// Writes some of the bytes, from the first on, and says how many: at least one.
    ///
    /// A write that takes nothing is `Failed`. After `Failed` the bytes held are as before, and the
    /// call may be made again.
    fn write(&mut self, bytes: &[u8]) -> Result<usize, Failed>
        requires { 0 < length bytes.now }
        ensures progress { IfOk result (λ n. 0 < n) }
        ensures bound { IfOk result (λ n. n ≤ length bytes.now) }
        ensures appended { IfOk result (λ n. AppendsFirst n bytes.now (contents self.old) (contents self.new)) }
        ensures quiet { OnOk result (faults self.new ≡ faults self.old) }
        ensures kept { OnErr result (StaysTold (contents self.old) (contents self.new)) }
        ensures fault { OnErr result (Rose (faults self.old) (faults self.new)) }
        ensures count { faults self.old ≤ faults self.new }
        ensures count_fits { faults self.new < 2 ^ 64 };
}
