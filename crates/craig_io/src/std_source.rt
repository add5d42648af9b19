//! A source over a reader of std.

ghost use Rattle.std.specs.Prelude.{◌≡◌, ◌<◌, ◌≤◌, ◌^◌, length, IfOk, OnOk, OnErr};
ghost use Rattle.craig_io.specs.Faults.{Rose, raised};
ghost use Rattle.craig_io.specs.ToldBytes.{StaysTold};
ghost use Rattle.craig_io.specs.Source.{TakesFirst};
ghost use Rattle.craig_io.specs.Counted.{Counted};

use crate::failure::Failed;
use crate::source::Source;
use std::io::Read;
use std::marker::Model;

/// A source over a reader of std, which counts the reader's errors.
///
/// Each error of the reader is a fault, an interruption by a signal too: the read isn't made again.
/// It tells the bytes that the reader tells: those of a slice or a cursor, and none of standard input
/// or a file.
#[derive(Drop)]
pub struct StdSource<R> {
    // the reader of std
    inner: R,
    // how many errors it gave
    faults: u64,
}

impl<R> Model for StdSource<R> {
    ghost Value = { Counted R };

    ghost view = { λ s. record { inner = s.inner; faults = s.faults } };

    ghost invariant = { λ s. s.faults < 2 ^ 64 };
}

impl<R> StdSource<R> {
    /// A source over `inner` that has met no error yet.
    pub fn new(inner: R) -> StdSource<R>
        ensures inner { result.inner ≡ inner }
        ensures faults { result.faults ≡ 0 }
    {
        StdSource { inner, faults: 0 }
    }
}

impl<R: Read> Source for StdSource<R> {
    ghost remaining = { λ s. R.remaining s.inner };

    ghost faults = { λ s. s.faults };

    fn read(&mut self, into: &mut [u8]) -> Result<usize, Failed>
        requires { 0 < length into.old }

        // As every source.
        ensures bound { IfOk result (λ n. n ≤ length into.new) }
        ensures taken { IfOk result (λ n. TakesFirst n into.new (R.remaining self.old.inner) (R.remaining self.new.inner)) }
        ensures quiet { OnOk result (self.new.faults ≡ self.old.faults) }
        ensures kept { OnErr result (StaysTold (R.remaining self.old.inner) (R.remaining self.new.inner)) }
        ensures fault { OnErr result (Rose self.old.faults self.new.faults) }
        ensures count { self.old.faults ≤ self.new.faults }
        ensures count_fits { self.new.faults < 2 ^ 64 }

        // This one alone.
        ensures err { OnErr result (self.new.faults ≡ raised self.old.faults) }
    {
        match self.inner.read(into) {
            Ok(given) => Ok(given),
            Err(_) => {
                self.faults = self.faults.saturating_add(1);
                Err(Failed)
            }
        }
    }
}
