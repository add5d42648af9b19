//! A sink over a writer of std.

ghost use Rattle.std.specs.Prelude.{◌≡◌, ◌<◌, ◌≤◌, ◌^◌, length, IfOk, OnOk, OnErr};
ghost use Rattle.craig_io.specs.Faults.{Rose, raised};
ghost use Rattle.craig_io.specs.ToldBytes.{StaysTold};
ghost use Rattle.craig_io.specs.Sink.{AppendsFirst};
ghost use Rattle.craig_io.specs.Counted.{Counted};

use crate::failure::Failed;
use crate::sink::Sink;
use std::io::Write;
use std::marker::Model;

/// A sink over a writer of std, which counts the writer's errors, and each write that takes nothing.
///
/// Each error of the writer is a fault, an interruption by a signal too: the write isn't made again.
/// It tells the bytes that the writer tells: those of a vector, and none of standard output or a file.
/// The writer should not buffer: this never flushes it, and the error of a buffered write would come
/// late or never.
#[derive(Drop)]
pub struct StdSink<W> {
    // the writer of std
    inner: W,
    // how many errors it gave, and how often it took nothing
    faults: u64,
}

impl<W> Model for StdSink<W> {
    ghost Value = { Counted W };

    ghost view = { λ s. record { inner = s.inner; faults = s.faults } };

    ghost invariant = { λ s. s.faults < 2 ^ 64 };
}

impl<W> StdSink<W> {
    /// A sink over `inner` that has met no error yet.
    pub fn new(inner: W) -> StdSink<W>
        ensures inner { result.inner ≡ inner }
        ensures faults { result.faults ≡ 0 }
    {
        StdSink { inner, faults: 0 }
    }
}

impl<W: Write> Sink for StdSink<W> {
    ghost contents = { λ s. W.contents s.inner };

    ghost faults = { λ s. s.faults };

    fn write(&mut self, bytes: &[u8]) -> Result<usize, Failed>
        requires { 0 < length bytes.now }

        // As every sink.
        ensures progress { IfOk result (λ n. 0 < n) }
        ensures bound { IfOk result (λ n. n ≤ length bytes.now) }
        ensures appended { IfOk result (λ n. AppendsFirst n bytes.now (W.contents self.old.inner) (W.contents self.new.inner)) }
        ensures quiet { OnOk result (self.new.faults ≡ self.old.faults) }
        ensures kept { OnErr result (StaysTold (W.contents self.old.inner) (W.contents self.new.inner)) }
        ensures fault { OnErr result (Rose self.old.faults self.new.faults) }
        ensures count { self.old.faults ≤ self.new.faults }
        ensures count_fits { self.new.faults < 2 ^ 64 }

        // This one alone.
        ensures err { OnErr result (self.new.faults ≡ raised self.old.faults) }
    {
        match self.inner.write(bytes) {
            Ok(taken) if taken > 0 => Ok(taken),
            _ => {
                self.faults = self.faults.saturating_add(1);
                Err(Failed)
            }
        }
    }
}
