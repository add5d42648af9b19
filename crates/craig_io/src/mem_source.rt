//! A source in memory, which fails at the calls that it is given.

ghost use Rattle.std.specs.Prelude.{◌≡◌, ◌↔◌, ◌<◌, ◌≤◌, ◌^◌, Some, length, drop, min, vec_len, IsErr, IfOk, OnOk, OnErr, Contains};
ghost use Rattle.craig_io.specs.Faults.{Rose, raised};
ghost use Rattle.craig_io.specs.ToldBytes.{StaysTold};
ghost use Rattle.craig_io.specs.Source.{TakesFirst};
ghost use Rattle.craig_io.specs.Calls.{CallsMade, call_counted, fault_counted};
ghost use Rattle.craig_io.specs.MemSource.{MemSourceView, IsMemSource};

use crate::calls::Calls;
use crate::failure::Failed;
use crate::source::Source;
use std::marker::Model;

/// A source of bytes in memory, which gives them in short pieces and fails at given calls.
///
/// It serves tests, and it tells its bytes.
#[derive(Drop)]
pub struct MemSource {
    // all bytes, those that were given too
    bytes: Vec<u8>,
    // how many bytes were given
    at: usize,
    // how many bytes a read gives at most
    piece: usize,
    // the reads so far, and those that are to fail
    calls: Calls,
}

impl Model for MemSource {
    ghost Value = { MemSourceView };

    ghost view = { λ s. record { left = drop s.at s.bytes.items; piece = s.piece; calls = s.calls } };

    ghost invariant = { λ s. IsMemSource (vec_len s.bytes) s.at s.piece };
}

impl MemSource {
    /// A source that gives at most `piece` bytes a read, and fails at the reads whose numbers stand in
    /// `fails`, in any order. The first read has the number 1.
    ///
    /// A read that fails has a number too. After 18446744073709551615 reads the number stands still,
    /// and so does the count of faults at that number.
    pub fn new(bytes: Vec<u8>, piece: usize, fails: Vec<u64>) -> MemSource
        requires { 0 < piece }
        ensures left { result.left ≡ bytes.items }
        ensures piece { result.piece ≡ piece }
        ensures calls { result.calls ≡ record { fails = fails.items; made = 0; faults = 0 } }
    {
        MemSource {
            bytes,
            at: 0,
            piece,
            calls: Calls::new(fails),
        }
    }
}

impl Source for MemSource {
    ghost remaining = { λ s. Some s.left };

    ghost faults = { λ s. s.calls.faults };

    fn read(&mut self, into: &mut [u8]) -> Result<usize, Failed>
        requires { 0 < length into.old }

        // As every source.
        ensures bound { IfOk result (λ n. n ≤ length into.new) }
        ensures taken { IfOk result (λ n. TakesFirst n into.new (Some self.old.left) (Some self.new.left)) }
        ensures quiet { OnOk result (self.new.calls.faults ≡ self.old.calls.faults) }
        ensures kept { OnErr result (StaysTold (Some self.old.left) (Some self.new.left)) }
        ensures fault { OnErr result (Rose self.old.calls.faults self.new.calls.faults) }
        ensures count { self.old.calls.faults ≤ self.new.calls.faults }
        ensures count_fits { self.new.calls.faults < 2 ^ 64 }

        // This one alone.
        ensures fails_as_listed { IsErr result ↔ Contains self.old.calls.fails (raised self.old.calls.made) }
        ensures amount { IfOk result (λ n. n ≡ min (min self.old.piece (length into.old)) (length self.old.left)) }
        ensures ok { IfOk result (λ n. self.new ≡ record self.old { left = drop n self.old.left; calls = call_counted self.old.calls }) }
        ensures err { OnErr result (self.new ≡ record self.old { calls = fault_counted (call_counted self.old.calls) }) }
    {
        if self.calls.next_fails() {
            self.calls.fault();
            return Err(Failed);
        }
        let left = &self.bytes[self.at..];
        let given = self.piece.min(into.len()).min(left.len());
        into[..given].copy_from_slice(&left[..given]);
        self.at += given;
        Ok(given)
    }
}
