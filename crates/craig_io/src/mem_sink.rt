//! A sink in memory, which fails at the calls that it is given and where its room is full.

ghost use Rattle.std.specs.Prelude.{◌≡◌, ◌↔◌, ◌<◌, ◌≤◌, ◌^◌, ◌-◌, [], Some, length, min, vec_len, vec_capacity, IsErr, IfOk, OnOk, OnErr};
ghost use Rattle.craig_io.specs.Faults.{Rose};
ghost use Rattle.craig_io.specs.ToldBytes.{StaysTold};
ghost use Rattle.craig_io.specs.Sink.{AppendsFirst};
ghost use Rattle.craig_io.specs.Calls.{call_counted, fault_counted};
ghost use Rattle.craig_io.specs.MemSink.{MemSinkView, IsMemSink, WriteFails, with_written};

use crate::calls::Calls;
use crate::failure::Failed;
use crate::sink::Sink;
use std::alloc::{AllocError, Global};
use std::marker::Model;

/// A sink of bytes in memory, with room for so many, which takes them in short pieces and fails at
/// given calls.
///
/// It serves tests, and it tells its bytes.
#[derive(Drop)]
pub struct MemSink {
    // the bytes written, those written first at the front
    held: Vec<u8>,
    // how many bytes there is room for
    room: usize,
    // how many bytes a write takes at most
    piece: usize,
    // the writes so far, and those that are to fail
    calls: Calls,
}

impl Model for MemSink {
    ghost Value = { MemSinkView };

    ghost view = { λ s. record { held = s.held.items; room = s.room; piece = s.piece; calls = s.calls } };

    ghost invariant = { λ s. IsMemSink (vec_len s.held) (vec_capacity s.held) s.room s.piece };
}

impl MemSink {
    /// A sink with room for `room` bytes, that takes at most `piece` bytes a write, and fails at the
    /// writes whose numbers stand in `fails`, in any order. The first write has the number 1.
    ///
    /// All the memory is taken here, and none later. A write that fails has a number too. After
    /// 18446744073709551615 writes the number stands still, and so does the count of faults at that
    /// number.
    pub fn new(
        alloc: Global,
        room: usize,
        piece: usize,
        fails: Vec<u64>,
    ) -> Result<MemSink, AllocError>
        requires { 0 < piece }
        ensures held { IfOk result (λ s. s.held ≡ []) }
        ensures room { IfOk result (λ s. s.room ≡ room) }
        ensures piece { IfOk result (λ s. s.piece ≡ piece) }
        ensures calls { IfOk result (λ s. s.calls ≡ record { fails = fails.items; made = 0; faults = 0 }) }
    {
        Ok(MemSink {
            held: Vec::with_capacity(alloc, room)?,
            room,
            piece,
            calls: Calls::new(fails),
        })
    }

    /// The bytes held, those written first at the front.
    pub fn bytes(&self) -> &[u8]
        ensures { result.now ≡ self.now.held }
    {
        self.held.as_slice()
    }
}

impl Sink for MemSink {
    ghost contents = { λ s. Some s.held };

    ghost faults = { λ s. s.calls.faults };

    fn write(&mut self, bytes: &[u8]) -> Result<usize, Failed>
        requires { 0 < length bytes.now }

        // As every sink.
        ensures progress { IfOk result (λ n. 0 < n) }
        ensures bound { IfOk result (λ n. n ≤ length bytes.now) }
        ensures appended { IfOk result (λ n. AppendsFirst n bytes.now (Some self.old.held) (Some self.new.held)) }
        ensures quiet { OnOk result (self.new.calls.faults ≡ self.old.calls.faults) }
        ensures kept { OnErr result (StaysTold (Some self.old.held) (Some self.new.held)) }
        ensures fault { OnErr result (Rose self.old.calls.faults self.new.calls.faults) }
        ensures count { self.old.calls.faults ≤ self.new.calls.faults }
        ensures count_fits { self.new.calls.faults < 2 ^ 64 }

        // This one alone.
        ensures fails_as_listed { IsErr result ↔ WriteFails self.old }
        ensures amount { IfOk result (λ n. n ≡ min (min self.old.piece (length bytes.now)) (self.old.room - length self.old.held)) }
        ensures ok { IfOk result (λ n. self.new ≡ with_written n bytes.now self.old) }
        ensures err { OnErr result (self.new ≡ record self.old { calls = fault_counted (call_counted self.old.calls) }) }
    {
        let fails = self.calls.next_fails();
        let free = self.room - self.held.len();
        let taken = self.piece.min(bytes.len()).min(free);
        if fails || taken == 0 || self.held.extend_from_slice(&bytes[..taken]).is_err() {
            self.calls.fault();
            return Err(Failed);
        }
        Ok(taken)
    }
}
