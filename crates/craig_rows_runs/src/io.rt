//! Rows of `craig_io`: streams in memory and over std that fail at some calls.
ghost use Rattle.std.specs.Prelude.{◌≤◌, IfOk};

use craig_io::{Failed, MemSink, MemSource, Sink, Source, StdSink, StdSource, put_all};
use std::io::{ErrorKind, Read, Write};
use std::test::Fail;

#[test]
fn a_read_gives_a_piece_and_fails_as_listed(rt: HostRuntime) -> Result<(), Fail> {
    let bytes = b"abcde".to_vec(rt.alloc())?;
    let fails = [2].to_vec(rt.alloc())?;
    let mut source = MemSource::new(bytes, 3, fails);
    let mut into = [0; 4];
    assert_eq!(rt; source.read(&mut into), Ok(3));
    assert!(rt; into.starts_with(b"abc"));
    assert_eq!(rt; source.read(&mut into), Err(Failed));
    Ok(())
}

/// The bytes written are `abc`.
#[test]
fn put_all_appends_all_or_a_prefix(rt: HostRuntime) -> Result<(), Fail> {
    let rows = [
        (9, 1, 9, Ok(()), "abc"),
        (2, 9, 9, Err(Failed), "ab"),
        (9, 1, 3, Err(Failed), "ab"),
        (0, 1, 9, Err(Failed), ""),
    ];
    for (room, piece, fails, answer, held) in rows {
        let fails = [fails].to_vec(rt.alloc())?;
        let mut sink = MemSink::new(rt.alloc(), room, piece, fails)?;
        assert_eq!(rt; put_all(&mut sink, b"abc"), answer);
        assert_eq!(rt; sink.bytes(), held.as_bytes());
    }
    Ok(())
}

/// A stream that counts its calls. It moves a byte at each but the second, which fails, and the fourth, which moves
/// none.
#[derive(Drop)]
struct FailsOnce {
    // how often it was read from or written to
    calls: u64,
}

impl FailsOnce {
    /// What the next call answers where it may move some bytes.
    fn step(&mut self, len: usize) -> std::io::Result<usize>
        ensures { IfOk result (λ n. n ≤ len) }
    {
        self.calls = self.calls.saturating_add(1);
        match self.calls {
            2 => Err(ErrorKind::Interrupted.into()),
            4 => Ok(0),
            _ => Ok(len.min(1)),
        }
    }
}

impl Read for FailsOnce {
    fn read(&mut self, buf: &mut [u8]) -> std::io::Result<usize> {
        self.step(buf.len())
    }
}

impl Write for FailsOnce {
    fn write(&mut self, buf: &[u8]) -> std::io::Result<usize> {
        self.step(buf.len())
    }

    fn flush(&mut self) -> std::io::Result<()> {
        Ok(())
    }
}

// A second request of one call would be answered otherwise, and counted.
#[test]
fn each_read_asks_the_reader_once(rt: HostRuntime) {
    let mut reader = FailsOnce { calls: 0 };
    let mut source = StdSource::new(&mut reader);
    let mut into = [0; 2];
    for want in [Ok(1), Err(Failed), Ok(1), Ok(0)] {
        assert_eq!(rt; source.read(&mut into), want);
    }
    assert_eq!(rt; reader.calls, 4);
}

#[test]
fn each_write_asks_the_writer_once_and_one_that_takes_nothing_is_a_fault(rt: HostRuntime) {
    let mut writer = FailsOnce { calls: 0 };
    let mut sink = StdSink::new(&mut writer);
    for want in [Ok(1), Err(Failed), Ok(1), Err(Failed)] {
        assert_eq!(rt; sink.write(b"abc"), want);
    }
    assert_eq!(rt; writer.calls, 4);
}
