//! Rows of `craig_script`: streams, lines and commands, each with what is to be read.

use craig_script::{Bytes, Command, Line, LineFault, Lines, Refusal, admit, parse};
use std::alloc::{AllocError, Global};
use std::test::*;

/// A line of these bytes.
fn text(alloc: Global, bytes: &[u8]) -> Result<Line, AllocError> {
    let mut line = Bytes::new(alloc);
    for byte in bytes {
        line.push(*byte)?;
    }
    Ok(Line::Text(line))
}

/// How a line of these bytes is read where there are so many parts.
fn read(alloc: Global, parts: u16, bytes: &[u8]) -> Result<Command, LineFault> {
    let line = text(alloc, bytes).map_err(LineFault::NoMemory)?;
    let command = parse(alloc, &line)?;
    admit(parts, false, &command).map_err(LineFault::Refused)?;
    Ok(command)
}

#[test]
fn a_command_that_comes_in_two_pieces_is_one_line(rt: HostRuntime) -> Result<(), Fail> {
    let mut lines = Lines::new(rt.alloc());
    lines.feed(b"so")?;
    lines.feed(b"lve 0\n")?;
    lines.finish()?;
    let Some(line) = lines.next() else {
        panic!(rt; "no line");
    };
    let None = lines.next() else {
        panic!(rt; "a second line");
    };
    let Line::Text(bytes) = &line else {
        panic!(rt; "an overlong line");
    };
    assert_eq!(rt; bytes.as_slice(), b"solve 0".as_slice());
    let Ok(Command::Solve(pairs)) = parse(rt.alloc(), &line) else {
        panic!(rt; "no solve");
    };
    assert!(rt; pairs.as_slice().is_empty());
    Ok(())
}

#[test]
fn a_line_without_words_or_with_a_comment_is_nothing(rt: HostRuntime) {
    for line in [b"".as_slice(), b" \t\r", b"#", b"# add 1 0", b"\t#add 1 0"] {
        assert!(rt; matches!(read(rt.alloc(), 1, line), Ok(Command::Nothing)));
    }
}

/// Whether the line adds this clause.
fn adds(alloc: Global, line: &[u8], part: u64, lits: &[i64]) -> bool {
    match &read(alloc, 2, line) {
        Ok(
            Command::Add {
                part: part_read,
                lits: lits_read,
            },
        ) => *part_read == part && lits_read.as_slice() == lits,
        _ => false,
    }
}

/// Whether the line is read as a solve under these assumptions.
fn solves(alloc: Global, line: &[u8], pairs: &[(u64, i64)]) -> bool {
    match &read(alloc, 2, line) {
        Ok(Command::Solve(read)) => read.as_slice() == pairs,
        _ => false,
    }
}

#[test]
fn commands_are_read(rt: HostRuntime) {
    assert!(rt; adds(rt.alloc(), b"add 1 1 2 0", 1, &[1, 2]));
    assert!(rt;
        adds(
            rt.alloc(),
            b"  add \t 2   -5 2147483647 0\r",
            2,
            &[-5, 2147483647]
        )
    );
    assert!(rt; adds(rt.alloc(), b"add 1 0", 1, &[]));
    assert!(rt; solves(rt.alloc(), b"solve 0", &[]));
    assert!(rt; solves(rt.alloc(), b"solve 1 2 0 -3 0", &[(1, 2), (0, -3)]));
}

/// Why the line is refused where there are two parts.
fn refusal_of(alloc: Global, line: &[u8]) -> Option<Refusal> {
    match read(alloc, 2, line) {
        Err(LineFault::Refused(refusal)) => Some(refusal),
        _ => None,
    }
}

#[test]
fn the_first_refusal_is_given(rt: HostRuntime) {
    for (line, want) in [
        (b"add 3 1 0".as_slice(), Refusal::Range),
        (b"parts 0", Refusal::Range),
        (b"parts 4097", Refusal::Range),
        (b"mark 0 a", Refusal::Variable),
        (b"mark 2147483648 ab", Refusal::Variable),
        (b"cuts 3", Refusal::CutRange),
        (b"cuts 1 1", Refusal::CutRange),
        (b"cuts 2 0", Refusal::CutRange),
        (b"cuts", Refusal::Syntax),
        (b"cuts all 1", Refusal::Syntax),
        (b"cuts -1", Refusal::Syntax),
        (b"mark 1 c", Refusal::Syntax),
        (b"mark 1", Refusal::Syntax),
        (b"system", Refusal::Syntax),
        (b"system Pudlak", Refusal::Syntax),
        (b"parts", Refusal::Syntax),
        (b"parts 3 4", Refusal::Syntax),
        (b"add 1 2147483648 0", Refusal::Variable),
        (b"add 1 1 -2147483648 0", Refusal::Variable),
        (b"add 3 2147483648 0", Refusal::Range),
        (b"add 999999999999999999 1 0", Refusal::Range),
        (b"add 1 999999999999999999 0", Refusal::Variable),
        (b"add 1 1", Refusal::Syntax),
        (b"add 1 -0 0", Refusal::Syntax),
        (b"add 1 +1 0", Refusal::Syntax),
        (b"add 1 01 0", Refusal::Syntax),
        (b"add 1 - 0", Refusal::Syntax),
        (b"add 1 --1 0", Refusal::Syntax),
        (b"add 1 1000000000000000000 0", Refusal::Syntax),
        (b"add 1 1 0 0", Refusal::Syntax),
        (b"add 1 1 0 #", Refusal::Syntax),
        (b"add 3 1", Refusal::Syntax),
        (b"add -1 1 0", Refusal::Syntax),
        (b"add", Refusal::Syntax),
        (b"addition 1 1 0", Refusal::Syntax),
        (b"Add 1 0", Refusal::Syntax),
        (b"solve", Refusal::Syntax),
        (b"solve 0 0", Refusal::Syntax),
        (b"solve 1", Refusal::Syntax),
        (b"solve 1 2", Refusal::Syntax),
        (b"solve 1 2 3 0", Refusal::Syntax),
        (b"solve 3 2147483648 0", Refusal::Range),
        (b"solve 1 2147483648 3 1 0", Refusal::Range),
        (b"solve 1 2147483648 0", Refusal::Variable),
        (b"\0", Refusal::Syntax),
        (b"\xff\xfe", Refusal::Syntax),
    ] {
        assert_eq!(rt; refusal_of(rt.alloc(), line), Some(want), "{line:?}");
    }
}
