//! Rows of what `craig_script` writes and makes: the lines of commands, and the scripts of the generator.

use craig_script::{
    Bytes, Command, Commands, Line, LineFault, clause_count, greatest_variable, make, parse,
    write_command,
};
use std::alloc::{AllocError, Global};
use std::test::*;

/// A line of these bytes.
fn text(alloc: Global, bytes: &[u8]) -> Result<Line, AllocError> {
    let mut line = Bytes::new(alloc);
    line.extend_from_slice(bytes)?;
    Ok(Line::Text(line))
}

/// The line of a command that was read, with its newline.
fn written(alloc: Global, line: &Line) -> Result<Vec<u8>, LineFault> {
    let mut out = Vec::new(alloc);
    craig_script::laws::written_commands();
    match parse(alloc, line)? {
        Command::Nothing => Ok(out),
        command => {
            write_command(&command, &mut out).map_err(LineFault::NoMemory)?;
            Ok(out)
        }
    }
}

/// Whether the line without its newline is read as a command that is written as the line.
fn is_written_back(alloc: Global, line: &[u8]) -> bool {
    let Some((_, words)) = line.split_last() else {
        return false;
    };
    let Ok(read) = text(alloc, words) else {
        return false;
    };
    match written(alloc, &read) {
        Ok(out) => out.as_slice() == line,
        Err(_) => false,
    }
}

#[test]
fn a_command_is_written_as_it_was_read(rt: HostRuntime) {
    for line in [
        b"add 2 -7 0\n".as_slice(),
        b"add 1 0\n",
        b"parts 4096\n",
        b"system mcmillan\n",
        b"mark 2147483647 ab\n",
        b"cuts all\n",
        b"cuts 0 2\n",
        b"limit none\n",
        b"limit 100\n",
        b"solve 1 2 0 -3 0\n",
    ] {
        assert!(rt; is_written_back(rt.alloc(), line));
    }
}

/// Whether the command adds this clause.
fn adds(command: &Command, part: u64, lits: &[i64]) -> bool {
    match command {
        Command::Add {
            part: own_part,
            lits: own_lits,
        } => *own_part == part && own_lits.as_slice() == lits,
        _ => false,
    }
}

/// Whether the command at this place adds this clause.
fn adds_at(script: &Commands, place: usize, part: u64, lits: &[i64]) -> bool {
    match script.as_slice().get(place) {
        Some(command) => adds(command, part, lits),
        None => false,
    }
}

/// Whether the script of one step is as long as it has to be, and begins and ends so.
fn is_first_script(alloc: Global) -> bool {
    let Ok(script) = make(alloc, 1) else {
        return false;
    };
    let commands = script.as_slice();
    let clauses = commands
        .iter()
        .filter(|command| matches!(command, Command::Add { .. }));
    commands.len() == 57
        && clauses.count() == 55
        && matches!(commands.first(), Some(Command::Parts(2)))
        && adds_at(&script, 1, 1, &[-1])
        && matches!(commands.last(), Some(Command::Solve(_)))
}

/// Whether the script of twenty steps ends with the clauses that say that the counter is at least 41.
fn ends_at_41(alloc: Global) -> bool {
    let Ok(script) = make(alloc, 20) else {
        return false;
    };
    script.as_slice().len() == 932
        && adds_at(&script, 928, 21, &[286, 287])
        && adds_at(&script, 929, 21, &[284, 285, 287])
        && adds_at(&script, 930, 21, &[281, 282, 283, 285, 287])
}

#[test]
fn the_generator_makes_its_scripts(rt: HostRuntime) {
    assert!(rt; is_first_script(rt.alloc()));
    assert!(rt; ends_at_41(rt.alloc()));
}

#[test]
fn the_generator_counts(rt: HostRuntime) {
    for (steps, clauses, greatest) in [(1, 55, 21), (20, 930, 287)] {
        assert_eq!(rt;
            (clause_count(steps), greatest_variable(steps)),
            (clauses, greatest)
        );
    }
}
