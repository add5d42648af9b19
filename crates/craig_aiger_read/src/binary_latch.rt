//! The lines of the latches of a binary text.
ghost use Rattle.std.specs.Prelude.{◌≡◌, ◌≤◌, ◌-◌, drop, length, map, IfOk};
ghost use Rattle.craig_spec.specs.AigerReading.{numbers_in};
ghost use Rattle.craig_spec.specs.AigerBinary.{binary_latch_of, binary_latch_with};
ghost use Rattle.craig_aiger_read.specs.ReadFaults.{IsReadAs};
ghost use Rattle.craig_aiger_read.specs.ReadLines.{binary_latches_at, lines_at};
ghost use Rattle.craig_aiger_read.specs.ReadViews.{as_counts, as_latch};

use crate::AigerError;
use crate::counts::Counts;
use crate::latch_line::{LatchLine, reset_of};
use crate::line_numbers::numbers_of;
use crate::text_line::take_line;
use crate::variables::is_literal;
use std::alloc::Global;

/// Reads the lines of the latches.
pub(crate) fn read_binary_latches<'a>(
    alloc: Global,
    counts: &Counts,
    end: u64,
    text: &'a [u8],
) -> Result<(Vec<LatchLine>, &'a [u8]), AigerError>
    requires { length text.now ≤ end }
    ensures read { IsReadAs (λ x. (map as_latch x.0.items, lines_at end x.1.now)) result (binary_latches_at counts.now end text.now) }
    ensures shorter { IfOk result (λ x. length x.1.now ≤ length text.now) }
    ensures last { IfOk result (λ x. x.1.now ≡ drop (length text.now - length x.1.now) text.now) }
{
    let mut latches = Vec::new(alloc);
    let mut rest = text;
    let mut variable = 1 + counts.inputs;
    for _ in 0..counts.latches {
        let offset = end - rest.len() as u64;
        let (line, behind) = take_line(end, rest)?;
        let latch = latch_of(counts, variable, offset, line)?;
        latches.push(latch)?;
        variable += 1;
        rest = behind;
    }
    Ok((latches, rest))
}

/// The latch with a variable that a line is.
fn latch_of(
    counts: &Counts,
    variable: u64,
    offset: u64,
    line: &[u8],
) -> Result<LatchLine, AigerError>
    requires { variable ≤ counts.now.greatest }
    ensures { IsReadAs as_latch result (binary_latch_of (as_counts counts.now) variable offset (numbers_in line.now)) }
{
    let Some(numbers) = numbers_of(line) else {
        return Err(AigerError::Line { place: offset });
    };
    match numbers.as_slice() {
        [next] => latch_with(counts, variable, offset, *next, 0),
        [next, reset] => latch_with(counts, variable, offset, *next, *reset),
        _ => Err(AigerError::Line { place: offset }),
    }
}

/// The latch with a variable.
fn latch_with(
    counts: &Counts,
    variable: u64,
    offset: u64,
    next: u64,
    reset: u64,
) -> Result<LatchLine, AigerError>
    requires { variable ≤ counts.now.greatest }
    ensures { IsReadAs as_latch result (binary_latch_with (as_counts counts.now) variable offset next reset) }
{
    if !is_literal(counts, next) {
        return Err(AigerError::Literal { place: offset });
    }
    let reset = reset_of(offset, 2 * variable, reset)?;
    Ok(LatchLine {
        offset,
        variable,
        next,
        reset,
    })
}
