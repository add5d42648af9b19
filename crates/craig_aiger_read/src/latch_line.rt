//! The lines of the latches.
ghost use Rattle.std.specs.Prelude.{◌≡◌, ◌≤◌, ◌++◌, [], map, length, nat_eq, IfOk, false};
ghost use Rattle.std.specs.List.{list_any};
ghost use Rattle.craig_spec.specs.AigerReading.{latch_of, latch_with, numbers_in, reset_of};
ghost use Rattle.craig_aiger_read.specs.ReadFaults.{IsReadAs};
ghost use Rattle.craig_aiger_read.specs.ReadLines.{latches_at, lines_at};
ghost use Rattle.craig_aiger_read.specs.ReadViews.{as_counts, as_latch, as_reset, latch_variables};

use crate::counts::Counts;
use crate::line_numbers::numbers_of;
use crate::text_line::take_line;
use crate::variables::{is_literal, is_new, is_variable};
use crate::{AigerError, Reset};
use indexmap::IndexSet;
use std::alloc::Global;

/// A latch as its line has it.
#[derive(Clone, Copy, Drop)]
pub(crate) struct LatchLine {
    /// The number of bytes before the line.
    pub offset: u64,
    /// The variable that is defined.
    pub variable: u64,
    /// The next literal.
    pub next: u64,
    /// How the latch starts.
    pub reset: Reset,
}

/// Reads the lines of the latches, and appends their variables.
pub(crate) fn read_latches<'a>(
    alloc: Global,
    counts: &Counts,
    end: u64,
    text: &'a [u8],
    variables: &mut IndexSet<u64>,
) -> Result<(Vec<LatchLine>, &'a [u8]), AigerError>
    requires { length text.now ≤ end }
    ensures read { IsReadAs (λ x. (map as_latch x.0.items, lines_at end x.1.now)) result (latches_at counts.now variables.old.keys end text.now) }
    ensures variables { IfOk result (λ x. variables.new.keys ≡ variables.old.keys ++ latch_variables (map as_latch x.0.items)) }
    ensures shorter { IfOk result (λ x. length x.1.now ≤ length text.now) }
{
    let mut latches = Vec::new(alloc);
    let mut rest = text;
    for _ in 0..counts.latches {
        let offset = end - rest.len() as u64;
        let (line, behind) = take_line(end, rest)?;
        let latch = latch_of(counts, variables, offset, line)?;
        variables.insert(latch.variable)?;
        latches.push(latch)?;
        rest = behind;
    }
    Ok((latches, rest))
}

/// The latch that a line is.
fn latch_of(
    counts: &Counts,
    variables: &IndexSet<u64>,
    offset: u64,
    line: &[u8],
) -> Result<LatchLine, AigerError>
    ensures read { IsReadAs as_latch result (latch_of (as_counts counts.now) variables.now.keys offset (numbers_in line.now)) }
    ensures new { IfOk result (λ l. list_any (nat_eq l.variable) variables.now.keys ≡ false) }
{
    let Some(numbers) = numbers_of(line) else {
        return Err(AigerError::Line { place: offset });
    };
    match numbers.as_slice() {
        [own, next] => latch_with(counts, variables, offset, *own, *next, 0),
        [own, next, reset] => latch_with(counts, variables, offset, *own, *next, *reset),
        _ => Err(AigerError::Line { place: offset }),
    }
}

/// The latch of a literal.
fn latch_with(
    counts: &Counts,
    variables: &IndexSet<u64>,
    offset: u64,
    own: u64,
    next: u64,
    reset: u64,
) -> Result<LatchLine, AigerError>
    ensures read { IsReadAs as_latch result (latch_with (as_counts counts.now) variables.now.keys offset own next reset) }
    ensures new { IfOk result (λ l. list_any (nat_eq l.variable) variables.now.keys ≡ false) }
{
    if !is_variable(counts, own) || !is_literal(counts, next) {
        return Err(AigerError::Literal { place: offset });
    }
    if !is_new(variables, own) {
        return Err(AigerError::Twice { place: offset });
    }
    let reset = reset_of(offset, own, reset)?;
    Ok(LatchLine {
        offset,
        variable: own / 2,
        next,
        reset,
    })
}

/// How the latch of a literal starts, by the last number of its line.
pub(crate) fn reset_of(offset: u64, own: u64, number: u64) -> Result<Reset, AigerError>
    ensures { IsReadAs as_reset result (reset_of offset own number) }
{
    if number == 0 {
        Ok(Reset::Zero)
    } else if number == 1 {
        Ok(Reset::One)
    } else if number == own {
        Ok(Reset::Open)
    } else {
        Err(AigerError::Reset { place: offset })
    }
}
