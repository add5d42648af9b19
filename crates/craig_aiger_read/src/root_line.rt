//! The lines of the outputs, and those of the bad literals.
ghost use Rattle.std.specs.Prelude.{◌≡◌, ◌-◌, ◌≤◌, [], drop, map, length, IfOk};
ghost use Rattle.craig_spec.specs.AigerReading.{root_of, numbers_in};
ghost use Rattle.craig_aiger_read.specs.ReadFaults.{IsReadAs};
ghost use Rattle.craig_aiger_read.specs.ReadLines.{lines_at, roots_at};
ghost use Rattle.craig_aiger_read.specs.ReadViews.{as_counts, as_root};

use crate::AigerError;
use crate::counts::Counts;
use crate::line_numbers::numbers_of;
use crate::text_line::take_line;
use crate::variables::is_literal;
use std::alloc::Global;

/// An output or a bad literal as its line has it.
#[derive(Clone, Copy, Drop)]
pub(crate) struct RootLine {
    /// The number of bytes before the line.
    pub offset: u64,
    /// The literal.
    pub literal: u64,
}

/// Reads so many lines of outputs or bad literals.
pub(crate) fn read_roots<'a>(
    alloc: Global,
    counts: &Counts,
    count: u64,
    end: u64,
    text: &'a [u8],
) -> Result<(Vec<RootLine>, &'a [u8]), AigerError>
    requires { length text.now ≤ end }
    ensures read { IsReadAs (λ x. (map as_root x.0.items, lines_at end x.1.now)) result (roots_at counts.now count end text.now) }
    ensures shorter { IfOk result (λ x. length x.1.now ≤ length text.now) }
    ensures last { IfOk result (λ x. x.1.now ≡ drop (length text.now - length x.1.now) text.now) }
{
    let mut roots = Vec::new(alloc);
    let mut rest = text;
    for _ in 0..count {
        let offset = end - rest.len() as u64;
        let (line, behind) = take_line(end, rest)?;
        let root = root_of(counts, offset, line)?;
        roots.push(root)?;
        rest = behind;
    }
    Ok((roots, rest))
}

/// The output or bad literal that a line is.
fn root_of(counts: &Counts, offset: u64, line: &[u8]) -> Result<RootLine, AigerError>
    ensures { IsReadAs as_root result (root_of (as_counts counts.now) offset (numbers_in line.now)) }
{
    let Some(numbers) = numbers_of(line) else {
        return Err(AigerError::Line { place: offset });
    };
    match numbers.as_slice() {
        [literal] if !is_literal(counts, *literal) => Err(AigerError::Literal { place: offset }),
        [literal] => Ok(RootLine {
            offset,
            literal: *literal,
        }),
        _ => Err(AigerError::Line { place: offset }),
    }
}
