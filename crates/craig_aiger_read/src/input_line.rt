//! The lines of the inputs.
ghost use Rattle.std.specs.Prelude.{◌≡◌, ◌≤◌, [], length, nat_eq, IfOk, false};
ghost use Rattle.std.specs.List.{list_any};
ghost use Rattle.craig_spec.specs.AigerReading.{input_of, numbers_in};
ghost use Rattle.craig_aiger_read.specs.ReadFaults.{IsReadAs};
ghost use Rattle.craig_aiger_read.specs.ReadLines.{inputs_at, lines_at};
ghost use Rattle.craig_aiger_read.specs.ReadViews.{as_counts, behind_constant};

use crate::AigerError;
use crate::counts::Counts;
use crate::line_numbers::numbers_of;
use crate::text_line::take_line;
use crate::variables::{is_new, is_variable};
use indexmap::IndexSet;
use std::alloc::Global;

/// Reads the lines of the inputs. The variables are the constant's and those of the inputs, in order.
pub(crate) fn read_inputs<'a>(
    alloc: Global,
    counts: &Counts,
    end: u64,
    text: &'a [u8],
) -> Result<(IndexSet<u64>, &'a [u8]), AigerError>
    requires { length text.now ≤ end }
    ensures read { IsReadAs (λ x. (x.0.keys, lines_at end x.1.now)) result (behind_constant (inputs_at counts.now end text.now)) }
    ensures shorter { IfOk result (λ x. length x.1.now ≤ length text.now) }
{
    let mut variables = IndexSet::new(alloc);
    variables.insert(0)?;
    let mut rest = text;
    for _ in 0..counts.inputs {
        let offset = end - rest.len() as u64;
        let (line, behind) = take_line(end, rest)?;
        let variable = input_of(counts, &variables, offset, line)?;
        variables.insert(variable)?;
        rest = behind;
    }
    Ok((variables, rest))
}

/// The variable of the input that a line is.
fn input_of(
    counts: &Counts,
    variables: &IndexSet<u64>,
    offset: u64,
    line: &[u8],
) -> Result<u64, AigerError>
    ensures read { IsReadAs (λ v. v) result (input_of (as_counts counts.now) variables.now.keys offset (numbers_in line.now)) }
    ensures new { IfOk result (λ v. list_any (nat_eq v) variables.now.keys ≡ false) }
{
    let Some(numbers) = numbers_of(line) else {
        return Err(AigerError::Line { place: offset });
    };
    match numbers.as_slice() {
        [literal] if !is_variable(counts, *literal) => Err(AigerError::Literal { place: offset }),
        [literal] if !is_new(variables, *literal) => Err(AigerError::Twice { place: offset }),
        [literal] => Ok(*literal / 2),
        _ => Err(AigerError::Line { place: offset }),
    }
}
