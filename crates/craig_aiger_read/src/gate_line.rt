//! The lines of the gates.
ghost use Rattle.std.specs.Prelude.{◌≡◌, ◌≤◌, ◌++◌, [], ◌∷◌, map, length, nat_eq, IfOk, false};
ghost use Rattle.std.specs.List.{list_any};
ghost use Rattle.craig_spec.specs.AigerReading.{gate_of, numbers_in};
ghost use Rattle.craig_aiger_read.specs.ReadFaults.{IsReadAs};
ghost use Rattle.craig_aiger_read.specs.ReadLines.{gates_at, lines_at};
ghost use Rattle.craig_aiger_read.specs.ReadViews.{as_counts, as_gate, gate_variables};

use crate::AigerError;
use crate::counts::Counts;
use crate::line_numbers::numbers_of;
use crate::text_line::take_line;
use crate::variables::{is_literal, is_new, is_variable};
use indexmap::IndexSet;
use std::alloc::Global;

/// A gate as its line has it.
#[derive(Clone, Copy, Drop)]
pub(crate) struct GateLine {
    /// The number of bytes before the line.
    pub offset: u64,
    /// The variable that is defined.
    pub variable: u64,
    /// The first operand literal.
    pub left: u64,
    /// The second operand literal.
    pub right: u64,
}

/// Reads the lines of the gates, and appends their variables.
pub(crate) fn read_gates<'a>(
    alloc: Global,
    counts: &Counts,
    end: u64,
    text: &'a [u8],
    variables: &mut IndexSet<u64>,
) -> Result<(Vec<GateLine>, &'a [u8]), AigerError>
    requires { length text.now ≤ end }
    ensures read { IsReadAs (λ x. (map as_gate x.0.items, lines_at end x.1.now)) result (gates_at counts.now variables.old.keys end text.now) }
    ensures variables { IfOk result (λ x. variables.new.keys ≡ variables.old.keys ++ gate_variables (map as_gate x.0.items)) }
    ensures shorter { IfOk result (λ x. length x.1.now ≤ length text.now) }
{
    let mut gates = Vec::new(alloc);
    let mut rest = text;
    for _ in 0..counts.gates {
        let offset = end - rest.len() as u64;
        let (line, behind) = take_line(end, rest)?;
        let gate = gate_of(counts, variables, offset, line)?;
        variables.insert(gate.variable)?;
        gates.push(gate)?;
        rest = behind;
    }
    Ok((gates, rest))
}

/// The gate that a line is.
fn gate_of(
    counts: &Counts,
    variables: &IndexSet<u64>,
    offset: u64,
    line: &[u8],
) -> Result<GateLine, AigerError>
    ensures read { IsReadAs as_gate result (gate_of (as_counts counts.now) variables.now.keys offset (numbers_in line.now)) }
    ensures new { IfOk result (λ g. list_any (nat_eq g.variable) variables.now.keys ≡ false) }
{
    let Some(numbers) = numbers_of(line) else {
        return Err(AigerError::Line { place: offset });
    };
    match numbers.as_slice() {
        [own, left, right] => gate_with(counts, variables, offset, *own, *left, *right),
        _ => Err(AigerError::Line { place: offset }),
    }
}

/// The gate of a literal.
fn gate_with(
    counts: &Counts,
    variables: &IndexSet<u64>,
    offset: u64,
    own: u64,
    left: u64,
    right: u64,
) -> Result<GateLine, AigerError>
    ensures read { IsReadAs as_gate result (gate_of (as_counts counts.now) variables.now.keys offset (Some (own ∷ (left ∷ (right ∷ []))))) }
    ensures new { IfOk result (λ g. list_any (nat_eq g.variable) variables.now.keys ≡ false) }
{
    if !is_variable(counts, own) || !is_literal(counts, left) || !is_literal(counts, right) {
        return Err(AigerError::Literal { place: offset });
    }
    if !is_new(variables, own) {
        return Err(AigerError::Twice { place: offset });
    }
    Ok(GateLine {
        offset,
        variable: own / 2,
        left,
        right,
    })
}
